//! Table files of the former format: opened, and all codes loaded.
ghost use Rattle.std.specs.Prelude.{◌≡◌, ◌+◌, ◌*◌, ◌≤◌, length, IfOk, IfErr, IfSome, Ok, Err};
ghost use Rattle.std.specs.Result.{IsErrOf};
ghost use Rattle.frz_asks.specs.Runs.{Run, end_of};
ghost use Rattle.frz_board.specs.declared.man.Colour.TheVariants.{White, Black};
ghost use Rattle.frz_index.specs.OldNumbers.{old_size_of};
ghost use Rattle.frz_rules.specs.Text.{rules_of};
ghost use Rattle.frz_sets.specs.Sound.{IsSound};
ghost use Rattle.frz_store.specs.Files.{bytes_at};
ghost use Rattle.frz_store.specs.Told.{store_of, StoreQuiet};
ghost use Rattle.frz_table.specs.declared.fault.TableFault.TheVariants.{NoMemory};
ghost use Rattle.frz_table.specs.Asking.{loading, opening};
ghost use Rattle.frz_table.specs.Faults.{IsOutside, TableCauses, stop_of};
ghost use Rattle.frz_table.specs.Layout.{codes_at, pieces_of};
ghost use Rattle.frz_table.specs.Memory.{MemoryWanted};
ghost use Rattle.frz_former.specs.OldFiles.{CarriesOld, MayKeepOld, limited, old_contents_of, old_format, old_magic, old_table_size};
ghost use Rattle.frz_table.specs.Opening.{Refuses, kept_text, opened};
ghost use Rattle.frz_table.specs.Possible.{MayOpen, MayRefuse};
ghost use Rattle.frz_index.specs.declared.old.TheConstants.{MOST_OLD_NUMBERS};

use frz_index::{MOST_OLD_NUMBERS, old_size};
use frz_rules::{Rules, RulesCause, RulesFault};
use frz_store::Store;
use frz_table::{TableFault, check_size, load_codes, open_text};
use std::alloc::Global;
use std::marker::Model;

/// A table file of the former format that was opened.
pub struct OldFile {
    name: String,
    text: Vec<u8>,
    rules: Rules,
}

impl Drop for OldFile {
    fn drop(self) {
        let OldFile {
            name: _,
            text: _,
            rules: _,
        } = self;
    }
}

impl Model for OldFile {
    ghost use Rattle.std.specs.String.{string_bytes};
    ghost use Rattle.frz_former.specs.OldFiles.{IsOldRead, OldTable};

    ghost Value = { OldTable };

    ghost view = { λ t.
        record { name = string_bytes t.name; text = t.text.items; rules = t.rules } };

    ghost invariant = { λ t. IsOldRead t.text.items t.rules };
}

/// The eight bytes with which files of the former format begin.
fn magic() -> &'static [u8; 8]
    ensures { result.now ≡ old_magic }
{
    b"FREEZER1"
}

/// How many numbers the set of the rules has in the former format, or the fault that they are too
/// many.
fn limited_size(rules: &Rules) -> Result<u32, RulesFault>
    requires { IsSound rules.now }
    ensures size { IfOk result (λ size. size ≡ old_size_of rules.now.groups) }
    ensures few { IfOk result (λ size. size ≤ MOST_OLD_NUMBERS) }
    ensures refused { IfErr result (λ fault. limited rules.now ≡ Err fault) }
{
    let size = old_size(rules);
    if size > u64::from(MOST_OLD_NUMBERS) {
        let cause = RulesCause::SetTooBig(size);
        return Err(RulesFault { line: 0, cause });
    }
    Ok(size as u32)
}

/// The steps of opening a table file of the former format.
fn open_steps<S: Store>(alloc: Global, store: &mut S, name: &str) -> Result<OldFile, TableFault>
    ensures run { Run (opening old_format name.now) (end_of stop_of old_contents_of result)
        (store_of S.Store store.old) (store_of S.Store store.new) }
    ensures name { IfOk result (λ t. t.name ≡ name.now) }
{
    let opened = open_text(alloc, store, name, Some(*magic()))?;
    let size = match limited_size(&opened.rules) {
        Ok(size) => size,
        Err(fault) => return Err(TableFault::Rules(fault)),
    };
    check_size(store, name, &opened, size)?;
    let name = String::from_str(alloc, name)?;
    Ok(OldFile {
        name,
        text: opened.text,
        rules: opened.rules,
    })
}

/// Opens a table file of the former format. The file is not changed. An error of the file is the
/// first thing that is wrong with it. A set that has more than 2^24 numbers in that format is
/// refused as too big, after all that the reader of rules refuses.
pub fn open_old<S: Store>(alloc: Global, store: &mut S, name: &str) -> Result<OldFile, TableFault>
    ensures run { Run (opening old_format name.now) (end_of stop_of old_contents_of result)
        (store_of S.Store store.old) (store_of S.Store store.new) }
    ensures opened { IfOk result (λ t. IfSome (S.files store.old)
        (λ m. opened old_format (m name.now) ≡ Ok (old_contents_of t))) }
    ensures refused { IfErr result (λ f. IfSome (S.files store.old)
        (λ m. Refuses (opened old_format (m name.now)) f)) }
    ensures may_open { IfOk result
        (λ t. MayOpen old_format (S.files store.old) name.now (old_contents_of t)) }
    ensures may_refuse { IfErr result (MayRefuse old_format name.now
        (store_of S.Store store.old) (store_of S.Store store.new)) }
    ensures name { IfOk result (λ t. t.name ≡ name.now) }
    ensures carries { IfOk result (CarriesOld (S.files store.new)) }

    // Nothing is written; at most 16 bytes and the text are asked for, in at most five calls.
    ensures quiet { StoreQuiet (store_of S.Store store.old) (store_of S.Store store.new) }
    ensures asked { IfOk result
        (λ t. S.asked store.new ≤ S.asked store.old + (16 + length t.text)) }
    ensures asked_told { IfSome (S.files store.old) (λ m. S.asked store.new
        ≤ S.asked store.old + (16 + length (kept_text (bytes_at m name.now)))) }
    ensures asked_bound { S.asked store.new ≤ S.asked store.old + (16 + 65536) }
    ensures calls { S.calls store.new ≤ S.calls store.old + 5 }
    ensures causes { TableCauses (S.faults store.old) (S.faults store.new)
        (S.wants store.old) (S.wants store.new) result }
    ensures memory { IsErrOf result NoMemory → MemoryWanted old_magic (S.files store.old) name.now
        (S.wants store.old) (S.wants store.new) }
{
    open_steps(alloc, store, name)
}

impl OldFile {
    /// The name of the file.
    pub fn name(&self) -> &str
        ensures { result.now ≡ self.now.name }
    {
        self.name.as_str()
    }

    /// The rules text in the file.
    pub fn text(&self) -> &[u8]
        ensures { result.now ≡ self.now.text }
    {
        self.text.as_slice()
    }

    /// The rules that the text gives.
    pub fn rules(&self) -> &Rules
        ensures rules { result.now ≡ self.now.rules }
        ensures read { rules_of self.now.text ≡ Ok self.now.rules }
        ensures sound { IsSound self.now.rules }
        ensures few { old_table_size self.now ≤ MOST_OLD_NUMBERS }
    {
        &self.rules
    }

    /// How many numbers the set of the rules has in the former format.
    fn size(&self) -> u32
        ensures size { result ≡ old_table_size self.now }
        ensures few { result ≤ MOST_OLD_NUMBERS }
    {
        old_size(&self.rules) as u32
    }

    /// Reads all codes: White's and Black's, each in order of number.
    pub fn load<S: Store>(
        &self,
        alloc: Global,
        store: &mut S,
    ) -> Result<(Vec<u32>, Vec<u32>), TableFault>
        requires { CarriesOld (S.files store.old) self.now }
        ensures run { Run (loading self.now.name self.now.text (old_table_size self.now))
            (end_of stop_of (λ lists. (lists.0.items, lists.1.items)) result)
            (store_of S.Store store.old) (store_of S.Store store.new) }
        ensures white { IfOk result
            (λ lists. IfSome (S.files store.old) (λ m. IfSome (m self.now.name)
            (λ bytes. lists.0.items ≡ codes_at White self.now.text (old_table_size self.now)
            bytes))) }
        ensures black { IfOk result
            (λ lists. IfSome (S.files store.old) (λ m. IfSome (m self.now.name)
            (λ bytes. lists.1.items ≡ codes_at Black self.now.text (old_table_size self.now)
            bytes))) }
        ensures may_keep { IfOk result
            (λ lists. MayKeepOld (S.files store.old) self.now lists.0.items lists.1.items) }
        ensures white_size { IfOk result (λ lists. length lists.0.items ≡ old_table_size self.now) }
        ensures black_size { IfOk result (λ lists. length lists.1.items ≡ old_table_size self.now) }
        ensures quiet { StoreQuiet (store_of S.Store store.old) (store_of S.Store store.new) }
        ensures asked { S.asked store.new ≤ S.asked store.old + 8 * old_table_size self.now }
        ensures calls { S.calls store.new ≤ S.calls store.old + 2 * pieces_of
            (old_table_size self.now) }
        ensures outside { IfErr result IsOutside }
        ensures causes { TableCauses (S.faults store.old) (S.faults store.new)
            (S.wants store.old) (S.wants store.new) result }
    {
        load_codes(alloc, store, &self.name, &self.text, self.size())
    }
}
