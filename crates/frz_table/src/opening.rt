//! Opening a table file, step by step.
ghost use Rattle.std.specs.Prelude.{◌≡◌, ◌+◌, ◌≤◌, length, IfOk, IfErr, IfSome, None, Ok};
ghost use Rattle.std.specs.Result.{IsErrOf};
ghost use Rattle.frz_asks.specs.Runs.{Run, end_of};
ghost use Rattle.frz_store.specs.Files.{bytes_at};
ghost use Rattle.frz_store.specs.Told.{store_of, StoreQuiet};
ghost use Rattle.frz_table.specs.declared.kind.FileKind.TheVariants.{Plain};
ghost use Rattle.frz_table.specs.declared.fault.TableFault.TheVariants.{NoMemory};
ghost use Rattle.frz_table.specs.Asking.{opening};
ghost use Rattle.frz_table.specs.Faults.{TableCauses, stop_of};
ghost use Rattle.frz_table.specs.Layout.{magic_of};
ghost use Rattle.frz_table.specs.Memory.{MemoryWanted};
ghost use Rattle.frz_table.specs.Opening.{IsOfKind, Refuses, contents_of, format_for, opened, own_format, kept_text, table_format};
ghost use Rattle.frz_table.specs.Possible.{MayOpen, MayRefuse};
ghost use Rattle.frz_table.specs.Tables.{Carries};

use crate::kind::magic_for;
use crate::sizes::check_size;
use crate::texts::open_text;
use crate::{FileKind, TableFault, TableFile};
use frz_index::Set;
use frz_store::Store;
use std::alloc::Global;

/// The steps of opening a table file of this kind, or, where none is given, of the kind as which it
/// begins.
fn open_steps<S: Store>(
    alloc: Global,
    store: &mut S,
    name: &str,
    kind: Option<FileKind>,
) -> Result<TableFile, TableFault>
    ensures run { Run (opening (format_for kind) name.now) (end_of stop_of contents_of result)
        (store_of S.Store store.old) (store_of S.Store store.new) }
    ensures name { IfOk result (λ t. t.name ≡ name.now) }
    ensures kind { IfOk result (λ t. IsOfKind (S.files store.old) name.now kind t.kind) }
{
    let opened = open_text(alloc, store, name, magic_for(kind))?;
    let set = Set::new(alloc, &opened.rules)?;
    check_size(store, name, &opened, set.size())?;
    let name = String::from_str(alloc, name)?;
    Ok(TableFile {
        name,
        kind: FileKind::of(kind, &opened.magic),
        text: opened.text,
        rules: opened.rules,
        set,
    })
}

/// Opens a table file of this kind. The file is not changed. An error of the file is the first
/// thing that is wrong with it.
pub fn open_kind<S: Store>(
    alloc: Global,
    store: &mut S,
    name: &str,
    kind: FileKind,
) -> Result<TableFile, TableFault>
    ensures run { Run (opening (table_format kind) name.now) (end_of stop_of contents_of result)
        (store_of S.Store store.old) (store_of S.Store store.new) }
    ensures opened { IfOk result (λ t. IfSome (S.files store.old)
        (λ m. opened (table_format kind) (m name.now) ≡ Ok (contents_of t))) }
    ensures refused { IfErr result (λ f. IfSome (S.files store.old)
        (λ m. Refuses (opened (table_format kind) (m name.now)) f)) }
    ensures may_open { IfOk result
        (λ t. MayOpen (table_format kind) (S.files store.old) name.now (contents_of t)) }
    ensures may_refuse { IfErr result (MayRefuse (table_format kind) name.now
        (store_of S.Store store.old) (store_of S.Store store.new)) }
    ensures name { IfOk result (λ t. t.name ≡ name.now) }
    ensures kind { IfOk result (λ t. t.kind ≡ kind) }
    ensures carries { IfOk result (Carries (S.files store.new)) }

    // Nothing is written; at most 16 bytes and the text are asked for, in at most five calls.
    ensures quiet { StoreQuiet (store_of S.Store store.old) (store_of S.Store store.new) }
    ensures asked { IfOk result
        (λ t. S.asked store.new ≤ S.asked store.old + (16 + length t.text)) }
    ensures asked_told { IfSome (S.files store.old) (λ m. S.asked store.new
        ≤ S.asked store.old + (16 + length (kept_text (bytes_at m name.now)))) }
    ensures asked_bound { S.asked store.new ≤ S.asked store.old + (16 + 65536) }
    ensures calls { S.calls store.new ≤ S.calls store.old + 5 }
    ensures causes { TableCauses (S.faults store.old) (S.faults store.new)
        (S.wants store.old) (S.wants store.new) result }
    ensures memory { IsErrOf result NoMemory
        → MemoryWanted (magic_of kind) (S.files store.old) name.now
        (S.wants store.old) (S.wants store.new) }
{
    open_steps(alloc, store, name, Some(kind))
}

/// Opens a table file as the kind as which it begins: `Atlas` where it begins as a table that leans
/// on others, and else `Plain`. A file that another program or another time made is refused as what
/// it is. The file is not changed.
pub fn open_own<S: Store>(alloc: Global, store: &mut S, name: &str) -> Result<TableFile, TableFault>
    ensures run { Run (opening own_format name.now) (end_of stop_of contents_of result)
        (store_of S.Store store.old) (store_of S.Store store.new) }
    ensures may_open { IfOk result
        (λ t. MayOpen own_format (S.files store.old) name.now (contents_of t)) }
    ensures may_refuse { IfErr result (MayRefuse own_format name.now
        (store_of S.Store store.old) (store_of S.Store store.new)) }
    ensures name { IfOk result (λ t. t.name ≡ name.now) }
    ensures kind { IfOk result (λ t. IsOfKind (S.files store.old) name.now None t.kind) }
    ensures carries { IfOk result (Carries (S.files store.new)) }
    ensures quiet { StoreQuiet (store_of S.Store store.old) (store_of S.Store store.new) }
    ensures asked { IfOk result
        (λ t. S.asked store.new ≤ S.asked store.old + (16 + length t.text)) }
    ensures calls { S.calls store.new ≤ S.calls store.old + 5 }
    ensures causes { TableCauses (S.faults store.old) (S.faults store.new)
        (S.wants store.old) (S.wants store.new) result }
{
    open_steps(alloc, store, name, None)
}

/// Opens a plain table file, as `open_kind` does.
pub fn open_table<S: Store>(
    alloc: Global,
    store: &mut S,
    name: &str,
) -> Result<TableFile, TableFault>
    ensures run { Run (opening (table_format Plain) name.now) (end_of stop_of contents_of result)
        (store_of S.Store store.old) (store_of S.Store store.new) }
    ensures opened { IfOk result (λ t. IfSome (S.files store.old)
        (λ m. opened (table_format Plain) (m name.now) ≡ Ok (contents_of t))) }
    ensures refused { IfErr result (λ f. IfSome (S.files store.old)
        (λ m. Refuses (opened (table_format Plain) (m name.now)) f)) }
    ensures may_open { IfOk result
        (λ t. MayOpen (table_format Plain) (S.files store.old) name.now (contents_of t)) }
    ensures may_refuse { IfErr result (MayRefuse (table_format Plain) name.now
        (store_of S.Store store.old) (store_of S.Store store.new)) }
    ensures name { IfOk result (λ t. t.name ≡ name.now) }
    ensures kind { IfOk result (λ t. t.kind ≡ Plain) }
    ensures carries { IfOk result (Carries (S.files store.new)) }
    ensures quiet { StoreQuiet (store_of S.Store store.old) (store_of S.Store store.new) }
    ensures asked { IfOk result
        (λ t. S.asked store.new ≤ S.asked store.old + (16 + length t.text)) }
    ensures asked_told { IfSome (S.files store.old) (λ m. S.asked store.new
        ≤ S.asked store.old + (16 + length (kept_text (bytes_at m name.now)))) }
    ensures asked_bound { S.asked store.new ≤ S.asked store.old + (16 + 65536) }
    ensures calls { S.calls store.new ≤ S.calls store.old + 5 }
    ensures causes { TableCauses (S.faults store.old) (S.faults store.new)
        (S.wants store.old) (S.wants store.new) result }
    ensures memory { IsErrOf result NoMemory
        → MemoryWanted (magic_of Plain) (S.files store.old) name.now
        (S.wants store.old) (S.wants store.new) }
{
    open_kind(alloc, store, name, FileKind::Plain)
}
