//! The codes that a table file holds at a position, read without loading the table.
ghost use Rattle.std.specs.Prelude.{◌≡◌, ◌+◌, ◌≤◌, length, IfErr, IfOk};
ghost use Rattle.frz_fide.specs.Valid.{IsValid};
ghost use Rattle.frz_index.specs.Members.{Member};
ghost use Rattle.frz_store.specs.Told.{store_of, StoreQuiet};
ghost use Rattle.frz_table.specs.Faults.{TableCauses};
ghost use Rattle.frz_table.specs.Opening.{contents_of, format_for};
ghost use Rattle.frz_table.specs.Possible.{MayOpen, MayRefuse};
ghost use Rattle.frz_table.specs.Tables.{Carries};
ghost use Rattle.frz_prelude.specs.Stops.{HasItsCause};
ghost use Rattle.frz_commands_ask.specs.Kept.{IsKept, IsKeptIn};

use frz_board::{Colour, Position};
use frz_prelude::{Stop, number_in};
use frz_store::Store;
use frz_table::{FileKind, TableFault, TableFile, open_kind, open_own};
use std::alloc::Global;

/// The codes of both sides at one number of a table.
#[derive(Clone, Copy)]
pub struct KeptCodes {
    pub white: u32,
    pub black: u32,
}

/// The codes of an open table at the number of the position, in two reads. A position outside the
/// set is refused without a read.
fn codes_in<S: Store>(table: &TableFile, p: &Position, store: &mut S) -> Result<KeptCodes, Stop>
    requires valid { IsValid p.now }
    requires carried { Carries (S.files store.old) table.now }
    ensures kept { IsKeptIn table.now p.now (S.files store.old) result }
    ensures quiet { StoreQuiet (store_of S.Store store.old) (store_of S.Store store.new) }
    ensures cause { HasItsCause result (store_of S.Store store.old) (store_of S.Store store.new) }
    ensures asked { S.asked store.new ≤ S.asked store.old + 8 }
    ensures calls { S.calls store.new ≤ S.calls store.old + 2 }
    ensures unread { (Member table.now.rules.groups p.now → ⊥)
        → S.calls store.new ≡ S.calls store.old }
    ensures unasked { (Member table.now.rules.groups p.now → ⊥)
        → S.asked store.new ≡ S.asked store.old }
{
    let i = number_in(table.set(), p)?;
    let white = table.entry(store, Colour::White, i)?;
    let black = table.entry(store, Colour::Black, i)?;
    Ok(KeptCodes { white, black })
}

/// Opens the table file of this name and kind, or with `None` of the kind as which it begins.
fn open_asked<S: Store>(
    alloc: Global,
    store: &mut S,
    name: &str,
    kind: Option<FileKind>,
) -> Result<TableFile, TableFault>
    ensures may_open { IfOk result
        (λ t. MayOpen (format_for kind) (S.files store.old) name.now (contents_of t)) }
    ensures may_refuse { IfErr result (MayRefuse (format_for kind) name.now
        (store_of S.Store store.old) (store_of S.Store store.new)) }
    ensures name { IfOk result (λ t. t.name ≡ name.now) }
    ensures carries { IfOk result (Carries (S.files store.new)) }
    ensures quiet { StoreQuiet (store_of S.Store store.old) (store_of S.Store store.new) }
    ensures asked { IfOk result
        (λ t. S.asked store.new ≤ S.asked store.old + (16 + length t.text)) }
    ensures calls { S.calls store.new ≤ S.calls store.old + 5 }
    ensures causes { TableCauses (S.faults store.old) (S.faults store.new)
        (S.wants store.old) (S.wants store.new) result }
{
    match kind {
        Some(kind) => open_kind(alloc, store, name, kind),
        None => open_own(alloc, store, name),
    }
}

/// Opens the table file of this name as `open_asked` does, and reads the codes of both sides at the position. A
/// position outside its set is refused.
pub fn kept_codes_at<S: Store>(
    alloc: Global,
    name: &str,
    kind: Option<FileKind>,
    p: &Position,
    store: &mut S,
) -> Result<KeptCodes, Stop>
    requires { IsValid p.now }
    ensures kept { IsKept kind p.now name.now result
        (store_of S.Store store.old) (store_of S.Store store.new) }
    ensures quiet { StoreQuiet (store_of S.Store store.old) (store_of S.Store store.new) }
    ensures cause { HasItsCause result (store_of S.Store store.old) (store_of S.Store store.new) }
{
    match open_asked(alloc, store, name, kind) {
        Ok(table) => codes_in(&table, p, store),
        Err(fault) => Err(Stop::from(fault)),
    }
}
