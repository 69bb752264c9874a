//! Opens a table file as the kind that its first bytes tell: one that leans on others, or a plain
//! one.
ghost use Rattle.std.specs.Prelude.{◌≡◌, ◌+◌, ◌≤◌, length, IfOk, IfErr};
ghost use Rattle.frz_asks.specs.Runs.{Run, end_of};
ghost use Rattle.frz_store.specs.Told.{store_of, StoreQuiet};
ghost use Rattle.frz_table.specs.Asking.{opening};
ghost use Rattle.frz_table.specs.Faults.{stop_of};
ghost use Rattle.frz_table.specs.Opening.{contents_of, own_format};
ghost use Rattle.frz_table.specs.Tables.{Carries};
ghost use Rattle.frz_atlas.specs.Causes.{HasFileCause};
ghost use Rattle.frz_atlas.specs.Opening.{IsOwnKind, MayOpenOwn, MayRefuseOwn};

use frz_store::Store;
use frz_table::{TableFault, TableFile};
use std::alloc::Global;

/// Opens the file of this name as the kind that its first bytes tell. It asks for at most 24 bytes
/// and the text, in at most seven calls.
pub fn open_own<S: Store>(alloc: Global, store: &mut S, name: &str) -> Result<TableFile, TableFault>
    ensures run { Run (opening own_format name.now) (end_of stop_of contents_of result)
        (store_of S.Store store.old) (store_of S.Store store.new) }
    ensures opened { IfOk result
        (λ t. MayOpenOwn (S.files store.old) name.now (contents_of t)) }
    ensures refused { IfErr result (MayRefuseOwn name.now
        (store_of S.Store store.old) (store_of S.Store store.new)) }
    ensures name { IfOk result (λ t. t.name ≡ name.now) }
    ensures kind { IfOk result (λ t. IsOwnKind t.kind) }
    ensures carries { IfOk result (Carries (S.files store.new)) }
    ensures quiet { StoreQuiet (store_of S.Store store.old) (store_of S.Store store.new) }
    ensures asked { IfOk result
        (λ t. S.asked store.new ≤ S.asked store.old + (24 + length t.text)) }
    ensures calls { S.calls store.new ≤ S.calls store.old + 7 }
    ensures cause { HasFileCause result (store_of S.Store store.old) (store_of S.Store store.new) }
{
    frz_table::open_own(alloc, store, name)
}
