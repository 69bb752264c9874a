//! The codes of an open table, loaded and checked by planes.
ghost use Rattle.std.specs.Prelude.{◌≡◌, ◌≤◌, ◌+◌, ◌*◌, length, IfOk, IfErr, OnErr};
ghost use Rattle.frz_game.specs.EntryCodes.{of_side};
ghost use Rattle.frz_store.specs.Told.{store_of, StoreQuiet};
ghost use Rattle.frz_table.specs.Faults.{IsOutside, TableCauses};
ghost use Rattle.frz_table.specs.Layout.{pieces_of};
ghost use Rattle.frz_table.specs.Possible.{MayKeep};
ghost use Rattle.frz_table.specs.Tables.{Carries, table_size};
ghost use Rattle.frz_check.specs.Kept.{ChecksTable};
ghost use Rattle.frz_check.specs.Verdicts.{IsVerdict};

use crate::judge;
use frz_check::laws::tables;
use frz_check::{CheckedCodes, ExitBook, Game, Pair, Verdict};
use frz_steps::Steps;
use frz_store::Store;
use frz_table::{TableFault, TableFile};
use std::alloc::Global;
use std::sync::ledger::Ledger;

/// Loads the codes of an open table and checks them by planes, as [`frz_check::load_checked`] does
/// number by number: the verdict and the calls of the store are the same.
pub fn load_checked_by_planes<B: ExitBook, S: Store, L: Ledger>(
    alloc: Global,
    table: &TableFile,
    store: &mut S,
    book: &B,
    steps: &mut Steps<L>,
) -> Result<CheckedCodes, TableFault>
    requires { Carries (S.files store.old) table.now }
    ensures kept { IfOk result
        (λ l. MayKeep (S.files store.old) table.now l.white.items l.black.items) }
    ensures verdict { IfOk result (λ l. IsVerdict table.now.rules (B.value_at book.now)
        (λ side. of_side side l.white.items l.black.items) l.verdict) }
    ensures checks { IfOk result (λ l. ChecksTable (S.files store.old) table.now
        (B.value_at book.now) l.verdict) }
    ensures white_many { IfOk result (λ l. length l.white.items ≡ table_size table.now) }
    ensures black_many { IfOk result (λ l. length l.black.items ≡ table_size table.now) }
    ensures outside { IfErr result IsOutside }
    ensures quiet { StoreQuiet (store_of S.Store store.old) (store_of S.Store store.new) }
    ensures asked { S.asked store.new ≤ S.asked store.old + 8 * table_size table.now }
    ensures calls { S.calls store.new ≤ S.calls store.old + 2 * pieces_of (table_size table.now) }
    ensures steps { steps.new ≤ steps.old + table_size table.now }
    ensures later { steps.old ≤ steps.new }
    ensures no_step { OnErr result (steps.new ≡ steps.old) }
    ensures causes { TableCauses (S.faults store.old) (S.faults store.new)
        (S.wants store.old) (S.wants store.new) result }
{
    tables();
    let (white, black) = table.load(alloc, store)?;
    let game = Game {
        set: table.set(),
        rules: table.rules(),
        book,
    };
    let entries = Pair {
        white: white.as_slice(),
        black: black.as_slice(),
    };
    let verdict = judge(alloc, &game, &entries, steps);
    Ok(CheckedCodes {
        white,
        black,
        verdict,
    })
}

/// Loads the codes of an open table and checks them by planes, as [`frz_check::check_kept`] does
/// number by number: the verdict and the calls of the store are the same.
pub fn check_kept_by_planes<B: ExitBook, S: Store, L: Ledger>(
    alloc: Global,
    table: &TableFile,
    store: &mut S,
    book: &B,
    steps: &mut Steps<L>,
) -> Result<Verdict, TableFault>
    requires { Carries (S.files store.old) table.now }
    ensures verdict { IfOk result
        (ChecksTable (S.files store.old) table.now (B.value_at book.now)) }
    ensures outside { IfErr result IsOutside }
    ensures quiet { StoreQuiet (store_of S.Store store.old) (store_of S.Store store.new) }
    ensures asked { S.asked store.new ≤ S.asked store.old + 8 * table_size table.now }
    ensures calls { S.calls store.new ≤ S.calls store.old + 2 * pieces_of (table_size table.now) }
    ensures steps { steps.new ≤ steps.old + table_size table.now }
    ensures later { steps.old ≤ steps.new }
    ensures no_step { OnErr result (steps.new ≡ steps.old) }
    ensures causes { TableCauses (S.faults store.old) (S.faults store.new)
        (S.wants store.old) (S.wants store.new) result }
{
    let loaded = load_checked_by_planes(alloc, table, store, book, steps)?;
    Ok(loaded.verdict)
}
