//! Opens, loads and checks the tables behind another from the left, each over those before it.
ghost use Rattle.std.specs.Prelude.{◌≤◌, ◌+◌, ◌++◌, ◌∷◌, [], map, IfOk, IfErr};
ghost use Rattle.std.specs.String.{string_bytes};
ghost use Rattle.frz_check.specs.EntryCodes.{of_side};
ghost use Rattle.frz_store.specs.Told.{store_of, StoreQuiet};
ghost use Rattle.frz_table.specs.Tables.{table_size};
ghost use Rattle.frz_check.specs.Verdicts.{IsVerdict};
ghost use Rattle.frz_backs.specs.FileOn.{loaded_back};
ghost use Rattle.frz_backs.specs.Links.{value_over};
ghost use Rattle.frz_backs.specs.Loaded.{leans_as};
ghost use Rattle.frz_atlas.specs.Causes.{HasAtlasCause, HasOneCause};
ghost use Rattle.frz_atlas.specs.Opening.{OpensAll, OpensOver, RefusesAll, RefusesOver};

use crate::loading::load_own;
use crate::{AtlasFault, BackFault};
use frz_backs::{AtlasBook, BackTable};
use frz_check::{ExitBook, Game, Pair, RuleBook, Verdict};
use frz_plane_tables::judge;
use frz_steps::Steps;
use frz_store::Store;
use frz_table::FileKind;
use std::alloc::Global;
use std::sync::ledger::Ledger;

/// The verdict on the codes of a loaded table, with exits valued by the book.
fn verdict_by<B: ExitBook, L: Ledger>(
    alloc: Global,
    back: &BackTable,
    book: &B,
    steps: &mut Steps<L>,
) -> Verdict
    ensures verdict { IsVerdict back.now.table.rules (B.value_at book.now)
        (λ side. of_side side back.now.white.items back.now.black.items) result }
    ensures steps { steps.new ≤ steps.old + table_size back.now.table }
    ensures later { steps.old ≤ steps.new }
{
    let game = Game {
        set: back.table.set(),
        rules: back.table.rules(),
        book,
    };
    let entries = Pair {
        white: back.white.as_slice(),
        black: back.black.as_slice(),
    };
    judge(alloc, &game, &entries, steps)
}

/// The verdict on a loaded table, over the tables before it where it leans on them.
fn verdict_over<L: Ledger>(
    alloc: Global,
    back: &BackTable,
    before: &[BackTable],
    steps: &mut Steps<L>,
) -> Verdict
    ensures verdict { IsVerdict back.now.table.rules
        (value_over (leans_as back.now.table.kind) back.now.table.rules (map loaded_back before.now))
        (λ side. of_side side back.now.white.items back.now.black.items) result }
    ensures steps { steps.new ≤ steps.old + table_size back.now.table }
    ensures later { steps.old ≤ steps.new }
{
    let table = &back.table;
    match table.kind() {
        FileKind::Atlas => verdict_by(alloc, back, &AtlasBook::new(table.rules(), before), steps),
        _ => verdict_by(alloc, back, &RuleBook::new(table.rules()), steps),
    }
}

/// Opens the table of this name, loads its codes and checks them, over the tables `before` where it
/// leans on them. A table that is refused or has a wrong entry is not given.
pub fn open_over<S: Store, L: Ledger>(
    alloc: Global,
    store: &mut S,
    name: &str,
    before: &[BackTable],
    steps: &mut Steps<L>,
) -> Result<BackTable, BackFault>
    ensures opened { IfOk result (λ back. OpensOver (map loaded_back before.now) name.now
        back (store_of S.Store store.old) (store_of S.Store store.new) steps.old steps.new) }
    ensures refused { IfErr result (RefusesOver (map loaded_back before.now) name.now
        (store_of S.Store store.old) (store_of S.Store store.new) steps.old steps.new) }
    ensures quiet { StoreQuiet (store_of S.Store store.old) (store_of S.Store store.new) }
    ensures later { steps.old ≤ steps.new }
    ensures cause { HasOneCause result (store_of S.Store store.old) (store_of S.Store store.new) }
{
    let back = match load_own(alloc, store, name) {
        Ok(back) => back,
        Err(fault) => return Err(BackFault::Refused(fault)),
    };
    match verdict_over(alloc, &back, before, steps) {
        Verdict::Exact => Ok(back),
        Verdict::Wrong(wrong) => Err(BackFault::Wrong(wrong)),
    }
}

/// Opens the tables of these names from the left, loads their codes and checks them, each over
/// those before it. Stops at the first that is refused or wrong, and names its place, from 0.
pub fn open_behind<S: Store, L: Ledger>(
    alloc: Global,
    store: &mut S,
    names: &[String],
    steps: &mut Steps<L>,
) -> Result<Vec<BackTable>, AtlasFault>
    ensures opened { IfOk result (λ backs. OpensAll (map string_bytes names.now)
        backs.items (store_of S.Store store.old) (store_of S.Store store.new)
        steps.old steps.new) }
    ensures refused { IfErr result (RefusesAll (map string_bytes names.now)
        (store_of S.Store store.old) (store_of S.Store store.new) steps.old steps.new) }
    ensures quiet { StoreQuiet (store_of S.Store store.old) (store_of S.Store store.new) }
    ensures later { steps.old ≤ steps.new }
    ensures cause { HasAtlasCause result (store_of S.Store store.old) (store_of S.Store store.new) }
{
    let mut backs = Vec::new(alloc);
    for (place, name) in names.iter().enumerate() {
        let back = match open_over(alloc, store, name, &backs, steps) {
            Ok(back) => back,
            Err(fault) => return Err(AtlasFault::of_back(place, fault)),
        };
        backs.push(back)?;
    }
    Ok(backs)
}

/// Opens and checks the tables of these names from the left, and then the table `last` over all of
/// them, which is given behind them. Stops at the first that is refused or wrong, and names its
/// place, from 0.
pub fn open_all<S: Store, L: Ledger>(
    alloc: Global,
    store: &mut S,
    names: &[String],
    last: &str,
    steps: &mut Steps<L>,
) -> Result<Vec<BackTable>, AtlasFault>
    ensures opened { IfOk result (λ tables. OpensAll (map string_bytes names.now ++ last.now ∷ [])
        tables.items (store_of S.Store store.old) (store_of S.Store store.new)
        steps.old steps.new) }
    ensures refused { IfErr result (RefusesAll (map string_bytes names.now ++ last.now ∷ [])
        (store_of S.Store store.old) (store_of S.Store store.new) steps.old steps.new) }
    ensures quiet { StoreQuiet (store_of S.Store store.old) (store_of S.Store store.new) }
    ensures later { steps.old ≤ steps.new }
    ensures cause { HasAtlasCause result (store_of S.Store store.old) (store_of S.Store store.new) }
{
    let mut tables = open_behind(alloc, store, names, steps)?;
    let table = match open_over(alloc, store, last, &tables, steps) {
        Ok(table) => table,
        Err(fault) => return Err(AtlasFault::of_back(tables.len(), fault)),
    };
    tables.push(table)?;
    Ok(tables)
}
