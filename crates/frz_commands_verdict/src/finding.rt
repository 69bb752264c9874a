//! What is found of a position, by tables each of which was checked over those before it.
ghost use Rattle.std.specs.Prelude.{◌≡◌, ◌≤◌, ◌<◌, ◌+◌, ◌++◌, ◌∷◌, [], List, map, sum_by, IfOk, IfErr};
ghost use Rattle.std.specs.String.{string_bytes};
ghost use Rattle.frz_board.specs.Boards.{Board};
ghost use Rattle.frz_fide.specs.Valid.{IsValid};
ghost use Rattle.frz_index.specs.Members.{Num};
ghost use Rattle.frz_sets.specs.Sets.{size_of};
ghost use Rattle.frz_store.specs.Told.{store_of, StoreQuiet};
ghost use Rattle.frz_backs.specs.BackTable.{BackTable as Loaded};
ghost use Rattle.frz_backs.specs.Loaded.{link_loaded};
ghost use Rattle.frz_atlas.specs.Causes.{HasAtlasCause};
ghost use Rattle.frz_commands_premises.specs.PremiseLines.{text_link_loaded};
ghost use Rattle.frz_commands_verdict.specs.Verdicts as words;
ghost use Rattle.frz_commands_verdict.specs.Finding.{FindsVerdict, IsTold, RefusesOne};

use crate::verdict::{Verdict, verdict_by};
use frz_atlas::{AtlasFault, open_all};
use frz_backs::{BackTable, Counts, leans, lines_count};
use frz_board::{Colour, Position};
use frz_commands_premises::{Line, lines_behind};
use frz_prelude::number_in;
use frz_steps::Steps;
use frz_store::Store;
use std::alloc::{AllocError, Global};
use std::sync::ledger::Ledger;

/// What is told of a position of a table's set: the verdict, and the lines of the premises of all
/// texts.
#[derive(Drop)]
pub struct Told {
    pub verdict: Verdict,
    pub lines: Vec<Line>,
}

/// Whose wins in `own`, the last of the tables, give their plies to the mate?
fn counts_through(tables: &[BackTable], own: &BackTable) -> Counts
    ensures { result ≡ words.counts_through (map link_loaded tables.now) (link_loaded own.now) }
{
    if leans(own) {
        return Counts::of(tables);
    }
    let lines = &own.table.rules().exits;
    Counts {
        white: lines_count(Colour::White, lines),
        black: lines_count(Colour::Black, lines),
    }
}

/// The verdict on the position that has this number in the set of `own`, the last of the tables.
fn verdict_of(tables: &[BackTable], own: &BackTable, number: u32) -> Verdict
    requires { number < size_of own.now.table.rules.groups }
    ensures { (p : Board) → number ≡ Num own.now.table.rules.groups p →
        result ≡ words.verdict_at (map link_loaded tables.now) (link_loaded own.now) p }
{
    let i = number as usize;
    let counts = counts_through(tables, own);
    verdict_by(own.white[i], own.black[i], counts.white, counts.black)
}

/// What is told of the position by the last of the tables, `own`; `None` where the position is not in
/// its set.
fn tell_by<L: Ledger>(
    alloc: Global,
    tables: &[BackTable],
    own: &BackTable,
    p: &Position,
    steps: &mut Steps<L>,
) -> Result<Option<Told>, AllocError>
    requires { IsValid p.now }
    ensures told { IfOk result (IsTold (link_loaded own.now) (map text_link_loaded tables.now)
        p.now) }
    ensures steps { steps.new ≤ steps.old
        + sum_by (λ back. size_of back.table.rules.groups) tables.now }
    ensures later { steps.old ≤ steps.new }
{
    let number = match number_in(own.table.set(), p) {
        Ok(number) => number,
        Err(_) => return Ok(None),
    };
    let lines = lines_behind(alloc, tables, steps)?;
    let verdict = verdict_of(tables, own, number);
    Ok(Some(Told { verdict, lines }))
}

/// What is told of the position by the last of the tables.
fn tell<L: Ledger>(
    alloc: Global,
    tables: &[BackTable],
    p: &Position,
    steps: &mut Steps<L>,
) -> Result<Option<Told>, AllocError>
    requires { IsValid p.now }
    ensures told { (before : List Loaded) (own : Loaded) → tables.now ≡ before ++ own ∷ [] →
        IfOk result (IsTold (link_loaded own) (map text_link_loaded tables.now) p.now) }
    ensures steps { steps.new ≤ steps.old
        + sum_by (λ back. size_of back.table.rules.groups) tables.now }
    ensures later { steps.old ≤ steps.new }
{
    match tables {
        [_before @ .., own] => tell_by(alloc, tables, own, p, steps),
        [] => Ok(None),
    }
}

/// Opens and checks the tables behind from the left, and then the table over all of them, and finds
/// what is told of the position; `None` where it is not in the table's set.
pub fn find<S: Store, L: Ledger>(
    alloc: Global,
    table: &str,
    behind: &[String],
    p: &Position,
    store: &mut S,
    steps: &mut Steps<L>,
) -> Result<Option<Told>, AtlasFault>
    requires { IsValid p.now }
    ensures found { IfOk result (FindsVerdict table.now (map string_bytes behind.now) p.now
        (store_of S.Store store.old) (store_of S.Store store.new) steps.old steps.new) }
    ensures refused { IfErr result (RefusesOne table.now (map string_bytes behind.now)
        (store_of S.Store store.old) (store_of S.Store store.new) steps.old steps.new) }
    ensures quiet { StoreQuiet (store_of S.Store store.old) (store_of S.Store store.new) }
    ensures later { steps.old ≤ steps.new }
    ensures cause { HasAtlasCause result (store_of S.Store store.old) (store_of S.Store store.new) }
{
    let tables = open_all(alloc, store, behind, table, steps)?;
    Ok(tell(alloc, &tables, p, steps)?)
}
