//! The legal moves at a number of a table, each with the codes of both sides behind it.
ghost use Rattle.std.specs.Prelude.{◌≡◌, ◌≤◌, ◌<◌, ◌+◌, ◌*◌, ℕ, List, length, map, IfErr, IfOk};
ghost use Rattle.frz_board.specs.declared.man.Colour.TheVariants.{White, Black};
ghost use Rattle.frz_store.specs.Told.{store_of, StoreQuiet};
ghost use Rattle.frz_graph.specs.EntryCodes.{arm_code};
ghost use Rattle.frz_game.specs.Games.{graph_by};
ghost use Rattle.frz_table.specs.Tables.{Carries, table_size};
ghost use Rattle.frz_atlas.specs.FileOn.{loaded_back};
ghost use Rattle.frz_atlas.specs.Links.{value_over};
ghost use Rattle.frz_atlas.specs.Loaded.{leans_as};
ghost use Rattle.frz_ways.specs.Costs.{arms_reads};
ghost use Rattle.frz_ways.specs.Kept.{told_codes, MayRead};
ghost use Rattle.frz_ways.specs.Reads.{HasDifferentArms};
ghost use Rattle.frz_prelude.specs.Stops.{HasItsCause};
ghost use Rattle.frz_commands_atlas.specs.Each.{IsFault};
ghost use Rattle.frz_commands_atlas.specs.MoveRows.{row_by};

use frz_answer::Fault;
use frz_atlas::{AtlasBook, BackTable};
use frz_board::Colour;
use frz_exits::{ExitBook, RuleBook};
use frz_game::laws::numbers::different_arms;
use frz_game::{Arm, CodeList, Game, Lists, NextList, NumberedGame};
use frz_graph::laws::within;
use frz_prelude::Stop;
use frz_steps::Steps;
use frz_store::Store;
use frz_table::{FileKind, TableFile};
use frz_ways::read_codes;
use std::alloc::{AllocError, Global};
use std::sync::ledger::Ledger;

/// A legal move, and the codes that White and Black have behind it.
#[derive(Clone, Copy)]
pub struct Row {
    pub arm: Arm,
    pub white: u32,
    pub black: u32,
}

/// A row for each move, with the codes that were read for it.
fn rows_with(
    alloc: Global,
    nexts: &NextList,
    white: &CodeList,
    black: &CodeList,
) -> Result<Vec<Row>, AllocError>
    requires white { length white.now.items ≡ length nexts.now.items }
    requires black { length black.now.items ≡ length nexts.now.items }
    ensures { IfOk result (λ rows. (w b : List ℕ)
        → white.now.items ≡ map (arm_code White w) nexts.now.items
        → black.now.items ≡ map (arm_code Black b) nexts.now.items
        → rows.items ≡ map (row_by w b) nexts.now.items) }
{
    let arms = nexts.as_slice();
    let mut rows = Vec::new(alloc);
    for (i, arm) in arms.iter().enumerate() {
        rows.push(Row {
            arm: *arm,
            white: white[i],
            black: black[i],
        })?;
    }
    Ok(rows)
}

/// A row for each move of the number in the game of the table. It takes one step, and two calls of
/// the store for each move that stays in the set.
fn rows_by<G: NumberedGame<L>, S: Store, L: Ledger>(
    alloc: Global,
    game: &G,
    table: &TableFile,
    number: u32,
    store: &mut S,
    steps: &mut Steps<L>,
) -> Result<Vec<Row>, Stop>
    requires sound { G.sound game.now }
    requires inside { number < G.count game.now }
    requires many { table_size table.now ≡ G.count game.now }
    requires different { HasDifferentArms (G.arena game.now) }
    requires carried { Carries (S.files store.old) table.now }
    ensures rows { IfOk result (λ rows. (white black : List ℕ)
        × MayRead (told_codes table.now White (S.files store.old)) (table_size table.now) white
        × MayRead (told_codes table.now Black (S.files store.old)) (table_size table.now) black
        × (rows.items ≡ map (row_by white black) ((G.arena game.now).arms number))) }
    ensures fault { IfErr result IsFault }
    ensures quiet { StoreQuiet (store_of S.Store store.old) (store_of S.Store store.new) }
    ensures cause { HasItsCause result (store_of S.Store store.old) (store_of S.Store store.new) }
    ensures asked { S.asked store.new ≤
        S.asked store.old + 8 * arms_reads ((G.arena game.now).arms number) }
    ensures calls { S.calls store.new ≤
        S.calls store.old + 2 * arms_reads ((G.arena game.now).arms number) }
    ensures step { steps.new ≤ steps.old + 1 }
    ensures later { steps.old ≤ steps.new }
{
    within();
    let mut lists = Lists::new();
    let mut black = CodeList::new();
    game.nexts_by(number, &mut lists, steps);
    read_codes(table, store, Colour::White, &lists.nexts, &mut lists.codes)?;
    read_codes(table, store, Colour::Black, &lists.nexts, &mut black)?;
    match rows_with(alloc, &lists.nexts, &lists.codes, &black) {
        Ok(rows) => Ok(rows),
        Err(_) => Err(Stop::Fault(Fault::NoMemory)),
    }
}

/// A row for each move of the number of an open table; exits have the values of the book.
fn rows_over<B: ExitBook, S: Store, L: Ledger>(
    alloc: Global,
    book: &B,
    table: &TableFile,
    number: u32,
    store: &mut S,
    steps: &mut Steps<L>,
) -> Result<Vec<Row>, Stop>
    requires inside { number < table_size table.now }
    requires carried { Carries (S.files store.old) table.now }
    ensures rows { IfOk result (λ rows. (white black : List ℕ)
        × MayRead (told_codes table.now White (S.files store.old)) (table_size table.now) white
        × MayRead (told_codes table.now Black (S.files store.old)) (table_size table.now) black
        × (rows.items ≡ map (row_by white black)
        ((graph_by table.now.rules (B.value_at book.now)).arms number))) }
    ensures fault { IfErr result IsFault }
    ensures quiet { StoreQuiet (store_of S.Store store.old) (store_of S.Store store.new) }
    ensures cause { HasItsCause result (store_of S.Store store.old) (store_of S.Store store.new) }
    ensures asked { S.asked store.new ≤ S.asked store.old + 8 * arms_reads
        ((graph_by table.now.rules (B.value_at book.now)).arms number) }
    ensures calls { S.calls store.new ≤ S.calls store.old + 2 * arms_reads
        ((graph_by table.now.rules (B.value_at book.now)).arms number) }
    ensures step { steps.new ≤ steps.old + 1 }
    ensures later { steps.old ≤ steps.new }
{
    different_arms();
    let rules = table.rules();
    let game = Game {
        set: table.set(),
        rules,
        book,
    };
    rows_by(alloc, &game, table, number, store, steps)
}

/// A row for each move of the number of an open table. Exits have the values of the exit lines and,
/// where the table leans on others, of these tables behind them.
pub fn read_rows<S: Store, L: Ledger>(
    alloc: Global,
    table: &TableFile,
    backs: &[BackTable],
    number: u32,
    store: &mut S,
    steps: &mut Steps<L>,
) -> Result<Vec<Row>, Stop>
    requires inside { number < table_size table.now }
    requires carried { Carries (S.files store.old) table.now }
    ensures rows { IfOk result (λ rows. (white black : List ℕ)
        × MayRead (told_codes table.now White (S.files store.old)) (table_size table.now) white
        × MayRead (told_codes table.now Black (S.files store.old)) (table_size table.now) black
        × (rows.items ≡ map (row_by white black) ((graph_by table.now.rules
        (value_over (leans_as table.now.kind) table.now.rules (map loaded_back backs.now))).arms
        number))) }
    ensures fault { IfErr result IsFault }
    ensures quiet { StoreQuiet (store_of S.Store store.old) (store_of S.Store store.new) }
    ensures cause { HasItsCause result (store_of S.Store store.old) (store_of S.Store store.new) }
    ensures asked { S.asked store.new ≤ S.asked store.old + 8 * arms_reads
        ((graph_by table.now.rules
        (value_over (leans_as table.now.kind) table.now.rules (map loaded_back backs.now))).arms
        number) }
    ensures calls { S.calls store.new ≤ S.calls store.old + 2 * arms_reads
        ((graph_by table.now.rules
        (value_over (leans_as table.now.kind) table.now.rules (map loaded_back backs.now))).arms
        number) }
    ensures step { steps.new ≤ steps.old + 1 }
    ensures later { steps.old ≤ steps.new }
{
    let rules = table.rules();
    match table.kind() {
        FileKind::Atlas => {
            let book = AtlasBook::new(rules, backs);
            rows_over(alloc, &book, table, number, store, steps)
        }
        _ => {
            let book = RuleBook::new(rules);
            rows_over(alloc, &book, table, number, store, steps)
        }
    }
}
