//! The steps of small tables. A ledger counts them where only clauses see them: the clause says how
//! many there are at most, and the run that the size is what the clause reckons with.
ghost use Rattle.std.specs.Prelude.{◌≡◌, ◌≤◌, ◌<◌, ◌+◌, ◌*◌, ◌^◌, OnOk, length};
ghost use Rattle.frz_sets.specs.Sound.{IsSound};
ghost use Rattle.frz_table.specs.Tables.{Carries};

use super::RULES;
use frz_build::{NewTable, build_table};
use frz_check::{Verdict, check_kept};
use frz_exits::RuleBook;
use frz_game::Game;
use frz_index::Set;
use frz_rules::{Rules, read_rules};
use frz_steps::Steps;
use frz_store::{MemStore, Store};
use frz_table::{FileKind, TableFile, open_table};
use std::alloc::Global;
use std::marker::Brand;
use std::sync::ledger::{Blank, Ledger};
use std::test::Fail;
use test_tables::{blocked, no_fails};

/// Builds the table of a game whose set has this size, under the name `T`.
fn build_game<L: Ledger>(
    alloc: Global,
    game: &Game<'_, RuleBook<'_>>,
    text: &[u8],
    size: u32,
    store: &mut MemStore,
    steps: &mut Steps<L>,
) -> Result<(), Fail>
    requires sound { IsSound game.now.rules.now }
    requires text { length text.now < 2 ^ 32 }
    ensures { OnOk result (steps.new ≤ steps.old + 4 * size) }
{
    let file = NewTable {
        name: "T",
        kind: FileKind::Plain,
        text,
    };
    let built = build_table(alloc, game, &file, store, steps)?;
    if built == size {
        Ok(())
    } else {
        Err(Fail::from("build"))
    }
}

/// Builds the table of the rules of the text.
fn build_rules<L: Ledger>(
    alloc: Global,
    rules: &Rules,
    text: &[u8],
    size: u32,
    store: &mut MemStore,
    steps: &mut Steps<L>,
) -> Result<(), Fail>
    requires sound { IsSound rules.now }
    requires text { length text.now < 2 ^ 32 }
    ensures { OnOk result (steps.new ≤ steps.old + 4 * size) }
{
    let set = Set::new(alloc, rules)?;
    let game = Game {
        set: &set,
        rules,
        book: &RuleBook::new(rules),
    };
    build_game(alloc, &game, text, size, store, steps)
}

/// Builds the table of a text.
fn build_text<L: Ledger>(
    alloc: Global,
    text: &[u8],
    size: u32,
    store: &mut MemStore,
    steps: &mut Steps<L>,
) -> Result<(), Fail>
    requires { length text.now < 2 ^ 32 }
    ensures { OnOk result (steps.new ≤ steps.old + 4 * size) }
{
    let rules = read_rules(alloc, text)?;
    build_rules(alloc, &rules, text, size, store, steps)
}

/// Checks an open table of this size.
fn check_opened<S: Store, L: Ledger>(
    alloc: Global,
    table: &TableFile,
    size: u32,
    store: &mut S,
    steps: &mut Steps<L>,
) -> Result<(), Fail>
    requires { Carries (S.files store.old) table.now }
    ensures { OnOk result (steps.new ≤ steps.old + size) }
{
    let kept = table.set().size();
    let book = RuleBook::new(table.rules());
    let verdict = check_kept(alloc, table, store, &book, steps)?;
    if kept == size && verdict == Verdict::Exact {
        Ok(())
    } else {
        Err(Fail::from("check"))
    }
}

/// Checks the table of this size.
fn check_built<S: Store, L: Ledger>(
    alloc: Global,
    size: u32,
    store: &mut S,
    steps: &mut Steps<L>,
) -> Result<(), Fail>
    ensures { OnOk result (steps.new ≤ steps.old + size) }
{
    let table = open_table(alloc, store, "T")?;
    check_opened(alloc, &table, size, store, steps)
}

fn build_and_check<L: Ledger>(
    alloc: Global,
    text: &[u8],
    size: u32,
    blank: Blank,
) -> Result<(), Fail>
    requires text { length text.now < 2 ^ 32 }
    requires name { blank.name ≡ L.name }
    requires parts { blank.parts ≡ L.parts }
    requires some { 0 < blank.parts }
{
    let mut store = MemStore::new(alloc, no_fails(alloc));
    let mut steps = Steps::<L>::new(blank);
    build_text(alloc, text, size, &mut store, &mut steps)?;
    check_built(alloc, size, &mut store, &mut steps)
}

/// Builds and checks with a ledger of its own.
fn expect_few_steps(alloc: Global, text: &[u8], size: u32) -> Result<(), Fail>
    requires { length text.now < 2 ^ 32 }
{
    let blank = Blank::new(1);
    build_and_check::<Brand>(alloc, text, size, blank)
}

#[test]
fn few_steps_build_and_check_the_rook(rt: HostRuntime) -> Result<(), Fail> {
    expect_few_steps(rt.alloc(), RULES, 8)
}

#[test]
fn few_steps_build_and_check_blocked_pawns(rt: HostRuntime) -> Result<(), Fail> {
    expect_few_steps(rt.alloc(), blocked::TEXT.as_bytes(), 6_400)
}
