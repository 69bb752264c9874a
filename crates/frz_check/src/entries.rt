//! The comparison of each entry of a table with its local code.
ghost use Rattle.std.specs.Prelude.{◌≡◌, ◌↔◌, ◌≤◌, ◌<◌, ◌+◌, All, length, slice_index};
ghost use Rattle.frz_board.specs.declared.man.Colour.{Colour};
ghost use Rattle.frz_board.specs.declared.man.Colour.TheVariants.{White};
ghost use Rattle.frz_game.specs.EntryCodes.{IsWithin};
ghost use Rattle.frz_sets.specs.Sets.{size_of};
ghost use Rattle.frz_sets.specs.Sound.{IsSound};
ghost use Rattle.frz_game.specs.Bounds.{IsTableOf};
ghost use Rattle.frz_check.specs.declared.verdict.Verdict.TheVariants.{Exact};
ghost use Rattle.frz_check.specs.Entries.{IsCheckedAt, IsCompared, code_by_moves};
ghost use Rattle.frz_check.specs.Verdicts.{IsVerdict, IsVerdictOver};

use crate::Verdict;
use frz_board::Colour;
use frz_game::laws::numbers::numbered;
use frz_game::laws::tables::tables;
use frz_game::laws::{filled, within};
use frz_game::{Entries, ExitBook, Game, Lists, NextList, Node, NumberedGame, Wrong, local_by};
use frz_steps::Steps;
use std::sync::ledger::Ledger;

/// Compares the entry of the side at the number with its local code. The node says what the number
/// is, and the list has its moves. Answers both codes if they differ, else `None`.
#[inline(always)]
fn compare<E: Entries>(
    side: Colour,
    number: u32,
    node: Node,
    entries: &E,
    list: &NextList,
) -> Option<Wrong>
    requires inside { number < length (E.codes entries.now side) }
    requires within { All (λ a. IsWithin (length (E.codes entries.now side)) a.next)
        list.now.items }
    ensures { IsCompared side number (slice_index (E.codes entries.now side) number)
        (code_by_moves side node list.now.items (E.codes entries.now side)) result }
{
    let given = local_by(side, node, list, entries);
    let kept = entries.entry(side, number);
    if u64::from(kept) == given {
        return None;
    }
    Some(Wrong {
        side,
        number,
        kept,
        given,
    })
}

/// The first entry at the number that is not its local code, White's before Black's; `None` if
/// there is none.
fn wrong_at<G: NumberedGame<L>, E: Entries, L: Ledger>(
    game: &G,
    number: u32,
    entries: &E,
    lists: &mut Lists,
    steps: &mut Steps<L>,
) -> Option<Wrong>
    requires sound { G.sound game.now }
    requires inside { number < G.count game.now }
    requires many { length (E.codes entries.now White) ≡ G.count game.now }
    ensures checked { IsCheckedAt (G.arena game.now) (E.codes entries.now) number result }
    ensures step { steps.new ≤ steps.old + 1 }
    ensures later { steps.old ≤ steps.new }
{
    filled();
    within();
    let node = game.nexts_by(number, lists, steps);
    if let Some(wrong) = compare(Colour::White, number, node, entries, &lists.nexts) {
        return Some(wrong);
    }
    compare(Colour::Black, number, node, entries, &lists.nexts)
}

/// Checks the entries of both sides in any game of numbers, up to the first wrong one.
fn check_numbers<G: NumberedGame<L>, E: Entries, L: Ledger>(
    game: &G,
    entries: &E,
    steps: &mut Steps<L>,
) -> Verdict
    requires sound { G.sound game.now }
    requires many { length (E.codes entries.now White) ≡ G.count game.now }
    ensures verdict { IsVerdictOver (G.arena game.now) (G.count game.now) (E.codes entries.now)
        result }
    ensures steps { steps.new ≤ steps.old + G.count game.now }
    ensures later { steps.old ≤ steps.new }
{
    let mut lists = Lists::new();
    for number in 0..game.size() {
        if let Some(wrong) = wrong_at(game, number, entries, &mut lists, steps) {
            return Verdict::Wrong(wrong);
        }
    }
    Verdict::Exact
}

/// Checks the codes of both sides, one a side for each number of the set: the verdict is `Exact`
/// exactly if they are the tables of the game. The moves of each number are listed once, up to the
/// first wrong entry, so the steps are at most the size. No memory is taken.
pub fn check_entries<B: ExitBook, E: Entries, L: Ledger>(
    game: &Game<'_, B>,
    entries: &E,
    steps: &mut Steps<L>,
) -> Verdict
    requires sound { IsSound game.now.rules.now }
    requires many { length (E.codes entries.now White) ≡ size_of game.now.rules.now.groups }
    ensures exact { (result ≡ Exact) ↔ ((side : Colour) →
        IsTableOf game.now.rules.now (B.value_at game.now.book.now) side
        (E.codes entries.now side)) }
    ensures verdict { IsVerdict game.now.rules.now (B.value_at game.now.book.now)
        (E.codes entries.now) result }
    ensures steps { steps.new ≤ steps.old + size_of game.now.rules.now.groups }
    ensures later { steps.old ≤ steps.new }
{
    numbered();
    tables();
    check_numbers(game, entries, steps)
}
