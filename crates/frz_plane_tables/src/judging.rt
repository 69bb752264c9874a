//! The verdict on codes by planes.
ghost use Rattle.std.specs.Prelude.{◌≡◌, ◌↔◌, ◌≤◌, ◌+◌, length};
ghost use Rattle.frz_board.specs.declared.man.Colour.{Colour};
ghost use Rattle.frz_board.specs.declared.man.Colour.TheVariants.{White};
ghost use Rattle.frz_sets.specs.Sets.{size_of};
ghost use Rattle.frz_sets.specs.Sound.{IsSound};
ghost use Rattle.frz_game.specs.Bounds.{IsTableOf};
ghost use Rattle.frz_check.specs.declared.verdict.Verdict.TheVariants.{Exact};
ghost use Rattle.frz_check.specs.Verdicts.{IsVerdict};

use crate::same::are_solved;
use frz_check::{ExitBook, Game, Verdict, check_entries};
use frz_game::Entries;
use frz_steps::Steps;
use std::alloc::Global;
use std::sync::ledger::Ledger;

/// Checks the codes of both sides, one a side for each number of the set, as [`check_entries`] does.
/// Codes that planes give too are exact, and no step is taken. Others are checked a number at a
/// time, so that the first wrong entry is named.
pub fn judge<B: ExitBook, E: Entries, L: Ledger>(
    alloc: Global,
    game: &Game<'_, B>,
    entries: &E,
    steps: &mut Steps<L>,
) -> Verdict
    requires sound { IsSound game.now.rules.now }
    requires many { length (E.codes entries.now White) ≡ size_of game.now.rules.now.groups }
    ensures exact { (result ≡ Exact) ↔ ((side : Colour) →
        IsTableOf game.now.rules.now (B.value_at game.now.book.now) side
        (E.codes entries.now side)) }
    ensures verdict { IsVerdict game.now.rules.now (B.value_at game.now.book.now)
        (E.codes entries.now) result }
    ensures steps { steps.new ≤ steps.old + size_of game.now.rules.now.groups }
    ensures later { steps.old ≤ steps.new }
{
    if are_solved(alloc, game, entries) {
        return Verdict::Exact;
    }
    check_entries(game, entries, steps)
}
