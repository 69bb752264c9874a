//! The table of a side, by the slow solver.

ghost use Rattle.std.specs.Prelude.{◌≡◌, ◌≤◌, IfOk};
ghost use Rattle.frz_sets.specs.Sound.{IsSound};
ghost use Rattle.frz_game.specs.Bounds.{IsTableOf};

use crate::passes::solve;
use frz_board::{Colour, NoMemory};
use frz_exits::ExitBook;
use frz_game::Game;
use frz_steps::Steps;
use std::alloc::Global;
use std::sync::ledger::Ledger;

/// The table of a side: the codes of its bounds, one for each number, and 0 at broken ones. The
/// solver goes forward ply by ply, and is slow: at each ply it asks again for the moves of each
/// open number. It answers [`NoMemory`] if memory runs out.
pub fn sweep<B: ExitBook, L: Ledger>(
    alloc: Global,
    game: &Game<'_, B>,
    side: Colour,
    steps: &mut Steps<L>,
) -> Result<Vec<u32>, NoMemory>
    requires { IsSound game.now.rules.now }
    ensures table { IfOk result (λ codes.
        IsTableOf game.now.rules.now (B.value_at game.now.book.now) side codes.items) }
    ensures later { steps.old ≤ steps.new }
{
    solve(alloc, game, side, steps)
}
