//! Both sides of a game of chess, solved by planes.

ghost use Rattle.std.specs.Prelude.{◌≡◌, IfOk};
ghost use Rattle.frz_board.specs.declared.man.Colour.TheVariants.{White, Black};
ghost use Rattle.frz_sets.specs.Sound.{IsSound};
ghost use Rattle.frz_game.specs.Bounds.{IsTableOf};
ghost use Rattle.frz_plane_chess.specs.Kept.{IsKept};

use crate::both::BothCodes;
use crate::plane_chess::PlaneChess;
use frz_board::{Colour, NoMemory};
use frz_configurations::Configurations;
use frz_exits::ExitBook;
use frz_game::Game;
use frz_plane_solver::solve;
use std::alloc::Global;

/// The table of a side.
fn table_of<B: ExitBook>(
    alloc: Global,
    game: &PlaneChess<'_, B>,
    side: Colour,
) -> Result<Vec<u32>, NoMemory>
    requires { IsKept game.now.set.now game.now.configurations.now.rules.now
        (B.value_at game.now.book.now) game.now.lives.items game.now.rows.items }
    ensures { IfOk result (λ codes. IsTableOf game.now.configurations.now.rules.now
        (B.value_at game.now.book.now) side codes.items) }
{
    solve(alloc, game, side)
}

/// The tables of both sides: the codes of their bounds, one for each number, and 0 at broken ones.
/// The only error is want of memory.
pub fn solve_planes<B: ExitBook>(alloc: Global, game: &Game<'_, B>) -> Result<BothCodes, NoMemory>
    requires sound { IsSound game.now.rules.now }
    ensures white { IfOk result (λ both. IsTableOf game.now.rules.now
        (B.value_at game.now.book.now) White both.white.items) }
    ensures black { IfOk result (λ both. IsTableOf game.now.rules.now
        (B.value_at game.now.book.now) Black both.black.items) }
{
    let configurations = Configurations::new(alloc, game.rules)?;
    let planes = PlaneChess::new(alloc, game.set, &configurations, game.book)?;
    let white = table_of(alloc, &planes, Colour::White)?;
    let black = table_of(alloc, &planes, Colour::Black)?;
    Ok(BothCodes { white, black })
}
