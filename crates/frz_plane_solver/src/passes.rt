//! The loop of the solver: ply by ply, until nothing is added.

ghost use Rattle.std.specs.Prelude.{◌≡◌, ◌≤◌, ℕ, length, slice_index, IfOk};
ghost use Rattle.frz_arena.specs.Bounds.{IsCodeAt};
ghost use Rattle.frz_arena.specs.Plies.{LagsWithin};
ghost use Rattle.frz_plane_solver.specs.Marks.{AreAllMarked, AreFor};
ghost use Rattle.frz_plane_solver.specs.Walks.{IsSolvedTo};

use crate::marked::MarkedPlanes;
use crate::plies::{advance, begin};
use frz_board::{Colour, NoMemory};
use frz_plane_game::PlaneGame;
use std::alloc::Global;

/// Goes on until a ply adds nothing and no lag is longer, so that no exit that wins for the side is
/// still to come.
fn go_on<G: PlaneGame>(
    game: &G,
    side: Colour,
    lag: u32,
    won: &mut MarkedPlanes,
    lost: &mut MarkedPlanes,
    more: &mut MarkedPlanes,
    codes: &mut [u32],
)
    requires sound { G.sound game.now }
    requires within { LagsWithin (G.arena game.now) side lag }
    requires small { lag ≤ 1000 }
    requires room { AreFor (G.spots game.now).configurations more.old }
    requires solved { IsSolvedTo (G.arena game.now) (G.spots game.now) side 0 won.old lost.old
        codes.old }
    ensures { (i : ℕ) → IsCodeAt (G.arena game.now) side i (slice_index codes.new i) }
{
    let mut plies = 0;
    'plies: loop {
        let added = advance(game, side, plies, won, lost, more, codes);
        if !added && lag <= plies {
            return;
        }
        plies += 1;
    }
}

/// Solves from codes that are all 0.
fn solve_from_zero<G: PlaneGame>(
    game: &G,
    side: Colour,
    won: &mut MarkedPlanes,
    lost: &mut MarkedPlanes,
    more: &mut MarkedPlanes,
    codes: &mut [u32],
)
    requires sound { G.sound game.now }
    requires won { AreFor (G.spots game.now).configurations won.old
        × AreAllMarked (G.spots game.now).configurations won.old }
    requires lost { AreFor (G.spots game.now).configurations lost.old
        × AreAllMarked (G.spots game.now).configurations lost.old }
    requires room { AreFor (G.spots game.now).configurations more.old
        × AreAllMarked (G.spots game.now).configurations more.old }
    requires many { length codes.old ≡ (G.spots game.now).numbers }
    requires zero { (i : ℕ) → slice_index codes.old i ≡ 0 }
    ensures { (i : ℕ) → IsCodeAt (G.arena game.now) side i (slice_index codes.new i) }
{
    begin(game, side, won, lost, more, codes);
    let lag = game.greatest_lag(side);
    go_on(game, side, lag, won, lost, more, codes);
}

/// The codes of the bounds of a side, one for each number, and 0 at broken ones. It answers
/// [`NoMemory`] if memory runs out.
pub fn solve<G: PlaneGame>(alloc: Global, game: &G, side: Colour) -> Result<Vec<u32>, NoMemory>
    requires { G.sound game.now }
    ensures many { IfOk result (λ codes. length codes.items ≡ (G.spots game.now).numbers) }
    ensures codes { IfOk result (λ codes. (i : ℕ) →
        IsCodeAt (G.arena game.now) side i (slice_index codes.items i)) }
{
    let size = game.size() as usize;
    let Ok(mut codes) = vec![in alloc; 0; size] else {
        return Err(NoMemory);
    };
    let many = game.configurations();
    let mut won = MarkedPlanes::new(alloc, many)?;
    let mut lost = MarkedPlanes::new(alloc, many)?;
    let mut more = MarkedPlanes::new(alloc, many)?;
    solve_from_zero(game, side, &mut won, &mut lost, &mut more, &mut codes);
    Ok(codes)
}
