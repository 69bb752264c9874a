//! The loop of the slow solver: ply by ply, until nothing changes.

ghost use Rattle.std.specs.Prelude.{◌≡◌, ◌≤◌, ◌⊎◌, ℕ, length, slice_index, vec_len, IfOk};
ghost use Rattle.frz_arena.specs.Bounds.{IsCodeAt};
ghost use Rattle.frz_arena.specs.Plies.{LagsWithin};
ghost use Rattle.frz_sweep.specs.Told.{AreTold};
ghost use Rattle.frz_sweep.specs.Winning.{IsWinningLag};

use crate::plies::{OPEN, settle_all};
use crate::winning::greatest_winning_lag;
use frz_board::{Colour, NoMemory};
use frz_graph::{Lists, NumberedGame};
use frz_steps::Steps;
use std::alloc::Global;
use std::sync::ledger::Ledger;

/// The greatest lag of the exits that win for the side, in plies, and 0 where none does.
fn greatest_lag<G: NumberedGame<L>, L: Ledger>(
    game: &G,
    side: Colour,
    lists: &mut Lists,
    steps: &mut Steps<L>,
) -> u32
    requires { G.sound game.now }
    ensures within { LagsWithin (G.arena game.now) side result }
    ensures reached { (result ≡ 0) ⊎ IsWinningLag (G.arena game.now) side result }
    ensures small { result ≤ 1000 }
    ensures later { steps.old ≤ steps.new }
{
    let mut most = 0;
    for i in 0..game.size() {
        let _ = game.nexts_by(i, lists, steps);
        most = greatest_winning_lag(side, lists.nexts.as_slice()).max(most);
    }
    most
}

/// Goes on from ply 1 until a ply changes nothing and is above `lag`, so that no exit that wins for
/// the side is still to come.
fn settle_from_first<G: NumberedGame<L>, L: Ledger>(
    game: &G,
    side: Colour,
    lag: u32,
    codes: &mut [u32],
    lists: &mut Lists,
    steps: &mut Steps<L>,
)
    requires sound { G.sound game.now }
    requires many { length codes.old ≡ G.count game.now }
    requires within { LagsWithin (G.arena game.now) side lag }
    requires small { lag ≤ 1000 }
    requires told { AreTold (G.arena game.now) side 1 codes.old }
    ensures codes { (i : ℕ) → IsCodeAt (G.arena game.now) side i (slice_index codes.new i) }
    ensures later { steps.old ≤ steps.new }
{
    let mut ply = 1;
    'plies: loop {
        let changed = settle_all(game, side, ply, codes, lists, steps);
        if !changed && lag < ply {
            return;
        }
        ply += 1;
    }
}

/// Settles all numbers, from ply 0 on.
fn settle_from_none<G: NumberedGame<L>, L: Ledger>(
    game: &G,
    side: Colour,
    codes: &mut [u32],
    steps: &mut Steps<L>,
)
    requires sound { G.sound game.now }
    requires many { length codes.old ≡ G.count game.now }
    requires told { AreTold (G.arena game.now) side 0 codes.old }
    ensures codes { (i : ℕ) → IsCodeAt (G.arena game.now) side i (slice_index codes.new i) }
    ensures later { steps.old ≤ steps.new }
{
    let mut lists = Lists::new();
    let _ = settle_all(game, side, 0, codes, &mut lists, steps);
    let lag = greatest_lag(game, side, &mut lists, steps);
    settle_from_first(game, side, lag, codes, &mut lists, steps);
}

/// The codes of the bounds of a side, one for each number. It answers [`NoMemory`] if memory runs
/// out.
pub fn solve<G: NumberedGame<L>, L: Ledger>(
    alloc: Global,
    game: &G,
    side: Colour,
    steps: &mut Steps<L>,
) -> Result<Vec<u32>, NoMemory>
    requires { G.sound game.now }
    ensures many { IfOk result (λ codes. length codes.items ≡ G.count game.now) }
    ensures codes { IfOk result (λ codes. (i : ℕ) →
        IsCodeAt (G.arena game.now) side i (slice_index codes.items i)) }
    ensures later { steps.old ≤ steps.new }
{
    let size = game.size() as usize;
    let Ok(mut codes) = vec![in alloc; OPEN; size] else {
        return Err(NoMemory);
    };
    settle_from_none(game, side, &mut codes, steps);
    Ok(codes)
}
