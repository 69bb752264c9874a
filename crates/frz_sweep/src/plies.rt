//! One ply of the slow solver: the numbers that the codes one ply on settle.

ghost use Rattle.std.specs.Prelude.{◌≡◌, ◌≢◌, ◌≤◌, ◌<◌, ◌+◌, ◌*◌, ℕ, length, slice_index, true, false};
ghost use Rattle.frz_arena.specs.LocalCodes.{local_code};
ghost use Rattle.frz_sweep.specs.Told.{AreTold, IsTold, settled_code};

use crate::one_side::OneSide;
use frz_board::Colour;
use frz_graph::{Lists, NumberedGame, local_at};
use frz_steps::Steps;
use std::sync::ledger::Ledger;

/// The code of an open number, that is, one which no ply has settled yet. A hold keeps it.
pub const OPEN: u32 = 1;

/// The local code of number `i` if it has at most `ply` plies, else [`OPEN`].
fn settled<G: NumberedGame<L>, L: Ledger>(
    game: &G,
    side: Colour,
    ply: u32,
    i: u32,
    codes: &[u32],
    lists: &mut Lists,
    steps: &mut Steps<L>,
) -> u32
    requires sound { G.sound game.now }
    requires few { ply ≤ 1000000000 }
    requires inside { i < G.count game.now }
    requires many { length codes.now ≡ G.count game.now }
    ensures code { result ≡
        settled_code ply (local_code (G.arena game.now) side (λ k. slice_index codes.now k) i) }
    ensures later { steps.old ≤ steps.new }
{
    let code = local_at(game, side, i, &OneSide { codes }, lists, steps);
    if code <= u64::from(3 + 2 * ply) {
        code as u32
    } else {
        OPEN
    }
}

/// Settles number `i` if it is open, and is broken or has the local code of a win or a failure of
/// at most `ply` plies. The answer is whether it did.
fn settle<G: NumberedGame<L>, L: Ledger>(
    game: &G,
    side: Colour,
    ply: u32,
    i: u32,
    codes: &mut [u32],
    lists: &mut Lists,
    steps: &mut Steps<L>,
) -> bool
    requires sound { G.sound game.now }
    requires few { ply ≤ 1000000000 }
    requires inside { i < G.count game.now }
    requires many { length codes.old ≡ G.count game.now }
    requires before { (p : ℕ) → p < i →
        IsTold (G.arena game.now) side (ply + 1) p (slice_index codes.old p) }
    requires after { (p : ℕ) → i ≤ p →
        IsTold (G.arena game.now) side ply p (slice_index codes.old p) }
    ensures told { IsTold (G.arena game.now) side (ply + 1) i (slice_index codes.new i) }
    ensures others { (p : ℕ) → p ≢ i → slice_index codes.new p ≡ slice_index codes.old p }
    ensures same { result ≡ false → codes.new ≡ codes.old }
    ensures late { result ≡ true → 0 < ply → 2 + 2 * ply ≤ slice_index codes.new i }
    ensures later { steps.old ≤ steps.new }
{
    if codes[i as usize] != OPEN {
        return false;
    }
    let code = settled(game, side, ply, i, codes, lists, steps);
    if code == OPEN {
        return false;
    }
    codes[i as usize] = code;
    true
}

/// Settles, as `settle` does, each number that is open, and says whether one was settled.
pub fn settle_all<G: NumberedGame<L>, L: Ledger>(
    game: &G,
    side: Colour,
    ply: u32,
    codes: &mut [u32],
    lists: &mut Lists,
    steps: &mut Steps<L>,
) -> bool
    requires sound { G.sound game.now }
    requires few { ply ≤ 1000000000 }
    requires many { length codes.old ≡ G.count game.now }
    requires told { AreTold (G.arena game.now) side ply codes.old }
    ensures told { AreTold (G.arena game.now) side (ply + 1) codes.new }
    ensures same { result ≡ false → codes.new ≡ codes.old }
    ensures late { result ≡ true → 0 < ply → (p : ℕ) × (2 + 2 * ply ≤ slice_index codes.new p) }
    ensures later { steps.old ≤ steps.new }
{
    let mut changed = false;
    for i in 0..game.size() {
        let settles = settle(game, side, ply, i, codes, lists, steps);
        changed = changed || settles;
    }
    changed
}
