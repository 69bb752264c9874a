//! What a solver asks of a restricted game over numbers.

ghost use Rattle.std.specs.Prelude.{◌≡◌, ◌≤◌, ◌<◌, ◌+◌, ℕ, length, slice_index};
ghost use Rattle.frz_board.specs.Moving.{Step};
ghost use Rattle.frz_exits.specs.Value.{Value};
ghost use Rattle.frz_arena.specs.Arena.{Arena};
ghost use Rattle.frz_arena.specs.LocalCodes.{local_code};
ghost use Rattle.frz_graph.specs.Finite.{IsFinite};

use crate::entries::Entries;
use crate::lists::Lists;
use crate::local_code::local_by;
use frz_arena::Node;
use frz_board::Colour;
use frz_steps::Steps;
use std::sync::ledger::Ledger;

/// A restricted game over numbers.
pub trait NumberedGame<L: Ledger> {
    /// What each number is, and its moves.
    ghost arena: { Self → Arena Step ℕ Value };

    /// How many numbers there are.
    ghost count: { Self → ℕ };

    /// What the answers of the game rest on.
    ghost sound: { Self → Type 0 };

    /// How many numbers there are.
    fn size(&self) -> u32
        requires { sound self.now }
        ensures { result ≡ count self.now };

    /// What number `i` is: broken, mate, stalemate, or going on. `lists.nexts` then has its moves,
    /// in move order. This takes one step at most.
    fn nexts_by(&self, i: u32, lists: &mut Lists, steps: &mut Steps<L>) -> Node
        requires sound { sound self.now }
        requires inside { i < count self.now }
        ensures node { result ≡ (arena self.now).node i }
        ensures arms { lists.new.nexts.items ≡ (arena self.now).arms i }
        ensures step { steps.new ≤ steps.old + 1 }
        ensures later { steps.old ≤ steps.new };

    ghost finite: { (game : Self) → sound game → IsFinite (arena game) (count game) };
}

/// The local code for `side` of number `i`, with these entries. The lists are room to work in, kept
/// from call to call. This takes one step at most.
pub fn local_at<G: NumberedGame<L>, E: Entries, L: Ledger>(
    game: &G,
    side: Colour,
    i: u32,
    entries: &E,
    lists: &mut Lists,
    steps: &mut Steps<L>,
) -> u64
    requires sound { G.sound game.now }
    requires inside { i < G.count game.now }
    requires many { length (E.codes entries.now side) ≡ G.count game.now }
    ensures code { result ≡
        local_code (G.arena game.now) side (λ k. slice_index (E.codes entries.now side) k) i }
    ensures step { steps.new ≤ steps.old + 1 }
    ensures later { steps.old ≤ steps.new }
{
    let node = game.nexts_by(i, lists, steps);
    local_by(side, node, &lists.nexts, entries)
}
