//! What the retrograde solver asks of a game.

ghost use Rattle.std.specs.Prelude.{◌≡◌, ◌≢◌, ◌↔◌, ℕ, ◌+◌, ◌<◌, Some};
ghost use Rattle.std.specs.List.{Contains};
ghost use Rattle.frz_arena.specs.Arena.{IsArm};
ghost use Rattle.frz_arena.specs.declared.node.Node.TheVariants.{Broken};
ghost use Rattle.frz_board.specs.Moving.{Step};
ghost use Rattle.frz_unmove.specs.Pairs.{HaveDifferentNumbers};
ghost use Rattle.frz_retro.specs.Graphs.{Arm, IsMoveTo, HasDifferentArms, mover_of};

use frz_board::{Colour, Move};
use frz_graph::NumberedGame;
use frz_steps::Steps;
use frz_unmove::Preds;
use std::sync::ledger::Ledger;

/// A restricted game over numbers that lists the predecessors of a number too.
pub trait Graph<L: Ledger>: NumberedGame<L> {
    /// Leaves in `out` the predecessors of number `q`, each once, with the move that leads from it
    /// to `q`. The number is not broken. This takes one step.
    fn preds(&self, q: u32, out: &mut Preds, steps: &mut Steps<L>)
        requires sound { Self.sound self.now }
        requires inside { q < Self.count self.now }
        requires whole { (Self.arena self.now).node q ≢ Broken }
        ensures all { (i : ℕ) (m : Step) → Contains out.new (record { number = i; mv = m })
            ↔ IsMoveTo (Self.arena self.now) i m q }
        ensures once { HaveDifferentNumbers out.new }
        ensures step { steps.new ≡ steps.old + 1 };

    /// Who is to move at number `i`, which is not broken.
    fn mover(&self, i: u32) -> Colour
        requires sound { Self.sound self.now }
        requires inside { i < Self.count self.now }
        requires whole { (Self.arena self.now).node i ≢ Broken }
        ensures { mover_of ((Self.arena self.now).node i) ≡ Some result };

    /// Whether `mv`, a legal move at number `i`, is free, that is, not renounced by the mover.
    fn free(&self, i: u32, mv: Move) -> bool
        requires sound { Self.sound self.now }
        requires inside { i < Self.count self.now }
        requires arm { (a : Arm) × IsArm (Self.arena self.now) i a × (a.mv ≡ mv) }
        ensures { (a : Arm) → IsArm (Self.arena self.now) i a → a.mv ≡ mv → result ≡ a.free };

    ghost different: { (game : Self) → Self.sound game → HasDifferentArms (Self.arena game) };
}
