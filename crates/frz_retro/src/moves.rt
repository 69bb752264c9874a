//! A law: what the moves of the game over numbers are in chess.

ghost use Rattle.std.specs.Prelude.{◌≡◌, ◌≢◌, ◌↔◌, ℕ, true, Some};
ghost use Rattle.frz_board.specs.Boards.{Board};
ghost use Rattle.frz_board.specs.Moving.{Step};
ghost use Rattle.frz_sets.specs.declared.exit.Value.{Value};
ghost use Rattle.frz_sets.specs.Views.{RuleLines};
ghost use Rattle.frz_arena.specs.Arena.{IsArm};
ghost use Rattle.frz_arena.specs.declared.node.Node.TheVariants.{Broken};
ghost use Rattle.frz_exits.specs.Forbidding.{is_free};
ghost use Rattle.frz_index.specs.Members.{HasNumber};
ghost use Rattle.frz_game.specs.Games.{graph_by};
ghost use Rattle.frz_unmove.specs.Pairs.{LeadsTo};
ghost use Rattle.frz_retro.specs.Graphs.{Arm, IsMoveTo, mover_of};

use frz_fide::laws::all_listed;
use frz_game::laws::numbers::membership;

/// A number that is not broken belongs to a position with the same side to move. Its moves inside
/// the set are the legal moves to positions of the set, and a move is free where the rules leave it
/// free.
pub fn game_moves()
    ensures there { (rules : RuleLines) (value : Board → Value) (i : ℕ) →
        (graph_by rules value).node i ≢ Broken →
        (p : Board) × HasNumber rules.groups i p
        × (mover_of ((graph_by rules value).node i) ≡ Some p.turn) }
    ensures inside { (rules : RuleLines) (value : Board → Value) (i : ℕ) (m : Step) (q : ℕ) →
        LeadsTo rules.groups i m q ↔ IsMoveTo (graph_by rules value) i m q }
    ensures free { (rules : RuleLines) (value : Board → Value) (i : ℕ) (a : Arm) →
        IsArm (graph_by rules value) i a →
        (p : Board) × HasNumber rules.groups i p × (a.free ≡ is_free rules p.turn p a.mv) }
{
    membership();
    all_listed();
}
