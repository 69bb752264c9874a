//! The pairs at which there are moves, and those at which moves lead into a target.

ghost use Rattle.std.specs.Prelude.{ℕ, ◌≡◌, ◌<◌, ◌↔◌, ◌⊎◌, true, false, length};
ghost use Rattle.frz_board.specs.Boards.{Board};
ghost use Rattle.frz_sets.specs.declared.exit.Value.{Value};
ghost use Rattle.frz_sets.specs.Sound.{IsSound};
ghost use Rattle.frz_sets.specs.Views.{RuleLines};
ghost use Rattle.frz_planes.specs.Planes.{has_pair};
ghost use Rattle.frz_kingless.specs.Boards.{AreLive, IsBoardOf};
ghost use Rattle.frz_plane_arms.specs.Arms.{MakesMember};
ghost use Rattle.frz_plane_arms.specs.Inner.{AreBelow, AreInner};
ghost use Rattle.frz_plane_arms.specs.Inside.{LeadsInside};
ghost use Rattle.frz_plane_arms.specs.MenArms.{AreAllLive};
ghost use Rattle.frz_plane_exits.specs.Exits.{AreExits};
ghost use Rattle.frz_plane_chess.specs.Counted.{AreMated, AreMoving};
ghost use Rattle.frz_plane_chess.specs.Steps.{LeavesTo};

use crate::leaving::{leaving, leaving_anywhere};
use crate::row::Row;
use frz_fide::Bitboards;
use frz_king_planes::attacked;
use frz_plane_arms::{InnerMoves, leading_inside};
use frz_plane_exits::ExitPlane;
use frz_plane_game::Target;
use frz_planes::Plane;
use frz_sets::Rules;

/// The pairs at which there is a step; a free one, where free steps alone count.
pub(crate) fn moving(
    rules: &Rules,
    moves: &InnerMoves,
    exits: &[ExitPlane],
    live: &Plane,
    lives: &[Plane],
    only_free: bool,
) -> Plane
    requires below { AreBelow (length lives.now) moves.now }
    ensures { let r = rules.now in (value : Board → Value) (p : Board) (c : ℕ) → IsSound r →
        IsBoardOf r.groups c p → AreLive r.groups c live.now → AreAllLive r.groups lives.now →
        AreInner r p moves.now → AreExits r value p exits.now →
        AreMoving r value p only_free result }
{
    let mut pairs = leading_inside(rules, moves, live, lives, lives, only_free, true);
    pairs.union_with(&leaving_anywhere(exits, only_free));
    pairs
}

/// The pairs at which the side to move is mated. `live` has the pairs of the positions, and `moving`
/// those at which there is a step.
pub(crate) fn mated(p: &Bitboards, live: &Plane, moving: &Plane) -> Plane
    ensures { (r : RuleLines) (value : Board → Value) (c : ℕ) → IsSound r →
        IsBoardOf r.groups c p.now → AreLive r.groups c live.now →
        AreMoving r value p.now false moving.now → AreMated r value p.now result }
{
    let mut pairs = attacked(p, p.turn());
    pairs.cut_with(live);
    pairs.without(moving);
    pairs
}

/// The pairs at which a step leads into the target, or elsewhere where `into` is false; a free step,
/// where free steps alone count.
pub(crate) fn leading(
    rules: &Rules,
    row: &Row,
    live: &Plane,
    lives: &[Plane],
    only_free: bool,
    target: &Target<'_>,
    into: bool,
) -> Plane
    requires below { AreBelow (length lives.now) row.now.moves }
    requires many { length target.now.planes.now ≡ length lives.now }
    ensures { let r = rules.now in let to = target.now in
        (value : Board → Value) (p : Board) (c : ℕ) → IsSound r → IsBoardOf r.groups c p →
        AreLive r.groups c live.now → AreAllLive r.groups lives.now →
        AreInner r p row.now.moves → AreExits r value p row.now.exits.items →
        (a b : ℕ) → a < 64 → b < 64 → (has_pair result a b ≡ true)
        ↔ (MakesMember r.groups p a b × (LeadsInside r p only_free into to.planes.now a b
        ⊎ LeavesTo r value p only_free into to.side to.exits a b)) }
{
    let mut pairs = leading_inside(
        rules,
        &row.moves,
        live,
        lives,
        target.planes,
        only_free,
        into,
    );
    pairs.union_with(&leaving(&row.exits, only_free, target.side, target.exits, into));
    pairs
}
