//! The pairs at which steps leave the set.

ghost use Rattle.std.specs.Prelude.{◌≡◌, ◌≤◌, ◌&&◌, true, false};
ghost use Rattle.frz_board.specs.Boards.{holds};
ghost use Rattle.frz_fide.specs.Legal.{can_go};
ghost use Rattle.frz_sets.specs.Sound.{IsSound};
ghost use Rattle.frz_index.specs.Kept.{is_known};
ghost use Rattle.frz_king_planes.specs.Kings.{king_cell as cell_of_king};
ghost use Rattle.frz_pair_moves.specs.Kings.{handed};
ghost use Rattle.frz_pair_moves.specs.Moves.{entered as board_entered};
ghost use Rattle.frz_plane_exits.specs.Leaving.{AreLeaving, AreMembers, IsLeft};

use crate::left::{Left, has_configuration, left_of};
use crate::mover::Mover;
use frz_board::{Colour, Kind, Man, Move, Square, cell_of};
use frz_configurations::Configurations;
use frz_fide::Bitboards;
use frz_index::Set;
use frz_king_planes::valid_pairs;
use frz_pair_moves::{after, arriving_pairs, legal_pairs};
use frz_planes::Plane;

/// The pairs at which a step that a man can go leaves the set: all at which it is legal, or none.
/// `live` has the pairs of the positions before it.
pub(crate) fn man_leaves(
    set: &Set,
    configurations: &Configurations<'_>,
    p: &Bitboards,
    live: &Plane,
    m: Move,
) -> Plane
    requires sound { IsSound configurations.now.rules.now }
    requires set { set.now ≡ configurations.now.rules.now.groups }
    requires live { AreMembers configurations.now.rules.now.groups p.now live.now }
    requires can { can_go p.now m ≡ true }
    ensures { AreLeaving configurations.now.rules.now p.now (Mover.Man m) result }
{
    let left = after(p, m);
    if has_configuration(set, configurations, &left) {
        Plane::empty()
    } else {
        legal_pairs(m, live, &valid_pairs(&left))
    }
}

/// The number of the side's king in a cell.
fn king_cell(side: Colour) -> u8
    ensures cell { result ≡ cell_of_king side }
    ensures fits { result ≤ 12 }
{
    cell_of(Man {
        colour: side,
        kind: Kind::King,
    })
}

/// Is the board, of which `left` is known, that of a configuration, and has a group the side's king
/// on the square?
fn is_inside(set: &Set, left: &Left, side: Colour, s: Square) -> bool
    ensures { result ≡ (left.now.is_inside && is_known set.now (cell_of_king side) s) }
{
    left.is_inside && set.may_stand(king_cell(side), s)
}

/// The pairs at which the step of the king of the side to move to the square leaves the set, where
/// none of its men stands: all at which it is legal, or none. `left` is known of the board that he
/// leaves.
fn king_enters(
    set: &Set,
    configurations: &Configurations<'_>,
    p: &Bitboards,
    live: &Plane,
    s: Square,
    left: &Left,
) -> Plane
    requires sound { IsSound configurations.now.rules.now }
    requires set { set.now ≡ configurations.now.rules.now.groups }
    requires live { AreMembers configurations.now.rules.now.groups p.now live.now }
    requires free { holds p.now p.now.turn s ≡ false }
    requires left { IsLeft configurations.now.rules.now.groups (board_entered p.now s) left.now }
    ensures { AreLeaving configurations.now.rules.now p.now (Mover.King s) result }
{
    let turn = p.turn();
    if is_inside(set, left, turn, s) {
        Plane::empty()
    } else {
        arriving_pairs(turn, s, live, &left.valid)
    }
}

/// The board that a king leaves which goes to the square.
fn entered(p: &Bitboards, s: Square) -> Bitboards
    ensures { result ≡ board_entered p.now s }
{
    p.hand_over(None).put(s, 0)
}

/// The pairs at which the step of the king of the side to move to the square leaves the set. `quiet`
/// is known of the board that he leaves by a step to an empty square.
pub(crate) fn king_leaves(
    set: &Set,
    configurations: &Configurations<'_>,
    p: &Bitboards,
    live: &Plane,
    s: Square,
    quiet: &Left,
) -> Plane
    requires sound { IsSound configurations.now.rules.now }
    requires set { set.now ≡ configurations.now.rules.now.groups }
    requires live { AreMembers configurations.now.rules.now.groups p.now live.now }
    requires quiet { IsLeft configurations.now.rules.now.groups (handed p.now) quiet.now }
    ensures { AreLeaving configurations.now.rules.now p.now (Mover.King s) result }
{
    if p.holds(p.turn(), s) {
        return Plane::empty();
    }
    if p.is_empty(s) {
        return king_enters(set, configurations, p, live, s, quiet);
    }
    let left = left_of(set, configurations, &entered(p, s));
    king_enters(set, configurations, p, live, s, &left)
}
