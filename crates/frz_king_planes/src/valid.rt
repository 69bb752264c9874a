//! The pairs of squares on which the kings make a valid position.

ghost use Rattle.std.specs.Prelude.{ℕ, ◌≡◌, ◌<◌, true};
ghost use Rattle.frz_planes.specs.Planes.{has_pair, IsPlaneOf};
ghost use Rattle.frz_king_planes.specs.Kings.{with_kings as crowned};
ghost use Rattle.frz_king_planes.specs.Room.{are_rooms};
ghost use Rattle.frz_king_planes.specs.Valid.{has_shape, AreValid};

use crate::attack::attacked;
use crate::kings::with_kings;
use crate::room::room;
use frz_bits::Bitboards;
use frz_board::Square;
use frz_planes::Plane;

/// The pairs of squares for kings that stand apart.
fn room_pairs(p: &Bitboards) -> Plane
    ensures { IsPlaneOf result (are_rooms p.now) }
{
    let squares = room(p);
    let mut pairs = Plane::product(squares, squares);
    pairs.cut_with(&Plane::apart());
    pairs
}

/// Is the position that the kings make on these pairs valid, attacks apart? So it is on all of
/// them, or on none.
fn is_shaped(p: &Bitboards, pairs: &Plane) -> bool
    requires { (a b : ℕ) → a < 64 → b < 64 → has_pair pairs.now a b ≡ true →
        are_rooms p.now a b ≡ true }
    ensures { (a b : ℕ) → a < 64 → b < 64 → has_pair pairs.now a b ≡ true →
        result ≡ has_shape (crowned p.now a b) }
{
    // the contract of `turn` tells the proof that there are 64 cells
    let _turn = p.as_position().turn();
    match pairs.next_pair(0) {
        None => false,
        Some((a, b)) => with_kings(p, Square::at(a), Square::at(b)).shape().is_ok(),
    }
}

/// The pairs of empty squares on which the kings make a valid position of the board without kings.
pub fn valid_pairs(p: &Bitboards) -> Plane
    ensures { AreValid p.now result }
{
    let turn = p.as_position().turn();
    let mut pairs = room_pairs(p);
    if !is_shaped(p, &pairs) {
        return Plane::empty();
    }
    pairs.without(&attacked(p, turn.other()));
    pairs
}
