//! A pair of squares on which kings make a valid position.

ghost use Rattle.std.specs.Prelude.{ℕ, ◌≡◌, true, IfSome, IsTrue, MatchOption};
ghost use Rattle.frz_fide.specs.Valid.{IsValid};
ghost use Rattle.frz_planes.specs.Planes.{has_pair};
ghost use Rattle.frz_king_planes.specs.Kings.{are_free, with_kings as crowned};
ghost use Rattle.frz_kingless.specs.Boards.{are_known};
ghost use Rattle.frz_plane_arms.specs.Crowning.{HasNoValid, MakesValid};

use frz_board::Square;
use frz_fide::{Bitboards, valid_boards};
use frz_index::Set;
use frz_king_planes::{valid_pairs, with_kings};
use frz_kingless::known_pairs;
use frz_planes::Plane;

/// How many pairs are tried one by one, before all are looked at together.
const FEW_PAIRS: u8 = 16;

/// Are the squares free, and do the kings make a valid position on them?
fn is_made(q: &Bitboards, white: Square, black: Square) -> bool
    ensures free { IsTrue result → are_free q.now white black ≡ true }
    ensures valid { IsTrue result → IsValid (crowned q.now white black) }
{
    if white == black || !q.is_empty(white) || !q.is_empty(black) {
        return false;
    }
    valid_boards(&with_kings(q, white, black)).is_ok()
}

/// Of some pairs of the plane, each in a row of its own, the first on which the kings make a valid
/// position.
fn early_pair(known: &Plane, q: &Bitboards) -> Option<(u8, u8)>
    ensures { IfSome result (λ (a, b). MakesValid (has_pair known.now) q.now a b) }
{
    let mut n: u16 = 0;
    for _ in 0..FEW_PAIRS {
        let (a, b) = known.next_pair(n)?;
        if is_made(q, Square::at(a), Square::at(b)) {
            return Some((a, b));
        }
        n = (64 * u16::from(a) + u16::from(b) + 65).min(4096);
    }
    None
}

/// A pair of squares on which groups have the kings and on which they make a valid position. `None`
/// where there is none.
pub(crate) fn valid_pair(set: &Set, q: &Bitboards) -> Option<(u8, u8)>
    ensures { MatchOption result (HasNoValid (are_known set.now) q.now)
        (λ (a, b). MakesValid (are_known set.now) q.now a b) }
{
    let mut pairs = known_pairs(set);
    if let Some(pair) = early_pair(&pairs, q) {
        return Some(pair);
    }
    pairs.cut_with(&valid_pairs(q));
    pairs.next_pair(0)
}
