//! Moves, each from one square to another.

ghost use Rattle.std.specs.Prelude.{◌≡◌, ◌↔◌, IsSome, IfSome, IsTrue};
ghost use Rattle.frz_board.specs.Moving.{Step, is_promotion};

use super::man::Kind;
use super::square::Square;
use std::marker::Model;

/// A move: from one square to another, and what a pawn becomes by it, if anything. Moves are
/// ordered by origin, then destination, then promotion: none, queen, rook, bishop, knight.
#[derive(Clone, Copy, Debug, PartialEq, Eq, PartialOrd, Ord)]
pub struct Move {
    pub from: Square,
    pub to: Square,
    pub promo: Option<Kind>,
}

impl Model for Move {
    ghost use Rattle.std.specs.Prelude.{◌≡◌, true};
    ghost use Rattle.frz_board.specs.Moving.{Step, is_promotion};

    ghost Value = { Step };

    ghost view = { λ m. record { from = m.from; to = m.to; promo = m.promo } };

    ghost invariant = { λ m. is_promotion m.promo ≡ true };

    ghost inverse = { λ m. record { from = m.from; to = m.to; promo = m.promo } };
}

impl Move {
    /// The move, and `None` exactly where a pawn would become a king or stay a pawn.
    pub fn new(from: Square, to: Square, promo: Option<Kind>) -> Option<Move>
        ensures there { IsSome result ↔ IsTrue (is_promotion promo) }
        ensures same { IfSome result (λ m. m ≡ record { from = from; to = to; promo = promo }) }
    {
        match promo {
            Some(Kind::King | Kind::Pawn) => None,
            _ => Some(Move { from, to, promo }),
        }
    }
}

/// The default, from a1 to a1, fills the places of a list that are not in use.
impl Default for Move {
    ghost use Rattle.std.specs.Prelude.{◌≡◌, None};

    ghost is_default = { λ m. m ≡ record { from = 0; to = 0; promo = None } };

    fn default() -> Move {
        Move {
            from: Square::at(0),
            to: Square::at(0),
            promo: None,
        }
    }
}
