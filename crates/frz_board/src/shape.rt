//! The conditions on a position that can be tested without looking for attacks.

ghost use Rattle.std.specs.Prelude.{◌≡◌};
ghost use Rattle.frz_board.specs.Shapes.{has_kings, has_pawn, has_pawns_inside, has_few_men, shape_of};

use super::man::{Colour, Kind};
use super::passing::target_in_place;
use super::position::Position;
use super::square::Square;

/// The conditions on a position that need no look at attacks, each named for what fails.
#[derive(Clone, Copy, Debug, PartialEq, Eq)]
pub enum Shape {
    /// A side has no king, or several.
    Kings,
    /// A pawn stands on rank 1 or rank 8.
    PawnRank,
    /// A side has more than 16 men.
    TooMany,
    /// There is a target, and no pawn has just passed it, or none stands beside to capture that
    /// pawn.
    EpPlace,
}

impl Position {
    /// The first of these conditions that fails: each side has exactly one king, no pawn stands on
    /// rank 1 or 8, each side has at most 16 men, a target is in place. Attacks are not looked at.
    pub fn shape(&self) -> Result<(), Shape>
        ensures { result ≡ shape_of self.now }
    {
        if !kings(self) {
            Err(Shape::Kings)
        } else if !pawns_inside(self) {
            Err(Shape::PawnRank)
        } else if !few_men(self) {
            Err(Shape::TooMany)
        } else if !target_in_place(self) {
            Err(Shape::EpPlace)
        } else {
            Ok(())
        }
    }
}

#[tactic(auto, unfolding(crate::specs::Shapes::has_kings))]
fn kings(p: &Position) -> bool
    ensures { result ≡ has_kings p.now }
{
    p.count(Colour::White, Kind::King) == 1 && p.count(Colour::Black, Kind::King) == 1
}

#[tactic(auto, unfolding(crate::specs::Shapes::has_few_men))]
fn few_men(p: &Position) -> bool
    ensures { result ≡ has_few_men p.now }
{
    p.men(Colour::White) <= 16 && p.men(Colour::Black) <= 16
}

/// Does no pawn stand on rank 1 or 8? It looks at the two ends of each file.
fn pawns_inside(p: &Position) -> bool
    ensures { result ≡ has_pawns_inside p.now }
{
    for file in 0..8 {
        if pawn_on(p, Square::at(file)) || pawn_on(p, Square::at(56 + file)) {
            return false;
        }
    }
    true
}

fn pawn_on(p: &Position, s: Square) -> bool
    ensures { result ≡ has_pawn p.now s }
{
    p.has(Colour::White, Kind::Pawn, s) || p.has(Colour::Black, Kind::Pawn, s)
}
