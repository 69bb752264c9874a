//! The conditions on a position that need no look at attacks, tested by the words of its men.

ghost use Rattle.std.specs.Prelude.{◌≡◌};
ghost use Rattle.frz_board.specs.Shapes.{count_of, men_of, has_kings, has_pawns_inside, has_few_men, shape_of};

use super::bitboards::Bitboards;
use frz_board::{Colour, Kind, Man, Shape, target_in_place};

/// The squares of the first and the last rank.
const END_RANKS: u64 = 0xff00_0000_0000_00ff;

impl Bitboards {
    /// The first of these conditions that fails: each side has exactly one king, no pawn stands on
    /// rank 1 or 8, each side has at most 16 men, a target is in place. Attacks are not looked at.
    pub fn shape(&self) -> Result<(), Shape>
        ensures { result ≡ shape_of self.now }
    {
        if !kings(self) {
            Err(Shape::Kings)
        } else if !pawns_inside(self) {
            Err(Shape::PawnRank)
        } else if !few_men(self) {
            Err(Shape::TooMany)
        } else if !target_in_place(self.as_position()) {
            Err(Shape::EpPlace)
        } else {
            Ok(())
        }
    }
}

/// How many men of this colour and kind stand on the board.
fn count(p: &Bitboards, colour: Colour, kind: Kind) -> u32
    ensures { result ≡ count_of p.now colour kind }
{
    // the contract of `turn` tells the proof that there are 64 cells
    let _turn = p.as_position().turn();
    p.men(Man { colour, kind }).count_ones()
}

/// How many men the side has.
fn count_side(p: &Bitboards, colour: Colour) -> u32
    ensures { result ≡ men_of p.now colour }
{
    let _turn = p.as_position().turn();
    p.side(colour).count_ones()
}

#[tactic(auto, unfolding(frz_board::specs::Shapes::has_kings))]
fn kings(p: &Bitboards) -> bool
    ensures { result ≡ has_kings p.now }
{
    count(p, Colour::White, Kind::King) == 1 && count(p, Colour::Black, Kind::King) == 1
}

#[tactic(auto, unfolding(frz_board::specs::Shapes::has_few_men))]
fn few_men(p: &Bitboards) -> bool
    ensures { result ≡ has_few_men p.now }
{
    count_side(p, Colour::White) <= 16 && count_side(p, Colour::Black) <= 16
}

fn pawns_inside(p: &Bitboards) -> bool
    ensures { result ≡ has_pawns_inside p.now }
{
    let kind = Kind::Pawn;
    let white = p.men(Man {
        colour: Colour::White,
        kind,
    });
    let black = p.men(Man {
        colour: Colour::Black,
        kind,
    });
    END_RANKS & (white | black) == 0
}
