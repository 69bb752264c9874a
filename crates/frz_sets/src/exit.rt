//! What an exit line says: a value where conditions hold.
use frz_board::{Colour, Kind, Square, SquareSet};
use std::marker::Model;

/// What a condition asks of a position.
#[derive(Clone, Copy, PartialEq, Eq)]
pub enum Test {
    /// The side is to move.
    Turn(Colour),
    /// The number of men of this colour and kind on the board is from the least to the most.
    Count(Colour, Kind, u8, u8),
    /// A man of this colour and kind stands on one of the squares.
    On(Colour, Kind, SquareSet),
    /// The distance of the side's king from the square is from the least to the most. It is the
    /// greater of the files and the ranks between them.
    Distance(Colour, Square, u8, u8),
    /// The side to move is in check.
    Check,
    Always,
}

/// A test that must hold, or must not hold where it is negated.
pub struct Cond {
    pub negated: bool,
    pub test: Test,
}

impl Drop for Cond {
    fn drop(self) {
        let Cond {
            negated: _,
            test: _,
        } = self;
    }
}

impl Model for Cond {
    ghost use Rattle.frz_sets.specs.Views.{Condition};

    ghost Value = { Condition };

    ghost view = { λ c. record { negated = c.negated; test = c.test } };
}

/// What an exit line says of a position outside the set. `WhiteWinsIn` and `BlackWinsIn` hold the
/// number of plies in which that side mates at most; sound rules have at most 1,000 there.
#[derive(Clone, Copy, Debug, PartialEq, Eq)]
pub enum Value {
    WhiteWins,
    BlackWins,
    Draw,
    WhiteHolds,
    BlackHolds,
    Unknown,
    WhiteWinsIn(u32),
    BlackWinsIn(u32),
}

/// An exit line: the value of each position outside the set where all the conditions hold.
pub struct Exit {
    pub value: Value,
    pub conds: Vec<Cond>,
}

impl Drop for Exit {
    fn drop(self) {
        let Exit { value: _, conds: _ } = self;
    }
}

impl Model for Exit {
    ghost use Rattle.frz_sets.specs.Views.{ExitLine};

    ghost Value = { ExitLine };

    ghost view = { λ e. record { value = e.value; conds = e.conds.items } };
}
