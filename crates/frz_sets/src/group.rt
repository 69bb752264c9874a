//! A group: men of one colour and the states in which they may stand.
use frz_board::{Colour, Kind, Square};
use std::marker::Model;

/// A group: from `least` to `most` men of one colour, each in one of the states, which are in order
/// of kind, then square.
pub struct Group {
    pub colour: Colour,
    pub least: u8,
    pub most: u8,
    pub states: Vec<(Kind, Square)>,
}

impl Drop for Group {
    fn drop(self) {
        let Group {
            colour: _,
            least: _,
            most: _,
            states: _,
        } = self;
    }
}

impl Model for Group {
    ghost use Rattle.frz_sets.specs.Views.{GroupLine};

    ghost Value = { GroupLine };

    ghost view = { λ g. record {
      colour = g.colour;
      least = g.least;
      most = g.most;
      states = g.states.items;
    } };
}
