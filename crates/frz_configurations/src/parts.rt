//! A number taken apart, group by group, from the last group on.

ghost use Rattle.std.specs.Prelude.{ℕ, ◌≡◌, ◌<◌, ◌≤◌, [], ◌∷◌, List, true};
ghost use Rattle.frz_sets.specs.Sets.{radix_of};
ghost use Rattle.frz_sets.specs.Views.{GroupLine};
ghost use Rattle.frz_configurations.specs.Configurations.{has_kings as holds_kings};
ghost use Rattle.frz_configurations.specs.Parts.{AreKings, IsParted};

use frz_board::{Colour, Kind, Square};
use frz_sets::Group;

/// What the digits of the last groups of a set give: their configuration and how many there are,
/// the kings' squares, and the rest of the number, which the groups before them make.
#[derive(Clone, Copy)]
pub(crate) struct Parts {
    pub rest: u32,
    pub configuration: u64,
    pub count: u64,
    pub white: Square,
    pub black: Square,
}

/// Are the group's states those of a king? Either all are or none, so the first one tells.
pub(crate) fn has_kings(group: &Group) -> bool
    requires { holds_kings group.now ≡ true → AreKings group.now }
    ensures { result ≡ holds_kings group.now }
{
    match group.states.first() {
        None => false,
        Some(state) => state.0 == Kind::King,
    }
}

/// The number before any group is looked at.
pub(crate) fn whole(number: u32) -> Parts
    ensures { IsParted [] number result }
{
    Parts {
        rest: number,
        configuration: 0,
        count: 1,
        white: Square::at(0),
        black: Square::at(0),
    }
}

/// The parts after one group more, which stands before those of `parts`.
pub(crate) fn taken(parts: &Parts, group: &Group, radix: u32) -> Parts
    requires radix { radix ≡ radix_of group.now }
    requires some { 0 < radix }
    requires fits { radix ≤ 134217728 }
    requires few { parts.now.count ≤ 134217728 }
    requires small { parts.now.configuration ≤ 134217728 }
    requires kings { holds_kings group.now ≡ true → AreKings group.now }
    ensures { (gs : List GroupLine) (number : ℕ) → IsParted gs number parts.now →
        IsParted (group.now ∷ gs) number result }
{
    let mut next = *parts;
    let digit = parts.rest % radix;
    next.rest = parts.rest / radix;
    if has_kings(group) {
        let (_, square) = group.states[digit as usize];
        match group.colour {
            Colour::White => next.white = square,
            Colour::Black => next.black = square,
        }
    } else {
        next.configuration += u64::from(digit) * parts.count;
        next.count *= u64::from(radix);
    }
    next
}
