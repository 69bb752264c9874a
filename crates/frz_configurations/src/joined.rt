//! A number put together again, group by group, from the last group on.

ghost use Rattle.std.specs.Prelude.{ℕ, ◌≡◌, ◌<◌, ◌≤◌, [], ◌∷◌, List, Some, length, true};
ghost use Rattle.std.specs.List.{slice_get};
ghost use Rattle.frz_board.specs.declared.man.Colour.{Colour};
ghost use Rattle.frz_board.specs.declared.man.Kind.TheVariants.{King};
ghost use Rattle.frz_sets.specs.Sets.{radix_of};
ghost use Rattle.frz_sets.specs.Views.{GroupLine};
ghost use Rattle.frz_configurations.specs.Configurations.{has_kings as holds_kings};
ghost use Rattle.frz_configurations.specs.Joined.{HasKing, IsJoined, of_colour};
ghost use Rattle.frz_configurations.specs.Parts.{AreKings};

use crate::parts::has_kings;
use frz_board::{Colour, Square};
use frz_sets::Group;

/// What the last groups of a set add to a number and how many numbers they have, with the rest of
/// the configuration, which the groups before them make.
#[derive(Clone, Copy)]
pub(crate) struct Joined {
    pub rest: u32,
    pub number: u64,
    pub count: u64,
}

/// The number before any group is looked at.
pub(crate) fn nothing(configuration: u32) -> Joined
    ensures { (white black : ℕ) → IsJoined [] configuration white black result }
{
    Joined {
        rest: configuration,
        number: 0,
        count: 1,
    }
}

/// The place of the king's square among the states of a group of kings.
fn place(group: &Group, square: Square) -> u32
    requires kings { AreKings group.now }
    requires there { HasKing group.now square }
    requires short { length group.now.states ≤ 134217728 }
    ensures state { slice_get group.now.states result ≡ Some (King, square) }
    ensures fits { result < length group.now.states }
{
    let mut k: u32 = 0;
    while group.states[k as usize].1 != square {
        k += 1;
    }
    k
}

/// White's square or Black's.
pub(crate) fn square_of(colour: Colour, white: Square, black: Square) -> Square
    ensures { result ≡ of_colour colour white black }
{
    match colour {
        Colour::White => white,
        Colour::Black => black,
    }
}

/// The number after one group more, which stands before those of `joined`.
pub(crate) fn put(
    joined: &Joined,
    group: &Group,
    radix: u32,
    white: Square,
    black: Square,
) -> Joined
    requires radix { radix ≡ radix_of group.now }
    requires some { 0 < radix }
    requires fits { radix ≤ 134217728 }
    requires few { joined.now.count ≤ 134217728 }
    requires small { joined.now.number ≤ 134217728 }
    requires kings { holds_kings group.now ≡ true → AreKings group.now }
    requires there { holds_kings group.now ≡ true →
        HasKing group.now (of_colour group.now.colour white black) }
    ensures { (gs : List GroupLine) (configuration : ℕ) →
        IsJoined gs configuration white black joined.now →
        IsJoined (group.now ∷ gs) configuration white black result }
{
    if has_kings(group) {
        let digit = place(group, square_of(group.colour, white, black));
        Joined {
            rest: joined.rest,
            number: joined.number + u64::from(digit) * joined.count,
            count: joined.count * u64::from(radix),
        }
    } else {
        let digit = joined.rest % radix;
        Joined {
            rest: joined.rest / radix,
            number: joined.number + u64::from(digit) * joined.count,
            count: joined.count * u64::from(radix),
        }
    }
}
