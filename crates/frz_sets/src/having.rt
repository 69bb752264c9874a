//! Which man may stand on which square in a set.
ghost use Rattle.std.specs.Prelude.{◌≡◌};
ghost use Rattle.frz_sets.specs.Sets.{is_state, has_state as some_has_state};

use crate::group::Group;
use frz_board::{Man, Square, cell_of};

/// May the man of this cell stand on this square by the states of the group? A cell is the number
/// of a man.
fn group_has_state(g: &Group, cell: u8, s: Square) -> bool
    ensures { result ≡ is_state cell s g.now }
{
    let colour = g.colour;
    g.states.iter().any(|state| {
        cell_of(Man {
            colour,
            kind: state.0,
        }) == cell
            && state.1.number() == s.number()
    })
}

/// May the man of this cell stand on this square by the states of some group?
pub fn has_state(groups: &[Group], cell: u8, s: Square) -> bool
    ensures { result ≡ some_has_state groups.now cell s }
{
    groups.iter().any(|g| group_has_state(g, cell, s))
}
