//! The possible targets of a set: squares that a pawn may just have passed, with a pawn beside it
//! that may capture it en passant.
ghost use Rattle.std.specs.Prelude.{◌≡◌, ◌&&◌, ◌≤◌, length};
ghost use Rattle.std.specs.List.{list_any};
ghost use Rattle.frz_board.specs.Squares.{is_beside, squares};
ghost use Rattle.frz_sets.specs.Sets.{has_state as some_has_state, pawn, is_pair, is_possible_for, is_possible, targets};

use crate::group::Group;
use crate::having::has_state;
use frz_board::{Colour, Kind, Man, Square, cell_of};

/// The cell, that is, the number of the man, of a pawn of the colour.
pub fn pawn_cell(colour: Colour) -> u8
    ensures cell { result ≡ pawn colour }
    ensures fits { result ≤ 12 }
{
    cell_of(Man {
        colour,
        kind: Kind::Pawn,
    })
}

/// Can a pawn of the colour stand beside the square?
#[tactic(auto, unfolding(frz_board::specs::Squares::squares))]
fn have_pawn_beside(groups: &[Group], colour: Colour, b: Square) -> bool
    ensures { result ≡
        list_any (λ s. is_beside s b && some_has_state groups.now (pawn colour) s) squares }
{
    (0..64u8).any(|s| Square::at(s).is_beside(b)
        && has_state(groups, pawn_cell(colour), Square::at(s)))
}

fn has_pair(groups: &[Group], colour: Colour, b: Square) -> bool
    ensures { result ≡ is_pair groups.now colour b }
{
    has_state(groups, pawn_cell(colour), b) && have_pawn_beside(groups, colour.other(), b)
}

fn is_target_of(groups: &[Group], colour: Colour, t: Square) -> bool
    ensures { result ≡ is_possible_for groups.now colour t }
{
    t.is_passing_rank(colour) && has_pair(groups, colour, t.ahead(colour))
}

/// Can the square be an en passant target in the set, of a pawn of either colour?
pub fn is_target(groups: &[Group], t: Square) -> bool
    ensures { result ≡ is_possible groups.now t }
{
    is_target_of(groups, Colour::White, t) || is_target_of(groups, Colour::Black, t)
}

/// How many squares can be an en passant target in the set, at most 64.
#[tactic(auto, unfolding(frz_board::specs::Squares::squares))]
pub fn target_count(groups: &[Group]) -> usize
    ensures count { result ≡ length (targets groups.now) }
    ensures few { result ≤ 64 }
{
    (0..64u8)
        .filter(|t| is_target(groups, Square::at(*t)))
        .count()
}
