//! The men of groups that fill all their states: they stand on the same squares in each number, so
//! they are put on a board once. The others are loose.
ghost use Rattle.std.specs.Prelude.{◌≡◌, ◌<◌, ◌+◌, ◌/◌, List, None, length, true};
ghost use Rattle.frz_sets.specs.Views.{GroupLine};
ghost use Rattle.frz_sets.specs.Sound.{IsCounted};
ghost use Rattle.frz_sets.specs.declared.limits.TheConstants.{MOST_STATES};
ghost use Rattle.frz_index.specs.Candidates.{no_men};
ghost use Rattle.frz_index.specs.FixedMen.{are_fixed_free, is_fixed as is_fixed_group, is_free_if_fixed, is_free_if_loose, put_fixed as with_fixed, put_if_fixed as with_group_if_fixed, put_if_loose as with_group_if_loose};
ghost use Rattle.frz_index.specs.FixedBoards.{AreFixedBoards, IsFixedBoard};
ghost use Rattle.frz_index.specs.Kept.{AreNumberable};

use crate::placing::put;
use crate::quotient::quotient;
use frz_board::{Colour, Square};
use frz_combinations::Triangle;
use frz_fide::Bitboards;
use frz_sets::Group;

/// Does the group fill all its states in each number?
fn is_fixed(group: &Group) -> bool
    ensures { result ≡ is_fixed_group group.now }
{
    group.least as usize == group.states.len()
}

/// Puts the men of the group on the board if it is fixed. It stops at the first man whose square is
/// not empty, and answers `false`.
fn put_if_fixed(p: &mut Bitboards, triangle: &Triangle, group: &Group) -> bool
    requires numberable { IsCounted group.now }
    requires rows { length group.now.states < triangle.now }
    ensures free { result ≡ is_free_if_fixed group.now p.old.cells }
    ensures put { result ≡ true →
        p.new ≡ record p.old { cells = with_group_if_fixed group.now p.old.cells } }
{
    if is_fixed(group) {
        put(p, triangle, group, 0)
    } else {
        true
    }
}

/// Puts the men of the group's digit on the board if it is loose. The digit is the quotient of
/// `rest` and the group's weight. It stops at the first man whose square is not empty, and answers
/// `false`.
#[inline(always)]
pub(crate) fn put_if_loose(
    p: &mut Bitboards,
    triangle: &Triangle,
    group: &Group,
    rest: u32,
    weight: u32,
) -> bool
    requires numberable { IsCounted group.now }
    requires rows { length group.now.states < triangle.now }
    requires some { 0 < weight }
    ensures free { result ≡ is_free_if_loose group.now (rest / weight) p.old.cells }
    ensures put { result ≡ true → p.new ≡
        record p.old { cells = with_group_if_loose group.now (rest / weight) p.old.cells } }
{
    if is_fixed(group) {
        true
    } else {
        put(p, triangle, group, quotient(rest, weight))
    }
}

/// Puts the men of the fixed groups on the board. It stops at the first man whose square is not
/// empty, and answers `false`; it answers `true` if all could be put.
#[inline(never)]
fn put_fixed(p: &mut Bitboards, triangle: &Triangle, groups: &[Group]) -> bool
    requires numberable { AreNumberable groups.now }
    requires rows { triangle.now ≡ MOST_STATES + 1 }
    ensures free { result ≡ are_fixed_free groups.now p.old.cells }
    ensures put { result ≡ true →
        p.new ≡ record p.old { cells = with_fixed groups.now p.old.cells } }
{
    for i in 0..groups.len() {
        if !put_if_fixed(p, triangle, &groups[i]) {
            return false;
        }
    }
    true
}

/// The board with the fixed men alone, with each side to move and no target.
#[derive(Drop)]
pub(crate) struct FixedBoards {
    pub white: Bitboards,
    pub black: Bitboards,
}

#[tactic(auto, unfolding(crate::specs::Candidates::no_men))]
fn empty_board() -> Bitboards
    ensures { result ≡ record { cells = no_men; turn = Colour.White; ep = None } }
{
    Bitboards::empty(Colour::White, None)
}

/// The boards with the fixed men alone. `None` if two of them would stand on one square.
pub(crate) fn fixed_boards(triangle: &Triangle, groups: &[Group]) -> Option<FixedBoards>
    requires numberable { AreNumberable groups.now }
    requires rows { triangle.now ≡ MOST_STATES + 1 }
    ensures { AreFixedBoards groups.now result }
{
    let mut white = empty_board();
    if !put_fixed(&mut white, triangle, groups) {
        return None;
    }
    let black = white.hand_over(None);
    Some(FixedBoards { white, black })
}

/// The board with the fixed men alone, with this side to move and this target. `None` if two of
/// them would stand on one square.
#[inline(always)]
pub(crate) fn fixed_board(
    boards: &Option<FixedBoards>,
    turn: Colour,
    ep: Option<Square>,
) -> Option<Bitboards>
    ensures { (gs : List GroupLine) → AreFixedBoards gs boards.now → IsFixedBoard gs turn ep result }
{
    match boards {
        None => None,
        Some(boards) => match turn {
            Colour::White => Some(boards.black.hand_over(ep)),
            Colour::Black => Some(boards.white.hand_over(ep)),
        },
    }
}
