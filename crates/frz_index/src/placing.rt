//! The way back from a digit: the men of its combination are put on the board.
ghost use Rattle.std.specs.Prelude.{◌≡◌, ◌<◌, ◌≤◌, ◌-◌, ℕ, length, true};
ghost use Rattle.frz_combinations.specs.Binomials.{choose};
ghost use Rattle.frz_combinations.specs.Combinations.{unrank};
ghost use Rattle.frz_combinations.specs.Selections.{count_and_rank};
ghost use Rattle.frz_sets.specs.declared.limits.TheConstants.{MOST_STATES};
ghost use Rattle.frz_index.specs.Candidates.{put_group, put_men};
ghost use Rattle.frz_index.specs.FreeSquares.{are_free, is_group_free};
ghost use Rattle.frz_sets.specs.Sound.{IsCounted};

use frz_board::{Colour, Kind, Man, Square, cell_of};
use frz_combinations::Triangle;
use frz_fide::Bitboards;
use frz_sets::Group;

/// How many men a digit stands for, and the rank of their combination among those of as many men.
fn men_of(triangle: &Triangle, states: u32, least: u32, most: u32, digit: u32) -> (u32, u64)
    requires order { least ≤ most }
    requires few { most ≤ 16 }
    requires rows { states < triangle.now }
    ensures men { result ≡ count_and_rank states least (most - least) digit }
    ensures most { result.0 ≤ most }
    ensures few { result.0 ≤ 16 }
    ensures small { result.1 ≤ digit }
{
    let mut count = least;
    let mut rest = digit as u64;
    while count < most {
        let ways = triangle.binomial(states, count);
        if rest < ways {
            return (count, rest);
        }
        rest -= ways;
        count += 1;
    }
    (count, rest)
}

/// The last place of the combination of `count` places below `end` that has this rank: the greatest
/// whose binomial number C(place, count) is not above the rank.
fn last_place(triangle: &Triangle, end: u32, count: u32, rank: u64) -> u32
    requires end { 0 < end }
    requires some { 0 < count }
    requires few { count ≤ 16 }
    requires small { rank < 4294967296 }
    requires rows { end ≤ triangle.now }
    ensures below { result < end }
    ensures fits { choose result count ≤ rank }
    ensures greatest { (x : ℕ) → result < x → x < end → rank < choose x count }
{
    if count == 1 {
        return (rank as u32).min(end - 1);
    }
    let mut low = 0;
    let mut high = end;
    while high - low > 1 {
        let middle = low + (high - low) / 2;
        if triangle.binomial(middle, count) <= rank {
            low = middle;
        } else {
            high = middle;
        }
    }
    low
}

/// Puts on the board the `count` men whose combination of states has this rank. It stops at the
/// first man whose square is not empty, and answers `false`; it answers `true` if all could be put.
fn put_ranked(
    p: &mut Bitboards,
    triangle: &Triangle,
    colour: Colour,
    states: &[(Kind, Square)],
    count: u32,
    rank: u64,
) -> bool
    requires few { count ≤ 16 }
    requires small { rank < 4294967296 }
    requires short { length states.now ≤ MOST_STATES }
    requires rows { length states.now < triangle.now }
    ensures free { result
        ≡ are_free colour states.now (unrank (length states.now) count rank) p.old.cells }
    ensures put { result ≡ true → p.new ≡
        record p.old {
          cells = put_men colour states.now (unrank (length states.now) count rank)
              p.old.cells;
        } }
{
    let mut end = states.len() as u32;
    let mut left = count;
    let mut rest = rank;
    while left > 0 && end > 0 {
        end = last_place(triangle, end, left, rest);
        rest -= triangle.binomial(end, left);
        left -= 1;
        let (kind, square) = states[end as usize];
        if !p.is_empty(square) {
            return false;
        }
        p.set(square, cell_of(Man { colour, kind }));
    }
    true
}

/// Puts one man on the board, at the state of this rank, if the square is empty, and answers
/// whether it was. The rank of a single place is the place itself.
fn put_one(p: &mut Bitboards, colour: Colour, states: &[(Kind, Square)], rank: u64) -> bool
    requires some { 0 < length states.now }
    ensures free { result
        ≡ are_free colour states.now (unrank (length states.now) 1 rank) p.old.cells }
    ensures put { result ≡ true → p.new ≡
        record p.old {
          cells = put_men colour states.now (unrank (length states.now) 1 rank) p.old.cells;
        } }
{
    let place = (rank as usize).min(states.len() - 1);
    let (kind, square) = states[place];
    if !p.is_empty(square) {
        return false;
    }
    p.set(square, cell_of(Man { colour, kind }));
    true
}

/// Puts on the board the men that a group's digit stands for. It stops at the first man whose
/// square is not empty, and answers `false`; it answers `true` if all could be put.
#[inline(always)]
pub(crate) fn put(p: &mut Bitboards, triangle: &Triangle, group: &Group, digit: u32) -> bool
    requires numberable { IsCounted group.now }
    requires rows { length group.now.states < triangle.now }
    ensures free { result ≡ is_group_free group.now digit p.old.cells }
    ensures put { result ≡ true →
        p.new ≡ record p.old { cells = put_group group.now digit p.old.cells } }
{
    let states = group.states.len() as u32;
    let (count, rank) = men_of(
        triangle,
        states,
        group.least as u32,
        group.most as u32,
        digit,
    );
    if count == 1 {
        return put_one(p, group.colour, &group.states, rank);
    }
    put_ranked(p, triangle, group.colour, &group.states, count, rank)
}
