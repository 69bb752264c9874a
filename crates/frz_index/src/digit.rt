//! The digit of a group: the number of the combination in which its men stand on the board.
ghost use Rattle.std.specs.Prelude.{◌≡◌, ◌<◌, ◌≤◌, ◌+◌, ◌-◌, ◌*◌, MatchOption, length, slice_index};
ghost use Rattle.frz_combinations.specs.Binomials.{capped};
ghost use Rattle.frz_combinations.specs.Selections.{choices};
ghost use Rattle.frz_sets.specs.Sets.{radix_of};
ghost use Rattle.frz_sets.specs.declared.limits.TheConstants.{MOST_NUMBERS};
ghost use Rattle.frz_index.specs.Charts.{IsChart, IsCounted as IsCountedTo};
ghost use Rattle.frz_index.specs.Places.{AreSquares, IsWithinCount, digit_of, places};
ghost use Rattle.frz_sets.specs.Sound.{IsCounted};

use crate::chart::{Chart, kind_at};
use frz_board::Man;
use frz_combinations::Triangle;
use frz_fide::{Bitboards, both, next_square, replaced};
use frz_sets::Group;

/// The men of a group that have been counted so far.
#[derive(Clone, Copy)]
pub(crate) struct Counted {
    /// How many they are.
    pub count: u32,
    /// The rank of the combination of their places, or the greatest number of 64 bits where that is
    /// greater.
    pub rank: u64,
    /// The bitboard of their squares.
    pub squares: u64,
}

/// Goes on counting with the men of kind `i`. `None` if there are then more than the group's most.
fn count_kind(
    triangle: &Triangle,
    p: &Bitboards,
    group: &Group,
    chart: &Chart,
    i: u8,
    counted: Counted,
) -> Option<Counted>
    requires few { group.now.most ≤ 16 }
    requires chart { IsChart group.now.states chart.now }
    requires rows { length group.now.states < triangle.now }
    requires kind { i < 6 }
    requires counted { IsCountedTo p.now group.now (slice_index chart.now.cuts (64 * i)) counted }
    ensures { MatchOption result (group.now.most < length (places p.now group.now))
        (IsCountedTo p.now group.now (slice_index chart.now.cuts (64 * (i + 1)))) }
{
    let man = Man {
        colour: group.colour,
        kind: kind_at(i),
    };
    let men = both(p.men(man), chart.words[i as usize]);
    let mut count = counted.count;
    let mut rank = counted.rank;
    let mut squares = counted.squares;
    let mut n = 0;
    while let Some(s) = next_square(men, n) {
        if count == group.most as u32 {
            return None;
        }
        count += 1;
        let place = chart.cuts[64 * i as usize + s.number() as usize];
        rank = rank.saturating_add(triangle.binomial(place as u32, count));
        squares = replaced(squares, s, true);
        n = s.number() + 1;
    }
    Some(Counted {
        count,
        rank,
        squares,
    })
}

/// Counts the men of the group on the board. `None` if there are more than the group's most.
pub(crate) fn count_men(
    triangle: &Triangle,
    p: &Bitboards,
    group: &Group,
    chart: &Chart,
) -> Option<Counted>
    requires few { group.now.most ≤ 16 }
    requires chart { IsChart group.now.states chart.now }
    requires rows { length group.now.states < triangle.now }
    ensures { MatchOption result (group.now.most < length (places p.now group.now))
        (IsCountedTo p.now group.now (length group.now.states)) }
{
    let mut counted = Counted {
        count: 0,
        rank: 0,
        squares: 0,
    };
    for i in chart.first..chart.end {
        counted = count_kind(triangle, p, group, chart, i, counted)?;
    }
    Some(counted)
}

/// How many combinations of the states have at least `least` and fewer than `count` places.
fn smaller(triangle: &Triangle, states: u32, least: u32, count: u32) -> u64
    requires order { least ≤ count }
    requires few { count ≤ 16 }
    requires rows { states < triangle.now }
    ensures { result ≡ capped (choices states least (count - least)) }
{
    let mut sum: u64 = 0;
    for i in least..count {
        sum = sum.saturating_add(triangle.binomial(states, i));
    }
    sum
}

/// The group's digit, and the bitboard of its men's squares. `None` if the group has too few men or
/// too many.
pub(crate) fn digit(
    triangle: &Triangle,
    p: &Bitboards,
    group: &Group,
    chart: &Chart,
) -> Option<(u32, u64)>
    requires chart { IsChart group.now.states chart.now }
    requires numberable { IsCounted group.now }
    requires size { radix_of group.now ≤ MOST_NUMBERS }
    requires rows { length group.now.states < triangle.now }
    ensures { MatchOption result (IsWithinCount p.now group.now → ⊥)
        (λ (d, squares). IsWithinCount p.now group.now × (d ≡ digit_of p.now group.now)
        × AreSquares p.now group.now squares) }
{
    let states = group.states.as_slice().len() as u32;
    let Counted {
        count,
        rank,
        squares,
    } = count_men(triangle, p, group, chart)?;
    if count < group.least as u32 {
        return None;
    }
    let first = smaller(triangle, states, group.least as u32, count);
    Some(((first + rank) as u32, squares))
}
