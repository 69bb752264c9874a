//! Numbers of the former format: a digit for each man that a group may have.
ghost use Rattle.std.specs.Prelude.{◌≡◌, ◌<◌, ◌≤◌, ◌+◌, ◌-◌, ◌*◌, ◌↔◌, IfSome, IsSome, MatchOption, filter, length, replicate};
ghost use Rattle.std.specs.List.{AllByRecursion, flat_map, range_with_len};
ghost use Rattle.frz_combinations.specs.Binomials.{capped};
ghost use Rattle.frz_combinations.specs.MixedRadix.{product, value_onto};
ghost use Rattle.frz_fide.specs.Valid.{IsValid};
ghost use Rattle.frz_sets.specs.Sets.{is_possible};
ghost use Rattle.frz_sets.specs.Sound.{AreCounted, IsCounted, IsSound};
ghost use Rattle.frz_sets.specs.declared.limits.TheConstants.{MOST_STATES};
ghost use Rattle.frz_index.specs.Members.{Member};
ghost use Rattle.frz_index.specs.Membership.{are_men_covered};
ghost use Rattle.frz_index.specs.OldDigits.{ArePlaced, radices_from, turn_before};
ghost use Rattle.frz_index.specs.OldNumbers.{OldNum, old_digits, old_radices, old_radix, old_size_of};
ghost use Rattle.frz_index.specs.Places.{IsWithinCount, places_among};
ghost use Rattle.frz_index.specs.declared.old.TheConstants.{MOST_OLD_NUMBERS};

use frz_board::{Colour, Kind, Position, Square};
use frz_sets::{Group, Rules, has_state, is_target, target_count};

/// The most numbers that a set of the former format may have: 2^24.
pub const MOST_OLD_NUMBERS: u32 = 16_777_216;

/// The radix of digit `k` of a group: the number of its states, and from digit `least` on one value
/// more, which means an absent man.
fn radix(states: u64, least: u8, k: u8) -> u64
    requires { states ≤ MOST_STATES }
    ensures { result ≡ old_radix states least k }
{
    if k < least { states } else { states + 1 }
}

/// The product of the radices of the group's digits, or the greatest number of 64 bits where that
/// product is greater.
fn radix_product(g: &Group) -> u64
    requires { IsCounted g.now }
    ensures { result ≡ capped (product (old_radices g.now)) }
{
    let states = g.states.as_slice().len() as u64;
    let mut product = 1u64;
    for k in 0..g.most {
        product = product.saturating_mul(radix(states, g.least, k));
    }
    product
}

fn size(groups: &[Group]) -> u64
    requires { AreCounted groups.now }
    ensures { result ≡ capped (old_size_of groups.now) }
{
    let mut total = 2 + target_count(groups) as u64;
    for g in groups {
        total = total.saturating_mul(radix_product(g));
    }
    total
}

/// How many numbers the set of the rules has in the former format, or the greatest number of 64
/// bits where that is greater.
pub fn old_size(r: &Rules) -> u64
    requires { IsSound r.now }
    ensures { result ≡ capped (old_size_of r.now.groups) }
{
    size(&r.groups)
}

/// The number with one more digit appended, or the greatest number of 64 bits where that is
/// greater.
fn with_digit(number: u64, radix: u64, digit: u64) -> u64
    ensures { result ≡ capped (number * radix + digit) }
{
    number.saturating_mul(radix).saturating_add(digit)
}

/// How many men of the colour stand as the states say, and the number with their places appended as
/// digits. `None` if there are more than `most`.
fn with_places(
    p: &Position,
    colour: Colour,
    states: &[(Kind, Square)],
    least: u8,
    most: u8,
    start: u64,
) -> Option<(u8, u64)>
    requires { length states.now ≤ MOST_STATES }
    ensures { MatchOption result
        (most < length (places_among p.now colour states.now (length states.now)))
        (λ x. ArePlaced p.now colour states.now least most start (length states.now) x.0 x.1) }
{
    let mut count = 0;
    let mut number = start;
    for k in 0..states.len() {
        let (kind, square) = states[k];
        if p.has(colour, kind, square) {
            if count == most {
                return None;
            }
            number = with_digit(number, radix(states.len() as u64, least, count), k as u64);
            count += 1;
        }
    }
    Some((count, number))
}

/// The number with the digits `count` to `most` - 1 appended, each that of an absent man.
fn with_absent(states: u64, least: u8, count: u8, most: u8, start: u64) -> u64
    requires order { count ≤ most }
    requires few { states ≤ MOST_STATES }
    ensures { result ≡ capped (value_onto start (radices_from states least count (most - count))
        (replicate (most - count) states)) }
{
    let mut number = start;
    for k in count..most {
        number = with_digit(number, radix(states, least, k), states);
    }
    number
}

/// The number with the group's digits appended. `None` if the group has too few men or too many.
fn with_group(p: &Position, g: &Group, start: u64) -> Option<u64>
    requires { IsCounted g.now }
    ensures { let counted = IsWithinCount p.now g.now in
        MatchOption result (counted → ⊥) (λ n. counted
        × (n ≡ capped (value_onto start (old_radices g.now) (old_digits p.now g.now)))) }
{
    let states = g.states.as_slice();
    let (count, number) = with_places(p, g.colour, states, g.least, g.most, start)?;
    if count < g.least {
        return None;
    }
    let absent = with_absent(states.len() as u64, g.least, count, g.most, number);
    Some(absent)
}

/// The number with the digits of all groups appended. `None` if a group has too few men or too
/// many.
fn with_groups(p: &Position, groups: &[Group], start: u64) -> Option<u64>
    requires { AreCounted groups.now }
    ensures { let counted = AllByRecursion (IsWithinCount p.now) groups.now in
        MatchOption result (counted → ⊥) (λ n. counted
        × (n ≡ capped (value_onto start (flat_map old_radices groups.now)
        (flat_map (old_digits p.now) groups.now)))) }
{
    let mut number = start;
    for g in groups {
        number = with_group(p, g, number)?;
    }
    Some(number)
}

/// How many squares with a lower number are possible targets.
fn targets_before(groups: &[Group], t: Square) -> usize
    ensures count { result ≡ length (filter (is_possible groups.now) (range_with_len 0 t)) }
    ensures few { result ≤ 64 }
{
    (0..t.number())
        .filter(|x| is_target(groups, Square::at(*x)))
        .count()
}

/// The number of the position's turn state: 0 for White to move, 1 for Black to move, and for a
/// target 2 plus the number of possible targets before it.
fn turn_state(groups: &[Group], p: &Position) -> u64
    ensures { result ≡ turn_before groups.now p.now.turn p.now.ep }
{
    match p.ep() {
        Some(t) => 2 + targets_before(groups, t) as u64,
        None => match p.turn() {
            Colour::White => 0,
            Colour::Black => 1,
        },
    }
}

/// Is each man of the position, on its square, a state of some group?
#[tactic(auto, unfolding(crate::specs::Membership::are_men_covered, frz_board::specs::Squares::squares))]
fn are_covered(groups: &[Group], p: &Position) -> bool
    ensures { result ≡ are_men_covered groups.now p.now }
{
    (0..64u8).all(|s| {
        let cell = p.cell(Square::at(s));
        cell == 0 || has_state(groups, cell, Square::at(s))
    })
}

/// The number of a position in the former format. `None` exactly where the position is outside the
/// set.
pub fn old_number(r: &Rules, p: &Position) -> Option<u32>
    requires sound { IsSound r.now }
    requires valid { IsValid p.now }
    requires size { old_size_of r.now.groups ≤ MOST_OLD_NUMBERS }
    ensures member { IsSome result ↔ Member r.now.groups p.now }
    ensures number { IfSome result (λ n. n ≡ OldNum r.now.groups p.now) }
{
    if !are_covered(&r.groups, p) {
        return None;
    }
    let turn = turn_state(&r.groups, p);
    let number = with_groups(p, &r.groups, turn)?;
    Some(number as u32)
}
