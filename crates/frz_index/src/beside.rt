//! The number of a position, computed from that of another one by the men that changed squares.
ghost use Rattle.std.specs.Prelude.{◌≡◌, ◌<◌, ◌≤◌, ◌+◌, ◌==◌, MatchOption, false, length, not, slice_index};
ghost use Rattle.std.specs.List.{AllByRecursion};
ghost use Rattle.frz_squares.specs.SquareSets.{set_of};
ghost use Rattle.frz_fide.specs.Valid.{IsValid};
ghost use Rattle.frz_sets.specs.Sets.{radix_of};
ghost use Rattle.frz_sets.specs.Sound.{IsCounted};
ghost use Rattle.frz_sets.specs.declared.limits.TheConstants.{MOST_NUMBERS, MOST_STATES};
ghost use Rattle.frz_index.specs.Beside.{AreChanges, AreMoved, HasNoneOf, IsChange};
ghost use Rattle.frz_index.specs.Charts.{AreCharts, IsChart};
ghost use Rattle.frz_index.specs.Kept.{AreNumberable, AreWeights, IsPlan};
ghost use Rattle.frz_index.specs.Members.{HasNumber, Member, Num};
ghost use Rattle.frz_index.specs.Places.{IsWithinCount};

use crate::across::turn_adds;
use crate::chart::{Chart, kind_at};
use crate::digit::digit;
use crate::plan::Plan;
use frz_board::{Man, cell_of};
use frz_combinations::Triangle;
use frz_fide::{Bitboards, both, changed, next_square, replaced, without};
use frz_sets::Group;

/// For each cell (0 for empty, 1 to 12 for a man), the bitboard of the squares that changed to it
/// or from it.
fn moved_men(p: &Bitboards, q: &Bitboards, squares: u64) -> [u64; 13]
    requires { squares
        ≡ set_of (λ s. not (slice_index p.now.cells s == slice_index q.now.cells s)) }
    ensures { AreMoved p.now q.now result }
{
    let mut moved = [0; 13];
    let mut n = 0;
    while let Some(s) = next_square(squares, n) {
        let before = p.as_position().cell(s) as usize;
        let after = q.as_position().cell(s) as usize;
        moved[before] = replaced(moved[before], s, true);
        moved[after] = replaced(moved[after], s, true);
        n = s.number() + 1;
    }
    moved
}

/// Has a man of the group come to a square or left one? The words are those of `moved_men`.
fn is_touched(group: &Group, chart: &Chart, moved: &[u64; 13]) -> bool
    requires { IsChart group.now.states chart.now }
    ensures { result ≡ false → HasNoneOf group.now moved.now }
{
    for i in chart.first..chart.end {
        let man = Man {
            colour: group.colour,
            kind: kind_at(i),
        };
        if both(moved[cell_of(man) as usize], chart.words[i as usize]) != 0 {
            return true;
        }
    }
    false
}

/// A group's digit in both positions, or 0 twice where none of its men has come or gone.
#[derive(Clone, Copy)]
pub(crate) struct Change {
    pub before: u32,
    pub after: u32,
    /// The bitboard of its men afterwards, or 0 where none of them has come or gone.
    pub squares: u64,
}

/// How a group's digit changes from `p` to `q`. `None` if it has too few men or too many in `q`.
fn change_of(
    triangle: &Triangle,
    p: &Bitboards,
    q: &Bitboards,
    moved: &[u64; 13],
    group: &Group,
    chart: &Chart,
) -> Option<Change>
    requires chart { IsChart group.now.states chart.now }
    requires numberable { IsCounted group.now }
    requires size { radix_of group.now ≤ MOST_NUMBERS }
    requires rows { length group.now.states < triangle.now }
    requires before { IsWithinCount p.now group.now }
    requires moved { AreMoved p.now q.now moved.now }
    ensures { MatchOption result (IsWithinCount q.now group.now → ⊥)
        (IsChange p.now q.now group.now) }
{
    if !is_touched(group, chart, moved) {
        return Some(Change {
            before: 0,
            after: 0,
            squares: 0,
        });
    }
    let (after, squares) = digit(triangle, q, group, chart)?;
    let (before, _) = digit(triangle, p, group, chart)?;
    Some(Change {
        before,
        after,
        squares,
    })
}

/// What the digits of the groups whose men have come or gone add to a number in both positions.
#[derive(Clone, Copy)]
pub(crate) struct Changes {
    pub before: u64,
    pub after: u64,
    /// The bitboard of these groups' men afterwards.
    pub squares: u64,
}

/// How the groups' digits change from `p` to `q`. `None` if a group has too few men or too many in
/// `q`.
fn changes_of(
    triangle: &Triangle,
    p: &Bitboards,
    q: &Bitboards,
    moved: &[u64; 13],
    groups: &[Group],
    charts: &[Chart],
    weights: &[u32],
) -> Option<Changes>
    requires numberable { AreNumberable groups.now }
    requires charts { AreCharts groups.now charts.now }
    requires weights { AreWeights groups.now weights.now }
    requires rows { triangle.now ≡ MOST_STATES + 1 }
    requires before { AllByRecursion (IsWithinCount p.now) groups.now }
    requires moved { AreMoved p.now q.now moved.now }
    ensures { MatchOption result (AllByRecursion (IsWithinCount q.now) groups.now → ⊥)
        (AreChanges p.now q.now groups.now) }
{
    let mut before: u64 = 0;
    let mut after: u64 = 0;
    let mut squares = 0;
    for i in 0..groups.len() {
        let change = change_of(triangle, p, q, moved, &groups[i], &charts[i])?;
        let weight = u64::from(weights[i]);
        before += u64::from(change.before) * weight;
        after += u64::from(change.after) * weight;
        squares |= change.squares;
    }
    Some(Changes {
        before,
        after,
        squares,
    })
}

/// The number of `q`, computed from the number `i` of `p`. `None` if `q` is outside the set.
pub(crate) fn number_beside_in(plan: &Plan, i: u32, p: &Bitboards, q: &Bitboards) -> Option<u32>
    requires plan { IsPlan plan.now }
    requires number { HasNumber plan.now.groups.items i p.now }
    requires valid { IsValid q.now }
    ensures { let gs = plan.now.groups.items in
        MatchOption result (Member gs q.now → ⊥) (λ n. Member gs q.now × (n ≡ Num gs q.now)) }
{
    let squares = changed(p, q);
    let moved = moved_men(p, q, squares);
    let digits = changes_of(
        &plan.triangle,
        p,
        q,
        &moved,
        &plan.groups,
        &plan.charts,
        &plan.weights,
    )?;
    if without(both(squares, q.occupied()), digits.squares) != 0 {
        return None;
    }
    let before = turn_adds(plan, p.turn(), p.ep());
    let after = turn_adds(plan, q.turn(), q.ep());
    Some((u64::from(i) + digits.after + after - digits.before - before) as u32)
}
