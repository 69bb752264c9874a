//! The digits of all groups, to a number and back.
ghost use Rattle.std.specs.Prelude.{◌≡◌, ◌<◌, ◌+◌, MatchOption, map, true};
ghost use Rattle.std.specs.List.{AllByRecursion};
ghost use Rattle.frz_combinations.specs.MixedRadix.{digits, value};
ghost use Rattle.frz_sets.specs.Sets.{radix_of};
ghost use Rattle.frz_index.specs.Places.{AreCovered, IsWithinCount, digit_of};
ghost use Rattle.frz_index.specs.FixedMen.{are_loose_free, put_loose as with_loose};
ghost use Rattle.frz_index.specs.Charts.{AreCharts};
ghost use Rattle.frz_index.specs.Kept.{AreNumberable, AreWeights};
ghost use Rattle.frz_sets.specs.declared.limits.TheConstants.{MOST_STATES};

use crate::chart::Chart;
use crate::digit::digit;
use crate::fixed::put_if_loose;
use crate::quotient::left_over;
use frz_combinations::Triangle;
use frz_fide::Bitboards;
use frz_sets::Group;

/// The groups' digits as one number, and the bitboard of their men's squares. `None` if a group has
/// too few men or too many.
pub(crate) fn number_of_digits(
    triangle: &Triangle,
    p: &Bitboards,
    groups: &[Group],
    charts: &[Chart],
    weights: &[u32],
) -> Option<(u32, u64)>
    requires numberable { AreNumberable groups.now }
    requires charts { AreCharts groups.now charts.now }
    requires weights { AreWeights groups.now weights.now }
    requires rows { triangle.now ≡ MOST_STATES + 1 }
    ensures { let counted = AllByRecursion (IsWithinCount p.now) groups.now in
        MatchOption result (counted → ⊥)
        (λ (d, squares). counted
        × (d ≡ value (map radix_of groups.now) (map (digit_of p.now) groups.now))
        × AreCovered p.now groups.now squares) }
{
    let mut total: u32 = 0;
    let mut covered = 0;
    for i in 0..groups.len() {
        let group = &groups[i];
        let (digit, squares) = digit(triangle, p, group, &charts[i])?;
        total += digit * weights[i];
        covered |= squares;
    }
    Some((total, covered))
}

/// Puts on the board the loose men that the digits of this number stand for. It stops at the first
/// man whose square is not empty, and answers `false`; it answers `true` if all could be put.
pub(crate) fn put_loose(
    p: &mut Bitboards,
    triangle: &Triangle,
    groups: &[Group],
    weights: &[u32],
    number: u32,
) -> bool
    requires numberable { AreNumberable groups.now }
    requires weights { AreWeights groups.now weights.now }
    requires rows { triangle.now ≡ MOST_STATES + 1 }
    ensures free { result
        ≡ are_loose_free groups.now (digits (map radix_of groups.now) number) p.old.cells }
    ensures put { result ≡ true → p.new ≡
        record p.old {
          cells = with_loose groups.now (digits (map radix_of groups.now) number)
              p.old.cells;
        } }
{
    let mut rest = number;
    for i in 0..groups.len() {
        let weight = weights[i];
        if !put_if_loose(p, triangle, &groups[i], rest, weight) {
            return false;
        }
        rest = left_over(rest, weight);
    }
    true
}
