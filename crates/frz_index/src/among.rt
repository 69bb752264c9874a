//! The number of a position after a man, of a group of any size, has gone to an empty square.
ghost use Rattle.std.specs.Prelude.{ℕ, ◌≡◌, ◌<◌, ◌≤◌, ◌&&◌, ◌↔◌, IfSome, IsSome, MatchOption, Some, length, true};
ghost use Rattle.std.specs.List.{slice_get};
ghost use Rattle.frz_board.specs.Boards.{is_empty, man_on};
ghost use Rattle.frz_board.specs.Men.{cell_of_man};
ghost use Rattle.frz_fide.specs.Valid.{IsValid};
ghost use Rattle.frz_sets.specs.Sets.{is_state};
ghost use Rattle.frz_sets.specs.Views.{GroupLine};
ghost use Rattle.frz_index.specs.Charts.{AreCharts, IsChart};
ghost use Rattle.frz_index.specs.Kept.{IsPlan};
ghost use Rattle.frz_index.specs.Members.{HasNumber};
ghost use Rattle.frz_index.specs.Stepping.{DigitAdds, HasOnBoth, IsCountedOnBoth, IsTurned, stepped};

use crate::across::{Turned, number_after_in, number_by, share};
use crate::chart::Chart;
use crate::digit::digit;
use crate::plan::Plan;
use crate::room::has_state;
use frz_board::{Man, Square, cell_of};
use frz_fide::Bitboards;
use frz_sets::Group;

/// Is the man on both squares a state of the group?
fn has_both(group: &Group, chart: &Chart, man: Man, a: Square, b: Square) -> bool
    requires { IsChart group.now.states chart.now }
    ensures { result ≡ (is_state (cell_of_man man) a group.now
        && is_state (cell_of_man man) b group.now) }
{
    has_state(group, chart, man, a) && has_state(group, chart, man, b)
}

/// The index of a group that has the man on both squares as states.
fn group_of(groups: &[Group], charts: &[Chart], man: Man, a: Square, b: Square) -> Option<usize>
    requires { AreCharts groups.now charts.now }
    ensures { MatchOption result
        ((j : ℕ) → HasOnBoth groups.now man a b j → ⊥) (HasOnBoth groups.now man a b) }
{
    for j in 0..groups.len() {
        if has_both(&groups[j], &charts[j], man, a, b) {
            return Some(j);
        }
    }
    None
}

/// The position after the man has gone from one square to another.
fn gone(p: &Bitboards, man: Man, from: Square, to: Square, target: &Option<Square>) -> Bitboards
    ensures { result ≡ stepped p.now man from to target.now }
{
    let mut q = p.hand_over(*target);
    q.set(from, 0);
    q.set(to, cell_of(man));
    q
}

/// What the digit of the group at index `k` adds to a number. `None` if the group has too few men
/// or too many.
fn digit_adds(plan: &Plan, p: &Bitboards, k: usize) -> Option<u64>
    requires plan { IsPlan plan.now }
    requires within { k < length plan.now.groups.items }
    ensures adds { let gs = plan.now.groups.items in
        (g : GroupLine) → slice_get gs k ≡ Some g → DigitAdds gs p.now k g result }
    ensures small { IfSome result (λ x. x ≤ 134217728) }
{
    let (digit, _) = digit(&plan.triangle, p, &plan.groups[k], &plan.charts[k])?;
    Some(u64::from(digit) * u64::from(plan.weights[k]))
}

/// The number after the step, computed from the digit of the group that counts the man on both
/// squares. `None` unless one group alone does.
#[inline(never)]
fn number_among(
    plan: &Plan,
    turned: &Turned,
    _i: u32,
    p: &Bitboards,
    man: Man,
    from: Square,
    to: Square,
    target: &Option<Square>,
) -> Option<u32>
    requires plan { IsPlan plan.now }
    requires turned { IsTurned plan.now.groups.items _i p.now target.now turned.now }
    requires number { HasNumber plan.now.groups.items _i p.now }
    requires man { man_on p.now from ≡ Some man }
    requires free { is_empty p.now to ≡ true }
    requires valid { IsValid (stepped p.now man from to target.now) }
    ensures told { IsSome result ↔ IsCountedOnBoth plan.now.groups.items man from to }
    ensures number { IfSome result
        (λ n. HasNumber plan.now.groups.items n (stepped p.now man from to target.now)) }
{
    let _from = from.number();
    let _to = to.number();
    let k = group_of(&plan.groups, &plan.charts, man, from, to)?;
    let q = gone(p, man, from, to, target);
    let left = digit_adds(plan, p, k)?;
    let comes = digit_adds(plan, &q, k)?;
    Some(number_by(turned, left, comes))
}

/// The number of the position after the man has gone to the empty square `to`, with this target
/// after it. `None` unless one group alone counts him on both squares.
#[inline(always)]
pub(crate) fn number_after_step_in(
    plan: &Plan,
    turned: &Turned,
    i: u32,
    p: &Bitboards,
    man: Man,
    from: Square,
    to: Square,
    target: &Option<Square>,
) -> Option<u32>
    requires plan { IsPlan plan.now }
    requires turned { IsTurned plan.now.groups.items i p.now target.now turned.now }
    requires number { HasNumber plan.now.groups.items i p.now }
    requires man { man_on p.now from ≡ Some man }
    requires free { is_empty p.now to ≡ true }
    requires valid { IsValid (stepped p.now man from to target.now) }
    ensures told { IsSome result ↔ IsCountedOnBoth plan.now.groups.items man from to }
    ensures number { IfSome result
        (λ n. HasNumber plan.now.groups.items n (stepped p.now man from to target.now)) }
{
    match share(plan, man, from) {
        Some(_) => number_after_in(plan, turned, i, p, man, from, to, target),
        None => number_among(plan, turned, i, p, man, from, to, target),
    }
}
