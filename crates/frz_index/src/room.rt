//! Whether a position leaves room for one more man of the set.
ghost use Rattle.std.specs.Prelude.{◌≡◌, ◌+◌, ◌<◌, length};
ghost use Rattle.std.specs.List.{AllByRecursion};
ghost use Rattle.frz_board.specs.Men.{cell_of_man};
ghost use Rattle.frz_sets.specs.Sets.{is_state};
ghost use Rattle.frz_sets.specs.Sound.{IsCounted};
ghost use Rattle.frz_sets.specs.declared.limits.TheConstants.{MOST_STATES};
ghost use Rattle.frz_index.specs.Charts.{AreCharts, IsChart};
ghost use Rattle.frz_index.specs.Kept.{AreNumberable};
ghost use Rattle.frz_index.specs.Places.{IsWithinCount};
ghost use Rattle.frz_index.specs.Room.{has_room, takes_one_more as group_takes_one_more};

use crate::chart::{Chart, kind_number};
use crate::digit::count_men;
use frz_board::{Man, Square};
use frz_combinations::Triangle;
use frz_fide::{Bitboards, contains};
use frz_sets::Group;

/// Is this man on this square a state of the group?
pub(crate) fn has_state(group: &Group, chart: &Chart, man: Man, s: Square) -> bool
    requires { IsChart group.now.states chart.now }
    ensures { result ≡ is_state (cell_of_man man) s group.now }
{
    group.colour == man.colour && contains(chart.words[kind_number(man.kind) as usize], s)
}

/// Is this man on this square a state of the group, and has it fewer men on the board than its
/// most?
fn takes_one_more(
    triangle: &Triangle,
    p: &Bitboards,
    group: &Group,
    chart: &Chart,
    man: Man,
    s: Square,
) -> bool
    requires chart { IsChart group.now.states chart.now }
    requires numberable { IsCounted group.now }
    requires rows { length group.now.states < triangle.now }
    ensures { result ≡ group_takes_one_more p.now man s group.now }
{
    if !has_state(group, chart, man, s) {
        return false;
    }
    match count_men(triangle, p, group, chart) {
        None => false,
        Some(men) => men.count < group.most as u32,
    }
}

/// Does some group allow this man on this square, and have fewer men on the board than its most?
pub(crate) fn any_takes_one_more(
    triangle: &Triangle,
    p: &Bitboards,
    groups: &[Group],
    charts: &[Chart],
    man: Man,
    s: Square,
) -> bool
    requires numberable { AreNumberable groups.now }
    requires charts { AreCharts groups.now charts.now }
    requires rows { triangle.now ≡ MOST_STATES + 1 }
    ensures { result ≡ has_room groups.now p.now man s }
{
    for i in 0..groups.len() {
        if takes_one_more(triangle, p, &groups[i], &charts[i], man, s) {
            return true;
        }
    }
    false
}

/// `takes_one_more` for a position of the set, in which a group whose least is its most is full.
fn is_unfilled(
    triangle: &Triangle,
    p: &Bitboards,
    group: &Group,
    chart: &Chart,
    man: Man,
    s: Square,
) -> bool
    requires chart { IsChart group.now.states chart.now }
    requires numberable { IsCounted group.now }
    requires rows { length group.now.states < triangle.now }
    requires within { IsWithinCount p.now group.now }
    ensures { result ≡ group_takes_one_more p.now man s group.now }
{
    group.least < group.most && takes_one_more(triangle, p, group, chart, man, s)
}

/// `any_takes_one_more` for a position of the set.
pub(crate) fn any_unfilled(
    triangle: &Triangle,
    p: &Bitboards,
    groups: &[Group],
    charts: &[Chart],
    man: Man,
    s: Square,
) -> bool
    requires numberable { AreNumberable groups.now }
    requires charts { AreCharts groups.now charts.now }
    requires rows { triangle.now ≡ MOST_STATES + 1 }
    requires within { AllByRecursion (IsWithinCount p.now) groups.now }
    ensures { result ≡ has_room groups.now p.now man s }
{
    for i in 0..groups.len() {
        if is_unfilled(triangle, p, &groups[i], &charts[i], man, s) {
            return true;
        }
    }
    false
}
