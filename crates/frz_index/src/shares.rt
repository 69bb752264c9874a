//! What a man on a square adds to a number, where only one group counts him, of one man at most.
ghost use Rattle.std.specs.Prelude.{◌≡◌, ◌≢◌, ◌≤◌, ◌<◌, ◌+◌, ◌*◌, ◌↔◌, ℕ, IfOk, IsTrue, MatchOption, Some, false, length};
ghost use Rattle.std.specs.List.{slice_get};
ghost use Rattle.frz_board.specs.Men.{cell_of_man, man_of_cell};
ghost use Rattle.frz_sets.specs.Sets.{is_state};
ghost use Rattle.frz_sets.specs.Views.{GroupLine};
ghost use Rattle.frz_index.specs.Charts.{AreCharts, IsChart};
ghost use Rattle.frz_index.specs.Kept.{AreNumberable, AreWeights};
ghost use Rattle.frz_index.specs.Shares.{AreShares, IsShareOf};
ghost use Rattle.frz_index.specs.Stepping.{IsPlace, IsShare};

use crate::chart::{Chart, kind_number};
use crate::plan::CELLS;
use crate::room::has_state;
use frz_board::{Man, Square, man_of};
use frz_sets::Group;
use std::alloc::{AllocError, Global};

/// What a man on a square adds to a number, and the index of the group that counts him there.
#[derive(Clone, Copy)]
pub(crate) struct Share {
    pub group: u16,
    pub adds: u64,
}

/// The index of the cell on the square, in a list over all cells on all squares.
pub(crate) fn cell_on(cell: u8, s: Square) -> usize
    requires { cell ≤ 12 }
    ensures { result ≡ 64 * cell + s }
{
    64 * cell as usize + s.number() as usize
}

/// The index of the man on the square among the group's states. `None` if it is not one of them.
fn place_in(group: &Group, chart: &Chart, man: Man, s: Square) -> Option<u16>
    requires { IsChart group.now.states chart.now }
    ensures { MatchOption result (is_state (cell_of_man man) s group.now ≡ false)
        (λ k. IsPlace group.now man s k) }
{
    if has_state(group, chart, man, s) {
        Some(chart.cuts[64 * kind_number(man.kind) as usize + s.number() as usize])
    } else {
        None
    }
}

/// Does no group other than the one at index `own` have this man on this square as a state?
fn is_alone(groups: &[Group], charts: &[Chart], own: usize, man: Man, s: Square) -> bool
    requires { AreCharts groups.now charts.now }
    ensures { IsTrue result ↔ ((j : ℕ) (g : GroupLine) → j ≢ own →
        slice_get groups.now j ≡ Some g → is_state (cell_of_man man) s g ≡ false) }
{
    for j in 0..groups.len() {
        if j != own && has_state(&groups[j], &charts[j], man, s) {
            return false;
        }
    }
    true
}

/// What the man on the square adds to a number by the digit of the group at index `i`. `None`
/// unless only this group has him there as a state, and it has one man at most.
fn share_at(
    groups: &[Group],
    charts: &[Chart],
    weights: &[u32],
    i: usize,
    man: Man,
    s: Square,
) -> Option<Share>
    requires numberable { AreNumberable groups.now }
    requires charts { AreCharts groups.now charts.now }
    requires weights { AreWeights groups.now weights.now }
    requires within { i < length groups.now }
    ensures { MatchOption result
        ((adds : ℕ) → IsShare groups.now man s i adds → ⊥)
        (λ x. IsShare groups.now man s x.group x.adds) }
{
    let group = &groups[i];
    let place = place_in(group, &charts[i], man, s)?;
    if group.most == 1 && is_alone(groups, charts, i, man, s) {
        Some(Share {
            group: i as u16,
            adds: u64::from(place) * u64::from(weights[i]),
        })
    } else {
        None
    }
}

/// What the man on the square adds to a number. `None` unless only one group has him there as a
/// state, and that group has one man at most.
fn share_of(
    groups: &[Group],
    charts: &[Chart],
    weights: &[u32],
    man: Man,
    s: Square,
) -> Option<Share>
    requires numberable { AreNumberable groups.now }
    requires charts { AreCharts groups.now charts.now }
    requires weights { AreWeights groups.now weights.now }
    ensures { IsShareOf groups.now man s result }
{
    for i in 0..groups.len() {
        if let Some(share) = share_at(groups, charts, weights, i, man, s) {
            return Some(share);
        }
    }
    None
}

/// `share_of` for the man of this cell; `None` for a cell without a man.
fn share_of_cell(
    groups: &[Group],
    charts: &[Chart],
    weights: &[u32],
    cell: u8,
    square: u8,
) -> Option<Share>
    requires numberable { AreNumberable groups.now }
    requires charts { AreCharts groups.now charts.now }
    requires weights { AreWeights groups.now weights.now }
    requires square { square < 64 }
    ensures { (man : _) → man_of_cell cell ≡ Some man →
        IsShareOf groups.now man square result }
{
    match man_of(cell) {
        None => None,
        Some(man) => share_of(groups, charts, weights, man, Square::at(square)),
    }
}

/// `share_of` for each cell on each square, at the index that `cell_on` gives.
pub(crate) fn shares_of(
    alloc: Global,
    groups: &[Group],
    charts: &[Chart],
    weights: &[u32],
) -> Result<Vec<Option<Share>>, AllocError>
    requires numberable { AreNumberable groups.now }
    requires charts { AreCharts groups.now charts.now }
    requires weights { AreWeights groups.now weights.now }
    ensures { IfOk result (λ v. AreShares groups.now v.items) }
{
    let mut shares = Vec::new(alloc);
    for i in 0..CELLS {
        shares.push(share_of_cell(groups, charts, weights, (i / 64) as u8, (i % 64) as u8))?;
    }
    Ok(shares)
}
