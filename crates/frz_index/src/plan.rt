//! What a set keeps: its groups, and what is computed from them once.
ghost use Rattle.std.specs.Prelude.{◌≡◌, ◌<◌, ◌≤◌, IfOk, filter, length};
ghost use Rattle.std.specs.List.{AllByRecursion};
ghost use Rattle.frz_sets.specs.Sound.{AreStates, IsSound};
ghost use Rattle.frz_index.specs.Charts.{AreCharts};
ghost use Rattle.frz_sets.specs.Sets.{targets};
ghost use Rattle.frz_squares.specs.SquareSets.{set_of};
ghost use Rattle.frz_index.specs.Kept.{AreKnown, AreNumberable, AreWeights, IsPlan, is_known, may_lack, product_from as product_of};

use crate::chart::{Chart, chart_of};
use crate::fixed::{FixedBoards, fixed_boards};
use crate::shares::{Share, shares_of};
use frz_board::Square;
use frz_combinations::Triangle;
use frz_fide::with_square;
use frz_sets::{Group, MOST_STATES, Rules, has_state, is_target, radix};
use std::alloc::{AllocError, Global};

/// The groups of a set, and what is computed from them once.
pub(crate) struct Plan {
    pub groups: Vec<Group>,
    /// What one unit of each group's digit adds to a number: the product of the later radices.
    pub weights: Vec<u32>,
    /// How many numbers one turn state has: the product of all groups' radices.
    pub whole: u32,
    /// The squares (0 to 63) that may be an en passant target, in increasing order.
    pub targets: Vec<u8>,
    /// For each cell, the bitboard of the squares on which some group allows it; all, if it is
    /// empty.
    pub known_squares: [u64; 13],
    /// `known_squares` by the groups alone that may have fewer men than their most.
    pub lacking_squares: [u64; 13],
    pub charts: Vec<Chart>,
    /// At 64 * cell + square, what this man adds to a number there, where one group alone tells it.
    pub shares: Vec<Option<Share>>,
    pub triangle: Triangle,
    /// The boards with the men that stand on the same squares in each number.
    pub fixed: Option<FixedBoards>,
}

impl Drop for Plan {
    fn drop(self) {
        let Plan {
            groups: _,
            weights: _,
            whole: _,
            targets: _,
            known_squares: _,
            lacking_squares: _,
            charts: _,
            shares: _,
            triangle: _,
            fixed: _,
        } = self;
    }
}

/// The length of a list over the 13 cells, empty or one of twelve men, on each of 64 squares.
pub(crate) const CELLS: u16 = 832;

fn copy_of(alloc: Global, group: &Group) -> Result<Group, AllocError>
    ensures { IfOk result (λ g. g ≡ group.now) }
{
    Ok(Group {
        colour: group.colour,
        least: group.least,
        most: group.most,
        states: Vec::from_slice(alloc, &group.states)?,
    })
}

fn copies_of(alloc: Global, groups: &[Group]) -> Result<Vec<Group>, AllocError>
    ensures { IfOk result (λ v. v.items ≡ groups.now) }
{
    let mut copies = Vec::new(alloc);
    for group in groups {
        copies.push(copy_of(alloc, group)?)?;
    }
    Ok(copies)
}

/// The groups that may have fewer men than their most.
fn lacking_of(alloc: Global, groups: &[Group]) -> Result<Vec<Group>, AllocError>
    ensures { IfOk result (λ v. v.items ≡ filter may_lack groups.now) }
{
    let mut lacking = Vec::new(alloc);
    for group in groups {
        if group.least < group.most {
            lacking.push(copy_of(alloc, group)?)?;
        }
    }
    Ok(lacking)
}

fn known(groups: &[Group], cell: u8, square: u8) -> bool
    requires { square < 64 }
    ensures { result ≡ is_known groups.now cell square }
{
    cell == 0 || has_state(groups, cell, Square::at(square))
}

/// The bitboard of the squares on which some group allows the cell; all squares, if it is empty.
fn known_on(groups: &[Group], cell: u8) -> u64
    ensures { result ≡ set_of (is_known groups.now cell) }
{
    let mut word = 0;
    for square in 0..64 {
        word = with_square(word, Square::at(square), known(groups, cell, square));
    }
    word
}

/// For each cell, the bitboard of the squares on which some group allows it.
fn known_squares_of(groups: &[Group]) -> [u64; 13]
    ensures { AreKnown groups.now result }
{
    let mut words = [0; 13];
    for cell in 0..13 {
        words[cell as usize] = known_on(groups, cell);
    }
    words
}

/// The product of the radices of the groups from index `from` on.
fn product_from(groups: &[Group], from: usize) -> u32
    requires numberable { AreNumberable groups.now }
    requires within { from ≤ length groups.now }
    ensures { result ≡ product_of groups.now from }
{
    let mut product: u32 = 1;
    for i in from..groups.len() {
        let group = &groups[i];
        product *= radix(group) as u32;
    }
    product
}

/// What one unit of each group's digit adds to a number.
fn weights_of(alloc: Global, groups: &[Group]) -> Result<Vec<u32>, AllocError>
    requires { AreNumberable groups.now }
    ensures { IfOk result (λ v. AreWeights groups.now v.items) }
{
    let mut weights = Vec::new(alloc);
    for i in 0..groups.len() {
        weights.push(product_from(groups, i + 1))?;
    }
    Ok(weights)
}

/// The squares (0 to 63) that may be an en passant target, in increasing order.
#[tactic(auto, unfolding(frz_board::specs::Squares::squares))]
fn targets_of(alloc: Global, groups: &[Group]) -> Result<Vec<u8>, AllocError>
    ensures { IfOk result (λ v. v.items ≡ targets groups.now) }
{
    (0..64)
        .filter(|t: &u8| is_target(groups, Square::at(*t)))
        .collect(alloc)
}

/// The charts of the groups.
fn charts_of(alloc: Global, groups: &[Group]) -> Result<Vec<Chart>, AllocError>
    requires { AllByRecursion (λ g. AreStates g.states) groups.now }
    ensures { IfOk result (λ v. AreCharts groups.now v.items) }
{
    let mut charts = Vec::new(alloc);
    for group in groups {
        charts.push(chart_of(&group.states))?;
    }
    Ok(charts)
}

/// The plan of the rules' groups.
pub(crate) fn plan_of(alloc: Global, r: &Rules) -> Result<Plan, AllocError>
    requires { IsSound r.now }
    ensures { IfOk result (λ plan. IsPlan plan × (plan.groups.items ≡ r.now.groups)) }
{
    let groups = copies_of(alloc, &r.groups)?;
    let triangle = Triangle::new(alloc, MOST_STATES as u32)?;
    let weights = weights_of(alloc, &groups)?;
    let whole = product_from(&groups, 0);
    let targets = targets_of(alloc, &groups)?;
    let known_squares = known_squares_of(&groups);
    let lacking = lacking_of(alloc, &groups)?;
    let lacking_squares = known_squares_of(&lacking);
    let charts = charts_of(alloc, &groups)?;
    let shares = shares_of(alloc, &groups, &charts, &weights)?;
    let fixed = fixed_boards(&triangle, &groups);
    Ok(Plan {
        groups,
        weights,
        whole,
        targets,
        known_squares,
        lacking_squares,
        charts,
        shares,
        triangle,
        fixed,
    })
}
