//! Why a group line is refused behind the earlier group lines.
ghost use Rattle.std.specs.Prelude.{◌≡◌, ◌≤◌, ◌&&◌, length};
ghost use Rattle.std.specs.List.{list_any};
ghost use Rattle.frz_board.specs.Men.{same_colour};
ghost use Rattle.frz_sets.specs.Groups.{is_king, is_bad_count, has_king_group, is_bad_king, shares, overlaps, most_men_of};
ghost use Rattle.frz_rules.specs.Causes.{cause_of_group};

use crate::fault::RulesCause;
use crate::states::{has_end_pawn, has_king, has_other_than_king, share};
use frz_board::Colour;
use frz_sets::{Group, MOST_GROUPS, MOST_MEN};

fn is_king_group(g: &Group, c: Colour) -> bool
    ensures { result ≡ (same_colour g.now.colour c && list_any is_king g.now.states) }
{
    g.colour.is_same(c) && has_king(&g.states)
}

/// Has some group of the colour a king among its states?
pub fn some_king_group(groups: &[Group], c: Colour) -> bool
    ensures { result ≡ has_king_group groups.now c }
{
    groups.iter().any(|g| is_king_group(g, c))
}

fn has_bad_count(g: &Group) -> bool
    ensures { result ≡ is_bad_count g.now }
{
    g.most < g.least || (g.most == 0 || g.states.len() < g.most as usize)
}

fn has_bad_king(earlier: &[Group], g: &Group) -> bool
    ensures { result ≡ is_bad_king earlier.now g.now }
{
    has_king(&g.states)
        && (has_other_than_king(&g.states)
            || (!(g.least == 1 && g.most == 1) || some_king_group(earlier, g.colour)))
}

fn group_shares(e: &Group, g: &Group) -> bool
    ensures { result ≡ (same_colour e.now.colour g.now.colour && shares e.now.states g.now.states) }
{
    e.colour.is_same(g.colour) && share(&e.states, &g.states)
}

fn has_overlap(earlier: &[Group], g: &Group) -> bool
    ensures { result ≡ overlaps earlier.now g.now }
{
    earlier.iter().any(|e| group_shares(e, g))
}

/// The sum of the most men of each group of the colour.
#[tactic(auto, using(crate::proofs::Counting::men_all))]
fn men(groups: &[Group], c: Colour) -> u32
    requires { length groups.now ≤ MOST_GROUPS }
    ensures value { result ≡ most_men_of groups.now c }
    ensures bound { result ≤ 8160 }
{
    let mut total = 0;
    for g in groups {
        if g.colour.is_same(c) {
            total += g.most as u32;
        }
    }
    total
}

/// The first cause for which the group is refused behind the earlier ones, or `None`. The causes
/// are tried in the order in which they stand here.
pub fn group_cause(earlier: &[Group], g: &Group) -> Option<RulesCause>
    requires { length earlier.now ≤ MOST_GROUPS }
    ensures { result ≡ cause_of_group earlier.now g.now }
{
    if has_end_pawn(&g.states) {
        Some(RulesCause::PawnSquare)
    } else if has_bad_count(g) {
        Some(RulesCause::Count)
    } else if has_bad_king(earlier, g) {
        Some(RulesCause::KingGroup)
    } else if has_overlap(earlier, g) {
        Some(RulesCause::Overlap)
    } else if men(earlier, g.colour) + g.most as u32 > MOST_MEN {
        Some(RulesCause::TooManyMen)
    } else if earlier.len() >= MOST_GROUPS {
        Some(RulesCause::TooManyLines)
    } else {
        None
    }
}
