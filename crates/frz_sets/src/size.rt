//! How many numbers a set has.
ghost use Rattle.std.specs.Prelude.{◌≡◌};
ghost use Rattle.frz_combinations.specs.Binomials.{capped};
ghost use Rattle.frz_sets.specs.Sets.{radix_of, size_of};
ghost use Rattle.frz_sets.specs.Sound.{AreSoundLines, AreCounted, IsCounted};

use crate::group::Group;
use crate::rules::Rules;
use crate::targets::target_count;
use frz_combinations::binomial;

/// In how many ways men of the group can stand, from its least to its most of them among its
/// states, capped at the greatest number of 64 bits.
#[tactic(auto, using(crate::proofs::Sizes::sums))]
pub fn radix(g: &Group) -> u64
    requires { IsCounted g.now }
    ensures { result ≡ capped (radix_of g.now) }
{
    let mut total = 0u64;
    for men in g.least..g.most + 1 {
        total = total.saturating_add(binomial(g.states.len() as u32, men as u32));
    }
    total
}

/// How many numbers the set of these groups has, capped at the greatest number of 64 bits.
#[tactic(auto, using(crate::proofs::Sizes::products))]
fn size(groups: &[Group]) -> u64
    requires { AreCounted groups.now }
    ensures { result ≡ capped (size_of groups.now) }
{
    let mut total = 2 + target_count(groups) as u64;
    for g in groups {
        total = total.saturating_mul(radix(g));
    }
    total
}

/// The size of the set that the rules describe, capped at the greatest number of 64 bits. It is the
/// number of turn states (White, Black, and one for each possible en passant target), times the
/// choices of men and squares of each group.
#[tactic(auto, using(crate::proofs::SoundGroups::counted))]
pub fn set_size(r: &Rules) -> u64
    requires { AreSoundLines r.now }
    ensures { result ≡ capped (size_of r.now.groups) }
{
    size(&r.groups)
}
