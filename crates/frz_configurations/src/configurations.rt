//! The numbers of a set as configurations and kings.

ghost use Rattle.std.specs.Prelude.{◌≡◌, ◌<◌, IfOk, MatchOption, Some, false, length, map, true};
ghost use Rattle.std.specs.List.{slice_get};
ghost use Rattle.frz_board.specs.declared.man.Colour.TheVariants.{White, Black};
ghost use Rattle.frz_combinations.specs.MixedRadix.{product};
ghost use Rattle.frz_sets.specs.Sets.{radix_of, size_of};
ghost use Rattle.frz_sets.specs.Sound.{IsSound};
ghost use Rattle.frz_sets.specs.Views.{GroupLine};
ghost use Rattle.frz_index.specs.Kept.{AreNumberable};
ghost use Rattle.frz_configurations.specs.Configurations.{IsSplit, configuration_count, has_kings as holds_kings, others};
ghost use Rattle.frz_configurations.specs.Joined.{IsJoined, IsKingSquare};
ghost use Rattle.frz_configurations.specs.Parts.{HaveKingsAlone, IsParted};

use crate::joined::{Joined, nothing, put};
use crate::parts::{Parts, has_kings, taken, whole};
use frz_board::{NoMemory, Square};
use frz_sets::{Group, Rules, radix, target_count};
use std::alloc::{AllocError, Global};

/// The configurations of the set of some sound rules.
#[derive(Drop)]
pub struct Configurations<'a> {
    pub rules: &'a Rules,
    radices: Vec<u32>,
    ghost known: { radices.items ≡ map radix_of rules.now.groups },
    ghost kings: { HaveKingsAlone rules.now.groups },
}

/// A number taken apart: its configuration, and the squares of the kings.
#[derive(Clone, Copy, Debug, PartialEq, Eq)]
pub struct Split {
    pub configuration: u32,
    pub white: Square,
    pub black: Square,
}

/// The radix of each group.
fn radices_of(alloc: Global, groups: &[Group]) -> Result<Vec<u32>, AllocError>
    requires { AreNumberable groups.now }
    ensures { IfOk result (λ radices. radices.items ≡ map radix_of groups.now) }
{
    let mut radices = Vec::new(alloc);
    for group in groups {
        radices.push(radix(group) as u32)?;
    }
    Ok(radices)
}

impl Configurations<'_> {
    /// The configurations of the set of these rules. The only error is want of memory.
    pub fn new(alloc: Global, rules: &Rules) -> Result<Configurations<'_>, NoMemory>
        requires { IsSound rules.now }
        ensures { IfOk result (λ configurations. configurations.rules.now ≡ rules.now) }
    {
        match radices_of(alloc, &rules.groups) {
            Ok(radices) => Ok(Configurations { rules, radices }),
            Err(_) => Err(NoMemory),
        }
    }

    /// The number taken apart by all groups, from the last on.
    fn parts(&self, number: u32) -> Parts
        requires { IsSound self.now.rules.now }
        ensures { IsParted self.now.rules.now.groups number result }
    {
        let rules = self.rules;
        let mut parts = whole(number);
        let mut k = rules.groups.len();
        while k > 0 {
            k -= 1;
            parts = taken(&parts, &rules.groups[k], self.radices[k]);
        }
        parts
    }

    /// How many configurations there are.
    pub fn count(&self) -> u32
        requires { IsSound self.now.rules.now }
        ensures { result ≡ configuration_count self.now.rules.now.groups }
    {
        let rules = self.rules;
        let turns = target_count(&rules.groups) as u64 + 2;
        (turns * self.parts(0).count) as u32
    }

    /// How many configurations each turn state has.
    pub fn whole(&self) -> u32
        requires { IsSound self.now.rules.now }
        ensures { result ≡ product (map radix_of (others self.now.rules.now.groups)) }
    {
        self.parts(0).count as u32
    }

    /// The radix of the group at this index. `None` if its men are kings.
    pub fn other_radix(&self, k: usize) -> Option<u32>
        requires { k < length self.now.rules.now.groups }
        ensures { (g : GroupLine) → slice_get self.now.rules.now.groups k ≡ Some g →
            MatchOption result (holds_kings g ≡ true)
            (λ radix. (holds_kings g ≡ false) × (radix ≡ radix_of g)) }
    {
        let rules = self.rules;
        if has_kings(&rules.groups[k]) {
            None
        } else {
            Some(self.radices[k])
        }
    }

    /// The number put together by all groups, from the last on.
    fn joined(&self, configuration: u32, white: Square, black: Square) -> Joined
        requires sound { IsSound self.now.rules.now }
        requires white { IsKingSquare self.now.rules.now.groups White white }
        requires black { IsKingSquare self.now.rules.now.groups Black black }
        ensures { IsJoined self.now.rules.now.groups configuration white black result }
    {
        let rules = self.rules;
        let mut joined = nothing(configuration);
        let mut k = rules.groups.len();
        while k > 0 {
            k -= 1;
            joined = put(&joined, &rules.groups[k], self.radices[k], white, black);
        }
        joined
    }

    /// The number of a configuration with the kings on these squares, on which groups have them.
    pub fn number(&self, configuration: u32, white: Square, black: Square) -> u32
        requires sound { IsSound self.now.rules.now }
        requires inside { configuration < configuration_count self.now.rules.now.groups }
        requires white { IsKingSquare self.now.rules.now.groups White white }
        requires black { IsKingSquare self.now.rules.now.groups Black black }
        ensures { IsSplit self.now.rules.now.groups result configuration white black }
    {
        let joined = self.joined(configuration, white, black);
        (joined.number + u64::from(joined.rest) * joined.count) as u32
    }

    /// The configuration of a number, and the squares of its kings.
    pub fn split(&self, number: u32) -> Split
        requires sound { IsSound self.now.rules.now }
        requires inside { number < size_of self.now.rules.now.groups }
        ensures { IsSplit self.now.rules.now.groups number
            result.configuration result.white result.black }
    {
        let parts = self.parts(number);
        Split {
            configuration: (parts.configuration + u64::from(parts.rest) * parts.count) as u32,
            white: parts.white,
            black: parts.black,
        }
    }
}
