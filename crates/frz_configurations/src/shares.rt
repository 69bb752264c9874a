//! Numbers as sums: what the configuration and each king's square add.

ghost use Rattle.std.specs.Prelude.{◌≡◌, ◌<◌, IfOk};
ghost use Rattle.frz_board.specs.declared.man.Colour.TheVariants.{White, Black};
ghost use Rattle.frz_sets.specs.Sound.{IsSound};
ghost use Rattle.frz_configurations.specs.Configurations.{IsSplit, configuration_count, has_kings};
ghost use Rattle.frz_configurations.specs.Joined.{IsKingSquare, of_colour};
ghost use Rattle.frz_configurations.specs.Shares.{AreFirst, AreMoved, AreShares, allows_king, has_king as holds_king, is_king_square as is_square};

use crate::configurations::{Configurations, Split};
use crate::joined::square_of;
use frz_board::{Colour, Kind, NoMemory, Square};
use frz_sets::{Group, Rules};
use std::alloc::{AllocError, Global};

/// What each configuration and each square of a king adds to the numbers of a set.
///
/// A number is put together by two additions, where `Configurations` goes through all groups.
#[derive(Drop)]
pub struct Shares<'a> {
    pub rules: &'a Rules,
    configurations: Vec<u32>,
    white: [u32; 64],
    black: [u32; 64],
    ghost known: { AreShares rules.now.groups configurations.items white black },
}

/// Are some of the group's states those of a king?
fn has_some_king(group: &Group) -> bool
    ensures { result ≡ has_kings group.now }
{
    group.states.iter().any(|state| state.0 == Kind::King)
}

/// Is a king on the square among the states of the group?
fn has_king(group: &Group, square: Square) -> bool
    ensures { result ≡ holds_king group.now square }
{
    group
        .states
        .iter()
        .any(|state| state.0 == Kind::King && state.1 == square)
}

/// Has the group, if it has kings of the colour, one on the square?
fn allows(group: &Group, colour: Colour, square: Square) -> bool
    ensures { result ≡ allows_king colour square group.now }
{
    !(group.colour == colour && has_some_king(group)) || has_king(group, square)
}

/// Has each group of kings of the colour one on the square?
pub(crate) fn is_king_square(rules: &Rules, colour: Colour, square: Square) -> bool
    ensures { result ≡ is_square rules.now.groups colour square }
{
    rules
        .groups
        .iter()
        .all(|group| allows(group, colour, square))
}

/// Number 0 once the colour's king has moved to the square; 0 where no group has him there.
fn moved(configurations: &Configurations<'_>, origin: &Split, colour: Colour, square: Square) -> u32
    requires sound { IsSound configurations.now.rules.now }
    requires origin { IsSplit configurations.now.rules.now.groups 0
        origin.now.configuration origin.now.white origin.now.black }
    ensures { let gs = configurations.now.rules.now.groups in
        IsKingSquare gs colour square → IsSplit gs result origin.now.configuration
        (of_colour colour square origin.now.white) (of_colour colour origin.now.black square) }
{
    if is_king_square(configurations.rules, colour, square) {
        configurations.number(
            origin.configuration,
            square_of(colour, square, origin.white),
            square_of(colour, origin.black, square),
        )
    } else {
        0
    }
}

/// Number 0 once the colour's king has moved to each square.
fn all_moved(configurations: &Configurations<'_>, origin: &Split, colour: Colour) -> [u32; 64]
    requires sound { IsSound configurations.now.rules.now }
    requires origin { IsSplit configurations.now.rules.now.groups 0
        origin.now.configuration origin.now.white origin.now.black }
    ensures { AreMoved configurations.now.rules.now.groups origin.now colour result }
{
    let mut numbers = [0; 64];
    for square in 0..64u8 {
        numbers[square as usize] = moved(configurations, origin, colour, Square::at(square));
    }
    numbers
}

/// The number of each configuration with the kings where number 0 has them.
fn all_first(
    alloc: Global,
    configurations: &Configurations<'_>,
    origin: &Split,
) -> Result<Vec<u32>, AllocError>
    requires sound { IsSound configurations.now.rules.now }
    requires origin { IsSplit configurations.now.rules.now.groups 0
        origin.now.configuration origin.now.white origin.now.black }
    ensures { IfOk result (λ numbers.
        AreFirst configurations.now.rules.now.groups origin.now.white origin.now.black
        numbers.items) }
{
    let mut numbers = Vec::new(alloc);
    for configuration in 0..configurations.count() {
        numbers.push(configurations.number(configuration, origin.white, origin.black))?;
    }
    Ok(numbers)
}

impl<'a> Shares<'a> {
    /// The shares of the set of these configurations. The only error is want of memory.
    pub fn new(alloc: Global, configurations: &Configurations<'a>) -> Result<Shares<'a>, NoMemory>
        requires { IsSound configurations.now.rules.now }
        ensures { IfOk result (λ shares. shares.rules.now ≡ configurations.now.rules.now) }
    {
        // in number 0 no digit adds anything, so each of these numbers is one share
        let origin = configurations.split(0);
        let white = all_moved(configurations, &origin, Colour::White);
        let black = all_moved(configurations, &origin, Colour::Black);
        match all_first(alloc, configurations, &origin) {
            Ok(numbers) => Ok(Shares {
                rules: configurations.rules,
                configurations: numbers,
                white,
                black,
            }),
            Err(_) => Err(NoMemory),
        }
    }

    /// The number of a configuration with the kings on these squares, on which groups have them.
    pub fn number(&self, configuration: u32, white: Square, black: Square) -> u32
        requires sound { IsSound self.now.rules.now }
        requires inside { configuration < configuration_count self.now.rules.now.groups }
        requires white { IsKingSquare self.now.rules.now.groups White white }
        requires black { IsKingSquare self.now.rules.now.groups Black black }
        ensures { IsSplit self.now.rules.now.groups result configuration white black }
    {
        let a = white.number() as usize;
        let b = black.number() as usize;
        self.configurations[configuration as usize] + self.white[a] + self.black[b]
    }
}
