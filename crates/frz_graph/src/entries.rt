//! The entries of both sides, and the codes that they give the moves of a number.

ghost use Rattle.std.specs.Prelude.{◌≡◌, ◌<◌, ℕ, List, All, length, map, slice_index};
ghost use Rattle.frz_board.specs.declared.man.Colour.{Colour};
ghost use Rattle.frz_board.specs.declared.man.Colour.TheVariants.{White, Black};
ghost use Rattle.frz_graph.specs.EntryCodes.{arm_code, next_code, IsWithin};

use crate::arm::{Next, NextList};
use crate::codes::exit_code;
use arrayvec::ArrayVec;
use frz_board::Colour;

/// The entries of both sides: one code for each number and side.
pub trait Entries {
    /// The codes of a side, in order of number.
    ghost codes: { Self → Colour → List ℕ };

    /// The code of `side` at number `i`.
    fn entry(&self, side: Colour, i: u32) -> u32
        requires { i < length (codes self.now side) }
        ensures { result ≡ slice_index (codes self.now side) i };

    /// Both sides have equally many codes.
    ghost equal: { (entries : Self) → length (codes entries White) ≡ length (codes entries Black) };
}

/// The codes of White and Black in two slices of equal length.
#[derive(Clone, Copy)]
pub struct Pair<'a> {
    pub white: &'a [u32],
    pub black: &'a [u32],
    pub ghost equal: { length white.now ≡ length black.now },
}

ghost use Rattle.frz_graph.specs.EntryCodes.{of_side};

impl Entries for Pair<'_> {
    ghost codes = { λ pair side. of_side side pair.white.now pair.black.now };

    ghost equal = { λ pair. pair.equal };

    fn entry(&self, side: Colour, i: u32) -> u32 {
        match side {
            Colour::White => self.white[i as usize],
            Colour::Black => self.black[i as usize],
        }
    }
}

/// One code for each move of a number, at most 1,024.
pub type CodeList = ArrayVec<u32, 1024>;

/// The code for `side` of where a move leads: the entry of a number inside, or the code of a value
/// outside.
pub(crate) fn next_code_of<E: Entries>(side: Colour, next: Next, entries: &E) -> u32
    requires { IsWithin (length (E.codes entries.now side)) next }
    ensures { result ≡ next_code side (E.codes entries.now side) next }
{
    match next {
        Next::Inside(number) => entries.entry(side, number),
        Next::Outside(value) => exit_code(value, side),
    }
}

/// Fills `codes` with the code for `side` of each move of the list, in place of what was there.
pub fn fill<E: Entries>(side: Colour, list: &NextList, entries: &E, codes: &mut CodeList)
    requires { All (λ a. IsWithin (length (E.codes entries.now side)) a.next) list.now.items }
    ensures { codes.new.items ≡ map (arm_code side (E.codes entries.now side)) list.now.items }
{
    codes.clear();
    for arm in list.as_slice() {
        codes.push(next_code_of(side, arm.next, entries));
    }
}
