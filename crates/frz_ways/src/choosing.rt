//! The move that a kept code asks for, chosen by the codes that were read for the moves.
ghost use Rattle.std.specs.Prelude.{◌≡◌, ◌||◌, not, ℕ, length};
ghost use Rattle.frz_arena.specs.Codes as codes;
ghost use Rattle.frz_arena.specs.Chosen.{IsFound};
ghost use Rattle.frz_arena.specs.Choices.{has_code};
ghost use Rattle.frz_arena.specs.declared.choice.Choice.{Choice as Seen};
ghost use Rattle.frz_ways.specs.SeenMoves.{choices_by};

use frz_arena::{Choice, choose};
use frz_graph::{Arm, CodeList, NextList};

/// What an unused place holds.
const NO_CHOICE: Choice = Choice {
    allowed: false,
    code: 0,
};

/// A move as its mover sees it. The side itself may take free moves only, its opponent any move.
fn seen(own: bool, arm: Arm, code: u32) -> Choice
    ensures { result ≡ record { allowed = not own || arm.free; code = code } }
{
    Choice {
        allowed: !own || arm.free,
        code,
    }
}

/// Fills `into` with the moves as their mover sees them.
fn put_choices(own: bool, arms: &[Arm], codes: &[u32], into: &mut [Choice])
    requires many { length codes.now ≡ length arms.now }
    requires room { length into.old ≡ length arms.now }
    ensures { into.new ≡ choices_by own arms.now codes.now }
{
    for (place, arm) in arms.iter().enumerate() {
        into[place] = seen(own, *arm, codes[place]);
    }
}

/// The place in the list of the move that the kept code asks for; `own` says whether the side
/// itself moves. The caller has shown that there is such a move.
pub fn place_for(own: bool, kept: u32, list: &NextList, read: &CodeList) -> usize
    requires many { length read.now.items ≡ length list.now.items }
    requires there { (i : ℕ) × (x : Seen) × IsFound has_code (codes.is_win kept) kept
        (choices_by own list.now.items read.now.items) i x }
    ensures { (x : Seen) × IsFound has_code (codes.is_win kept) kept
        (choices_by own list.now.items read.now.items) result x }
{
    let mut choices = [NO_CHOICE; 1024];
    let here = &mut choices[..list.len()];
    put_choices(own, list.as_slice(), read.as_slice(), here);
    match choose(here, kept) {
        Some(place) => place,
        None => unreachable!(),
    }
}
