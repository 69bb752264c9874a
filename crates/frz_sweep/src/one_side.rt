//! The codes of the side that is solved.

ghost use Rattle.std.specs.Prelude.{refl};

use frz_board::Colour;
use frz_graph::Entries;

/// The codes of one side, whichever is asked for.
#[derive(Clone, Copy)]
pub struct OneSide<'a> {
    pub codes: &'a [u32],
}

impl Entries for OneSide<'_> {
    ghost codes = { λ one side. one.codes.now };

    ghost equal = { λ one. refl };

    fn entry(&self, _: Colour, i: u32) -> u32 {
        self.codes[i as usize]
    }
}
