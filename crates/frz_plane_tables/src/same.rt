//! The comparison of the entries of a table with the codes that planes give.
ghost use Rattle.std.specs.Prelude.{◌≡◌, ◌↔◌, length, IsTrue};
ghost use Rattle.frz_board.specs.declared.man.Colour.{Colour};
ghost use Rattle.frz_board.specs.declared.man.Colour.TheVariants.{White};
ghost use Rattle.frz_sets.specs.Sets.{size_of};
ghost use Rattle.frz_sets.specs.Sound.{IsSound};
ghost use Rattle.frz_game.specs.Bounds.{IsTableOf};

use crate::serving::solved;
use frz_board::Colour;
use frz_game::{Entries, ExitBook, Game};
use std::alloc::Global;

/// Are these the codes of the side, of which there are so many?
fn has_codes<E: Entries>(entries: &E, side: Colour, size: u32, codes: &[u32]) -> bool
    requires kept { length (E.codes entries.now side) ≡ size }
    requires given { length codes.now ≡ size }
    ensures { IsTrue result ↔ (E.codes entries.now side ≡ codes.now) }
{
    for i in 0..size {
        if entries.entry(side, i) != codes[i as usize] {
            return false;
        }
    }
    true
}

/// Are the codes of both sides those that planes give? No where planes give none.
pub fn are_solved<B: ExitBook, E: Entries>(alloc: Global, game: &Game<'_, B>, entries: &E) -> bool
    requires sound { IsSound game.now.rules.now }
    requires many { length (E.codes entries.now White) ≡ size_of game.now.rules.now.groups }
    ensures { IsTrue result → (side : Colour) → IsTableOf game.now.rules.now
        (B.value_at game.now.book.now) side (E.codes entries.now side) }
{
    let Some(both) = solved(alloc, game) else {
        return false;
    };
    let size = game.set.size();
    has_codes(entries, Colour::White, size, &both.white)
        && has_codes(entries, Colour::Black, size, &both.black)
}
