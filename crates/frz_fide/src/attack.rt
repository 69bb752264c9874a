//! Attack and check on a position.

ghost use Rattle.std.specs.Prelude.{◌≡◌, Ok};
ghost use Rattle.frz_board.specs.Attacks.{is_attacked, is_in_check};
ghost use Rattle.frz_board.specs.Shapes.{shape_of};

use frz_bits::Bitboards;
use frz_board::{Colour, Position, Square};

/// Does some man of this side attack the square? A man attacks even where its own king would then
/// stand in check (FIDE 3.1.3).
pub fn attacked(p: &Position, s: Square, by: Colour) -> bool
    ensures { result ≡ is_attacked p.now s by }
{
    Bitboards::of(p).is_attacked(s, by)
}

/// Is the side's king attacked (FIDE 3.9)?
pub fn in_check(p: &Position, c: Colour) -> bool
    requires { shape_of p.now ≡ Ok tt }
    ensures { result ≡ is_in_check p.now c }
{
    Bitboards::of(p).is_in_check(c)
}
