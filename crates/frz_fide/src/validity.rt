//! Valid positions.

ghost use Rattle.std.specs.Prelude.{◌≡◌, ◌↔◌, IsTrue, OnOk};
ghost use Rattle.frz_fide.specs.Valid.{IsValid, validity_of};

use frz_bits::Bitboards;
use frz_board::{Position, Shape};

/// Why a position is not valid: the first of the conditions that fails.
#[derive(Clone, Copy, Debug, PartialEq, Eq)]
pub enum Invalid {
    /// A condition fails that does not depend on attacks.
    Shape(Shape),
    /// The king of the side not to move is attacked.
    OpponentInCheck,
}

/// Is the position valid, and if not, which condition fails first?
pub fn valid_boards(p: &Bitboards) -> Result<(), Invalid>
    ensures answer { result ≡ validity_of p.now }
    ensures valid { OnOk result (IsValid p.now) }
{
    let position = p.as_position();
    match p.shape() {
        Err(fault) => Err(Invalid::Shape(fault)),
        Ok(()) => {
            if p.is_in_check(position.turn().other()) {
                Err(Invalid::OpponentInCheck)
            } else {
                Ok(())
            }
        }
    }
}

/// Is the position valid, and if not, which condition fails first?
pub fn valid(p: &Position) -> Result<(), Invalid>
    ensures answer { result ≡ validity_of p.now }
    ensures valid { OnOk result (IsValid p.now) }
{
    valid_boards(&Bitboards::of(p))
}
