//! The number of a position in a set.
ghost use Rattle.frz_fide.specs.Valid.{IsValid};
ghost use Rattle.frz_prelude.specs.Positions.{IsPlaced};

use crate::refused::Refused;
use frz_board::Position;
use frz_index::Set;

/// The position's number in the set. A position outside the set is refused.
pub fn number_in(set: &Set, p: &Position) -> Result<u32, Refused>
    requires { IsValid p.now }
    ensures { IsPlaced set.now p.now result }
{
    match set.number(p) {
        Some(i) => Ok(i),
        None => Err(Refused::Outside),
    }
}
