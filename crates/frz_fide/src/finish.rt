//! Whether a game has ended, told from its legal moves.
//! The type `Ending` is in `outcome`: Rattle allows it in no module that has a function `ending`.

ghost use Rattle.std.specs.Prelude.{◌≡◌, ◌↔◌};
ghost use Rattle.frz_fide.specs.Valid.{IsValid};
ghost use Rattle.frz_fide.specs.Listing.{legal_moves_of};
ghost use Rattle.frz_fide.specs.Ends.{IsMate, IsStalemate, IsGoing};

use super::moves::MoveList;
use super::outcome::Ending;
use frz_bits::Bitboards;
use frz_board::Position;

/// Is the side to move mated or stalemated, or has it a legal move? `moves` must be its legal
/// moves.
pub fn ending(p: &Position, moves: &MoveList) -> Ending
    requires valid { IsValid p.now }
    requires moves { moves.now.items ≡ legal_moves_of p.now }
    ensures mate { (result ≡ Ending.Mate) ↔ IsMate p.now }
    ensures stalemate { (result ≡ Ending.Stalemate) ↔ IsStalemate p.now }
    ensures going { (result ≡ Ending.Going) ↔ IsGoing p.now }
{
    if !moves.is_empty() {
        Ending::Going
    } else if Bitboards::of(p).is_in_check(p.turn()) {
        Ending::Mate
    } else {
        Ending::Stalemate
    }
}
