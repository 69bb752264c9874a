//! The part of a piece's square of origin that tells its move from its rivals.
ghost use Rattle.std.specs.Prelude.{◌≡◌, ◌==◌, ◌&&◌, ◌++◌, ◌+◌, ◌≤◌};
ghost use Rattle.std.specs.List.{list_any};
ghost use Rattle.arrayvec.specs.ArrayString.{array_string_len};
ghost use Rattle.frz_board.specs.Squares.{file_of, rank_of};
ghost use Rattle.frz_fide.specs.Listing.{legal_moves_of};
ghost use Rattle.frz_san.specs.Notation.{is_rival as is_rival_of, has_rival, has_rival_on_file, has_rival_on_rank, origin};

use crate::text::{San, add, add_square};
use frz_board::{Move, Position};

/// Is `n` a rival of `m`: does it bring a man of the same kind and colour to the same square, from
/// another one?
fn is_rival(p: &Position, m: Move, n: Move) -> bool
    ensures { result ≡ is_rival_of p.now m n }
{
    (p.cell(n.from) == p.cell(m.from) && n.to.number() == m.to.number())
        && !(n.from.number() == m.from.number())
}

#[tactic(auto, unfolding(crate::specs::Notation::has_rival))]
fn any_rival(p: &Position, moves: &[Move], m: Move) -> bool
    requires { moves.now ≡ legal_moves_of p.now }
    ensures { result ≡ has_rival p.now m }
{
    moves.iter().any(|n| is_rival(p, m, *n))
}

#[tactic(auto, unfolding(crate::specs::Notation::has_rival_on_file))]
fn any_rival_on_file(p: &Position, moves: &[Move], m: Move) -> bool
    requires { moves.now ≡ legal_moves_of p.now }
    ensures { result ≡ has_rival_on_file p.now m }
{
    moves
        .iter()
        .any(|n| is_rival(p, m, *n) && n.from.file() == m.from.file())
}

#[tactic(auto, unfolding(crate::specs::Notation::has_rival_on_rank))]
fn any_rival_on_rank(p: &Position, moves: &[Move], m: Move) -> bool
    requires { moves.now ≡ legal_moves_of p.now }
    ensures { result ≡ has_rival_on_rank p.now m }
{
    moves
        .iter()
        .any(|n| is_rival(p, m, *n) && n.from.rank() == m.from.rank())
}

/// Adds nothing, the file, the rank or both: the first of these that tells the move from its
/// rivals. `moves` are all legal moves.
pub fn add_origin(p: &Position, moves: &[Move], m: Move, text: &mut San)
    requires moves { moves.now ≡ legal_moves_of p.now }
    requires room { array_string_len text.old ≤ 1 }
    ensures bytes { text.new.bytes ≡ text.old.bytes ++ origin p.now m }
    ensures room { array_string_len text.new ≤ 3 }
{
    if !any_rival(p, moves, m) {
        return;
    }
    if !any_rival_on_file(p, moves, m) {
        add(text, b'a' + m.from.file());
    } else if !any_rival_on_rank(p, moves, m) {
        add(text, b'1' + m.from.rank());
    } else {
        add_square(text, m.from);
    }
}
