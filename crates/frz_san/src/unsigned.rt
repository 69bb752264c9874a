//! The text of a move without its sign.
ghost use Rattle.std.specs.Prelude.{◌≡◌, ◌++◌, ◌≤◌, true};
ghost use Rattle.arrayvec.specs.ArrayString.{array_string_len};
ghost use Rattle.frz_board.specs.Boards.{man_on};
ghost use Rattle.frz_fide.specs.Legal.{is_legal};
ghost use Rattle.frz_fide.specs.Listing.{legal_moves_of};
ghost use Rattle.frz_san.specs.Notation.{is_capture as is_capture_of, promotion, pawn_text, piece_text, unsigned as unsigned_of};

use crate::origin::add_origin;
use crate::text::{San, add, add_square};
use frz_board::{Kind, Man, Move, Position};

/// Is the move a capture: does a man stand on its destination, or does a pawn capture en passant?
#[tactic(auto, using(crate::proofs::Taking::captures_by_file))]
fn is_capture(p: &Position, man: Man, m: Move) -> bool
    requires man { man_on p.now m.from ≡ Some man }
    requires legal { is_legal p.now m ≡ true }
    ensures { result ≡ is_capture_of p.now man m }
{
    match man.kind {
        Kind::Pawn => m.from.file() != m.to.file(),
        _ => p.cell(m.to) != 0,
    }
}

fn add_promotion(text: &mut San, promo: Option<Kind>)
    requires { array_string_len text.old ≤ 4 }
    ensures bytes { text.new.bytes ≡ text.old.bytes ++ promotion promo }
    ensures room { array_string_len text.new ≤ 6 }
{
    if let Some(kind) = promo {
        add(text, b'=');
        add(text, kind.letter());
    }
}

fn pawn_move(p: &Position, man: Man, m: Move) -> San
    requires man { man_on p.now m.from ≡ Some man }
    requires legal { is_legal p.now m ≡ true }
    ensures bytes { result.bytes ≡ pawn_text p.now man m }
    ensures room { array_string_len result ≤ 6 }
{
    let mut text = San::new();
    if is_capture(p, man, m) {
        add(&mut text, b'a' + m.from.file());
        add(&mut text, b'x');
    }
    add_square(&mut text, m.to);
    add_promotion(&mut text, m.promo);
    text
}

fn piece_move(p: &Position, moves: &[Move], man: Man, m: Move) -> San
    requires moves { moves.now ≡ legal_moves_of p.now }
    requires man { man_on p.now m.from ≡ Some man }
    requires legal { is_legal p.now m ≡ true }
    ensures bytes { result.bytes ≡ piece_text p.now man m }
    ensures room { array_string_len result ≤ 6 }
{
    let mut text = San::new();
    add(&mut text, man.kind.letter());
    add_origin(p, moves, m, &mut text);
    if is_capture(p, man, m) {
        add(&mut text, b'x');
    }
    add_square(&mut text, m.to);
    text
}

/// The text of a legal move without its sign. `moves` are all legal moves.
pub fn unsigned(p: &Position, moves: &[Move], m: Move) -> San
    requires moves { moves.now ≡ legal_moves_of p.now }
    requires legal { is_legal p.now m ≡ true }
    ensures bytes { result.bytes ≡ unsigned_of p.now m }
    ensures room { array_string_len result ≤ 6 }
{
    match p.man(m.from) {
        None => San::new(),
        Some(man) => {
            if man.kind == Kind::Pawn {
                pawn_move(p, man, m)
            } else {
                piece_move(p, moves, man, m)
            }
        }
    }
}
