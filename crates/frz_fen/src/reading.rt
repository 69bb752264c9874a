//! Reads a FEN text field by field, up to its first fault.

ghost use Rattle.std.specs.Prelude.{◌≡◌, IfOk, option_map};
ghost use Rattle.std.specs.List.{list_all};
ghost use Rattle.frz_words.specs.Numbers.{is_digit};
ghost use Rattle.frz_fide.specs.Valid.{IsValid};
ghost use Rattle.frz_fen.specs.Reading.{fen_of, turn_of, castling_of, target_of, target_on, is_clock as is_clock_text, has_clock, clocks_of, checked as checked_board, with_kept, kept, is_idle, is_dash};

use super::fault::FenFault;
use super::fields::named_fields;
use super::placement::read_placement;
use frz_board::{Colour, Position, Square};
use frz_fide::valid;
use frz_words::{is_word, read_square};

/// The position that a FEN text stands for, which is valid, or the first fault of the text. The two
/// clocks are checked and then forgotten. A target square where no pawn could capture en passant is
/// dropped.
#[tactic(auto, using(crate::proofs::Meaning::meaning))]
pub fn read_fen(text: &[u8]) -> Result<Position, FenFault>
    ensures read { result ≡ fen_of text.now }
    ensures valid { IfOk result IsValid }
{
    let Some(fields) = named_fields(text) else {
        return Err(FenFault::Fields);
    };
    let cells = read_placement(fields.placement)?;
    let turn = read_turn(fields.turn)?;
    read_castling(fields.castling)?;
    let target = read_target(fields.target, turn)?;
    read_clocks(fields.halfmove, fields.fullmove)?;
    checked(Position::with_cells(cells, turn, target))
}

/// The side to move: `w` or `b`.
fn read_turn(field: &[u8]) -> Result<Colour, FenFault>
    ensures { result ≡ turn_of field.now }
{
    if is_word(field, b"w") {
        Ok(Colour::White)
    } else if is_word(field, b"b") {
        Ok(Colour::Black)
    } else {
        Err(FenFault::Turn)
    }
}

/// Accepts no castling right: the field has to be `-`.
fn read_castling(field: &[u8]) -> Result<(), FenFault>
    ensures { result ≡ castling_of field.now }
{
    if dash(field) {
        Ok(())
    } else {
        Err(FenFault::Castling)
    }
}

/// Is the field `-`?
fn dash(field: &[u8]) -> bool
    ensures { result ≡ is_dash field.now }
{
    is_word(field, b"-")
}

/// The target square, which a pawn of the opponent has just passed over, if the field names one.
fn read_target(field: &[u8], turn: Colour) -> Result<Option<Square>, FenFault>
    ensures { result ≡ target_of turn field.now }
{
    if dash(field) {
        return Ok(None);
    }
    match read_square(field) {
        None => Err(FenFault::EpSquare),
        Some(n) => target_on_rank(Square::at(n), turn),
    }
}

fn target_on_rank(s: Square, turn: Colour) -> Result<Option<Square>, FenFault>
    ensures { result ≡ target_on turn (Some s) }
{
    if s.is_passing_rank(turn.other()) {
        Ok(Some(s))
    } else {
        Err(FenFault::EpSquare)
    }
}

fn read_clocks(halfmove: Option<&[u8]>, fullmove: Option<&[u8]>) -> Result<(), FenFault>
    ensures { result ≡ clocks_of (option_map (λ t. t.now) halfmove.entry)
        (option_map (λ t. t.now) fullmove.entry) }
{
    if clock_or_none(halfmove) && clock_or_none(fullmove) {
        Ok(())
    } else {
        Err(FenFault::Clock)
    }
}

fn clock_or_none(field: Option<&[u8]>) -> bool
    ensures { result ≡ has_clock (option_map (λ t. t.now) field.entry) }
{
    match field {
        None => true,
        Some(text) => is_clock(text),
    }
}

/// Is the text one to four digits?
fn is_clock(text: &[u8]) -> bool
    ensures { result ≡ is_clock_text text.now }
{
    (1 <= text.len() && text.len() <= 4) && digits(text)
}

fn digits(text: &[u8]) -> bool
    ensures { result ≡ list_all is_digit text.now }
{
    text.iter().all(|b| b'0' <= *b && *b <= b'9')
}

/// The position without an idle target, if it is valid.
fn checked(p: Position) -> Result<Position, FenFault>
    ensures read { result ≡ checked_board (with_kept p) }
    ensures valid { IfOk result IsValid }
{
    let p = p.with_target(kept_target(&p));
    match valid(&p) {
        Ok(()) => Ok(p),
        Err(cause) => Err(FenFault::Invalid(cause)),
    }
}

/// The target, or none where no pawn could capture the pawn that has passed over it.
fn kept_target(p: &Position) -> Option<Square>
    ensures { result ≡ kept p.now p.now.ep }
{
    match p.ep() {
        None => None,
        Some(t) => { if idle(p, t) { None } else { Some(t) } }
    }
}

/// Has a pawn passed over the target, and does no pawn of the side to move stand beside it?
fn idle(p: &Position, t: Square) -> bool
    ensures { result ≡ is_idle p.now t }
{
    let passer = p.turn().other();
    if !p.has_passed(passer, t) {
        return false;
    }
    !p.has_pawn_beside(p.turn(), t.ahead(passer))
}
