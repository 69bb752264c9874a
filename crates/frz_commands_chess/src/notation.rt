//! The two notations in which a move is written.
ghost use Rattle.std.specs.Prelude.{◌≡◌, ◌≤◌, ◌+◌, ◌++◌, [], true, if◌then◌else◌, codes};
ghost use Rattle.frz_fide.specs.Legal.{is_legal};
ghost use Rattle.frz_fide.specs.Listing.{legal_moves_of};
ghost use Rattle.frz_fide.specs.Valid.{IsValid};
ghost use Rattle.frz_store.specs.Told.{sink_of};
ghost use Rattle.frz_answer.specs.Texts.{WroteText};
ghost use Rattle.frz_commands_chess.specs.Listing.{text_by, steps_by};

use frz_answer::write_piece;
use frz_board::{Move, Position, move_text};
use frz_san::san_among;
use frz_steps::Steps;
use frz_store::{Failed, Sink};
use std::sync::ledger::Ledger;

/// How a move is written: by its two squares, or in algebraic notation as FIDE appendix C has it.
#[derive(Clone, Copy, PartialEq, Eq, Drop)]
pub enum Notation {
    Coordinates,
    Algebraic,
}

/// Writes the text of a legal move; `moves` are all legal moves of the position.
fn write_text<O: Sink, L: Ledger>(
    notation: Notation,
    p: &Position,
    moves: &[Move],
    m: Move,
    out: &mut O,
    steps: &mut Steps<L>,
) -> Result<(), Failed>
    requires valid { IsValid p.now }
    requires moves { moves.now ≡ legal_moves_of p.now }
    requires legal { is_legal p.now m ≡ true }
    ensures wrote { WroteText (text_by notation p.now m) result
        (sink_of O.Sink out.old) (sink_of O.Sink out.new) }
    ensures later { steps.old ≤ steps.new }
    ensures few { steps.new ≤ steps.old + steps_by notation 1 }
{
    match notation {
        Notation::Coordinates => write_piece(move_text(m).as_bytes(), out),
        Notation::Algebraic => write_piece(san_among(p, moves, m, steps).as_bytes(), out),
    }
}

/// Writes a space if `more` follows.
fn write_space<O: Sink>(more: bool, out: &mut O) -> Result<(), Failed>
    ensures { WroteText (if more then codes " " else []) result
        (sink_of O.Sink out.old) (sink_of O.Sink out.new) }
{
    match more {
        true => write_piece(b" ", out),
        false => write_piece(b"", out),
    }
}

/// Writes the text of a legal move, and a space if `more` moves follow. `moves` are all legal moves
/// of the position.
pub fn write_move<O: Sink, L: Ledger>(
    notation: Notation,
    p: &Position,
    moves: &[Move],
    m: Move,
    more: bool,
    out: &mut O,
    steps: &mut Steps<L>,
) -> Result<(), Failed>
    requires valid { IsValid p.now }
    requires moves { moves.now ≡ legal_moves_of p.now }
    requires legal { is_legal p.now m ≡ true }
    ensures wrote { WroteText (text_by notation p.now m ++ (if more then codes " " else [])) result
        (sink_of O.Sink out.old) (sink_of O.Sink out.new) }
    ensures later { steps.old ≤ steps.new }
    ensures few { steps.new ≤ steps.old + steps_by notation 1 }
{
    write_text(notation, p, moves, m, out, steps)?;
    write_space(more, out)
}
