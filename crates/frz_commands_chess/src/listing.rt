//! The commands `moves FEN` and `sans FEN`: the legal moves of a position on one line. They need no
//! memory from the allocator.
ghost use Rattle.std.specs.Prelude.{◌≡◌, ◌≤◌, ◌+◌, ◌++◌, length, map, codes};
ghost use Rattle.std.specs.String.{string_bytes};
ghost use Rattle.frz_fen.specs.Reading.{fen_of};
ghost use Rattle.frz_fide.specs.Listing.{legal_moves_of};
ghost use Rattle.frz_fide.specs.Valid.{IsValid};
ghost use Rattle.frz_store.specs.Told.{StoreTold, SourceTold, sink_of};
ghost use Rattle.frz_answer.specs.Texts.{WroteText};
ghost use Rattle.frz_answer.specs.World.{world};
ghost use Rattle.frz_answer.specs.Ends.{Ran};
ghost use Rattle.frz_prelude.specs.Positions.{on_position};
ghost use Rattle.frz_commands_chess.specs.Listing.{text_by, steps_by, joined, moves_line, listing, moves_words, sans_words};

use crate::notation::{Notation, write_move};
use frz_answer::{End, Refusal, Status, one_word, refuse, said, write_piece};
use frz_board::{Move, Position};
use frz_fen::read_fen;
use frz_fide::{Ending, ending, legal_moves};
use frz_prelude::{Refused, refuse_named};
use frz_steps::Steps;
use frz_store::{Failed, Sink};
use std::sync::ledger::Ledger;

/// Writes the moves on one line, one move at a time.
fn write_line<O: Sink, L: Ledger>(
    notation: Notation,
    p: &Position,
    moves: &[Move],
    out: &mut O,
    steps: &mut Steps<L>,
) -> Result<(), Failed>
    requires valid { IsValid p.now }
    requires moves { moves.now ≡ legal_moves_of p.now }
    ensures wrote { WroteText (joined (text_by notation p.now) moves.now ++ codes "\n")
        result (sink_of O.Sink out.old) (sink_of O.Sink out.new) }
    ensures later { steps.old ≤ steps.new }
    ensures few { steps.new ≤ steps.old + steps_by notation (length moves.now) }
{
    for (i, m) in moves.iter().enumerate() {
        write_move(notation, p, moves, *m, i + 1 < moves.len(), out, steps)?;
    }
    write_piece(b"\n", out)
}

/// Writes the legal moves of the position, or `mate` or `stalemate` where there is none.
fn write_moves<O: Sink, L: Ledger>(
    notation: Notation,
    p: &Position,
    out: &mut O,
    steps: &mut Steps<L>,
) -> Result<(), Failed>
    requires { IsValid p.now }
    ensures wrote { WroteText (moves_line (text_by notation p.now) p.now) result
        (sink_of O.Sink out.old) (sink_of O.Sink out.new) }
    ensures later { steps.old ≤ steps.new }
    ensures few { steps.new ≤ steps.old + (1 + steps_by notation (length (legal_moves_of p.now))) }
{
    let moves = legal_moves(p, steps);
    match ending(p, &moves) {
        Ending::Mate => write_piece(b"mate\n", out),
        Ending::Stalemate => write_piece(b"stalemate\n", out),
        Ending::Going => write_line(notation, p, &moves, out, steps),
    }
}

/// Lists the legal moves at a position.
fn list_at<O: Sink, L: Ledger>(
    notation: Notation,
    p: &Position,
    out: &mut O,
    steps: &mut Steps<L>,
) -> End
    requires { IsValid p.now }
    ensures { (store : StoreTold) (input : SourceTold) → Ran (listing notation p.now) result
        (world store input (sink_of O.Sink out.old) steps.old)
        (world store input (sink_of O.Sink out.new) steps.new) }
{
    said(Status::Success, write_moves(notation, p, out, steps))
}

fn list_moves<O: Sink, L: Ledger>(
    notation: Notation,
    fen: &str,
    out: &mut O,
    steps: &mut Steps<L>,
) -> End
    ensures { (store : StoreTold) (input : SourceTold)
        → Ran (on_position (listing notation) (fen_of fen.now)) result
        (world store input (sink_of O.Sink out.old) steps.old)
        (world store input (sink_of O.Sink out.new) steps.new) }
{
    match read_fen(fen.as_bytes()) {
        Ok(p) => list_at(notation, &p, out, steps),
        Err(fault) => refuse_named(Refused::Fen(fault), out),
    }
}

/// Runs the command `moves FEN`; `words` is FEN.
pub fn run_moves<O: Sink, L: Ledger>(words: &[String], out: &mut O, steps: &mut Steps<L>) -> End
    ensures { (store : StoreTold) (input : SourceTold)
        → Ran (moves_words (map string_bytes words.now)) result
        (world store input (sink_of O.Sink out.old) steps.old)
        (world store input (sink_of O.Sink out.new) steps.new) }
{
    match one_word(words) {
        Some(fen) => list_moves(Notation::Coordinates, fen, out, steps),
        None => refuse(Refusal::Count, out),
    }
}

/// Runs the command `sans FEN`; `words` is FEN.
pub fn run_sans<O: Sink, L: Ledger>(words: &[String], out: &mut O, steps: &mut Steps<L>) -> End
    ensures { (store : StoreTold) (input : SourceTold)
        → Ran (sans_words (map string_bytes words.now)) result
        (world store input (sink_of O.Sink out.old) steps.old)
        (world store input (sink_of O.Sink out.new) steps.new) }
{
    match one_word(words) {
        Some(fen) => list_moves(Notation::Algebraic, fen, out, steps),
        None => refuse(Refusal::Count, out),
    }
}
