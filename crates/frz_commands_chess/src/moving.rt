//! The command `move FEN SAN`: makes a move given in algebraic notation, and tells the position
//! afterwards. It needs no memory from the allocator.
ghost use Rattle.std.specs.Prelude.{◌≤◌, ◌+◌, map};
ghost use Rattle.std.specs.String.{string_bytes};
ghost use Rattle.frz_fide.specs.Valid.{IsValid};
ghost use Rattle.frz_store.specs.Files.{Files};
ghost use Rattle.frz_store.specs.Told.{StoreTold};
ghost use Rattle.frz_answer.specs.Answers.{says};
ghost use Rattle.frz_prelude.specs.Replies.{Replies, reply_status, text_of};
ghost use Rattle.frz_commands_chess.specs.Moving.{IsMoved, move_words};

use frz_bits::Bitboards;
use frz_board::Position;
use frz_fen::write_fen;
use frz_fide::after;
use frz_prelude::{Reply, Stop, take_position, take_two};
use frz_san::read_san;
use frz_steps::Steps;
use std::sync::ledger::Ledger;

/// Makes the legal move with this text at a position; without one the reply is that there is no
/// such move.
fn move_at<L: Ledger>(san: &str, p: &Position, steps: &mut Steps<L>) -> Reply
    requires { IsValid p.now }
    ensures moved { (files : Files) → IsMoved san.now p.now files
        (says (reply_status result) (text_of result) files) }
    ensures few { steps.new ≤ steps.old + 2 }
    ensures later { steps.old ≤ steps.new }
{
    match read_san(p, san.as_bytes(), steps) {
        Some(m) => Reply::Moved(m, write_fen(&after(&Bitboards::of(p), m).position())),
        None => Reply::NoMove,
    }
}

/// The command `move FEN SAN`; `words` are FEN and SAN.
pub fn make_move<L: Ledger>(words: &[String], steps: &mut Steps<L>) -> Result<Reply, Stop>
    ensures { (store : StoreTold) → Replies (move_words (map string_bytes words.now)) result
        store store steps.old steps.new }
{
    let (fen, san) = take_two(words)?;
    let p = take_position(fen)?;
    Ok(move_at(san, &p, steps))
}
