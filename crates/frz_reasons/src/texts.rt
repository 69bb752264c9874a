//! The lines that tell a failing way and a hold.
ghost use Rattle.std.specs.Prelude.{◌++◌, codes};
ghost use Rattle.frz_board.specs.Texts.{text_of};
ghost use Rattle.frz_store.specs.Told.{sink_of};
ghost use Rattle.frz_answer.specs.Texts.{WroteText};
ghost use Rattle.frz_reasons.specs.ReasonTexts.{denial_line, reply_text};

use crate::denial::Denial;
use frz_answer::{write_line, write_piece};
use frz_board::{Move, move_text};
use frz_store::{Failed, Sink};

fn write_move_text<O: Sink>(mv: Move, out: &mut O) -> Result<(), Failed>
    ensures { WroteText (text_of mv) result (sink_of O.Sink out.old) (sink_of O.Sink out.new) }
{
    write_piece(move_text(mv).as_str().as_bytes(), out)
}

/// Writes the line of a move, as `e2e4`.
pub fn write_move<O: Sink>(mv: Move, out: &mut O) -> Result<(), Failed>
    ensures { WroteText (text_of mv ++ codes "\n") result
        (sink_of O.Sink out.old) (sink_of O.Sink out.new) }
{
    write_line(move_text(mv).as_str().as_bytes(), out)
}

/// Writes a reply behind its move.
fn write_behind<O: Sink>(mv: Move, out: &mut O) -> Result<(), Failed>
    ensures { WroteText (codes " " ++ text_of mv) result
        (sink_of O.Sink out.old) (sink_of O.Sink out.new) }
{
    write_piece(b" ", out)?;
    write_move_text(mv, out)
}

/// Writes the reply behind its move, if there is one.
fn write_reply<O: Sink>(reply: Option<Move>, out: &mut O) -> Result<(), Failed>
    ensures { WroteText (reply_text reply) result
        (sink_of O.Sink out.old) (sink_of O.Sink out.new) }
{
    match reply {
        None => Ok(()),
        Some(mv) => write_behind(mv, out),
    }
}

/// Writes the line of a denial.
pub fn write_denial<O: Sink>(denial: Denial, out: &mut O) -> Result<(), Failed>
    ensures { WroteText (denial_line denial) result
        (sink_of O.Sink out.old) (sink_of O.Sink out.new) }
{
    write_move_text(denial.mv, out)?;
    write_reply(denial.reply, out)?;
    write_piece(b"\n", out)
}
