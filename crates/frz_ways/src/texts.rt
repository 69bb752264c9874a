//! The lines of a way's text.
ghost use Rattle.std.specs.Prelude.{◌≡◌, ◌++◌};
ghost use Rattle.frz_board.specs.Texts.{text_of};
ghost use Rattle.frz_store.specs.Told.{sink_of};
ghost use Rattle.frz_answer.specs.Texts.{WroteText};
ghost use Rattle.frz_ways.specs.Texts.{value_text, exit_line, move_line, next_line, arm_text};
ghost use Rattle.frz_ways.specs.Turns.{moved_text};

use frz_answer::{write_numbered, write_piece};
use frz_board::{Move, move_text};
use frz_graph::{Arm, Next};
use frz_sets::Value;
use frz_store::{Failed, Sink};

/// Writes a value in the words of a rules text.
pub fn write_value<O: Sink>(value: Value, out: &mut O) -> Result<(), Failed>
    ensures { WroteText (value_text value) result
        (sink_of O.Sink out.old) (sink_of O.Sink out.new) }
{
    match value {
        Value::WhiteWins => write_piece(b"white wins", out),
        Value::BlackWins => write_piece(b"black wins", out),
        Value::Draw => write_piece(b"draw", out),
        Value::WhiteHolds => write_piece(b"white holds", out),
        Value::BlackHolds => write_piece(b"black holds", out),
        Value::Unknown => write_piece(b"unknown", out),
        Value::WhiteWinsIn(plies) => write_numbered(b"white wins ", u64::from(plies), out),
        Value::BlackWinsIn(plies) => write_numbered(b"black wins ", u64::from(plies), out),
    }
}

/// Writes the line of an exit with this value.
fn write_exit<O: Sink>(value: Value, out: &mut O) -> Result<(), Failed>
    ensures { WroteText (exit_line value) result (sink_of O.Sink out.old) (sink_of O.Sink out.new) }
{
    write_piece(b"exit ", out)?;
    write_value(value, out)?;
    write_piece(b"\n", out)
}

fn write_move_text<O: Sink>(m: Move, out: &mut O) -> Result<(), Failed>
    ensures { WroteText (text_of m) result (sink_of O.Sink out.old) (sink_of O.Sink out.new) }
{
    write_piece(move_text(m).as_str().as_bytes(), out)
}

/// Writes the line of a move, as `e2e4`.
fn write_move<O: Sink>(m: Move, out: &mut O) -> Result<(), Failed>
    ensures { WroteText (move_line m) result (sink_of O.Sink out.old) (sink_of O.Sink out.new) }
{
    write_move_text(m, out)?;
    write_piece(b"\n", out)
}

/// Writes the line of the exit, or nothing where the move stays in the set.
fn write_next<O: Sink>(next: Next, out: &mut O) -> Result<(), Failed>
    ensures { WroteText (next_line next) result (sink_of O.Sink out.old) (sink_of O.Sink out.new) }
{
    match next {
        Next::Inside(_) => Ok(()),
        Next::Outside(value) => write_exit(value, out),
    }
}

/// Writes the line of a move, and that of the exit where the move leaves the set.
fn write_arm<O: Sink>(arm: Arm, out: &mut O) -> Result<(), Failed>
    ensures { WroteText (arm_text arm) result (sink_of O.Sink out.old) (sink_of O.Sink out.new) }
{
    write_move(arm.mv, out)?;
    write_next(arm.next, out)
}

/// Writes `word`, which may be empty, then the line of a move, and the line of the exit where the
/// move leaves the set.
pub fn write_moved<O: Sink>(word: &[u8], arm: Arm, out: &mut O) -> Result<(), Failed>
    ensures { WroteText (moved_text word.now arm) result
        (sink_of O.Sink out.old) (sink_of O.Sink out.new) }
{
    if word.is_empty() {
        return write_arm(arm, out);
    }
    write_piece(word, out)?;
    write_arm(arm, out)
}
