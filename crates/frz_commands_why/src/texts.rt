//! The lines that `why` writes behind the moves of a way.
ghost use Rattle.std.specs.Prelude.{◌≡◌, ◌++◌, codes, true};
ghost use Rattle.frz_fen.specs.Writing.{fen_text};
ghost use Rattle.frz_fide.specs.Legal.{is_legal};
ghost use Rattle.frz_fide.specs.Valid.{IsValid};
ghost use Rattle.frz_store.specs.Told.{sink_of};
ghost use Rattle.frz_answer.specs.Texts.{WroteText};
ghost use Rattle.frz_ways.specs.Texts.{exit_line as line_of_exit};
ghost use Rattle.frz_commands_why.specs.Texts as words;

use crate::decider::Decider;
use frz_answer::{write_line, write_numbered_line, write_piece};
use frz_bits::Bitboards;
use frz_board::{Move, Position};
use frz_fen::write_fen;
use frz_game::Wrong;
use frz_prelude::write_wrong;
use frz_repairs::write_repairs;
use frz_sets::Value;
use frz_store::{Failed, Sink};
use frz_ways::write_value;

/// Writes which line or table decided.
fn write_decider<O: Sink>(decider: Decider, out: &mut O) -> Result<(), Failed>
    ensures { WroteText (words.decider_line decider) result
        (sink_of O.Sink out.old) (sink_of O.Sink out.new) }
{
    match decider {
        Decider::Line(number) => write_numbered_line(b"line ", u64::from(number), out),
        Decider::Behind(place) => write_numbered_line(b"back ", place as u64, out),
        Decider::NoLine => write_piece(b"no line\n", out),
    }
}

fn write_value_line<O: Sink>(value: Value, out: &mut O) -> Result<(), Failed>
    ensures { WroteText (line_of_exit value) result
        (sink_of O.Sink out.old) (sink_of O.Sink out.new) }
{
    write_piece(b"exit ", out)?;
    write_value(value, out)?;
    write_piece(b"\n", out)
}

fn write_position<O: Sink>(q: &Position, out: &mut O) -> Result<(), Failed>
    requires { IsValid q.now }
    ensures { WroteText (fen_text q.now ++ codes "\n") result
        (sink_of O.Sink out.old) (sink_of O.Sink out.new) }
{
    write_line(write_fen(q).as_str().as_bytes(), out)
}

/// Writes the lines of an exit: its value, its FEN, and what decided the value.
pub fn write_exit<O: Sink>(
    value: Value,
    q: &Position,
    decider: Decider,
    out: &mut O,
) -> Result<(), Failed>
    requires { IsValid q.now }
    ensures { WroteText (words.exit_lines value q.now decider) result
        (sink_of O.Sink out.old) (sink_of O.Sink out.new) }
{
    write_value_line(value, out)?;
    write_position(q, out)?;
    write_decider(decider, out)
}

/// Writes what would repair the exit by a legal move, where nothing decided its value.
pub fn write_lack<O: Sink>(
    decider: Decider,
    p: &Bitboards,
    mv: Move,
    out: &mut O,
) -> Result<(), Failed>
    requires valid { IsValid p.now }
    requires legal { is_legal p.now mv ≡ true }
    ensures { WroteText (words.lack_text decider p.now mv) result
        (sink_of O.Sink out.old) (sink_of O.Sink out.new) }
{
    match decider {
        Decider::NoLine => write_repairs(p, mv, out),
        _ => Ok(()),
    }
}

/// Writes the line of the wrong entry, if one was met.
pub fn write_wrong_entry<O: Sink>(wrong: Option<Wrong>, out: &mut O) -> Result<(), Failed>
    ensures { WroteText (words.wrong_text wrong) result
        (sink_of O.Sink out.old) (sink_of O.Sink out.new) }
{
    match wrong {
        None => Ok(()),
        Some(wrong) => write_wrong(wrong, out),
    }
}
