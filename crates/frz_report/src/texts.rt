//! The lines of a report.
ghost use Rattle.std.specs.Prelude.{◌≡◌, ◌++◌};
ghost use Rattle.frz_fen.specs.Writing.{fen_text};
ghost use Rattle.frz_fide.specs.Valid.{IsValid};
ghost use Rattle.frz_store.specs.Told.{sink_of};
ghost use Rattle.frz_answer.specs.Texts.{WroteText};
ghost use Rattle.frz_report.specs.Lines.{pair_line, class_line, last_line};

use crate::class::Class;
use frz_answer::{write_line, write_numbered, write_piece};
use frz_board::Position;
use frz_fen::write_fen;
use frz_store::{Failed, Sink};

/// Writes the line of a squeeze: both numbers, and the FEN of the position with White to move.
pub fn write_squeeze<O: Sink>(w: u32, b: u32, p: &Position, out: &mut O) -> Result<(), Failed>
    requires { IsValid p.now }
    ensures { WroteText (pair_line w b p.now) result
        (sink_of O.Sink out.old) (sink_of O.Sink out.new) }
{
    write_numbered(b"squeeze ", u64::from(w), out)?;
    write_numbered(b" ", u64::from(b), out)?;
    write_piece(b" ", out)?;
    write_line(write_fen(p).as_str().as_bytes(), out)
}

/// Writes the line of a class and its number of open exits.
pub fn write_class<O: Sink>(class: &Class, count: u64, out: &mut O) -> Result<(), Failed>
    ensures { WroteText (class_line (class.now.bytes, count)) result
        (sink_of O.Sink out.old) (sink_of O.Sink out.new) }
{
    write_numbered(b"exits ", count, out)?;
    write_piece(b" ", out)?;
    write_line(class.as_str().as_bytes(), out)
}

/// Writes the last line, with the totals.
pub fn write_totals<O: Sink>(squeezes: u64, unassigned: u64, out: &mut O) -> Result<(), Failed>
    ensures { WroteText (last_line squeezes unassigned) result
        (sink_of O.Sink out.old) (sink_of O.Sink out.new) }
{
    write_numbered(b"squeezes ", squeezes, out)?;
    write_numbered(b" unassigned ", unassigned, out)?;
    write_piece(b"\n", out)
}
