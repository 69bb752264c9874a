//! The lines of the bounds of both sides, and those of the codes that a table keeps for them.
#![tactic(auto)]

ghost use Rattle.frz_store.specs.Told.{sink_of};
ghost use Rattle.frz_answer.specs.Texts.{WroteText};
ghost use Rattle.frz_bound_lines.specs.BoundLines.{side_name, bound_text, bound_line, bounds_text, kept_words, kept_line, kept_text};

use frz_answer::{write_numbered, write_piece};
use frz_arena::{Bound, bound_of};
use frz_board::Colour;
use frz_store::{Failed, Sink};

/// Writes `white` or `black`.
pub fn write_side_name<O: Sink>(side: Colour, out: &mut O) -> Result<(), Failed>
    ensures { WroteText (side_name side) result (sink_of O.Sink out.old) (sink_of O.Sink out.new) }
{
    match side {
        Colour::White => write_piece(b"white", out),
        Colour::Black => write_piece(b"black", out),
    }
}

fn write_bound_text<O: Sink>(bound: Bound, out: &mut O) -> Result<(), Failed>
    ensures { WroteText (bound_text bound) result (sink_of O.Sink out.old)
        (sink_of O.Sink out.new) }
{
    match bound {
        Bound::Wins(plies) => write_numbered(b" wins within ", u64::from(plies), out),
        Bound::Holds => write_piece(b" holds", out),
        Bound::Fails(_) => write_piece(b" none", out),
    }
}

/// Writes the line of a side's bound, as `white wins within 5` (in plies), `white holds` or
/// `white none`.
pub fn write_bound_line<O: Sink>(side: Colour, bound: Bound, out: &mut O) -> Result<(), Failed>
    ensures { WroteText (bound_line side bound) result
        (sink_of O.Sink out.old) (sink_of O.Sink out.new) }
{
    write_side_name(side, out)?;
    write_bound_text(bound, out)?;
    write_piece(b"\n", out)
}

/// Writes the lines of both bounds, White's first.
pub fn write_bounds<O: Sink>(white: Bound, black: Bound, out: &mut O) -> Result<(), Failed>
    ensures { WroteText (bounds_text white black) result
        (sink_of O.Sink out.old) (sink_of O.Sink out.new) }
{
    write_bound_line(Colour::White, white, out)?;
    write_bound_line(Colour::Black, black, out)
}

/// Writes the words of a table's code: ` wins within 5` (in plies), ` holds` or ` none`.
pub fn write_kept_words<O: Sink>(code: u32, out: &mut O) -> Result<(), Failed>
    ensures { WroteText (kept_words code) result (sink_of O.Sink out.old) (sink_of O.Sink out.new) }
{
    match bound_of(code) {
        Some(bound) => write_bound_text(bound, out),
        None => write_piece(b" none", out),
    }
}

/// Writes the line of the bound that a table's code stands for. The codes of failures, and 0, the
/// code of a broken number, give `none`.
pub fn write_kept_line<O: Sink>(side: Colour, code: u32, out: &mut O) -> Result<(), Failed>
    ensures { WroteText (kept_line side code) result
        (sink_of O.Sink out.old) (sink_of O.Sink out.new) }
{
    write_side_name(side, out)?;
    write_kept_words(code, out)?;
    write_piece(b"\n", out)
}

/// Writes the lines of the codes that a table keeps for White and for Black, White's first.
pub fn write_kept<O: Sink>(white: u32, black: u32, out: &mut O) -> Result<(), Failed>
    ensures { WroteText (kept_text white black) result
        (sink_of O.Sink out.old) (sink_of O.Sink out.new) }
{
    write_kept_line(Colour::White, white, out)?;
    write_kept_line(Colour::Black, black, out)
}
