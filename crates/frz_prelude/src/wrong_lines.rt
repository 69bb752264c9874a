//! The line that names an entry of a table which is not its local code, called a wrong entry.
ghost use Rattle.frz_store.specs.Told.{sink_of};
ghost use Rattle.frz_answer.specs.Texts.{WroteText};
ghost use Rattle.frz_prelude.specs.WrongLines.{place_text, codes_text, wrong_line, back_wrong_line};

use frz_answer::{write_numbered, write_piece};
use frz_bound_lines::write_side_name;
use frz_game::Wrong;
use frz_store::{Failed, Sink};

/// Writes which entry is wrong: its side and its number.
fn write_place<O: Sink>(wrong: Wrong, out: &mut O) -> Result<(), Failed>
    ensures { WroteText (place_text wrong) result (sink_of O.Sink out.old)
        (sink_of O.Sink out.new) }
{
    write_piece(b"wrong ", out)?;
    write_side_name(wrong.side, out)?;
    write_numbered(b" ", wrong.number as u64, out)
}

/// Writes the code that the table keeps, and the local code.
fn write_codes<O: Sink>(wrong: Wrong, out: &mut O) -> Result<(), Failed>
    ensures { WroteText (codes_text wrong) result (sink_of O.Sink out.old)
        (sink_of O.Sink out.new) }
{
    write_numbered(b" kept ", wrong.kept as u64, out)?;
    write_numbered(b" given ", wrong.given, out)?;
    write_piece(b"\n", out)
}

/// Writes the line of a wrong entry.
pub fn write_wrong<O: Sink>(wrong: Wrong, out: &mut O) -> Result<(), Failed>
    ensures { WroteText (wrong_line wrong) result (sink_of O.Sink out.old)
        (sink_of O.Sink out.new) }
{
    write_place(wrong, out)?;
    write_codes(wrong, out)
}

/// Writes the line of a wrong entry of the back table.
pub(crate) fn write_back_wrong<O: Sink>(wrong: Wrong, out: &mut O) -> Result<(), Failed>
    ensures { WroteText (back_wrong_line wrong) result (sink_of O.Sink out.old)
        (sink_of O.Sink out.new) }
{
    write_piece(b"back ", out)?;
    write_wrong(wrong, out)
}
