//! The text of the answer.
ghost use Rattle.std.specs.Prelude.{◌≡◌, ◌≤◌, All};
ghost use Rattle.frz_fide.specs.Valid.{IsValid};
ghost use Rattle.frz_store.specs.Told.{sink_of};
ghost use Rattle.frz_answer.specs.Texts.{WroteText};
ghost use Rattle.frz_atlas_prelude.specs.declared.names.TheConstants.{MOST_BACKS};
ghost use Rattle.frz_commands_premises.specs.LineTexts.{IsWritable};
ghost use Rattle.frz_commands_verdict.specs.Texts as words;
ghost use Rattle.frz_commands_verdict.specs.Texts.{belief_text, beliefs_text, table_word, verdict_line, verdict_text};

use crate::verdict::Verdict;
use frz_answer::{write_line, write_numbered, write_numbered_line, write_piece};
use frz_board::{Colour, Position};
use frz_bound_lines::write_side_name;
use frz_commands_premises::{Line, count_beliefs, tells_belief, write_one};
use frz_fen::write_fen;
use frz_store::{Failed, Sink};

fn write_mate<O: Sink>(side: Colour, plies: u32, out: &mut O) -> Result<(), Failed>
    ensures { WroteText (verdict_line (Verdict.MatesWithin side plies)) result
        (sink_of O.Sink out.old) (sink_of O.Sink out.new) }
{
    write_side_name(side, out)?;
    write_numbered_line(b" wins, mate within ", u64::from(plies), out)
}

fn write_win<O: Sink>(side: Colour, out: &mut O) -> Result<(), Failed>
    ensures { WroteText (verdict_line (Verdict.Wins side)) result
        (sink_of O.Sink out.old) (sink_of O.Sink out.new) }
{
    write_side_name(side, out)?;
    write_piece(b" wins\n", out)
}

fn write_hold<O: Sink>(side: Colour, out: &mut O) -> Result<(), Failed>
    ensures { WroteText (verdict_line (Verdict.DoesNotLose side)) result
        (sink_of O.Sink out.old) (sink_of O.Sink out.new) }
{
    write_side_name(side, out)?;
    write_piece(b" does not lose\n", out)
}

fn write_verdict<O: Sink>(verdict: Verdict, out: &mut O) -> Result<(), Failed>
    ensures { WroteText (verdict_line verdict) result
        (sink_of O.Sink out.old) (sink_of O.Sink out.new) }
{
    match verdict {
        Verdict::MatesWithin(side, plies) => write_mate(side, plies, out),
        Verdict::Wins(side) => write_win(side, out),
        Verdict::Draw => write_piece(b"draw\n", out),
        Verdict::DoesNotLose(side) => write_hold(side, out),
        Verdict::NotShown => write_piece(b"not shown\n", out),
    }
}

/// Writes which table it is, where `own` is the place of TABLE.
fn write_table<O: Sink>(own: usize, place: usize, out: &mut O) -> Result<(), Failed>
    requires { place ≤ MOST_BACKS }
    ensures { WroteText (table_word own place) result
        (sink_of O.Sink out.old) (sink_of O.Sink out.new) }
{
    if place == own {
        write_piece(b"table", out)
    } else {
        write_numbered(b"back ", place as u64 + 1, out)
    }
}

/// Writes the line behind the word for its table.
fn write_of_table<O: Sink>(own: usize, place: usize, line: Line, out: &mut O) -> Result<(), Failed>
    requires place { place ≤ MOST_BACKS }
    requires writable { IsWritable line }
    ensures { WroteText (words.of_table own place line) result
        (sink_of O.Sink out.old) (sink_of O.Sink out.new) }
{
    write_table(own, place, out)?;
    write_piece(b" ", out)?;
    write_one(line, out)
}

/// Writes the line if it tells of an exit line that is believed.
fn write_belief<O: Sink>(own: usize, place: usize, line: Line, out: &mut O) -> Result<(), Failed>
    requires place { place ≤ MOST_BACKS }
    requires writable { IsWritable line }
    ensures { WroteText (belief_text own place line) result
        (sink_of O.Sink out.old) (sink_of O.Sink out.new) }
{
    if tells_belief(&line) {
        write_of_table(own, place, line, out)
    } else {
        Ok(())
    }
}

/// The place of the table whose lines come next.
fn place_after(place: usize, line: Line) -> usize
    requires place { place ≤ MOST_BACKS }
    requires writable { IsWritable line }
    ensures next { result ≡ words.place_after place line }
    ensures few { result ≤ MOST_BACKS }
{
    match line {
        Line::Back(next) => next,
        _ => place,
    }
}

/// Writes those of the lines that tell of belief; the first are of the table at this place.
fn write_beliefs<O: Sink>(
    own: usize,
    place: usize,
    lines: &[Line],
    out: &mut O,
) -> Result<(), Failed>
    requires place { place ≤ MOST_BACKS }
    requires writable { All IsWritable lines.now }
    ensures { WroteText (beliefs_text own place lines.now) result
        (sink_of O.Sink out.old) (sink_of O.Sink out.new) }
{
    match lines {
        [] => Ok(()),
        [line, rest @ ..] => {
            write_belief(own, place, *line, out)?;
            write_beliefs(own, place_after(place, *line), rest, out)
        }
    }
}

/// Writes what is believed, where `own` is the place of TABLE.
fn write_lines<O: Sink>(own: usize, lines: &[Line], out: &mut O) -> Result<(), Failed>
    requires { All IsWritable lines.now }
    ensures { WroteText (words.lines_text own lines.now) result
        (sink_of O.Sink out.old) (sink_of O.Sink out.new) }
{
    write_beliefs(own, 0, lines, out)?;
    write_one(Line::Believed(count_beliefs(lines)), out)
}

/// Writes the whole answer, where `own` is the place of TABLE.
pub fn write_told<O: Sink>(
    p: &Position,
    verdict: Verdict,
    own: usize,
    lines: &[Line],
    out: &mut O,
) -> Result<(), Failed>
    requires valid { IsValid p.now }
    requires writable { All IsWritable lines.now }
    ensures { WroteText (verdict_text p.now verdict own lines.now) result
        (sink_of O.Sink out.old) (sink_of O.Sink out.new) }
{
    write_line(write_fen(p).as_str().as_bytes(), out)?;
    write_verdict(verdict, out)?;
    write_lines(own, lines, out)
}
