//! The text of each line, and of all lines.
ghost use Rattle.std.specs.Prelude.{◌++◌, All, codes, flat_map};
ghost use Rattle.frz_fen.specs.Writing.{fen_text};
ghost use Rattle.frz_fide.specs.Valid.{IsValid};
ghost use Rattle.frz_store.specs.Told.{sink_of};
ghost use Rattle.frz_answer.specs.Texts.{WroteText};
ghost use Rattle.frz_premises.specs.Needs.{IsTellable};
ghost use Rattle.frz_atlas_prelude.specs.declared.names.TheConstants.{MOST_BACKS};
ghost use Rattle.frz_commands_premises.specs.LineTexts.{IsWritable, basis_words, line_text, strength_words};

use crate::line::Line;
use frz_answer::{write_line, write_numbered, write_numbered_line, write_piece};
use frz_board::{Colour, Position};
use frz_bound_lines::write_side_name;
use frz_fen::write_fen;
use frz_premises::{Basis, Strength};
use frz_store::{Failed, Sink};

/// Writes the exit that needs belief.
fn write_believed<O: Sink>(q: &Position, out: &mut O) -> Result<(), Failed>
    requires { IsValid q.now }
    ensures { WroteText (codes " believed " ++ (fen_text q.now ++ codes "\n")) result
        (sink_of O.Sink out.old) (sink_of O.Sink out.new) }
{
    write_piece(b" believed ", out)?;
    write_line(write_fen(q).as_str().as_bytes(), out)
}

/// Writes what an exit line rests on.
fn write_basis<O: Sink>(basis: Basis, out: &mut O) -> Result<(), Failed>
    requires { IsTellable MOST_BACKS basis }
    ensures { WroteText (basis_words basis) result
        (sink_of O.Sink out.old) (sink_of O.Sink out.new) }
{
    match basis {
        Basis::AsksNothing => write_piece(b" asks nothing\n", out),
        Basis::ByMen => write_piece(b" true by the men\n", out),
        Basis::ByTable(place) => write_numbered_line(b" proved by back ", place as u64 + 1, out),
        Basis::ByTables => write_piece(b" proved by several backs\n", out),
        Basis::Believed(q) => write_believed(&q, out),
    }
}

fn write_exit<O: Sink>(number: u32, basis: Basis, out: &mut O) -> Result<(), Failed>
    requires { IsTellable MOST_BACKS basis }
    ensures { WroteText (line_text (Line.Exit number basis)) result
        (sink_of O.Sink out.old) (sink_of O.Sink out.new) }
{
    write_numbered(b"line ", u64::from(number), out)?;
    write_basis(basis, out)
}

/// Writes what the bounds of a side are.
fn write_strength<O: Sink>(strength: Strength, out: &mut O) -> Result<(), Failed>
    ensures { WroteText (strength_words strength) result
        (sink_of O.Sink out.old) (sink_of O.Sink out.new) }
{
    match strength {
        Strength::Believed => write_piece(b" true if believed\n", out),
        Strength::Renounced => write_piece(b" true, moves renounced\n", out),
        Strength::Undecided => write_piece(b" true, exits undecided\n", out),
        Strength::Outcomes => write_piece(b" exact but for plies\n", out),
        Strength::Exact => write_piece(b" exact\n", out),
    }
}

fn write_side<O: Sink>(side: Colour, strength: Strength, out: &mut O) -> Result<(), Failed>
    ensures { WroteText (line_text (Line.Side side strength)) result
        (sink_of O.Sink out.old) (sink_of O.Sink out.new) }
{
    write_side_name(side, out)?;
    write_strength(strength, out)
}

/// Writes one line.
pub fn write_one<O: Sink>(line: Line, out: &mut O) -> Result<(), Failed>
    requires { IsWritable line }
    ensures { WroteText (line_text line) result
        (sink_of O.Sink out.old) (sink_of O.Sink out.new) }
{
    match line {
        Line::Back(place) => write_numbered_line(b"back ", place as u64 + 1, out),
        Line::Rules => write_piece(b"rules\n", out),
        Line::Exit(number, basis) => write_exit(number, basis, out),
        Line::Believed(count) => write_numbered_line(b"believed ", count as u64, out),
        Line::Side(side, strength) => write_side(side, strength, out),
    }
}

/// Writes all lines.
pub fn write_lines<O: Sink>(lines: &[Line], out: &mut O) -> Result<(), Failed>
    requires { All IsWritable lines.now }
    ensures { WroteText (flat_map line_text lines.now) result
        (sink_of O.Sink out.old) (sink_of O.Sink out.new) }
{
    for line in lines {
        write_one(*line, out)?;
    }
    Ok(())
}
