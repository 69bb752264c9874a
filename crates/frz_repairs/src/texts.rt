//! The lines that say what a text lacks.
ghost use Rattle.std.specs.Prelude.{◌≡◌, ◌++◌, codes};
ghost use Rattle.frz_store.specs.Told.{sink_of};
ghost use Rattle.frz_answer.specs.Texts.{WroteText};
ghost use Rattle.frz_report.specs.Exits.{class_of as letters_of};
ghost use Rattle.frz_repairs.specs.Repairs as words;

use crate::victim::Victim;
use frz_answer::{write_line, write_piece};
use frz_board::{Colour, Kind, Man, Move, Position, Square};
use frz_bound_lines::write_side_name;
use frz_report::class_of;
use frz_store::{Failed, Sink};

/// Writes a kind of man on a square, as `K:h3`.
fn write_standing<O: Sink>(kind: Kind, square: Square, out: &mut O) -> Result<(), Failed>
    ensures { WroteText (words.standing kind square) result
        (sink_of O.Sink out.old) (sink_of O.Sink out.new) }
{
    let word = [
        kind.letter(),
        b':',
        b'a' + square.file(),
        b'1' + square.rank(),
    ];
    write_piece(&word, out)
}

/// Writes the same and a line feed behind it.
fn write_standing_end<O: Sink>(kind: Kind, square: Square, out: &mut O) -> Result<(), Failed>
    ensures { WroteText (words.standing kind square ++ codes "\n") result
        (sink_of O.Sink out.old) (sink_of O.Sink out.new) }
{
    write_standing(kind, square, out)?;
    write_piece(b"\n", out)
}

/// Writes the same behind a blank.
fn write_new_man<O: Sink>(kind: Kind, square: Square, out: &mut O) -> Result<(), Failed>
    ensures { WroteText (codes " " ++ words.standing kind square) result
        (sink_of O.Sink out.old) (sink_of O.Sink out.new) }
{
    write_piece(b" ", out)?;
    write_standing(kind, square, out)
}

/// Writes whose men the text lacks.
fn write_wanted<O: Sink>(side: Colour, out: &mut O) -> Result<(), Failed>
    ensures { WroteText (words.wanted side) result
        (sink_of O.Sink out.old) (sink_of O.Sink out.new) }
{
    write_piece(b"wanted ", out)?;
    write_side_name(side, out)
}

/// Writes the line of a man that went to the square.
pub fn write_moved<O: Sink>(man: Man, square: Square, out: &mut O) -> Result<(), Failed>
    ensures { WroteText (words.move_line (Some man) square) result
        (sink_of O.Sink out.old) (sink_of O.Sink out.new) }
{
    write_wanted(man.colour, out)?;
    write_piece(b" ", out)?;
    write_standing_end(man.kind, square, out)
}

/// Writes the line of a man that was captured.
fn write_victim<O: Sink>(victim: Victim, out: &mut O) -> Result<(), Failed>
    ensures { WroteText (words.victim_line victim) result
        (sink_of O.Sink out.old) (sink_of O.Sink out.new) }
{
    write_wanted(victim.man.colour, out)?;
    write_piece(b" 0-1 ", out)?;
    write_standing_end(victim.man.kind, victim.square, out)
}

/// Writes the line of the man that was captured, if one was.
pub fn write_captured<O: Sink>(victim: Option<Victim>, out: &mut O) -> Result<(), Failed>
    ensures { WroteText (words.capture_line victim) result
        (sink_of O.Sink out.old) (sink_of O.Sink out.new) }
{
    match victim {
        Some(victim) => write_victim(victim, out),
        None => Ok(()),
    }
}

/// Writes what a pawn can become on the square.
fn write_new_men<O: Sink>(square: Square, out: &mut O) -> Result<(), Failed>
    ensures { WroteText (words.new_men square) result
        (sink_of O.Sink out.old) (sink_of O.Sink out.new) }
{
    write_new_man(Kind::Queen, square, out)?;
    write_new_man(Kind::Rook, square, out)?;
    write_new_man(Kind::Bishop, square, out)?;
    write_new_man(Kind::Knight, square, out)
}

/// Writes the line of a pawn of the side that became something on the square.
fn write_promotion<O: Sink>(side: Colour, square: Square, out: &mut O) -> Result<(), Failed>
    ensures { WroteText (words.new_men_line side square) result
        (sink_of O.Sink out.old) (sink_of O.Sink out.new) }
{
    write_wanted(side, out)?;
    write_new_men(square, out)?;
    write_piece(b"\n", out)
}

/// Writes the line of the side's pawn that became something by the move, if one did.
pub fn write_promoted<O: Sink>(side: Colour, m: Move, out: &mut O) -> Result<(), Failed>
    ensures { WroteText (words.promotion_line m.promo side m.to) result
        (sink_of O.Sink out.old) (sink_of O.Sink out.new) }
{
    match m.promo {
        Some(_) => write_promotion(side, m.to, out),
        None => Ok(()),
    }
}

/// Writes the letters of the men and a line feed behind them.
fn write_class<O: Sink>(q: &Position, out: &mut O) -> Result<(), Failed>
    ensures { WroteText (letters_of q.now ++ codes "\n") result
        (sink_of O.Sink out.old) (sink_of O.Sink out.new) }
{
    write_line(class_of(q).as_str().as_bytes(), out)
}

/// Writes the line of the table of these men.
pub fn write_table<O: Sink>(q: &Position, out: &mut O) -> Result<(), Failed>
    ensures { WroteText (words.table_line q.now) result
        (sink_of O.Sink out.old) (sink_of O.Sink out.new) }
{
    write_piece(b"wanted a table of ", out)?;
    write_class(q, out)
}
