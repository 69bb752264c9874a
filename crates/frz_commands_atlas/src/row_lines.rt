//! The lines that tell what is behind each move.
ghost use Rattle.std.specs.Prelude.{◌≡◌, ◌≤◌, ◌<◌, ◌+◌, ◌++◌, All, codes, length, map, true, IfSome};
ghost use Rattle.frz_fide.specs.Legal.{after, is_legal};
ghost use Rattle.frz_fide.specs.Listing.{legal_moves_of};
ghost use Rattle.frz_fide.specs.Valid.{IsValid};
ghost use Rattle.frz_store.specs.Told.{sink_of};
ghost use Rattle.frz_answer.specs.Texts.{WroteText};
ghost use Rattle.frz_ways.specs.Texts.{value_text};
ghost use Rattle.frz_sets.specs.Sound.{IsSound};
ghost use Rattle.frz_atlas.specs.FileOn.{loaded_back};
ghost use Rattle.frz_atlas_prelude.specs.BackLines.{back_word};
ghost use Rattle.frz_atlas_prelude.specs.declared.names.TheConstants.{MOST_BACKS};
ghost use Rattle.frz_commands_atlas.specs.FirstBack.{found_behind};
ghost use Rattle.frz_commands_atlas.specs.RowLines.{behind_text, each_text, freedom_text, outside_text, reached_text, row_line, rows_text, both_words, side_words};

use crate::first_back::Behind;
use crate::rows::Row;
use frz_answer::{write_numbered, write_piece};
use frz_board::{Colour, Move, Position};
use frz_bound_lines::{write_kept_words, write_side_name};
use frz_fide::{Bitboards, Ending, after, ending, legal_moves};
use frz_graph::Next;
use frz_san::san_among;
use frz_sets::Value;
use frz_steps::Steps;
use frz_store::{Failed, Sink};
use frz_ways::write_value;
use std::sync::ledger::Ledger;

/// Writes a side and the words of its code.
fn write_side<O: Sink>(side: Colour, code: u32, out: &mut O) -> Result<(), Failed>
    ensures { WroteText (side_words side code) result
        (sink_of O.Sink out.old) (sink_of O.Sink out.new) }
{
    write_side_name(side, out)?;
    write_kept_words(code, out)
}

fn write_both<O: Sink>(white: u32, black: u32, out: &mut O) -> Result<(), Failed>
    ensures { WroteText (both_words white black) result
        (sink_of O.Sink out.old) (sink_of O.Sink out.new) }
{
    write_side(Colour::White, white, out)?;
    write_piece(b", ", out)?;
    write_side(Colour::Black, black, out)
}

fn write_bounds<O: Sink>(white: u32, black: u32, out: &mut O) -> Result<(), Failed>
    ensures { WroteText (codes " " ++ both_words white black) result
        (sink_of O.Sink out.old) (sink_of O.Sink out.new) }
{
    write_piece(b" ", out)?;
    write_both(white, black, out)
}

fn write_exit<O: Sink>(value: Value, out: &mut O) -> Result<(), Failed>
    ensures { WroteText (codes " exit " ++ value_text value) result
        (sink_of O.Sink out.old) (sink_of O.Sink out.new) }
{
    write_piece(b" exit ", out)?;
    write_value(value, out)
}

/// Writes the place of the table behind that tells of an exit, counted from 1, and the codes in it.
fn write_told<O: Sink>(place: usize, white: u32, black: u32, out: &mut O) -> Result<(), Failed>
    requires { place < MOST_BACKS }
    ensures { WroteText (codes " " ++ (back_word place ++ (codes " " ++ both_words white black)))
        result (sink_of O.Sink out.old) (sink_of O.Sink out.new) }
{
    write_piece(b" ", out)?;
    write_numbered(b"back ", place as u64 + 1, out)?;
    write_bounds(white, black, out)
}

/// Writes the codes of both sides in the table that tells of the exit, and else its value.
fn write_outside<O: Sink>(
    value: Value,
    found: Option<(usize, (u32, u32))>,
    out: &mut O,
) -> Result<(), Failed>
    requires { IfSome found (λ told. told.0 < MOST_BACKS) }
    ensures { WroteText (outside_text value found) result
        (sink_of O.Sink out.old) (sink_of O.Sink out.new) }
{
    match found {
        Some((place, (white, black))) => write_told(place, white, black, out),
        None => write_exit(value, out),
    }
}

/// Writes the codes of both sides where the move stays in the set, and else what is known of the
/// exit.
fn write_reached<O: Sink>(
    behind: &Behind<'_>,
    p: &Bitboards,
    row: Row,
    out: &mut O,
) -> Result<(), Failed>
    requires valid { IsValid p.now }
    requires legal { is_legal p.now row.arm.mv ≡ true }
    requires sound { IsSound behind.now.rules.now }
    requires few { length behind.now.backs.now ≤ MOST_BACKS }
    ensures { WroteText (reached_text (found_behind behind.now.leans behind.now.rules.now
        (map loaded_back behind.now.backs.now) (after p.now row.arm.mv))
        row.arm.next row.white row.black) result
        (sink_of O.Sink out.old) (sink_of O.Sink out.new) }
{
    match row.arm.next {
        Next::Inside(_) => write_bounds(row.white, row.black, out),
        Next::Outside(value) => write_outside(value, behind.found(&after(p, row.arm.mv)), out),
    }
}

/// Writes that the mover has renounced the move, where it is not free.
fn write_freedom<O: Sink>(free: bool, out: &mut O) -> Result<(), Failed>
    ensures { WroteText (freedom_text free) result
        (sink_of O.Sink out.old) (sink_of O.Sink out.new) }
{
    match free {
        true => write_piece(b"", out),
        false => write_piece(b", renounced", out),
    }
}

/// Writes what stands behind the move on its line, and ends the line.
fn write_behind<O: Sink>(
    behind: &Behind<'_>,
    p: &Bitboards,
    row: Row,
    out: &mut O,
) -> Result<(), Failed>
    requires valid { IsValid p.now }
    requires legal { is_legal p.now row.arm.mv ≡ true }
    requires sound { IsSound behind.now.rules.now }
    requires few { length behind.now.backs.now ≤ MOST_BACKS }
    ensures { WroteText (behind_text (found_behind behind.now.leans behind.now.rules.now
        (map loaded_back behind.now.backs.now) (after p.now row.arm.mv)) row) result
        (sink_of O.Sink out.old) (sink_of O.Sink out.new) }
{
    let arm = row.arm;
    write_reached(behind, p, row, out)?;
    write_freedom(arm.free, out)?;
    write_piece(b"\n", out)
}

/// Writes the line of a legal move, which begins with its algebraic notation; `moves` are all legal
/// moves of the position.
fn write_row<O: Sink, L: Ledger>(
    behind: &Behind<'_>,
    p: &Position,
    moves: &[Move],
    row: Row,
    out: &mut O,
    steps: &mut Steps<L>,
) -> Result<(), Failed>
    requires valid { IsValid p.now }
    requires moves { moves.now ≡ legal_moves_of p.now }
    requires legal { is_legal p.now row.arm.mv ≡ true }
    requires sound { IsSound behind.now.rules.now }
    requires few { length behind.now.backs.now ≤ MOST_BACKS }
    ensures wrote { WroteText (row_line (found_behind behind.now.leans behind.now.rules.now
        (map loaded_back behind.now.backs.now)) p.now row) result
        (sink_of O.Sink out.old) (sink_of O.Sink out.new) }
    ensures later { steps.old ≤ steps.new }
    ensures spent { steps.new ≤ steps.old + 1 }
{
    let arm = row.arm;
    write_piece(san_among(p, moves, arm.mv, steps).as_bytes(), out)?;
    write_behind(behind, &Bitboards::of(p), row, out)
}

/// Writes a line for each of these legal moves; `moves` are all legal moves of the position.
fn write_rows<O: Sink, L: Ledger>(
    behind: &Behind<'_>,
    p: &Position,
    moves: &[Move],
    rows: &[Row],
    out: &mut O,
    steps: &mut Steps<L>,
) -> Result<(), Failed>
    requires valid { IsValid p.now }
    requires moves { moves.now ≡ legal_moves_of p.now }
    requires legal { All (λ row. is_legal p.now row.arm.mv ≡ true) rows.now }
    requires sound { IsSound behind.now.rules.now }
    requires few { length behind.now.backs.now ≤ MOST_BACKS }
    ensures wrote { WroteText (rows_text (found_behind behind.now.leans behind.now.rules.now
        (map loaded_back behind.now.backs.now)) p.now rows.now) result
        (sink_of O.Sink out.old) (sink_of O.Sink out.new) }
    ensures later { steps.old ≤ steps.new }
    ensures spent { steps.new ≤ steps.old + length rows.now }
{
    match rows {
        [] => Ok(()),
        [row, rest @ ..] => {
            write_row(behind, p, moves, *row, out, steps)?;
            write_rows(behind, p, moves, rest, out, steps)
        }
    }
}

/// Writes a line for each legal move of the position, whose rows these are, or `mate` or
/// `stalemate` where there is none.
pub fn write_each<O: Sink, L: Ledger>(
    behind: &Behind<'_>,
    p: &Position,
    rows: &[Row],
    out: &mut O,
    steps: &mut Steps<L>,
) -> Result<(), Failed>
    requires valid { IsValid p.now }
    requires legal { All (λ row. is_legal p.now row.arm.mv ≡ true) rows.now }
    requires sound { IsSound behind.now.rules.now }
    requires few { length behind.now.backs.now ≤ MOST_BACKS }
    ensures wrote { WroteText (each_text (found_behind behind.now.leans behind.now.rules.now
        (map loaded_back behind.now.backs.now)) p.now rows.now) result
        (sink_of O.Sink out.old) (sink_of O.Sink out.new) }
    ensures later { steps.old ≤ steps.new }
    ensures spent { steps.new ≤ steps.old + (1 + length rows.now) }
{
    let moves = legal_moves(p, steps);
    match ending(p, &moves) {
        Ending::Mate => write_piece(b"mate\n", out),
        Ending::Stalemate => write_piece(b"stalemate\n", out),
        Ending::Going => write_rows(behind, p, &moves, rows, out, steps),
    }
}
