//! Counts the codes of each kind in the tables of a sample, and writes the lines that tell it.
ghost use Rattle.std.specs.Prelude.{◌≡◌};
ghost use Rattle.std.specs.List.{count_by};
ghost use Rattle.frz_arena.specs.Codes as kinds;
ghost use Rattle.frz_store.specs.Told.{sink_of};
ghost use Rattle.frz_answer.specs.Texts.{WroteText};
ghost use Rattle.frz_commands_table.specs.Sampling as words;
ghost use Rattle.frz_commands_table.specs.Sampling.{is_code, tally_text, counts_text, side_line, head_text, sample_lines};

use frz_answer::{write_numbered, write_piece};
use frz_arena::{Bound, code, is_failure, is_win};
use frz_board::{Colour, Square};
use frz_bound_lines::write_side_name;
use frz_store::{Failed, Sink};

/// The code of a broken number, which belongs to no position of the set.
pub const BROKEN: u32 = 0;

/// How many of the codes are `wanted`.
fn count_code(table: &[u32], wanted: u32) -> usize
    ensures { result ≡ count_by (is_code wanted) table.now }
{
    table.iter().filter(|code| **code == wanted).count()
}

fn count_wins(table: &[u32]) -> usize
    ensures { result ≡ count_by kinds.is_win table.now }
{
    table.iter().filter(|code| is_win(**code)).count()
}

fn count_failures(table: &[u32]) -> usize
    ensures { result ≡ count_by kinds.is_failure table.now }
{
    table.iter().filter(|code| is_failure(**code)).count()
}

/// The plies of a win, and 0 where the code is not that of a win.
fn win_plies(code: u32) -> u32
    ensures { result ≡ words.win_plies code }
{
    if is_win(code) { (code - 2) / 2 } else { 0 }
}

/// The most plies of a win in the table, and 0 where it has none.
fn longest(table: &[u32]) -> u32
    ensures { result ≡ words.longest table.now }
{
    table
        .iter()
        .fold(0, |most, code| win_plies(*code).max(most))
}

fn write_tally<O: Sink>(
    wins: u64,
    holds: u64,
    none: u64,
    plies: u64,
    out: &mut O,
) -> Result<(), Failed>
    ensures { WroteText (tally_text wins holds none plies) result
        (sink_of O.Sink out.old) (sink_of O.Sink out.new) }
{
    write_numbered(b" wins ", wins, out)?;
    write_numbered(b" holds ", holds, out)?;
    write_numbered(b" none ", none, out)?;
    write_numbered(b" longest ", plies, out)
}

/// Writes how many wins, holds and failures the table has, and the most plies of a win.
fn write_counts<O: Sink>(table: &[u32], out: &mut O) -> Result<(), Failed>
    ensures { WroteText (counts_text table.now) result
        (sink_of O.Sink out.old) (sink_of O.Sink out.new) }
{
    write_tally(
        count_wins(table) as u64,
        count_code(table, code(Bound::Holds)) as u64,
        count_failures(table) as u64,
        longest(table) as u64,
        out,
    )
}

fn write_side_line<O: Sink>(side: Colour, table: &[u32], out: &mut O) -> Result<(), Failed>
    ensures { WroteText (side_line side table.now) result
        (sink_of O.Sink out.old) (sink_of O.Sink out.new) }
{
    write_side_name(side, out)?;
    write_counts(table, out)?;
    write_piece(b"\n", out)
}

fn write_head<O: Sink>(k: u64, size: u64, broken: u64, out: &mut O) -> Result<(), Failed>
    ensures { WroteText (head_text k size broken) result
        (sink_of O.Sink out.old) (sink_of O.Sink out.new) }
{
    write_numbered(b"sample ", k, out)?;
    write_numbered(b"\nnumbers ", size, out)?;
    write_numbered(b"\nbroken ", broken, out)?;
    write_piece(b"\n", out)
}

/// Writes all lines of a sample: the square, the size, the broken numbers, a line for each side,
/// and that the tables are exact.
pub fn write_sample<O: Sink>(
    k: Square,
    size: u32,
    white: &[u32],
    black: &[u32],
    out: &mut O,
) -> Result<(), Failed>
    ensures { WroteText (sample_lines k size white.now black.now) result
        (sink_of O.Sink out.old) (sink_of O.Sink out.new) }
{
    let broken = count_code(white, BROKEN);
    write_head(k.number() as u64, size as u64, broken as u64, out)?;
    write_side_line(Colour::White, white, out)?;
    write_side_line(Colour::Black, black, out)?;
    write_piece(b"exact\n", out)
}
