//! What the tables answer to a line that names a position.
ghost use Rattle.std.specs.Prelude.{◌≡◌, ◌≤◌, ◌<◌, ◌+◌, ◌++◌, codes, length, map};
ghost use Rattle.frz_fide.specs.Valid.{IsValid};
ghost use Rattle.frz_fen.specs.declared.fault.FenFault.{FenFault};
ghost use Rattle.frz_sets.specs.declared.exit.Value.TheVariants.{Unknown};
ghost use Rattle.frz_exits.specs.Books.{value_by};
ghost use Rattle.frz_store.specs.Told.{sink_of};
ghost use Rattle.frz_answer.specs.Texts.{WroteText};
ghost use Rattle.frz_ways.specs.Texts.{value_text};
ghost use Rattle.frz_prelude.specs.Causes.{fen_line};
ghost use Rattle.frz_atlas.specs.FileOn.{loaded_back};
ghost use Rattle.frz_atlas.specs.Loaded.{leans_as, link_loaded};
ghost use Rattle.frz_atlas_prelude.specs.BackLines.{back_word};
ghost use Rattle.frz_atlas_prelude.specs.declared.names.TheConstants.{MOST_BACKS};
ghost use Rattle.frz_commands_inquiry.specs.Places.{behind_text, both_text, code_words, exit_or, last_value as value_last, leaning_on, outside_text, place_text, reply_to, side_text};

use crate::trimming::trimmed;
use frz_answer::{End, write_numbered, write_piece};
use frz_arena::{Bound, bound_of};
use frz_atlas::{AtlasBook, BackTable, codes_on, leans};
use frz_bits::Bitboards;
use frz_board::{Colour, Position};
use frz_bound_lines::{write_kept_words, write_side_name};
use frz_exits::{ExitBook, RuleBook};
use frz_fen::{FenFault, read_fen};
use frz_prelude::{Refused, Stop};
use frz_sets::Value;
use frz_store::{Failed, Sink};
use frz_table::FileKind;
use frz_ways::write_value;

fn write_code<O: Sink>(code: u32, out: &mut O) -> Result<(), Failed>
    ensures { WroteText (code_words code) result (sink_of O.Sink out.old) (sink_of O.Sink out.new) }
{
    match bound_of(code) {
        Some(Bound::Fails(plies)) => write_numbered(b" fails within ", u64::from(plies), out),
        _ => write_kept_words(code, out),
    }
}

/// Writes a side and the words of its code.
fn write_side<O: Sink>(side: Colour, code: u32, out: &mut O) -> Result<(), Failed>
    ensures { WroteText (side_text side code) result
        (sink_of O.Sink out.old) (sink_of O.Sink out.new) }
{
    write_side_name(side, out)?;
    write_code(code, out)
}

fn write_both<O: Sink>(white: u32, black: u32, out: &mut O) -> Result<(), Failed>
    ensures { WroteText (both_text white black) result
        (sink_of O.Sink out.old) (sink_of O.Sink out.new) }
{
    write_side(Colour::White, white, out)?;
    write_piece(b", ", out)?;
    write_side(Colour::Black, black, out)
}

/// Writes the place of a table, counted from 1, and the codes in it.
fn write_at<O: Sink>(place: usize, white: u32, black: u32, out: &mut O) -> Result<(), Failed>
    requires { place < MOST_BACKS }
    ensures { WroteText (back_word place ++ (codes " " ++ both_text white black)) result
        (sink_of O.Sink out.old) (sink_of O.Sink out.new) }
{
    write_numbered(b"back ", place as u64 + 1, out)?;
    write_piece(b" ", out)?;
    write_both(white, black, out)
}

fn write_exit<O: Sink>(value: Value, out: &mut O) -> Result<(), Failed>
    ensures { WroteText (codes "exit " ++ value_text value) result
        (sink_of O.Sink out.old) (sink_of O.Sink out.new) }
{
    write_piece(b"exit ", out)?;
    write_value(value, out)
}

/// Writes the value that is asked last, or that nothing is known of the position.
fn write_last<O: Sink>(last: Value, out: &mut O) -> Result<(), Failed>
    ensures { WroteText (exit_or (codes "outside") last) result
        (sink_of O.Sink out.old) (sink_of O.Sink out.new) }
{
    match last {
        Value::Unknown => write_piece(b"outside", out),
        value => write_exit(value, out),
    }
}

/// Writes the codes in the first of these tables whose set has the position, and the last value
/// where no set has it; the first of them stands at this place.
fn write_behind<O: Sink>(
    place: usize,
    last: Value,
    backs: &[BackTable],
    q: &Bitboards,
    out: &mut O,
) -> Result<(), Failed>
    requires valid { IsValid q.now }
    requires few { place + length backs.now ≤ MOST_BACKS }
    ensures { WroteText (behind_text place last (map loaded_back backs.now) q.now) result
        (sink_of O.Sink out.old) (sink_of O.Sink out.new) }
{
    match backs {
        [] => write_last(last, out),
        [back, rest @ ..] => match codes_on(back, q) {
            Some((white, black)) => write_at(place, white, black, out),
            None => write_behind(place + 1, last, rest, q, out),
        },
    }
}

/// The tables that stand behind the exit lines: none, where the table does not lean on others.
fn leaning<'a>(own: &BackTable, backs: &'a [BackTable]) -> &'a [BackTable]
    ensures tables { map loaded_back result.now
        ≡ leaning_on (leans_as own.now.table.kind) (map loaded_back backs.now) }
    ensures few { length result.now ≤ length backs.now }
{
    match own.table.kind() {
        FileKind::Atlas => backs,
        _ => &[],
    }
}

/// The value by the exit lines behind all tables, of a position of which those before say nothing;
/// only a table that leans on others has such lines.
fn last_value(own: &BackTable, q: &Bitboards) -> Value
    requires valid { IsValid q.now }
    requires unknown { value_by own.now.table.rules q.now ≡ Unknown }
    ensures { result ≡ value_last (link_loaded own.now) q.now }
{
    match leans(own) {
        true => AtlasBook::new(own.table.rules(), &[]).value_on(q),
        false => Value::Unknown,
    }
}

/// Writes what is known of a position outside the set of the table.
fn write_outside<O: Sink>(
    own: &BackTable,
    backs: &[BackTable],
    q: &Bitboards,
    out: &mut O,
) -> Result<(), Failed>
    requires valid { IsValid q.now }
    requires few { length backs.now ≤ MOST_BACKS }
    ensures { WroteText (outside_text (link_loaded own.now) (map loaded_back backs.now) q.now) result
        (sink_of O.Sink out.old) (sink_of O.Sink out.new) }
{
    match RuleBook::new(own.table.rules()).value_on(q) {
        Value::Unknown => write_behind(0, last_value(own, q), leaning(own, backs), q, out),
        value => write_exit(value, out),
    }
}

/// Writes what is known of a position.
fn write_place<O: Sink>(
    own: &BackTable,
    backs: &[BackTable],
    p: &Position,
    out: &mut O,
) -> Result<(), Failed>
    requires valid { IsValid p.now }
    requires few { length backs.now ≤ MOST_BACKS }
    ensures { WroteText (place_text (link_loaded own.now) (map loaded_back backs.now) p.now) result
        (sink_of O.Sink out.old) (sink_of O.Sink out.new) }
{
    let q = Bitboards::of(p);
    match codes_on(own, &q) {
        Some((white, black)) => write_both(white, black, out),
        None => write_outside(own, backs, &q, out),
    }
}

/// Writes the line that refuses a FEN.
fn write_fen_line<O: Sink>(fault: FenFault, out: &mut O) -> Result<(), Failed>
    ensures { WroteText (fen_line fault) result (sink_of O.Sink out.old) (sink_of O.Sink out.new) }
{
    match Stop::Refused(Refused::Fen(fault)).end(out) {
        End::Done(_) => Ok(()),
        _ => Err(Failed),
    }
}

/// Writes the line that answers a line of the input.
pub fn write_reply<O: Sink>(
    own: &BackTable,
    backs: &[BackTable],
    line: &[u8],
    out: &mut O,
) -> Result<(), Failed>
    requires few { length backs.now ≤ MOST_BACKS }
    ensures { WroteText
        (reply_to (link_loaded own.now) (map loaded_back backs.now) line.now ++ codes "\n") result
        (sink_of O.Sink out.old) (sink_of O.Sink out.new) }
{
    match read_fen(trimmed(line)) {
        Ok(p) => {
            write_place(own, backs, &p, out)?;
            write_piece(b"\n", out)
        }
        Err(fault) => write_fen_line(fault, out),
    }
}
