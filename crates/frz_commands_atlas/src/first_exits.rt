//! The open exits of a census: a line for each class with its first position, the most frequent
//! class first.
ghost use Rattle.std.specs.Prelude.{◌≡◌, ◌≤◌, ◌+◌, ◌++◌, All, List, length, codes, flat_map, IfOk, OnOk, Err};
ghost use Rattle.frz_board.specs.Boards.{Board};
ghost use Rattle.frz_board.specs.declared.man.Colour.TheVariants.{White};
ghost use Rattle.frz_fen.specs.Writing.{fen_text};
ghost use Rattle.frz_fide.specs.Valid.{IsValid};
ghost use Rattle.frz_sets.specs.Sets.{size_of};
ghost use Rattle.frz_sets.specs.Sound.{IsSound};
ghost use Rattle.frz_store.specs.Told.{sink_of};
ghost use Rattle.frz_answer.specs.Texts.{WroteText};
ghost use Rattle.frz_report.specs.Exits.{class_of as class_of_board};
ghost use Rattle.frz_report.specs.Walks.{KeepsFirsts};
ghost use Rattle.frz_commands_atlas.specs.FirstExits.{WritesFirsts, first_line, listed, rarity as rarity_of, place_text};
ghost use Rattle.frz_commands_atlas.specs.Ranked.{IsRanked};

use frz_answer::{write_line, write_numbered, write_piece};
use frz_board::{NoMemory, Position};
use frz_exits::ExitBook;
use frz_fen::write_fen;
use frz_game::{Entries, Game};
use frz_report::census::Census;
use frz_report::walk::walk;
use frz_report::{ReportFault, Totals, class_of, write_totals};
use frz_steps::Steps;
use frz_store::{Failed, Sink};
use std::alloc::Global;
use std::sync::ledger::Ledger;

/// No class has more exits than this.
pub const MOST_COUNT: u64 = 18_446_744_073_709_551_615;

/// The first position of a class of open exits, and how many exits have this class.
#[derive(Clone, Copy)]
pub struct FirstExit {
    pub position: Position,
    pub count: u64,
}

/// How rare the class is; the lower, the more frequent.
fn rarity(row: FirstExit) -> u64
    ensures { result ≡ rarity_of row }
{
    MOST_COUNT - row.count
}

/// The first exits of a census, in the order in which the classes were met.
fn first_exits(alloc: Global, census: &Census) -> Result<Vec<FirstExit>, NoMemory>
    ensures { IfOk result (λ rows. (exits : List Board)
        → KeepsFirsts census.now.classes.entries census.now.firsts.items exits
        → rows.items ≡ listed exits) }
{
    let mut rows = Vec::new(alloc);
    let firsts = census.firsts.as_slice();
    for position in firsts {
        let row = FirstExit {
            position: *position,
            count: census.times(&class_of(position)),
        };
        match rows.push(row) {
            Ok(()) => {}
            Err(_) => return Err(NoMemory),
        }
    }
    Ok(rows)
}

/// Puts the most frequent class first. Classes of one count stay in their order.
fn rank_exits(rows: &mut Vec<FirstExit>) -> Result<(), NoMemory>
    ensures { OnOk result (IsRanked rarity_of rows.old.items rows.new.items) }
{
    match rows.sort_by_key(|row| rarity(*row)) {
        Ok(()) => Ok(()),
        Err(_) => Err(NoMemory),
    }
}

/// The first exits of a census, the most frequent class first.
fn ranked_exits(alloc: Global, census: &Census) -> Result<Vec<FirstExit>, NoMemory>
    ensures { IfOk result (λ rows. (exits : List Board)
        → KeepsFirsts census.now.classes.entries census.now.firsts.items exits
        → IsRanked rarity_of (listed exits) rows.items) }
{
    let mut rows = first_exits(alloc, census)?;
    rank_exits(&mut rows)?;
    Ok(rows)
}

/// Writes the class and the FEN of a position.
fn write_place<O: Sink>(position: &Position, out: &mut O) -> Result<(), Failed>
    requires { IsValid position.now }
    ensures { WroteText (place_text position.now) result
        (sink_of O.Sink out.old) (sink_of O.Sink out.new) }
{
    let class = class_of(position);
    write_piece(b" ", out)?;
    write_piece(class.as_str().as_bytes(), out)?;
    write_piece(b" ", out)?;
    write_line(write_fen(position).as_str().as_bytes(), out)
}

/// Writes the line of a class.
fn write_first<O: Sink>(row: FirstExit, out: &mut O) -> Result<(), Failed>
    requires { IsValid row.position }
    ensures { WroteText (first_line row) result
        (sink_of O.Sink out.old) (sink_of O.Sink out.new) }
{
    write_numbered(b"exits ", row.count, out)?;
    write_place(&row.position, out)
}

/// Writes a line for each class.
fn write_firsts<O: Sink>(rows: &[FirstExit], out: &mut O) -> Result<(), Failed>
    requires { All (λ row. IsValid row.position) rows.now }
    ensures { WroteText (flat_map first_line rows.now) result
        (sink_of O.Sink out.old) (sink_of O.Sink out.new) }
{
    for row in rows {
        write_first(*row, out)?;
    }
    Ok(())
}

/// Writes the report of a set as `frz_report::write_report` does, and names the first position of
/// each class of open exits, the most frequent class first.
pub fn write_first_report<B: ExitBook, E: Entries, O: Sink, L: Ledger>(
    alloc: Global,
    game: &Game<'_, B>,
    entries: &E,
    out: &mut O,
    steps: &mut Steps<L>,
) -> Result<Totals, ReportFault>
    requires sound { IsSound game.now.rules.now }
    requires many { length (E.codes entries.now White) ≡ size_of game.now.rules.now.groups }
    ensures wrote { WritesFirsts game.now.rules.now (B.value_at game.now.book.now)
        (E.codes entries.now) result (sink_of O.Sink out.old) (sink_of O.Sink out.new) }
    ensures stored { result ≡ Err ReportFault.Store → ⊥ }
    ensures steps { steps.new ≤ steps.old + size_of game.now.rules.now.groups }
    ensures later { steps.old ≤ steps.new }
{
    let mut census = Census::new(alloc);
    let squeezes = walk(game, entries, &mut census, out, steps)?;
    let rows = ranked_exits(alloc, &census)?;
    write_firsts(&rows, out)?;
    write_totals(squeezes, census.total, out)?;
    Ok(Totals {
        squeezes,
        unassigned: census.total,
    })
}
