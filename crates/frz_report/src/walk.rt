//! The walk over the numbers of a set: each is looked at once.
ghost use Rattle.std.specs.Prelude.{◌≡◌, ◌≤◌, ◌<◌, ◌+◌, ◌*◌, [], length, Err, Some, IfOk, OnOk};
ghost use Rattle.frz_board.specs.declared.man.Colour.TheVariants.{White};
ghost use Rattle.frz_index.specs.Members.{HasNumber};
ghost use Rattle.frz_index.specs.Membership.{position_at};
ghost use Rattle.frz_sets.specs.Sets.{size_of};
ghost use Rattle.frz_sets.specs.Sound.{IsSound};
ghost use Rattle.frz_store.specs.Told.{sink_of};
ghost use Rattle.frz_answer.specs.Texts.{WroteText};
ghost use Rattle.frz_report.specs.Exits.{exits_below, exits_of, positions_below, positions_of};
ghost use Rattle.frz_report.specs.Squeezes.{squeeze_at, squeeze_on, squeezes};
ghost use Rattle.frz_report.specs.Walks.{Counts, KeepsFirsts, WritesSome, line_of, lines_below, one_of};

use crate::census::Census;
use crate::fault::ReportFault;
use crate::squeeze::squeezed_with;
use crate::texts::write_squeeze;
use frz_bits::Bitboards;
use frz_board::{NoMemory, Position};
use frz_exits::ExitBook;
use frz_game::{Entries, Game, Lists};
use frz_index::Set;
use frz_steps::Steps;
use frz_store::{Failed, Sink};
use std::sync::ledger::Ledger;

/// The greatest number of moves that a list of moves holds.
pub const MOST_MOVES: u64 = 1_024;

/// Writes the line of a number if it is the first of a squeeze. Answers how many squeezes it wrote,
/// 0 or 1.
fn write_if_squeeze<E: Entries, O: Sink>(
    set: &Set,
    entries: &E,
    number: u32,
    p: &Position,
    out: &mut O,
) -> Result<u64, Failed>
    requires position { HasNumber set.now number p.now }
    requires inside { number < size_of set.now }
    requires many { length (E.codes entries.now White) ≡ size_of set.now }
    ensures wrote { WroteText (line_of (squeeze_on set.now (E.codes entries.now) number p.now))
        result
        (sink_of O.Sink out.old) (sink_of O.Sink out.new) }
    ensures many { IfOk result
        (λ n. n ≡ one_of (squeeze_on set.now (E.codes entries.now) number p.now)) }
{
    match squeezed_with(set, entries, number, p) {
        Some(second) => {
            write_squeeze(number, second, p, out)?;
            Ok(1)
        }
        None => Ok(0),
    }
}

/// Counts the open exits of this position, which has this number.
fn count_exits<B: ExitBook, L: Ledger>(
    game: &Game<'_, B>,
    number: u32,
    p: &Bitboards,
    lists: &mut Lists,
    census: &mut Census,
    steps: &mut Steps<L>,
) -> Result<(), NoMemory>
    requires position { position_at game.now.rules.now.groups number ≡ Some p.now }
    requires inside { number < size_of game.now.rules.now.groups }
    requires sound { IsSound game.now.rules.now }
    requires counts { Counts census.old.classes.entries
        (exits_below game.now.rules.now (B.value_at game.now.book.now) number) }
    requires total { census.old.total
        ≡ length (exits_below game.now.rules.now (B.value_at game.now.book.now) number) }
    requires firsts { KeepsFirsts census.old.classes.entries census.old.firsts.items
        (positions_below game.now.rules.now (B.value_at game.now.book.now) number) }
    requires few { census.old.total ≤ MOST_MOVES * number }
    ensures counts { OnOk result (Counts census.new.classes.entries
        (exits_below game.now.rules.now (B.value_at game.now.book.now) (number + 1))) }
    ensures total { OnOk result (census.new.total
        ≡ length (exits_below game.now.rules.now (B.value_at game.now.book.now) (number + 1))) }
    ensures firsts { OnOk result
        (KeepsFirsts census.new.classes.entries census.new.firsts.items
        (positions_below game.now.rules.now (B.value_at game.now.book.now) (number + 1))) }
    ensures few { OnOk result (census.new.total ≤ MOST_MOVES * (number + 1)) }
    ensures step { steps.new ≤ steps.old + 1 }
    ensures later { steps.old ≤ steps.new }
{
    game.nexts_by(number, &mut lists.moves, &mut lists.nexts, steps);
    census.note_all(p, lists.nexts.as_slice())
}

/// Counts the open exits of a number, and writes its line if it is the first of a squeeze. Answers
/// how many squeezes it wrote, 0 or 1; a broken number has no exit and no line.
fn look<B: ExitBook, E: Entries, O: Sink, L: Ledger>(
    game: &Game<'_, B>,
    entries: &E,
    number: u32,
    lists: &mut Lists,
    census: &mut Census,
    out: &mut O,
    steps: &mut Steps<L>,
) -> Result<u64, ReportFault>
    requires sound { IsSound game.now.rules.now }
    requires inside { number < size_of game.now.rules.now.groups }
    requires many { length (E.codes entries.now White) ≡ size_of game.now.rules.now.groups }
    requires counts { Counts census.old.classes.entries
        (exits_below game.now.rules.now (B.value_at game.now.book.now) number) }
    requires total { census.old.total
        ≡ length (exits_below game.now.rules.now (B.value_at game.now.book.now) number) }
    requires firsts { KeepsFirsts census.old.classes.entries census.old.firsts.items
        (positions_below game.now.rules.now (B.value_at game.now.book.now) number) }
    requires few { census.old.total ≤ MOST_MOVES * number }
    ensures wrote { WritesSome result
        (line_of (squeeze_at game.now.rules.now.groups (E.codes entries.now) number))
        (one_of (squeeze_at game.now.rules.now.groups (E.codes entries.now) number))
        (sink_of O.Sink out.old) (sink_of O.Sink out.new) }
    ensures stored { result ≡ Err ReportFault.Store → ⊥ }
    ensures counts { OnOk result (Counts census.new.classes.entries
        (exits_below game.now.rules.now (B.value_at game.now.book.now) (number + 1))) }
    ensures total { OnOk result (census.new.total
        ≡ length (exits_below game.now.rules.now (B.value_at game.now.book.now) (number + 1))) }
    ensures firsts { OnOk result
        (KeepsFirsts census.new.classes.entries census.new.firsts.items
        (positions_below game.now.rules.now (B.value_at game.now.book.now) (number + 1))) }
    ensures few { OnOk result (census.new.total ≤ MOST_MOVES * (number + 1)) }
    ensures step { steps.new ≤ steps.old + 1 }
    ensures later { steps.old ≤ steps.new }
{
    let Some(p) = game.set.boards_at(number) else {
        return Ok(0);
    };
    count_exits(game, number, &p, lists, census, steps)?;
    let squeezes = write_if_squeeze(game.set, entries, number, p.as_position(), out)?;
    Ok(squeezes)
}

/// Walks over all numbers: each squeeze is written as it is met, and the open exits are counted.
/// Answers how many squeezes there are.
pub fn walk<B: ExitBook, E: Entries, O: Sink, L: Ledger>(
    game: &Game<'_, B>,
    entries: &E,
    census: &mut Census,
    out: &mut O,
    steps: &mut Steps<L>,
) -> Result<u64, ReportFault>
    requires sound { IsSound game.now.rules.now }
    requires many { length (E.codes entries.now White) ≡ size_of game.now.rules.now.groups }
    requires none { Counts census.old.classes.entries [] }
    requires firsts { KeepsFirsts census.old.classes.entries census.old.firsts.items [] }
    requires total { census.old.total ≡ 0 }
    ensures wrote { WritesSome result
        (lines_below game.now.rules.now (E.codes entries.now) (size_of game.now.rules.now.groups))
        (length (squeezes game.now.rules.now.groups (E.codes entries.now)))
        (sink_of O.Sink out.old) (sink_of O.Sink out.new) }
    ensures stored { result ≡ Err ReportFault.Store → ⊥ }
    ensures counts { OnOk result (Counts census.new.classes.entries
        (exits_of game.now.rules.now (B.value_at game.now.book.now))) }
    ensures total { OnOk result (census.new.total
        ≡ length (exits_of game.now.rules.now (B.value_at game.now.book.now))) }
    ensures firsts { OnOk result (KeepsFirsts census.new.classes.entries census.new.firsts.items
        (positions_of game.now.rules.now (B.value_at game.now.book.now))) }
    ensures steps { steps.new ≤ steps.old + size_of game.now.rules.now.groups }
    ensures later { steps.old ≤ steps.new }
{
    let mut lists = Lists::new();
    let mut squeezes = 0;
    for number in 0..game.set.size() {
        squeezes += look(game, entries, number, &mut lists, census, out, steps)?;
    }
    Ok(squeezes)
}
