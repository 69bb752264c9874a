//! Tells why the bound of a side at a number is no better one, by codes in memory.
ghost use Rattle.std.specs.Prelude.{◌≡◌, ◌≤◌, ◌<◌, ◌+◌, ◌/◌, ◌^◌, true, length, map, slice_index, IfOk, IfSome, IsSome, None, Some};
ghost use Rattle.frz_arena.specs.Codes.{is_failure as fails_by};
ghost use Rattle.frz_backs.specs.FileOn.{loaded_back};
ghost use Rattle.frz_board.specs.Men.{other_of};
ghost use Rattle.frz_fide.specs.Legal.{is_legal};
ghost use Rattle.frz_fide.specs.Valid.{IsValid};
ghost use Rattle.frz_game.specs.Games.{graph_by};
ghost use Rattle.frz_game.specs.Numbers.{position_at};
ghost use Rattle.frz_reasons.specs.LocalEntries.{wrong_at};
ghost use Rattle.frz_sets.specs.Sets.{size_of};
ghost use Rattle.frz_sets.specs.Sound.{IsSound};
ghost use Rattle.frz_store.specs.Told.{sink_of};
ghost use Rattle.frz_answer.specs.Ends.{Said};
ghost use Rattle.frz_answer.specs.Texts.{WroteText};
ghost use Rattle.frz_commands_why.specs.Deciders.{decider_of};
ghost use Rattle.frz_commands_why.specs.Telling.{EndsWhy, TellsBehind, TellsSo, TellsWhy, ToldFailure, ToldOpponent, telling_steps};
ghost use Rattle.frz_commands_why.specs.Texts as words;
ghost use Rattle.frz_commands_why.specs.Texts.{LeavesLegally};

use crate::decider::Deciding;
use crate::texts::{write_exit, write_lack, write_wrong_entry};
use frz_answer::{End, Status, write_piece};
use frz_arena::{is_failure, is_win};
use frz_bits::Bitboards;
use frz_board::{Colour, Move};
use frz_bound_lines::write_kept_line;
use frz_exits::ExitBook;
use frz_fide::after;
use frz_game::{Game, Wrong};
use frz_graph::{Entries, Lists, local_at};
use frz_index::Set;
use frz_reasons::laws::{failing_ways_are_games, one_failing_way};
use frz_reasons::{Reason, write_denials, write_failing_way};
use frz_sets::Value;
use frz_steps::Steps;
use frz_store::{Failed, Sink};
use std::sync::ledger::Ledger;

/// Writes the lines of the exit by a legal move, and its repairs.
fn write_left_from<O: Sink>(
    deciding: &Deciding<'_>,
    p: &Bitboards,
    mv: Move,
    value: Value,
    out: &mut O,
) -> Result<(), Failed>
    requires sound { IsSound deciding.now.rules.now }
    requires valid { IsValid p.now }
    requires legal { is_legal p.now mv ≡ true }
    ensures { WroteText (words.exit_text (decider_of deciding.now.leans deciding.now.numbers.now
        deciding.now.rules.now (map loaded_back deciding.now.backs.now)) value mv (Some p.now))
        result (sink_of O.Sink out.old) (sink_of O.Sink out.new) }
{
    let q = after(p, mv);
    let decider = deciding.decider(&q);
    write_exit(value, q.as_position(), decider, out)?;
    write_lack(decider, p, mv, out)
}

/// The same for a move from the position of the number.
fn write_left<O: Sink>(
    set: &Set,
    deciding: &Deciding<'_>,
    number: u32,
    mv: Move,
    value: Value,
    out: &mut O,
) -> Result<(), Failed>
    requires sound { IsSound deciding.now.rules.now }
    requires legal { IfSome (position_at set.now number) (λ p. is_legal p mv ≡ true) }
    ensures { WroteText (words.exit_text (decider_of deciding.now.leans deciding.now.numbers.now
        deciding.now.rules.now (map loaded_back deciding.now.backs.now)) value mv
        (position_at set.now number)) result
        (sink_of O.Sink out.old) (sink_of O.Sink out.new) }
{
    match set.boards_at(number) {
        None => Ok(()),
        Some(p) => write_left_from(deciding, &p, mv, value, out),
    }
}

/// Writes the lines of the end of a way, and answers the entry that is wrong, if that is the end.
fn write_end<O: Sink>(
    set: &Set,
    deciding: &Deciding<'_>,
    reason: Reason,
    out: &mut O,
) -> Result<Option<Wrong>, Failed>
    requires sound { IsSound deciding.now.rules.now }
    requires legal { LeavesLegally set.now reason }
    ensures wrote { WroteText (words.end_text set.now (decider_of deciding.now.leans deciding.now.numbers.now
        deciding.now.rules.now (map loaded_back deciding.now.backs.now)) reason) result
        (sink_of O.Sink out.old) (sink_of O.Sink out.new) }
    ensures answers { IfOk result (λ wrong. wrong ≡ words.wrong_in reason) }
{
    match reason {
        Reason::Wrong(wrong) => return Ok(Some(wrong)),
        Reason::Mated => write_piece(b"mate\n", out)?,
        Reason::Renounced => write_piece(b"renounced\n", out)?,
        Reason::Left(number, mv, value) => write_left(set, deciding, number, mv, value, out)?,
    }
    Ok(None)
}

/// The wrong entry of a number whose kept code this is. It takes one step at most.
fn wrong_entry<B: ExitBook, E: Entries, L: Ledger>(
    game: &Game<'_, B>,
    entries: &E,
    side: Colour,
    number: u32,
    kept: u32,
    steps: &mut Steps<L>,
) -> Wrong
    requires inside { number < size_of game.now.rules.now.groups }
    requires many { length (E.codes entries.now side) ≡ size_of game.now.rules.now.groups }
    requires kept { kept ≡ slice_index (E.codes entries.now side) number }
    requires few { size_of game.now.rules.now.groups ≤ 2 ^ 27 }
    ensures wrong { result ≡ wrong_at (graph_by game.now.rules.now
        (B.value_at game.now.book.now)) side (E.codes entries.now side) number }
    ensures step { steps.new ≤ steps.old + 1 }
    ensures later { steps.old ≤ steps.new }
{
    let mut lists = Lists::new();
    let given = local_at(game, side, number, entries, &mut lists, steps);
    Wrong {
        side,
        number,
        kept,
        given,
    }
}

/// Tells the way on which the side fails from a number whose code is a failure, and its end.
fn tell_failure<B: ExitBook, E: Entries, O: Sink, L: Ledger>(
    game: &Game<'_, B>,
    entries: &E,
    deciding: &Deciding<'_>,
    side: Colour,
    number: u32,
    out: &mut O,
    steps: &mut Steps<L>,
) -> Result<Option<Wrong>, Failed>
    requires sound { IsSound deciding.now.rules.now }
    requires inside { IsSome (position_at game.now.rules.now.groups number) }
    requires below { number < size_of game.now.rules.now.groups }
    requires many { length (E.codes entries.now side) ≡ size_of game.now.rules.now.groups }
    requires few { size_of game.now.rules.now.groups ≤ 2 ^ 27 }
    requires failing { fails_by (slice_index (E.codes entries.now side) number) ≡ true }
    ensures told { TellsSo (ToldFailure game.now.rules.now (B.value_at game.now.book.now) side
        (E.codes entries.now side) (decider_of deciding.now.leans deciding.now.numbers.now
        deciding.now.rules.now (map loaded_back deciding.now.backs.now)) number) result
        (sink_of O.Sink out.old) (sink_of O.Sink out.new) }
    ensures steps { steps.new ≤ steps.old + slice_index (E.codes entries.now side) number / 2 }
    ensures later { steps.old ≤ steps.new }
{
    failing_ways_are_games();
    let reason = write_failing_way(game, entries, side, number, out, steps)?;
    write_end(game.set, deciding, reason, out)
}

/// Tells behind the denials of a hold why the opponent has no bound, if he has none: the line of
/// his bound, and the way on which he fails.
fn tell_opponent<B: ExitBook, E: Entries, O: Sink, L: Ledger>(
    game: &Game<'_, B>,
    entries: &E,
    deciding: &Deciding<'_>,
    opponent: Colour,
    number: u32,
    out: &mut O,
    steps: &mut Steps<L>,
) -> Result<Option<Wrong>, Failed>
    requires sound { IsSound deciding.now.rules.now }
    requires inside { IsSome (position_at game.now.rules.now.groups number) }
    requires below { number < size_of game.now.rules.now.groups }
    requires many { length (E.codes entries.now opponent) ≡ size_of game.now.rules.now.groups }
    requires few { size_of game.now.rules.now.groups ≤ 2 ^ 27 }
    ensures told { TellsSo (ToldOpponent game.now.rules.now (B.value_at game.now.book.now) opponent
        (E.codes entries.now opponent) (decider_of deciding.now.leans deciding.now.numbers.now
        deciding.now.rules.now (map loaded_back deciding.now.backs.now)) number None) result
        (sink_of O.Sink out.old) (sink_of O.Sink out.new) }
    ensures steps { steps.new ≤ steps.old + slice_index (E.codes entries.now opponent) number / 2 }
    ensures later { steps.old ≤ steps.new }
{
    one_failing_way();
    let code = entries.entry(opponent, number);
    if !is_failure(code) {
        return Ok(None);
    }
    write_kept_line(opponent, code, out)?;
    tell_failure(game, entries, deciding, opponent, number, out, steps)
}

/// Tells how a win is denied to a side that holds, and why its opponent has no bound, if he has
/// none.
fn tell_hold<B: ExitBook, E: Entries, O: Sink, L: Ledger>(
    game: &Game<'_, B>,
    entries: &E,
    deciding: &Deciding<'_>,
    side: Colour,
    number: u32,
    out: &mut O,
    steps: &mut Steps<L>,
) -> Result<Option<Wrong>, Failed>
    requires sound { IsSound deciding.now.rules.now }
    requires inside { IsSome (position_at game.now.rules.now.groups number) }
    requires below { number < size_of game.now.rules.now.groups }
    requires many { length (E.codes entries.now side) ≡ size_of game.now.rules.now.groups }
    requires others { length (E.codes entries.now (other_of side))
        ≡ size_of game.now.rules.now.groups }
    requires few { size_of game.now.rules.now.groups ≤ 2 ^ 27 }
    requires holds { slice_index (E.codes entries.now side) number ≡ 1 }
    ensures told { TellsBehind game.now.rules.now (B.value_at game.now.book.now) side
        (E.codes entries.now) (decider_of deciding.now.leans deciding.now.numbers.now
        deciding.now.rules.now (map loaded_back deciding.now.backs.now)) number result
        (sink_of O.Sink out.old) (sink_of O.Sink out.new) }
    ensures steps { steps.new ≤ steps.old + telling_steps
        (slice_index (E.codes entries.now side) number)
        (slice_index (E.codes entries.now (other_of side)) number)
        (length ((graph_by game.now.rules.now (B.value_at game.now.book.now)).arms number)) }
    ensures later { steps.old ≤ steps.new }
{
    one_failing_way();
    match write_denials(game, entries, side, number, out, steps)? {
        Some(wrong) => Ok(Some(wrong)),
        None => tell_opponent(game, entries, deciding, side.other(), number, out, steps),
    }
}

/// Tells what stands behind the line of the bound, and answers the entry that is wrong, if one is
/// met.
fn tell_behind<B: ExitBook, E: Entries, O: Sink, L: Ledger>(
    game: &Game<'_, B>,
    entries: &E,
    deciding: &Deciding<'_>,
    side: Colour,
    number: u32,
    out: &mut O,
    steps: &mut Steps<L>,
) -> Result<Option<Wrong>, Failed>
    requires sound { IsSound deciding.now.rules.now }
    requires inside { IsSome (position_at game.now.rules.now.groups number) }
    requires below { number < size_of game.now.rules.now.groups }
    requires many { length (E.codes entries.now side) ≡ size_of game.now.rules.now.groups }
    requires others { length (E.codes entries.now (other_of side))
        ≡ size_of game.now.rules.now.groups }
    requires few { size_of game.now.rules.now.groups ≤ 2 ^ 27 }
    ensures told { TellsBehind game.now.rules.now (B.value_at game.now.book.now) side
        (E.codes entries.now) (decider_of deciding.now.leans deciding.now.numbers.now
        deciding.now.rules.now (map loaded_back deciding.now.backs.now)) number result
        (sink_of O.Sink out.old) (sink_of O.Sink out.new) }
    ensures steps { steps.new ≤ steps.old + telling_steps
        (slice_index (E.codes entries.now side) number)
        (slice_index (E.codes entries.now (other_of side)) number)
        (length ((graph_by game.now.rules.now (B.value_at game.now.book.now)).arms number)) }
    ensures later { steps.old ≤ steps.new }
{
    let code = entries.entry(side, number);
    if is_win(code) {
        return Ok(None);
    }
    if code == 1 {
        return tell_hold(game, entries, deciding, side, number, out, steps);
    }
    if code == 0 {
        return Ok(Some(wrong_entry(game, entries, side, number, code, steps)));
    }
    tell_failure(game, entries, deciding, side, number, out, steps)
}

/// Writes the line of the bound and why it is no better one, and answers the status: `Wrong` where
/// an entry is wrong, which the last line then names.
fn tell_all<B: ExitBook, E: Entries, O: Sink, L: Ledger>(
    game: &Game<'_, B>,
    entries: &E,
    deciding: &Deciding<'_>,
    side: Colour,
    number: u32,
    out: &mut O,
    steps: &mut Steps<L>,
) -> Result<Status, Failed>
    requires sound { IsSound deciding.now.rules.now }
    requires inside { IsSome (position_at game.now.rules.now.groups number) }
    requires below { number < size_of game.now.rules.now.groups }
    requires many { length (E.codes entries.now side) ≡ size_of game.now.rules.now.groups }
    requires others { length (E.codes entries.now (other_of side))
        ≡ size_of game.now.rules.now.groups }
    requires few { size_of game.now.rules.now.groups ≤ 2 ^ 27 }
    ensures told { TellsWhy game.now.rules.now (B.value_at game.now.book.now) side
        (E.codes entries.now) (decider_of deciding.now.leans deciding.now.numbers.now
        deciding.now.rules.now (map loaded_back deciding.now.backs.now)) number result
        (sink_of O.Sink out.old) (sink_of O.Sink out.new) }
    ensures steps { steps.new ≤ steps.old + telling_steps
        (slice_index (E.codes entries.now side) number)
        (slice_index (E.codes entries.now (other_of side)) number)
        (length ((graph_by game.now.rules.now (B.value_at game.now.book.now)).arms number)) }
    ensures later { steps.old ≤ steps.new }
{
    one_failing_way();
    write_kept_line(side, entries.entry(side, number), out)?;
    let wrong = tell_behind(game, entries, deciding, side, number, out, steps)?;
    write_wrong_entry(wrong, out)?;
    match wrong {
        None => Ok(Status::Success),
        Some(_) => Ok(Status::Wrong),
    }
}

/// Tells why the bound of the side at a position's number is no better one, and ends the command.
pub fn tell_why<B: ExitBook, E: Entries, O: Sink, L: Ledger>(
    game: &Game<'_, B>,
    entries: &E,
    deciding: &Deciding<'_>,
    side: Colour,
    number: u32,
    out: &mut O,
    steps: &mut Steps<L>,
) -> End
    requires sound { IsSound deciding.now.rules.now }
    requires inside { IsSome (position_at game.now.rules.now.groups number) }
    requires below { number < size_of game.now.rules.now.groups }
    requires many { length (E.codes entries.now side) ≡ size_of game.now.rules.now.groups }
    requires others { length (E.codes entries.now (other_of side))
        ≡ size_of game.now.rules.now.groups }
    requires few { size_of game.now.rules.now.groups ≤ 2 ^ 27 }
    ensures told { EndsWhy game.now.rules.now (B.value_at game.now.book.now) side
        (E.codes entries.now) (decider_of deciding.now.leans deciding.now.numbers.now
        deciding.now.rules.now (map loaded_back deciding.now.backs.now)) number result
        (sink_of O.Sink out.old) (sink_of O.Sink out.new) }
    ensures steps { steps.new ≤ steps.old + telling_steps
        (slice_index (E.codes entries.now side) number)
        (slice_index (E.codes entries.now (other_of side)) number)
        (length ((graph_by game.now.rules.now (B.value_at game.now.book.now)).arms number)) }
    ensures later { steps.old ≤ steps.new }
{
    match tell_all(game, entries, deciding, side, number, out, steps) {
        Ok(status) => End::Done(status),
        Err(Failed) => End::SinkFault,
    }
}
