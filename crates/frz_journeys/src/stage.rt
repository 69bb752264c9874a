//! A stage of a journey: the way of a side by the codes of one table.
ghost use Rattle.std.specs.Prelude.{◌≡◌, ◌≤◌, ◌<◌, ◌++◌, ℕ, List, map, true};
ghost use Rattle.frz_store.specs.Told.{source_of, sink_of};
ghost use Rattle.frz_answer.specs.Answers.{IsLines};
ghost use Rattle.frz_game.specs.Games.{graph_by};
ghost use Rattle.frz_table.specs.Tables.{table_size};
ghost use Rattle.frz_backs.specs.Loaded.{link_loaded};
ghost use Rattle.frz_ways.specs.declared.opponent.Opponent.TheVariants as opponents;
ghost use Rattle.frz_ways.specs.declared.session_end.TheConstants.{MOST_LINES};
ghost use Rattle.frz_ways.specs.SessionFaults.{WroteBy, InputCause, TookBytes};
ghost use Rattle.frz_ways.specs.Hearing.{HasEnded, StaysEnded};
ghost use Rattle.frz_ways.specs.PlayLoaded.{IsSettled};
ghost use Rattle.frz_ways.specs.Shown.{PlaysShown};
ghost use Rattle.frz_ways.specs.WayEnds.{IsFinishOf};
ghost use Rattle.frz_journeys.specs.Tables.{arena_over, codes_of};
ghost use Rattle.frz_journeys.specs.JourneyTexts.{IsSmall, place_line};
ghost use Rattle.frz_journeys.specs.Onward.{LeftLegally};

use crate::place::Place;
use crate::texts::write_place;
use frz_arena::laws::sessions::sides_move_in_turn;
use frz_backs::AtlasBook;
use frz_board::{Move, Position};
use frz_chain::BackTable;
use frz_exits::{ExitBook, RuleBook};
use frz_fide::laws::all_listed;
use frz_game::laws::numbers::{different_arms, numbered};
use frz_game::{Game, Pair};
use frz_sets::Value;
use frz_steps::Steps;
use frz_store::{Sink, Source};
use frz_table::FileKind;
use frz_ways::laws::ways::{one_way, ways_are_games};
use frz_ways::{Finish, PlayFault, Player, Reader, play_shown};
use std::sync::ledger::Ledger;

/// Plays the way of the side from the number `start` of the table, whose exits have the values of
/// the book, and writes its text.
fn play_by<B: ExitBook, I: Source, O: Sink, L: Ledger>(
    book: &B,
    table: &BackTable,
    player: Player,
    start: u32,
    reader: &mut Reader,
    input: &mut I,
    out: &mut O,
    steps: &mut Steps<L>,
) -> Result<Finish, PlayFault>
    requires inside { start < table_size table.now.table }
    requires ended { reader.old.ended ≡ true → HasEnded (source_of I.Source input.old) }
    requires few { reader.old.more ≤ MOST_LINES }
    ensures played { (text bytes : List ℕ) × IsLines text
        × WroteBy result text (sink_of O.Sink out.old) (sink_of O.Sink out.new)
        × TookBytes bytes (source_of I.Source input.old) (source_of I.Source input.new)
        × StaysEnded reader.old reader.new bytes
        × PlaysShown (graph_by table.now.table.rules (B.value_at book.now)) player.opponent
        player.side (codes_of player.side (link_loaded table.now)) start reader.old reader.new
        bytes text result steps.old steps.new }
    ensures left { LeftLegally table.now.table.rules.groups result }
    ensures still_ended { reader.new.ended ≡ true → HasEnded (source_of I.Source input.new) }
    ensures no_more { reader.new.more ≤ reader.old.more }
    ensures kind { IsFinishOf result player.opponent }
    ensures settled { IsSettled result }
    ensures unread { player.opponent ≡ opponents.Codes → input.new ≡ input.old }
    ensures input { InputCause result (source_of I.Source input.old)
        (source_of I.Source input.new) }
    ensures later { steps.old ≤ steps.new }
{
    numbered();
    different_arms();
    all_listed();
    sides_move_in_turn::<Position, Move, Value>();
    one_way();
    ways_are_games();
    let rules = table.table.rules();
    let game = Game {
        set: table.table.set(),
        rules,
        book,
    };
    let entries = Pair {
        white: &table.white,
        black: &table.black,
    };
    play_shown(&game, &entries, player, start, reader, input, out, steps)
}

/// Plays the way of the side from the number `start` of the table, with the tables `before` it
/// behind its exit lines where it leans on them, and writes its text.
fn play_at<I: Source, O: Sink, L: Ledger>(
    table: &BackTable,
    before: &[BackTable],
    player: Player,
    start: u32,
    reader: &mut Reader,
    input: &mut I,
    out: &mut O,
    steps: &mut Steps<L>,
) -> Result<Finish, PlayFault>
    requires inside { start < table_size table.now.table }
    requires ended { reader.old.ended ≡ true → HasEnded (source_of I.Source input.old) }
    requires few { reader.old.more ≤ MOST_LINES }
    ensures played { (text bytes : List ℕ) × IsLines text
        × WroteBy result text (sink_of O.Sink out.old) (sink_of O.Sink out.new)
        × TookBytes bytes (source_of I.Source input.old) (source_of I.Source input.new)
        × StaysEnded reader.old reader.new bytes
        × PlaysShown (arena_over (map link_loaded before.now) (link_loaded table.now))
        player.opponent player.side (codes_of player.side (link_loaded table.now)) start reader.old
        reader.new bytes text result steps.old steps.new }
    ensures left { LeftLegally table.now.table.rules.groups result }
    ensures still_ended { reader.new.ended ≡ true → HasEnded (source_of I.Source input.new) }
    ensures no_more { reader.new.more ≤ reader.old.more }
    ensures kind { IsFinishOf result player.opponent }
    ensures settled { IsSettled result }
    ensures unread { player.opponent ≡ opponents.Codes → input.new ≡ input.old }
    ensures input { InputCause result (source_of I.Source input.old)
        (source_of I.Source input.new) }
    ensures later { steps.old ≤ steps.new }
{
    let rules = table.table.rules();
    match table.table.kind() {
        FileKind::Atlas => {
            let book = AtlasBook::new(rules, before);
            play_by(&book, table, player, start, reader, input, out, steps)
        }
        _ => {
            let book = RuleBook::new(rules);
            play_by(&book, table, player, start, reader, input, out, steps)
        }
    }
}

/// Plays the way of the side from the number `start` of the table at this place, behind the line of
/// the place.
pub fn play_stage<I: Source, O: Sink, L: Ledger>(
    table: &BackTable,
    before: &[BackTable],
    place: Place,
    player: Player,
    start: u32,
    reader: &mut Reader,
    input: &mut I,
    out: &mut O,
    steps: &mut Steps<L>,
) -> Result<Finish, PlayFault>
    requires inside { start < table_size table.now.table }
    requires small { IsSmall place }
    requires ended { reader.old.ended ≡ true → HasEnded (source_of I.Source input.old) }
    requires few { reader.old.more ≤ MOST_LINES }
    ensures played { (text bytes : List ℕ) × IsLines text
        × WroteBy result (place_line place ++ text)
        (sink_of O.Sink out.old) (sink_of O.Sink out.new)
        × TookBytes bytes (source_of I.Source input.old) (source_of I.Source input.new)
        × StaysEnded reader.old reader.new bytes
        × PlaysShown (arena_over (map link_loaded before.now) (link_loaded table.now))
        player.opponent player.side (codes_of player.side (link_loaded table.now)) start reader.old
        reader.new bytes text result steps.old steps.new }
    ensures left { LeftLegally table.now.table.rules.groups result }
    ensures still_ended { reader.new.ended ≡ true → HasEnded (source_of I.Source input.new) }
    ensures no_more { reader.new.more ≤ reader.old.more }
    ensures kind { IsFinishOf result player.opponent }
    ensures settled { IsSettled result }
    ensures unread { player.opponent ≡ opponents.Codes → input.new ≡ input.old }
    ensures input { InputCause result (source_of I.Source input.old)
        (source_of I.Source input.new) }
    ensures later { steps.old ≤ steps.new }
{
    write_place(place, out)?;
    play_at(table, before, player, start, reader, input, out, steps)
}
