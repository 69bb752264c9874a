//! A journey of a command: its words are read, its tables loaded, and it is played and told.
ghost use Rattle.std.specs.Prelude.{◌≡◌, ◌≤◌, ◌∷◌, [], length, map, false, Some};
ghost use Rattle.std.specs.String.{string_bytes};
ghost use Rattle.frz_fide.specs.Valid.{IsValid};
ghost use Rattle.frz_fen.specs.Reading.{fen_of};
ghost use Rattle.frz_store.specs.Told.{source_of};
ghost use Rattle.frz_answer.specs.World.{world_of};
ghost use Rattle.frz_prelude.specs.Positions.{on_position};
ghost use Rattle.frz_atlas_prelude.specs.Names.{has_twice as is_twice};
ghost use Rattle.frz_atlas_prelude.specs.declared.names.TheConstants.{MOST_BACKS};
ghost use Rattle.frz_commands_line.specs.Sides.{on_side, side_of};
ghost use Rattle.frz_commands_line.specs.WayJobs.{RanBeside};
ghost use Rattle.frz_ways.specs.declared.opponent.Opponent.TheVariants as opponents;
ghost use Rattle.frz_commands_journeys.specs.Journeying.{journey_words, journeying_at, journeying_for};

use crate::ending::end_of_journey;
use frz_answer::{End, refuse};
use frz_atlas_prelude::{Asked, asked_names, end_at, load_atlas};
use frz_board::Position;
use frz_commands_line::{read_side, refuse_side};
use frz_fen::read_fen;
use frz_journeys::laws::one_journey;
use frz_journeys::play_journey;
use frz_prelude::{Refused, refuse_named};
use frz_steps::Steps;
use frz_store::{Sink, Source, Store};
use frz_ways::{Opponent, Player};
use std::alloc::Global;
use std::sync::ledger::Ledger;

/// Loads the tables of these names, no two of which are the same, and plays the journey from the
/// position.
fn play_at<S: Store, I: Source, O: Sink, L: Ledger>(
    alloc: Global,
    names: &Asked<'_>,
    player: Player,
    p: &Position,
    store: &mut S,
    input: &mut I,
    out: &mut O,
    steps: &mut Steps<L>,
) -> End
    requires valid { IsValid p.now }
    requires apart { is_twice (names.now.table.now ∷ map string_bytes names.now.behind.now) ≡ false }
    requires few { length (map string_bytes names.now.behind.now) ≤ MOST_BACKS }
    requires silent { player.opponent ≡ opponents.Codes
        → (source_of I.Source input.old).left ≡ Some [] }
    ensures ran { RanBeside player.opponent (journeying_at player names.now.table.now
        (map string_bytes names.now.behind.now) p.now) result
        (world_of S.Store I.Source O.Sink store.old input.old out.old steps.old)
        (world_of S.Store I.Source O.Sink store.new input.new out.new steps.new) }
    ensures unread { player.opponent ≡ opponents.Codes → input.new ≡ input.old }
{
    one_journey();
    match load_atlas(alloc, store, names.table, names.behind) {
        Ok(loaded) => {
            let arrival = play_journey(&loaded.table, &loaded.backs, p, player, input, out, steps);
            end_of_journey(arrival, out)
        }
        Err(fault) => end_at(fault, out),
    }
}

/// Plays the journey from the position of the FEN, or refuses the FEN.
fn play_from<S: Store, I: Source, O: Sink, L: Ledger>(
    alloc: Global,
    names: &Asked<'_>,
    player: Player,
    store: &mut S,
    input: &mut I,
    out: &mut O,
    steps: &mut Steps<L>,
) -> End
    requires apart { is_twice (names.now.table.now ∷ map string_bytes names.now.behind.now) ≡ false }
    requires few { length (map string_bytes names.now.behind.now) ≤ MOST_BACKS }
    requires silent { player.opponent ≡ opponents.Codes
        → (source_of I.Source input.old).left ≡ Some [] }
    ensures ran { RanBeside player.opponent (on_position (journeying_at player
        names.now.table.now (map string_bytes names.now.behind.now)) (fen_of names.now.fen.now)) result
        (world_of S.Store I.Source O.Sink store.old input.old out.old steps.old)
        (world_of S.Store I.Source O.Sink store.new input.new out.new steps.new) }
    ensures store_unused { (on_position (journeying_at player names.now.table.now
        (map string_bytes names.now.behind.now)) (fen_of names.now.fen.now)).needs.store ≡ false
        → store.new ≡ store.old }
    ensures input_unused { (on_position (journeying_at player names.now.table.now
        (map string_bytes names.now.behind.now)) (fen_of names.now.fen.now)).needs.input ≡ false
        → input.new ≡ input.old }
{
    match read_fen(names.fen.as_bytes()) {
        Ok(p) => play_at(alloc, names, player, &p, store, input, out, steps),
        Err(fault) => refuse_named(Refused::Fen(fault), out),
    }
}

/// Plays the journey of the side that the word names, or refuses the word.
fn play_for<S: Store, I: Source, O: Sink, L: Ledger>(
    alloc: Global,
    names: &Asked<'_>,
    opponent: Opponent,
    store: &mut S,
    input: &mut I,
    out: &mut O,
    steps: &mut Steps<L>,
) -> End
    requires apart { is_twice (names.now.table.now ∷ map string_bytes names.now.behind.now) ≡ false }
    requires few { length (map string_bytes names.now.behind.now) ≤ MOST_BACKS }
    requires silent { opponent ≡ opponents.Codes → (source_of I.Source input.old).left ≡ Some [] }
    ensures ran { RanBeside opponent (journeying_for opponent names.now.table.now
        (map string_bytes names.now.behind.now) names.now.fen.now names.now.side.now) result
        (world_of S.Store I.Source O.Sink store.old input.old out.old steps.old)
        (world_of S.Store I.Source O.Sink store.new input.new out.new steps.new) }
    ensures store_unused { (journeying_for opponent names.now.table.now
        (map string_bytes names.now.behind.now) names.now.fen.now names.now.side.now).needs.store
        ≡ false → store.new ≡ store.old }
    ensures input_unused { (journeying_for opponent names.now.table.now
        (map string_bytes names.now.behind.now) names.now.fen.now names.now.side.now).needs.input
        ≡ false → input.new ≡ input.old }
{
    match read_side(names.side) {
        Some(side) => {
            let player = Player { side, opponent };
            play_from(alloc, names, player, store, input, out, steps)
        }
        None => refuse_side(out),
    }
}

/// Runs `line` or `play`, by who finds the opponent's plies; `words` are the words behind the name
/// of the command.
pub fn run_journey<S: Store, I: Source, O: Sink, L: Ledger>(
    alloc: Global,
    words: &[String],
    opponent: Opponent,
    store: &mut S,
    input: &mut I,
    out: &mut O,
    steps: &mut Steps<L>,
) -> End
    requires silent { opponent ≡ opponents.Codes → (source_of I.Source input.old).left ≡ Some [] }
    ensures ran { RanBeside opponent (journey_words opponent (map string_bytes words.now)) result
        (world_of S.Store I.Source O.Sink store.old input.old out.old steps.old)
        (world_of S.Store I.Source O.Sink store.new input.new out.new steps.new) }
    ensures store_unused { (journey_words opponent (map string_bytes words.now)).needs.store ≡ false
        → store.new ≡ store.old }
    ensures input_unused { (journey_words opponent (map string_bytes words.now)).needs.input ≡ false
        → input.new ≡ input.old }
{
    match asked_names(words, 0) {
        Ok(names) => play_for(alloc, &names, opponent, store, input, out, steps),
        Err(why) => refuse(why, out),
    }
}
