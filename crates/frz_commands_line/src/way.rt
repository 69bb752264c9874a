//! A way of a command, which is a line or a session: its words are read, its table is opened, and
//! it is played and told.
ghost use Rattle.std.specs.Prelude.{◌≡◌, ℕ, map, false};
ghost use Rattle.std.specs.String.{string_bytes};
ghost use Rattle.frz_fide.specs.Valid.{IsValid};
ghost use Rattle.frz_fen.specs.Reading.{fen_of};
ghost use Rattle.frz_table.specs.declared.kind.FileKind.TheVariants.{Plain};
ghost use Rattle.frz_table.specs.Opening.{contents_of, table_format};
ghost use Rattle.frz_table.specs.Possible.{MayOpen};
ghost use Rattle.frz_table.specs.Tables.{Carries};
ghost use Rattle.frz_store.specs.Files.{Files};
ghost use Rattle.frz_answer.specs.World.{world_of};
ghost use Rattle.frz_prelude.specs.Positions.{on_position};
ghost use Rattle.frz_commands_line.specs.Later.{MayBeLater, OpensAtStart};
ghost use Rattle.frz_commands_line.specs.WayJobs.{RanBeside, takes_input, way_at, way_in, way_words};

use crate::ending::{end_of_line, end_of_session};
use crate::side::{read_side, refuse_side};
use frz_answer::{End, Refusal, refuse, three_words};
use frz_board::Position;
use frz_fen::read_fen;
use frz_prelude::{Refused, Stop, refuse_named};
use frz_steps::Steps;
use frz_store::{Sink, Source, Store};
use frz_table::{TableFile, open_table};
use frz_ways::laws::lines::one_line;
use frz_ways::laws::sessions::one_session;
use frz_ways::{Opponent, Player, best_line, play_session};
use std::alloc::Global;
use std::sync::ledger::Ledger;

/// Plays and writes the way of the player by an open table.
fn play_in<S: Store, I: Source, O: Sink, L: Ledger>(
    table: &TableFile,
    player: Player,
    p: &Position,
    store: &mut S,
    input: &mut I,
    out: &mut O,
    steps: &mut Steps<L>,
) -> End
    requires valid { IsValid p.now }
    requires carried { Carries (S.files store.old) table.now }
    requires opens { MayOpen (table_format Plain) (S.files store.old) table.now.name
        (contents_of table.now) }
    ensures ran { (later : ℕ → Files) × MayBeLater (S.files store.old) later
        × OpensAtStart later table.now
        × RanBeside player.opponent
        (way_in player.opponent later table.now player.side p.now) result
        (world_of S.Store I.Source O.Sink store.old input.old out.old steps.old)
        (world_of S.Store I.Source O.Sink store.new input.new out.new steps.new) }
    ensures unread { takes_input player.opponent ≡ false → input.new ≡ input.old }
{
    match player.opponent {
        Opponent::Codes => {
            one_line();
            let line = best_line(table, store, p, player.side, out, steps);
            end_of_line(line, out)
        }
        Opponent::Input => {
            one_session();
            let session = play_session(table, store, p, player.side, input, out, steps);
            end_of_session(session, out)
        }
    }
}

/// Opens the table of this name and plays the way of the player by it.
fn play_at<S: Store, I: Source, O: Sink, L: Ledger>(
    alloc: Global,
    table: &str,
    player: Player,
    p: &Position,
    store: &mut S,
    input: &mut I,
    out: &mut O,
    steps: &mut Steps<L>,
) -> End
    requires { IsValid p.now }
    ensures ran { (later : ℕ → Files) × MayBeLater (S.files store.old) later
        × RanBeside player.opponent
        (way_at player.opponent later table.now player.side p.now) result
        (world_of S.Store I.Source O.Sink store.old input.old out.old steps.old)
        (world_of S.Store I.Source O.Sink store.new input.new out.new steps.new) }
    ensures unread { takes_input player.opponent ≡ false → input.new ≡ input.old }
{
    one_line();
    one_session();
    match open_table(alloc, store, table) {
        Ok(table) => play_in(&table, player, p, store, input, out, steps),
        Err(fault) => Stop::from(fault).end(out),
    }
}

/// Plays the way from the position of the FEN, or refuses the FEN.
fn play_from<S: Store, I: Source, O: Sink, L: Ledger>(
    alloc: Global,
    table: &str,
    fen: &str,
    player: Player,
    store: &mut S,
    input: &mut I,
    out: &mut O,
    steps: &mut Steps<L>,
) -> End
    ensures ran { (later : ℕ → Files) × MayBeLater (S.files store.old) later
        × RanBeside player.opponent (on_position
        (way_at player.opponent later table.now player.side) (fen_of fen.now)) result
        (world_of S.Store I.Source O.Sink store.old input.old out.old steps.old)
        (world_of S.Store I.Source O.Sink store.new input.new out.new steps.new) }
    ensures store_unused { (later : ℕ → Files) → (on_position
        (way_at player.opponent later table.now player.side) (fen_of fen.now)).needs.store ≡ false
        → store.new ≡ store.old }
    ensures input_unused { (later : ℕ → Files) → (on_position
        (way_at player.opponent later table.now player.side) (fen_of fen.now)).needs.input ≡ false
        → input.new ≡ input.old }
{
    match read_fen(fen.as_bytes()) {
        Ok(p) => play_at(alloc, table, player, &p, store, input, out, steps),
        Err(fault) => refuse_named(Refused::Fen(fault), out),
    }
}

/// Runs `line` or `play`, by who finds the opponent's plies; `words` are TABLE, FEN and SIDE.
pub fn run_way<S: Store, I: Source, O: Sink, L: Ledger>(
    alloc: Global,
    words: &[String],
    opponent: Opponent,
    store: &mut S,
    input: &mut I,
    out: &mut O,
    steps: &mut Steps<L>,
) -> End
    ensures ran { (later : ℕ → Files) × MayBeLater (S.files store.old) later
        × RanBeside opponent (way_words opponent later (map string_bytes words.now)) result
        (world_of S.Store I.Source O.Sink store.old input.old out.old steps.old)
        (world_of S.Store I.Source O.Sink store.new input.new out.new steps.new) }
    ensures store_unused { (later : ℕ → Files)
        → (way_words opponent later (map string_bytes words.now)).needs.store ≡ false
        → store.new ≡ store.old }
    ensures input_unused { (later : ℕ → Files)
        → (way_words opponent later (map string_bytes words.now)).needs.input ≡ false
        → input.new ≡ input.old }
{
    let Some((table, fen, side)) = three_words(words) else {
        return refuse(Refusal::Count, out);
    };
    let Some(side) = read_side(side) else {
        return refuse_side(out);
    };
    let player = Player { side, opponent };
    play_from(alloc, table, fen, player, store, input, out, steps)
}
