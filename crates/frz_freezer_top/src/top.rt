//! The top call: all that the program does.
ghost use Rattle.std.specs.Prelude.{◌≡◌, ℕ, map, false};
ghost use Rattle.std.specs.String.{string_bytes};
ghost use Rattle.frz_store.specs.Files.{Files};
ghost use Rattle.frz_commands_line.specs.Later.{MayBeLater};
ghost use Rattle.frz_answer.specs.World.{world_of};
ghost use Rattle.frz_answer.specs.Ends.{Ran};
ghost use Rattle.frz_answer.specs.Outcomes.{Outcome};
ghost use Rattle.frz_freezer_top.specs.Commands.{job_of};

use crate::verb::Verb;
use frz_answer::{End, Refusal, finish, refuse};
use frz_commands_ask::{chainquery, query, run_report, solve};
use frz_commands_chain::{chain, chaincheck};
use frz_commands_chess::{make_move, run_moves, run_sans};
use frz_commands_line::laws::{one_line_answer, one_play_answer};
use frz_commands_line::{run_line, run_play};
use frz_commands_table::{build, check, migrate, run_sample};
use frz_prelude::tell;
use frz_program::read_command;
use frz_steps::Steps;
use frz_store::{Sink, Source, Store};
use std::alloc::Global;
use std::sync::ledger::Ledger;

/// Runs the command that the first word names, and refuses where it names none.
fn run<S: Store, I: Source, O: Sink, L: Ledger>(
    alloc: Global,
    words: &[String],
    store: &mut S,
    input: &mut I,
    out: &mut O,
    steps: &mut Steps<L>,
) -> End
    ensures ran { (later : ℕ → Files) × MayBeLater (S.files store.old) later
        × (Ran (job_of later (map string_bytes words.now)) result
        (world_of S.Store I.Source O.Sink store.old input.old out.old steps.old)
        (world_of S.Store I.Source O.Sink store.new input.new out.new steps.new)) }
    ensures store_unused { (later : ℕ → Files)
        → (job_of later (map string_bytes words.now)).needs.store ≡ false
        → store.new ≡ store.old }
    ensures input_unused { (later : ℕ → Files)
        → (job_of later (map string_bytes words.now)).needs.input ≡ false
        → input.new ≡ input.old }
{
    match read_command(words) {
        Some((Verb::Solve, rest)) => tell(solve(alloc, rest, store, steps), out),
        Some((Verb::Moves, rest)) => run_moves(rest, out, steps),
        Some((Verb::Sans, rest)) => run_sans(rest, out, steps),
        Some((Verb::Move, rest)) => tell(make_move(rest, steps), out),
        Some((Verb::Query, rest)) => tell(query(alloc, rest, store), out),
        Some((Verb::Line, rest)) => run_line(alloc, rest, store, out, steps),
        Some((Verb::Play, rest)) => run_play(alloc, rest, store, input, out, steps),
        Some((Verb::Check, rest)) => tell(check(alloc, rest, store, steps), out),
        Some((Verb::Build, rest)) => tell(build(alloc, rest, store, steps), out),
        Some((Verb::Migrate, rest)) => tell(migrate(alloc, rest, store), out),
        Some((Verb::Chain, rest)) => tell(chain(alloc, rest, store, steps), out),
        Some((Verb::ChainCheck, rest)) => tell(chaincheck(alloc, rest, store, steps), out),
        Some((Verb::ChainQuery, rest)) => tell(chainquery(alloc, rest, store), out),
        Some((Verb::Sample, rest)) => run_sample(alloc, rest, out, steps),
        Some((Verb::Report, rest)) => run_report(alloc, rest, store, out, steps),
        None => refuse(Refusal::NoCommand, out),
    }
}

/// Does all that the program does, and returns its exit status. `words` are the words after the
/// program's name; all text goes to `out`.
pub fn freezer<S: Store, I: Source, O: Sink, L: Ledger>(
    alloc: Global,
    words: &[String],
    store: &mut S,
    input: &mut I,
    out: &mut O,
    steps: &mut Steps<L>,
) -> u8
    // The fields of `Outcome` say one by one what the status, the text, the files and the input
    // taken are, what they mean and what they cost. They do so for each status, and over every
    // store, input and output, whether its contract says what it holds (it is "told") or not.
    // `later k` is what the store holds when a file is read again after k plies of a line or a
    // session: a told store holds what it tells.
    ensures outcome { (later : ℕ → Files) × MayBeLater (S.files store.old) later
        × (Outcome (job_of later (map string_bytes words.now)) result
        (world_of S.Store I.Source O.Sink store.old input.old out.old steps.old)
        (world_of S.Store I.Source O.Sink store.new input.new out.new steps.new)) }

    // A store or an input that the command does not use stays as it was.
    ensures store_unused { (later : ℕ → Files)
        → (job_of later (map string_bytes words.now)).needs.store ≡ false
        → store.new ≡ store.old }
    ensures input_unused { (later : ℕ → Files)
        → (job_of later (map string_bytes words.now)).needs.input ≡ false
        → input.new ≡ input.old }
{
    one_line_answer();
    one_play_answer();
    let end = run(alloc, words, store, input, out, steps);
    finish(end, out)
}
