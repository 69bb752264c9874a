//! The top call: all that the program does.
ghost use Rattle.std.specs.Prelude.{◌≡◌, map, false};
ghost use Rattle.std.specs.String.{string_bytes};
ghost use Rattle.frz_answer.specs.World.{world_of};
ghost use Rattle.frz_answer.specs.Ends.{Ran};
ghost use Rattle.frz_answer.specs.Outcomes.{Outcome};
ghost use Rattle.frz_atlas_top.specs.Commands.{job_of};

use crate::verb::Verb;
use frz_answer::{End, Refusal, finish, refuse};
use frz_commands_ask::query_kind;
use frz_commands_atlas::{run_build, run_check, run_each, run_report, run_size};
use frz_commands_inquiry::laws::one_ask_answer;
use frz_commands_inquiry::{run_ask, run_why, why_lawful};
use frz_commands_journeys::laws::{one_line_answer, one_play_answer};
use frz_commands_journeys::{run_line, run_play};
use frz_commands_verdict::{run_premises, run_verdict};
use frz_prelude::tell;
use frz_program::read_command;
use frz_steps::Steps;
use frz_store::{Sink, Source, Store};
use std::alloc::Global;
use std::sync::ledger::Ledger;

/// Runs the command that the first word names, and refuses where it names none.
fn run<S: Store, I: Source, O: Sink, L: Ledger>(
    alloc: Global,
    words: &[String],
    store: &mut S,
    input: &mut I,
    out: &mut O,
    steps: &mut Steps<L>,
) -> End
    ensures ran { Ran (job_of (map string_bytes words.now)) result
        (world_of S.Store I.Source O.Sink store.old input.old out.old steps.old)
        (world_of S.Store I.Source O.Sink store.new input.new out.new steps.new) }
    ensures store_unused { (job_of (map string_bytes words.now)).needs.store ≡ false
        → store.new ≡ store.old }
    ensures input_unused { (job_of (map string_bytes words.now)).needs.input ≡ false
        → input.new ≡ input.old }
{
    match read_command(words) {
        Some((Verb::Build, rest)) => run_build(alloc, rest, store, out, steps),
        Some((Verb::Check, rest)) => run_check(alloc, rest, store, out, steps),
        Some((Verb::Query, rest)) => tell(query_kind(alloc, None, rest, store), out),
        Some((Verb::Ask, rest)) => run_ask(alloc, rest, store, input, out, steps),
        Some((Verb::Each, rest)) => run_each(alloc, rest, store, out, steps),
        Some((Verb::Line, rest)) => run_line(alloc, rest, store, out, steps),
        Some((Verb::Play, rest)) => run_play(alloc, rest, store, input, out, steps),
        Some((Verb::Why, rest)) => run_why(alloc, rest, store, out, steps),
        Some((Verb::Verdict, rest)) => run_verdict(alloc, rest, store, out, steps),
        Some((Verb::Premises, rest)) => run_premises(alloc, rest, store, out, steps),
        Some((Verb::Report, rest)) => run_report(alloc, rest, store, out, steps),
        Some((Verb::Size, rest)) => run_size(alloc, rest, store, out),
        None => refuse(Refusal::NoCommand, out),
    }
}

/// Does all that the program does, and returns its exit status. `words` are the words after the
/// program's name; all text goes to `out`.
pub fn atlas<S: Store, I: Source, O: Sink, L: Ledger>(
    alloc: Global,
    words: &[String],
    store: &mut S,
    input: &mut I,
    out: &mut O,
    steps: &mut Steps<L>,
) -> u8
    // The fields of `Outcome` say one by one what the status, the text, the files and the input
    // taken are, what they mean and what they cost. They do so for each status, and over every
    // store, input and output, whether its contract says what it holds (it is "told") or not.
    ensures outcome { Outcome (job_of (map string_bytes words.now)) result
        (world_of S.Store I.Source O.Sink store.old input.old out.old steps.old)
        (world_of S.Store I.Source O.Sink store.new input.new out.new steps.new) }

    // A store or an input that the command does not use stays as it was.
    ensures store_unused { (job_of (map string_bytes words.now)).needs.store ≡ false
        → store.new ≡ store.old }
    ensures input_unused { (job_of (map string_bytes words.now)).needs.input ≡ false
        → input.new ≡ input.old }
{
    one_ask_answer();
    one_line_answer();
    one_play_answer();
    why_lawful();
    let end = run(alloc, words, store, input, out, steps);
    finish(end, out)
}
