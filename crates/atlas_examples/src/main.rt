//! Does over real files what its arguments say: builds a plain table, builds and checks tables over
//! several others, asks them, also line by line, plays by them, and tells what exit lines rest on
//! and what is shown of positions. An argument has the words of one command with `; ` between them,
//! and behind what the command says stands its status.
#![tactic(auto)]

ghost use Rattle.std.specs.Prelude.{◌≡◌, ◌<◌};

use frz_answer::{End, Refusal, finish, refuse, write_numbered_line};
use frz_commands_ask::query_kind;
use frz_commands_atlas::{run_build, run_check, run_each, run_report};
use frz_commands_inquiry::{run_ask, run_why};
use frz_commands_journeys::{run_line as play_line, run_play};
use frz_commands_table::build;
use frz_commands_verdict::{run_premises, run_verdict};
use frz_prelude::tell;
use frz_steps::Steps;
use frz_store::{DiskStore, InputSource, OutputSink, Sink, Source, Store};
use std::alloc::{AllocError, Global};
use std::env;
use std::io::{self, ErrorKind};
use std::marker::Brand;
use std::process::ExitCode;
use std::sync::ledger::{Blank, Ledger};

/// The words of a command. Each cut takes two bytes at least.
fn words_of(alloc: Global, line: &str) -> Result<Vec<String>, AllocError> {
    let mut words = Vec::new(alloc);
    let mut rest = line;
    for _ in 0..line.len() {
        let Some((word, more)) = rest.split_once("; ") else {
            break;
        };
        words.push(format!(in alloc; "{word}")?)?;
        rest = more;
    }
    words.push(format!(in alloc; "{rest}")?)?;
    Ok(words)
}

/// Runs one command.
fn run_command<S: Store, I: Source, O: Sink, L: Ledger>(
    alloc: Global,
    words: &[String],
    store: &mut S,
    input: &mut I,
    out: &mut O,
    steps: &mut Steps<L>,
) -> End {
    let [verb, rest @ ..] = words else {
        return refuse(Refusal::NoCommand, out);
    };
    match verb.as_str() {
        "plain" => tell(build(alloc, rest, store, steps), out),
        "build" => run_build(alloc, rest, store, out, steps),
        "check" => run_check(alloc, rest, store, out, steps),
        "ask" => run_ask(alloc, rest, store, input, out, steps),
        "each" => run_each(alloc, rest, store, out, steps),
        "line" => play_line(alloc, rest, store, out, steps),
        "play" => run_play(alloc, rest, store, input, out, steps),
        "report" => run_report(alloc, rest, store, out, steps),
        "premises" => run_premises(alloc, rest, store, out, steps),
        "verdict" => run_verdict(alloc, rest, store, out, steps),
        "why" => run_why(alloc, rest, store, out, steps),
        "query" => tell(query_kind(alloc, None, rest, store), out),
        _ => refuse(Refusal::NoCommand, out),
    }
}

/// Runs the command of a line, and tells its status. Gives whether that could be told.
fn run_line<S: Store, I: Source, O: Sink, L: Ledger>(
    alloc: Global,
    line: &str,
    store: &mut S,
    input: &mut I,
    out: &mut O,
    steps: &mut Steps<L>,
) -> Result<bool, AllocError> {
    let words = words_of(alloc, line)?;
    let end = run_command(alloc, &words, store, input, out, steps);
    let status = finish(end, out);
    Ok(write_numbered_line(b"status ", u64::from(status), out).is_ok())
}

/// Runs all of them. Gives whether each status could be told.
fn run<S: Store, I: Source, O: Sink>(
    alloc: Global,
    lines: env::Args,
    store: &mut S,
    input: &mut I,
    out: &mut O,
) -> Result<bool, AllocError> {
    run_counted::<S, I, O, Brand>(alloc, lines, store, input, out, Blank::new(1))
}

/// The same with a count of steps that nobody reads.
fn run_counted<S: Store, I: Source, O: Sink, L: Ledger>(
    alloc: Global,
    lines: env::Args,
    store: &mut S,
    input: &mut I,
    out: &mut O,
    blank: Blank,
) -> Result<bool, AllocError>
    requires name { blank.name ≡ L.name }
    requires parts { blank.parts ≡ L.parts }
    requires some { 0 < blank.parts }
{
    let mut steps = Steps::<L>::new(blank);
    let mut fine = true;
    for line in lines.skip(1) {
        let told = run_line(alloc, &line, store, input, out, &mut steps)?;
        fine = fine && told;
    }
    Ok(fine)
}

fn main(rt: HostRuntime) -> io::Result<ExitCode> {
    let lines = env::args(&rt)?;
    let alloc = rt.alloc();
    let mut input = InputSource::new(rt.stdin());
    let mut out = OutputSink::new(rt.stdout());
    let mut store = DiskStore::new(rt);
    match run(alloc, lines, &mut store, &mut input, &mut out) {
        Ok(true) => Ok(ExitCode::SUCCESS),
        Ok(false) => Ok(ExitCode::FAILURE),
        Err(_) => Err(io::Error::from(ErrorKind::OutOfMemory)),
    }
}
