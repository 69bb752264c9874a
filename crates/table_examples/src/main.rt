//! Builds and checks the tables of the rules texts that are named as arguments, over real files,
//! and asks them at the positions of the file `bounds`. The table of `RULES on BACK` is chained
//! over that of BACK, which an argument before it named, and
//! `sample SQUARE` prints the sample of a square.
#![tactic(auto)]

ghost use Rattle.std.specs.Prelude.{◌≡◌, ◌<◌};

use frz_answer::finish;
use frz_commands_ask::{chainquery, query};
use frz_commands_chain::{chain, chaincheck};
use frz_commands_table::{build, check, run_sample};
use frz_prelude::tell;
use frz_steps::Steps;
use frz_store::{DiskStore, OutputSink, Sink, Store};
use std::alloc::{AllocError, Global};
use std::io::{self, ErrorKind};
use std::marker::Brand;
use std::process::ExitCode;
use std::sync::ledger::{Blank, Ledger};
use std::{env, fs};

/// Builds the table of a rules text under its name with `.t`
/// behind it, and checks it. Gives whether both went well.
fn build_and_check<S: Store, O: Sink, L: Ledger>(
    alloc: Global,
    rules: &str,
    store: &mut S,
    out: &mut O,
    steps: &mut Steps<L>,
) -> Result<bool, AllocError> {
    let words = vec![in alloc;
        format!(in alloc; "{rules}")?,
        format!(in alloc; "{rules}.t")?,
    ]?;
    let built = finish(tell(build(alloc, &words, store, steps), out), out);
    let checked = finish(tell(check(alloc, &words[1..], store, steps), out), out);
    Ok(built == 0 && checked == 0)
}

/// The same for a rules text over a table that is there.
fn chain_and_check<S: Store, O: Sink, L: Ledger>(
    alloc: Global,
    rules: &str,
    back: &str,
    store: &mut S,
    out: &mut O,
    steps: &mut Steps<L>,
) -> Result<bool, AllocError> {
    let words = vec![in alloc;
        format!(in alloc; "{rules}")?,
        format!(in alloc; "{back}.t")?,
        format!(in alloc; "{rules}.t")?,
    ]?;
    let pair = vec![in alloc;
        format!(in alloc; "{rules}.t")?,
        format!(in alloc; "{back}.t")?,
    ]?;
    let chained = finish(tell(chain(alloc, &words, store, steps), out), out);
    let checked = finish(tell(chaincheck(alloc, &pair, store, steps), out), out);
    Ok(chained == 0 && checked == 0)
}

/// The position in a line `ENDING | FEN | WHITE | BLACK` of bounds, where it tells of this ending.
fn position_of<'a>(line: &'a str, ending: &str) -> Option<&'a str> {
    let (name, told) = line.split_once(" | ")?;
    let (fen, _) = told.split_once(" | ")?;
    (name == ending).then_some(fen)
}

/// The words of a question: the table of a rules text, and a position.
fn question(alloc: Global, rules: &str, fen: &str) -> Result<Vec<String>, AllocError> {
    let words = vec![in alloc;
        format!(in alloc; "{rules}.t")?,
        format!(in alloc; "{fen}")?,
    ]?;
    Ok(words)
}

/// Asks a table at each position that the bounds tell of. Gives whether all had an answer.
fn ask<S: Store, O: Sink>(
    alloc: Global,
    ending: &str,
    bounds: &str,
    store: &mut S,
    out: &mut O,
) -> Result<bool, AllocError> {
    let mut fine = true;
    for line in bounds.lines() {
        if let Some(fen) = position_of(line, ending) {
            let reply = match ending.split_once(" on ") {
                Some((rules, _)) => chainquery(alloc, &question(alloc, rules, fen)?, store),
                None => query(alloc, &question(alloc, ending, fen)?, store),
            };
            fine = finish(tell(reply, out), out) == 0 && fine;
        }
    }
    Ok(fine)
}

/// Builds, checks and asks the table of one ending. Gives whether all went well.
fn try_ending<S: Store, O: Sink, L: Ledger>(
    alloc: Global,
    ending: &str,
    bounds: &str,
    store: &mut S,
    out: &mut O,
    steps: &mut Steps<L>,
) -> Result<bool, AllocError> {
    let sound = match ending.split_once(" on ") {
        Some((rules, back)) => chain_and_check(alloc, rules, back, store, out, steps)?,
        None => build_and_check(alloc, ending, store, out, steps)?,
    };
    let answered = ask(alloc, ending, bounds, store, out)?;
    Ok(sound && answered)
}

/// Prints the sample of the square of this number. Gives whether all went well.
fn print_sample<O: Sink, L: Ledger>(
    alloc: Global,
    square: &str,
    out: &mut O,
    steps: &mut Steps<L>,
) -> Result<bool, AllocError> {
    let words = vec![in alloc; format!(in alloc; "{square}")?]?;
    Ok(finish(run_sample(alloc, &words, out, steps), out) == 0)
}

/// Prints a sample or tries an ending, whichever is named. Gives whether all went well.
fn try_named<S: Store, O: Sink, L: Ledger>(
    alloc: Global,
    named: &str,
    bounds: &str,
    store: &mut S,
    out: &mut O,
    steps: &mut Steps<L>,
) -> Result<bool, AllocError> {
    match named.split_once(' ') {
        Some(("sample", square)) => print_sample(alloc, square, out, steps),
        _ => try_ending(alloc, named, bounds, store, out, steps),
    }
}

/// Tries each that is named. Gives whether all went well.
fn run<S: Store, O: Sink>(
    alloc: Global,
    names: env::Args,
    bounds: String,
    store: &mut S,
    out: &mut O,
) -> Result<bool, AllocError> {
    run_counted::<S, O, Brand>(alloc, names, bounds, store, out, Blank::new(1))
}

/// The same with a count of steps that nobody reads.
fn run_counted<S: Store, O: Sink, L: Ledger>(
    alloc: Global,
    names: env::Args,
    bounds: String,
    store: &mut S,
    out: &mut O,
    blank: Blank,
) -> Result<bool, AllocError>
    requires name { blank.name ≡ L.name }
    requires parts { blank.parts ≡ L.parts }
    requires some { 0 < blank.parts }
{
    let mut steps = Steps::<L>::new(blank);
    let mut fine = true;
    for named in names.skip(1) {
        let tried = try_named(alloc, &named, &bounds, store, out, &mut steps)?;
        fine = fine && tried;
    }
    Ok(fine)
}

fn main(rt: HostRuntime) -> io::Result<ExitCode> {
    let names = env::args(&rt)?;
    let bounds = fs::read_to_string(&rt, "bounds")?;
    let alloc = rt.alloc();
    let mut out = OutputSink::new(rt.stdout());
    let mut store = DiskStore::new(rt);
    match run(alloc, names, bounds, &mut store, &mut out) {
        Ok(true) => Ok(ExitCode::SUCCESS),
        Ok(false) => Ok(ExitCode::FAILURE),
        Err(_) => Err(io::Error::from(ErrorKind::OutOfMemory)),
    }
}
