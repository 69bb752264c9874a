//! The program `freezer`: it makes the real store, input and output, and calls the program over them.
#![tactic(auto)]

use frz_freezer_top::run_once;
use frz_program::command_words;
use frz_store::{DiskStore, InputSource, OutputSink};
use std::process::ExitCode;
use std::{env, fs};

fn main(rt: HostRuntime) -> ExitCode {
    let alloc = rt.alloc();
    // Where the caller has closed a standard stream, the next file gets its place: the answer would be
    // written behind the codes of a new table. A folder in that place is neither read nor written.
    let _held = [fs::open(&rt, "/"), fs::open(&rt, "/"), fs::open(&rt, "/")];
    let words = match command_words(alloc, env::args(&rt)) {
        Ok(words) => words,
        Err(why) => return ExitCode::from(why.code()),
    };
    let mut input = InputSource::new(rt.stdin());
    let mut out = OutputSink::new(rt.stdout());
    let mut store = DiskStore::new(rt);
    ExitCode::from(run_once(alloc, &words, &mut store, &mut input, &mut out))
}
