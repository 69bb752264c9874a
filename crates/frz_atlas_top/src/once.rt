//! One call of the program, with a counter of steps that nobody reads.
ghost use Rattle.std.specs.Prelude.{◌≡◌, ◌<◌, ℕ, map, false};
ghost use Rattle.std.specs.String.{string_bytes};
ghost use Rattle.frz_answer.specs.World.{world_of};
ghost use Rattle.frz_answer.specs.Outcomes.{Outcome};
ghost use Rattle.frz_atlas_top.specs.Commands.{job_of};

use crate::top::atlas;
use frz_steps::Steps;
use frz_store::{Sink, Source, Store};
use std::alloc::Global;
use std::marker::Brand;
use std::sync::ledger::{Blank, Ledger};

/// Calls the program once, over any store, input and output.
pub fn run_once<S: Store, I: Source, O: Sink>(
    alloc: Global,
    words: &[String],
    store: &mut S,
    input: &mut I,
    out: &mut O,
) -> u8
    ensures outcome { (steps : ℕ) × (Outcome (job_of (map string_bytes words.now)) result
        (world_of S.Store I.Source O.Sink store.old input.old out.old 0)
        (world_of S.Store I.Source O.Sink store.new input.new out.new steps)) }
    ensures store_unused { (job_of (map string_bytes words.now)).needs.store ≡ false
        → store.new ≡ store.old }
    ensures input_unused { (job_of (map string_bytes words.now)).needs.input ≡ false
        → input.new ≡ input.old }
{
    let blank = Blank::new(1);
    run_uncounted::<S, I, O, Brand>(alloc, words, store, input, out, blank)
}

/// Calls the program with a counter of steps that nobody reads.
fn run_uncounted<S: Store, I: Source, O: Sink, L: Ledger>(
    alloc: Global,
    words: &[String],
    store: &mut S,
    input: &mut I,
    out: &mut O,
    blank: Blank,
) -> u8
    requires name { blank.name ≡ L.name }
    requires parts { blank.parts ≡ L.parts }
    requires some { 0 < blank.parts }
    ensures outcome { (steps : ℕ) × (Outcome (job_of (map string_bytes words.now)) result
        (world_of S.Store I.Source O.Sink store.old input.old out.old 0)
        (world_of S.Store I.Source O.Sink store.new input.new out.new steps)) }
    ensures store_unused { (job_of (map string_bytes words.now)).needs.store ≡ false
        → store.new ≡ store.old }
    ensures input_unused { (job_of (map string_bytes words.now)).needs.input ≡ false
        → input.new ≡ input.old }
{
    let mut steps = Steps::<L>::new(blank);
    atlas(alloc, words, store, input, out, &mut steps)
}
