//! The command `size RULES`: how large the set of a rules text is, and which group makes it large.
ghost use Rattle.std.specs.Prelude.{◌≡◌, ℕ, map, false};
ghost use Rattle.std.specs.String.{string_bytes};
ghost use Rattle.frz_store.specs.Told.{SourceTold, store_of, sink_of};
ghost use Rattle.frz_answer.specs.World.{world};
ghost use Rattle.frz_answer.specs.Ends.{Ran};
ghost use Rattle.frz_commands_atlas.specs.Sizing.{sizing_at, size_words};

use crate::size_lines::write_size;
use frz_answer::{End, Refusal, Status, one_word, refuse, said};
use frz_prelude::read_rules_text;
use frz_store::{Sink, Store};
use std::alloc::Global;

/// Tells the size of the set of the rules file of this name, or refuses the file.
fn size_named<S: Store, O: Sink>(alloc: Global, name: &str, store: &mut S, out: &mut O) -> End
    ensures { (input : SourceTold) (steps : ℕ) → Ran (sizing_at name.now) result
        (world (store_of S.Store store.old) input (sink_of O.Sink out.old) steps)
        (world (store_of S.Store store.new) input (sink_of O.Sink out.new) steps) }
{
    match read_rules_text(alloc, name, store) {
        Ok(read) => said(Status::Success, write_size(&read.text, &read.rules, out)),
        Err(stop) => stop.end(out),
    }
}

/// Runs the command `size RULES`; `words` is RULES.
pub fn run_size<S: Store, O: Sink>(
    alloc: Global,
    words: &[String],
    store: &mut S,
    out: &mut O,
) -> End
    ensures ran { (input : SourceTold) (steps : ℕ)
        → Ran (size_words (map string_bytes words.now)) result
        (world (store_of S.Store store.old) input (sink_of O.Sink out.old) steps)
        (world (store_of S.Store store.new) input (sink_of O.Sink out.new) steps) }
    ensures store_unused { (size_words (map string_bytes words.now)).needs.store ≡ false
        → store.new ≡ store.old }
{
    match one_word(words) {
        Some(name) => size_named(alloc, name, store, out),
        None => refuse(Refusal::Count, out),
    }
}
