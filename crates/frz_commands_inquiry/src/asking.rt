//! The command `ask TABLE BACK ..`: the lines of the input are answered by tables that are loaded
//! once.
ghost use Rattle.std.specs.Prelude.{◌≡◌, ◌≤◌, ◌∷◌, length, map, false};
ghost use Rattle.std.specs.String.{string_bytes};
ghost use Rattle.frz_answer.specs.World.{world_of};
ghost use Rattle.frz_answer.specs.Ends.{Ran};
ghost use Rattle.frz_atlas_prelude.specs.Names.{has_twice as is_twice};
ghost use Rattle.frz_atlas_prelude.specs.declared.names.TheConstants.{MOST_BACKS};
ghost use Rattle.frz_commands_inquiry.specs.Asking.{ask_words, asking_at};

use crate::inquiring::inquire;
use frz_answer::{End, refuse};
use frz_atlas::load_atlas;
use frz_atlas_prelude::{end_at, names_with_backs};
use frz_steps::Steps;
use frz_store::{Sink, Source, Store};
use std::alloc::Global;
use std::sync::ledger::Ledger;

/// Loads the tables of these names, no two of which are the same, and answers the lines of the
/// input.
fn ask_at<S: Store, I: Source, O: Sink, L: Ledger>(
    alloc: Global,
    table: &str,
    behind: &[String],
    store: &mut S,
    input: &mut I,
    out: &mut O,
    steps: &mut Steps<L>,
) -> End
    requires apart { is_twice (table.now ∷ map string_bytes behind.now) ≡ false }
    requires few { length (map string_bytes behind.now) ≤ MOST_BACKS }
    ensures { Ran (asking_at table.now (map string_bytes behind.now)) result
        (world_of S.Store I.Source O.Sink store.old input.old out.old steps.old)
        (world_of S.Store I.Source O.Sink store.new input.new out.new steps.new) }
{
    match load_atlas(alloc, store, table, behind) {
        Ok(loaded) => inquire(&loaded.table, &loaded.backs, input, out),
        Err(fault) => end_at(fault, out),
    }
}

/// Runs the command `ask TABLE BACK ..`; `words` are TABLE and 0 to 16 BACKs. No code is checked.
pub fn run_ask<S: Store, I: Source, O: Sink, L: Ledger>(
    alloc: Global,
    words: &[String],
    store: &mut S,
    input: &mut I,
    out: &mut O,
    steps: &mut Steps<L>,
) -> End
    ensures ran { Ran (ask_words (map string_bytes words.now)) result
        (world_of S.Store I.Source O.Sink store.old input.old out.old steps.old)
        (world_of S.Store I.Source O.Sink store.new input.new out.new steps.new) }
    ensures store_unused { (ask_words (map string_bytes words.now)).needs.store ≡ false
        → store.new ≡ store.old }
    ensures input_unused { (ask_words (map string_bytes words.now)).needs.input ≡ false
        → input.new ≡ input.old }
{
    match names_with_backs(words) {
        Ok((table, behind)) => ask_at(alloc, table, behind, store, input, out, steps),
        Err(why) => refuse(why, out),
    }
}
