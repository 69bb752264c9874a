//! The command `build RULES TABLE BACK ..`: writes the table file of a rules text over the tables
//! of the names BACK.
ghost use Rattle.std.specs.Prelude.{◌≡◌, ◌≤◌, ◌∷◌, length, map, false};
ghost use Rattle.std.specs.String.{string_bytes};
ghost use Rattle.frz_store.specs.Told.{SourceTold, store_of, sink_of};
ghost use Rattle.frz_answer.specs.World.{world};
ghost use Rattle.frz_answer.specs.Ends.{Ran};
ghost use Rattle.frz_atlas_prelude.specs.Names.{has_twice as is_twice};
ghost use Rattle.frz_atlas_prelude.specs.declared.names.TheConstants.{MOST_BACKS};
ghost use Rattle.frz_commands_atlas.specs.Building.{building_at, build_words};

use frz_answer::{End, Refusal, refuse};
use frz_atlas::build_atlas;
use frz_atlas_prelude::{build_names, end_at, has_twice};
use frz_prelude::{Reply, read_rules_text, tell};
use frz_steps::Steps;
use frz_store::{Sink, Store};
use std::alloc::Global;
use std::sync::ledger::Ledger;

/// Reads, checks and builds by these names, no two of which are the same.
fn build_named<S: Store, O: Sink, L: Ledger>(
    alloc: Global,
    rules: &str,
    table: &str,
    behind: &[String],
    store: &mut S,
    out: &mut O,
    steps: &mut Steps<L>,
) -> End
    requires apart { is_twice (rules.now ∷ table.now ∷ map string_bytes behind.now) ≡ false }
    requires few { length (map string_bytes behind.now) ≤ MOST_BACKS }
    ensures { (input : SourceTold)
        → Ran (building_at rules.now table.now (map string_bytes behind.now)) result
        (world (store_of S.Store store.old) input (sink_of O.Sink out.old) steps.old)
        (world (store_of S.Store store.new) input (sink_of O.Sink out.new) steps.new) }
{
    let read = match read_rules_text(alloc, rules, store) {
        Ok(read) => read,
        Err(stop) => return stop.end(out),
    };
    match build_atlas(alloc, store, &read.text, behind, table, steps) {
        Ok(size) => tell(Ok(Reply::Built(size)), out),
        Err(fault) => end_at(fault, out),
    }
}

/// Runs the command `build RULES TABLE BACK..`; `words` are RULES, TABLE and 0 to 16 BACKs. With
/// none the table is a plain one. Refuses a name that stands twice, before it reads a file.
pub fn run_build<S: Store, O: Sink, L: Ledger>(
    alloc: Global,
    words: &[String],
    store: &mut S,
    out: &mut O,
    steps: &mut Steps<L>,
) -> End
    ensures ran { (input : SourceTold) → Ran (build_words (map string_bytes words.now)) result
        (world (store_of S.Store store.old) input (sink_of O.Sink out.old) steps.old)
        (world (store_of S.Store store.new) input (sink_of O.Sink out.new) steps.new) }
    ensures store_unused { (build_words (map string_bytes words.now)).needs.store ≡ false
        → store.new ≡ store.old }
{
    match build_names(words) {
        Some((rules, table, behind)) => {
            if has_twice(words) {
                return refuse(Refusal::SameName, out);
            }
            build_named(alloc, rules, table, behind, store, out, steps)
        }
        None => refuse(Refusal::Count, out),
    }
}
