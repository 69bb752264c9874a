//! The command `check TABLE BACK ..`: whether a table is exact, over the tables of the names BACK
//! where it leans on others, and each of those over the ones before it.
ghost use Rattle.std.specs.Prelude.{◌≡◌, ◌≤◌, ◌∷◌, length, map, false};
ghost use Rattle.std.specs.String.{string_bytes};
ghost use Rattle.frz_store.specs.Told.{SourceTold, store_of, sink_of};
ghost use Rattle.frz_answer.specs.World.{world};
ghost use Rattle.frz_answer.specs.Ends.{Ran};
ghost use Rattle.frz_atlas_prelude.specs.Names.{has_twice as is_twice};
ghost use Rattle.frz_atlas_prelude.specs.declared.names.TheConstants.{MOST_BACKS};
ghost use Rattle.frz_commands_atlas.specs.CheckMeans.{checking_at, check_words};

use crate::verdict_lines::{status_of, write_verdict};
use frz_answer::{End, refuse, said};
use frz_atlas::check_atlas;
use frz_atlas_prelude::{end_at, names_with_backs};
use frz_steps::Steps;
use frz_store::{Sink, Store};
use std::alloc::Global;
use std::sync::ledger::Ledger;

/// Checks the table and the tables behind it, by names no two of which are the same.
fn check_named<S: Store, O: Sink, L: Ledger>(
    alloc: Global,
    table: &str,
    behind: &[String],
    store: &mut S,
    out: &mut O,
    steps: &mut Steps<L>,
) -> End
    requires apart { is_twice (table.now ∷ map string_bytes behind.now) ≡ false }
    requires few { length (map string_bytes behind.now) ≤ MOST_BACKS }
    ensures { (input : SourceTold)
        → Ran (checking_at table.now (map string_bytes behind.now)) result
        (world (store_of S.Store store.old) input (sink_of O.Sink out.old) steps.old)
        (world (store_of S.Store store.new) input (sink_of O.Sink out.new) steps.new) }
{
    match check_atlas(alloc, store, table, behind, steps) {
        Ok(checked) => said(
            status_of(checked.verdict),
            write_verdict(checked.verdict, checked.size, &checked.behind, out),
        ),
        Err(fault) => end_at(fault, out),
    }
}

/// Runs the command `check TABLE BACK..`; `words` are TABLE and 0 to 16 BACKs. Refuses a name that
/// stands twice, before it reads a file.
pub fn run_check<S: Store, O: Sink, L: Ledger>(
    alloc: Global,
    words: &[String],
    store: &mut S,
    out: &mut O,
    steps: &mut Steps<L>,
) -> End
    ensures ran { (input : SourceTold) → Ran (check_words (map string_bytes words.now)) result
        (world (store_of S.Store store.old) input (sink_of O.Sink out.old) steps.old)
        (world (store_of S.Store store.new) input (sink_of O.Sink out.new) steps.new) }
    ensures store_unused { (check_words (map string_bytes words.now)).needs.store ≡ false
        → store.new ≡ store.old }
{
    match names_with_backs(words) {
        Ok((table, behind)) => check_named(alloc, table, behind, store, out, steps),
        Err(why) => refuse(why, out),
    }
}
