//! The program over objects in memory that never fail.
ghost use Rattle.std.specs.Prelude.{◌≡◌, ◌≢◌, ℕ, false, map};
ghost use Rattle.std.specs.String.{string_bytes};
ghost use Rattle.frz_store.specs.Files.{Files};
ghost use Rattle.frz_commands_line.specs.Later.{MayBeLater};
ghost use Rattle.frz_answer.specs.Outcomes.{Outcome};
ghost use Rattle.frz_answer.specs.Statuses.{fault_code, sink_code};
ghost use Rattle.frz_answer.specs.World.{world_of};
ghost use Rattle.frz_answer.specs.declared.fault.Fault.TheVariants.{Store, Input};
ghost use Rattle.frz_freezer_top.specs.Commands.{job_of};

use crate::top::freezer;
use frz_steps::Steps;
use frz_store::{Sink, Source, Store, SureSink, SureSource, SureStore};
use std::alloc::Global;
use std::sync::ledger::Ledger;

/// Calls the program over a store, an input and an output in memory that never fail. All that the
/// program promises holds, and its status never names a fault of the store, the input or the
/// output.
pub fn freezer_surely<L: Ledger>(
    alloc: Global,
    words: &[String],
    store: &mut SureStore,
    input: &mut SureSource,
    out: &mut SureSink,
    steps: &mut Steps<L>,
) -> u8
    ensures outcome { (later : ℕ → Files) × MayBeLater (⟦<SureStore as Store>⟧.files store.old) later
        × (Outcome (job_of later (map string_bytes words.now)) result
        (world_of ⟦<SureStore as Store>⟧ ⟦<SureSource as Source>⟧ ⟦<SureSink as Sink>⟧
        store.old input.old out.old steps.old)
        (world_of ⟦<SureStore as Store>⟧ ⟦<SureSource as Source>⟧ ⟦<SureSink as Sink>⟧
        store.new input.new out.new steps.new)) }
    ensures store_unused { (later : ℕ → Files)
        → (job_of later (map string_bytes words.now)).needs.store ≡ false
        → store.new ≡ store.old }
    ensures input_unused { (later : ℕ → Files)
        → (job_of later (map string_bytes words.now)).needs.input ≡ false
        → input.new ≡ input.old }
    ensures no_store_fault { result ≢ fault_code Store }
    ensures no_input_fault { result ≢ fault_code Input }
    ensures no_sink_fault { result ≢ sink_code }
{
    freezer(alloc, words, store, input, out, steps)
}
