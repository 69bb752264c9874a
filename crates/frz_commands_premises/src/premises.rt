//! The command `premises RULES BACK ..`: what each exit line of a rules text, and of the tables of
//! the names BACK behind it, rests on.
ghost use Rattle.std.specs.Prelude.{◌≡◌, ◌≤◌, ◌∷◌, length, map, false, IfOk, IfErr};
ghost use Rattle.std.specs.String.{string_bytes};
ghost use Rattle.frz_rules.specs.Text.{rules_of};
ghost use Rattle.frz_store.specs.Told.{SourceTold, StoreQuiet, store_of, sink_of};
ghost use Rattle.frz_answer.specs.World.{world};
ghost use Rattle.frz_answer.specs.Ends.{Ran};
ghost use Rattle.frz_atlas.specs.Causes.{HasAtlasCause};
ghost use Rattle.frz_atlas_prelude.specs.Names.{has_twice as is_twice};
ghost use Rattle.frz_atlas_prelude.specs.declared.names.TheConstants.{MOST_BACKS};
ghost use Rattle.frz_commands_premises.specs.Finding.{FindsLines, FindsNone};
ghost use Rattle.frz_commands_premises.specs.Premising.{premising_at, premises_words};

use crate::line::Line;
use crate::line_texts::write_lines;
use crate::lines::premise_lines;
use frz_answer::{End, Status, refuse, said};
use frz_atlas::{AtlasFault, open_behind};
use frz_atlas_prelude::{end_at, names_with_backs};
use frz_index::Set;
use frz_prelude::{RulesText, read_rules_text};
use frz_steps::Steps;
use frz_store::{Sink, Store};
use std::alloc::Global;
use std::sync::ledger::Ledger;

/// Opens and checks the tables behind from the left, and finds all lines of the answer.
fn find_lines<S: Store, L: Ledger>(
    alloc: Global,
    read: &RulesText,
    behind: &[String],
    store: &mut S,
    steps: &mut Steps<L>,
) -> Result<Vec<Line>, AtlasFault>
    requires { rules_of read.now.text.items ≡ Ok read.now.rules }
    ensures found { IfOk result (λ lines. FindsLines read.now.text.items read.now.rules
        (map string_bytes behind.now) (store_of S.Store store.old) (store_of S.Store store.new)
        steps.old steps.new lines.items) }
    ensures refused { IfErr result (FindsNone read.now.rules (map string_bytes behind.now)
        (store_of S.Store store.old) (store_of S.Store store.new) steps.old steps.new) }
    ensures quiet { StoreQuiet (store_of S.Store store.old) (store_of S.Store store.new) }
    ensures later { steps.old ≤ steps.new }
    ensures cause { HasAtlasCause result (store_of S.Store store.old) (store_of S.Store store.new) }
{
    let backs = open_behind(alloc, store, behind, steps)?;
    let set = Set::new(alloc, &read.rules)?;
    Ok(premise_lines(alloc, read, &set, &backs, steps)?)
}

/// Tells the premises by these names, no two of which are the same.
fn tell_named<S: Store, O: Sink, L: Ledger>(
    alloc: Global,
    rules: &str,
    behind: &[String],
    store: &mut S,
    out: &mut O,
    steps: &mut Steps<L>,
) -> End
    requires apart { is_twice (rules.now ∷ map string_bytes behind.now) ≡ false }
    requires few { length (map string_bytes behind.now) ≤ MOST_BACKS }
    ensures { (input : SourceTold)
        → Ran (premising_at rules.now (map string_bytes behind.now)) result
        (world (store_of S.Store store.old) input (sink_of O.Sink out.old) steps.old)
        (world (store_of S.Store store.new) input (sink_of O.Sink out.new) steps.new) }
{
    let read = match read_rules_text(alloc, rules, store) {
        Ok(read) => read,
        Err(stop) => return stop.end(out),
    };
    match find_lines(alloc, &read, behind, store, steps) {
        Ok(lines) => said(Status::Success, write_lines(&lines, out)),
        Err(fault) => end_at(fault, out),
    }
}

/// Runs the command `premises RULES [BACK]..`; `words` are RULES and 0 to 16 BACKs. Refuses a name
/// that stands twice, before it reads a file.
pub fn run_premises<S: Store, O: Sink, L: Ledger>(
    alloc: Global,
    words: &[String],
    store: &mut S,
    out: &mut O,
    steps: &mut Steps<L>,
) -> End
    ensures ran { (input : SourceTold) → Ran (premises_words (map string_bytes words.now)) result
        (world (store_of S.Store store.old) input (sink_of O.Sink out.old) steps.old)
        (world (store_of S.Store store.new) input (sink_of O.Sink out.new) steps.new) }
    ensures store_unused { (premises_words (map string_bytes words.now)).needs.store ≡ false
        → store.new ≡ store.old }
{
    match names_with_backs(words) {
        Ok((rules, behind)) => tell_named(alloc, rules, behind, store, out, steps),
        Err(why) => refuse(why, out),
    }
}
