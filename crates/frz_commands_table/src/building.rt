//! The command `build RULES TABLE`: solves the set of a rules text and writes its table file.
ghost use Rattle.std.specs.Prelude.{◌≡◌, ◌≤◌, map, false, length};
ghost use Rattle.std.specs.String.{string_bytes};
ghost use Rattle.frz_sets.specs.Sound.{IsSound};
ghost use Rattle.frz_rules.specs.declared.fault.TheConstants.{LONGEST_TEXT};
ghost use Rattle.frz_store.specs.Told.{store_of};
ghost use Rattle.frz_prelude.specs.Replies.{Replies};
ghost use Rattle.frz_commands_table.specs.Building.{building_by};
ghost use Rattle.frz_commands_table.specs.BuildMeaning.{build_words};

use frz_answer::Refusal;
use frz_build::{NewTable, build_ruled};
use frz_exits::RuleBook;
use frz_prelude::{Refused, Reply, RulesText, Stop, read_rules_text, take_two};
use frz_steps::Steps;
use frz_store::Store;
use frz_table::FileKind;
use std::alloc::Global;
use std::sync::ledger::Ledger;

/// Solves the game of rules that were read, and writes its table file under the name TABLE.
fn build_by<S: Store, L: Ledger>(
    alloc: Global,
    read: &RulesText,
    table: &str,
    store: &mut S,
    steps: &mut Steps<L>,
) -> Result<Reply, Stop>
    requires sound { IsSound read.now.rules }
    requires short { length read.now.text.items ≤ LONGEST_TEXT }
    ensures { Replies (building_by read.now.text.items read.now.rules table.now) result
        (store_of S.Store store.old) (store_of S.Store store.new) steps.old steps.new }
{
    let rules = &read.rules;
    let file = NewTable {
        name: table,
        kind: FileKind::Plain,
        text: &read.text,
    };
    let size = build_ruled(alloc, rules, &RuleBook::new(rules), &file, store, steps)?;
    Ok(Reply::Built(size))
}

/// The command `build RULES TABLE`; `words` are RULES and TABLE. Refuses two equal names, before it
/// reads a file.
pub fn build<S: Store, L: Ledger>(
    alloc: Global,
    words: &[String],
    store: &mut S,
    steps: &mut Steps<L>,
) -> Result<Reply, Stop>
    ensures replies { Replies (build_words (map string_bytes words.now)) result
        (store_of S.Store store.old) (store_of S.Store store.new) steps.old steps.new }
    ensures store_unused { (build_words (map string_bytes words.now)).needs.store ≡ false
        → store.new ≡ store.old }
{
    let (rules, table) = take_two(words)?;
    if rules == table {
        return Err(Stop::Refused(Refused::Words(Refusal::SameName)));
    }
    let read = read_rules_text(alloc, rules, store)?;
    build_by(alloc, &read, table, store, steps)
}
