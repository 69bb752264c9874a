//! The command `chain RULES BACK TABLE`: writes the table file of a rules text over a back table.
ghost use Rattle.std.specs.Prelude.{◌≡◌, ◌≤◌, map, false, length};
ghost use Rattle.std.specs.String.{string_bytes};
ghost use Rattle.frz_sets.specs.Sound.{IsSound};
ghost use Rattle.frz_rules.specs.declared.fault.TheConstants.{LONGEST_TEXT};
ghost use Rattle.frz_store.specs.Told.{store_of};
ghost use Rattle.frz_chain.specs.FileOn.{loaded_back};
ghost use Rattle.frz_prelude.specs.Replies.{Replies};
ghost use Rattle.frz_commands_chain.specs.Chaining.{chaining_by, chain_words, is_named_twice};

use crate::reading::{BothRead, read_both};
use frz_answer::Refusal;
use frz_chain::{ReadRules, build_over};
use frz_prelude::{Refused, Reply, Stop, take_three};
use frz_steps::Steps;
use frz_store::Store;
use std::alloc::Global;
use std::sync::ledger::Ledger;

/// Solves the game of rules that were read, with the back table behind their exit lines, and writes
/// its table file under the name TABLE.
fn chain_by<S: Store, L: Ledger>(
    alloc: Global,
    both: &BothRead,
    table: &str,
    store: &mut S,
    steps: &mut Steps<L>,
) -> Result<Reply, Stop>
    requires sound { IsSound both.now.read.rules }
    requires short { length both.now.read.text.items ≤ LONGEST_TEXT }
    ensures { Replies (chaining_by both.now.read.text.items both.now.read.rules
        (loaded_back both.now.back) table.now) result
        (store_of S.Store store.old) (store_of S.Store store.new) steps.old steps.new }
{
    let read = ReadRules {
        text: &both.read.text,
        rules: &both.read.rules,
    };
    let size = build_over(alloc, &read, &both.back, table, store, steps)?;
    Ok(Reply::Chained(size))
}

/// Whether the table's name is one of the other two.
fn is_repeated(rules: &str, back: &str, table: &str) -> bool
    ensures { result ≡ is_named_twice rules.now back.now table.now }
{
    table == rules || table == back
}

/// The command `chain RULES BACK TABLE`; `words` are RULES, BACK and TABLE. Refuses a TABLE that is
/// one of the other two names, before it reads a file.
pub fn chain<S: Store, L: Ledger>(
    alloc: Global,
    words: &[String],
    store: &mut S,
    steps: &mut Steps<L>,
) -> Result<Reply, Stop>
    ensures replies { Replies (chain_words (map string_bytes words.now)) result
        (store_of S.Store store.old) (store_of S.Store store.new) steps.old steps.new }
    ensures store_unused { (chain_words (map string_bytes words.now)).needs.store ≡ false
        → store.new ≡ store.old }
{
    let (rules, back, table) = take_three(words)?;
    if is_repeated(rules, back, table) {
        return Err(Stop::Refused(Refused::Words(Refusal::SameName)));
    }
    let both = read_both(alloc, rules, back, store, steps)?;
    chain_by(alloc, &both, table, store, steps)
}
