//! Building a table over a back table.
ghost use Rattle.std.specs.Prelude.{◌≡◌, ◌≢◌, ◌≤◌, ◌<◌, ◌+◌, ◌*◌, ◌^◌, length, IfOk, IfErr, OnOk};
ghost use Rattle.frz_sets.specs.Sets.{size_of};
ghost use Rattle.frz_sets.specs.Sound.{IsSound};
ghost use Rattle.frz_store.specs.Told.{store_of};
ghost use Rattle.frz_table.specs.declared.kind.FileKind.TheVariants.{Chained};
ghost use Rattle.frz_table.specs.Layout.{magic_of};
ghost use Rattle.frz_build.specs.Building.{Builds, writing_calls};
ghost use Rattle.frz_chain.specs.Books.{chain_value};
ghost use Rattle.frz_chain.specs.Causes.{HasChainCause};
ghost use Rattle.frz_chain.specs.Chains.{Chains, RefusesToChain};
ghost use Rattle.frz_chain.specs.FileOn.{loaded_back};

use crate::{BackTable, ChainFault, open_back};
use frz_build::{NewTable, build_ruled};
use frz_rules::read_rules;
use frz_sets::Rules;
use frz_steps::Steps;
use frz_store::{Store, StoreFault};
use frz_table::FileKind;
use std::alloc::Global;
use std::sync::ledger::Ledger;

/// A rules text with the rules that it gives.
#[derive(Clone, Copy)]
pub struct ReadRules<'a> {
    pub text: &'a [u8],
    pub rules: &'a Rules,
}

/// Builds the table of the rules over the back table, writes it under the name and answers its
/// size. All memory is taken before the file is created, and a file of that name is replaced.
pub fn build_over<S: Store, L: Ledger>(
    alloc: Global,
    read: &ReadRules<'_>,
    back: &BackTable,
    name: &str,
    store: &mut S,
    steps: &mut Steps<L>,
) -> Result<u32, StoreFault>
    requires sound { IsSound read.now.rules.now }
    requires text { length read.now.text.now < 2 ^ 32 }
    ensures size { IfOk result (λ size. size ≡ size_of read.now.rules.now.groups) }
    ensures built { Builds (magic_of Chained) read.now.text.now read.now.rules.now
        (chain_value read.now.rules.now (loaded_back back.now)) name.now result
        (store_of S.Store store.old) (store_of S.Store store.new) }
    ensures room { OnOk result (S.room store.new ≡ 0) }
    ensures asked { S.asked store.new ≡ S.asked store.old }
    ensures calls { S.calls store.new
        ≤ S.calls store.old + writing_calls (size_of read.now.rules.now.groups) }
    ensures cost { steps.new ≤ steps.old + 4 * size_of read.now.rules.now.groups }
    ensures later { steps.old ≤ steps.new }
{
    let file = NewTable {
        name,
        kind: FileKind::Chained,
        text: read.text,
    };
    build_ruled(
        alloc,
        read.rules,
        &back.behind(read.rules),
        &file,
        store,
        steps,
    )
}

/// Reads the rules text, opens and checks the back table, and writes the table of the text over it
/// under `name`, which must not be `back`. Answers the size of the table. The text is read before
/// the back table is opened, and all memory is taken before the file is created.
pub fn build_chain<S: Store, L: Ledger>(
    alloc: Global,
    store: &mut S,
    text: &[u8],
    back: &str,
    name: &str,
    steps: &mut Steps<L>,
) -> Result<u32, ChainFault>
    requires { name.now ≢ back.now }
    ensures built { IfOk result (Chains text.now back.now name.now
        (store_of S.Store store.old) (store_of S.Store store.new) steps.old steps.new) }
    ensures refused { IfErr result (RefusesToChain text.now back.now name.now
        (store_of S.Store store.old) (store_of S.Store store.new) steps.old steps.new) }
    ensures room { OnOk result (S.room store.new ≡ 0) }
    ensures later { steps.old ≤ steps.new }
    ensures cause { HasChainCause result (store_of S.Store store.old) (store_of S.Store store.new) }
{
    let rules = read_rules(alloc, text)?;
    let back = open_back(alloc, store, back, steps)?;
    let read = ReadRules {
        text,
        rules: &rules,
    };
    Ok(build_over(alloc, &read, &back, name, store, steps)?)
}
