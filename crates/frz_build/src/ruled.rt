//! Building the table file of rules, from their set on.
ghost use Rattle.std.specs.Prelude.{◌≡◌, ◌+◌, ◌*◌, ◌^◌, ◌≤◌, ◌<◌, length, IfOk, OnOk};
ghost use Rattle.frz_sets.specs.Sets.{size_of};
ghost use Rattle.frz_sets.specs.Sound.{IsSound};
ghost use Rattle.frz_store.specs.Told.{store_of};
ghost use Rattle.frz_table.specs.Layout.{magic_of};
ghost use Rattle.frz_build.specs.Building.{Builds, writing_calls};

use crate::{NewTable, build_table};
use frz_check::{ExitBook, Game};
use frz_sets::Rules;
use frz_steps::Steps;
use frz_store::{Store, StoreFault};
use frz_table::Set;
use std::alloc::Global;
use std::sync::ledger::Ledger;

/// Solves the rules for both sides, with exits valued by the book, writes the table file and
/// answers the size of their set. All memory is taken before the file is created, and a file of
/// that name is replaced.
pub fn build_ruled<S: Store, B: ExitBook, L: Ledger>(
    alloc: Global,
    rules: &Rules,
    book: &B,
    file: &NewTable<'_>,
    store: &mut S,
    steps: &mut Steps<L>,
) -> Result<u32, StoreFault>
    requires sound { IsSound rules.now }
    requires text { length file.now.text.now < 2 ^ 32 }
    ensures size { IfOk result (λ size. size ≡ size_of rules.now.groups) }
    ensures built { Builds (magic_of file.now.kind) file.now.text.now rules.now
        (B.value_at book.now) file.now.name.now result
        (store_of S.Store store.old) (store_of S.Store store.new) }
    ensures room { OnOk result (S.room store.new ≡ 0) }
    ensures asked { S.asked store.new ≡ S.asked store.old }
    ensures calls { S.calls store.new
        ≤ S.calls store.old + writing_calls (size_of rules.now.groups) }
    ensures cost { steps.new ≤ steps.old + 4 * size_of rules.now.groups }
    ensures later { steps.old ≤ steps.new }
{
    let Ok(set) = Set::new(alloc, rules) else {
        return Err(StoreFault::NoMemory);
    };
    let game = Game {
        set: &set,
        rules,
        book,
    };
    build_table(alloc, &game, file, store, steps)
}
