//! Building the table file of rules by planes.
ghost use Rattle.std.specs.Prelude.{◌≡◌, ◌+◌, ◌*◌, ◌^◌, ◌≤◌, ◌<◌, length, IfOk, IfSome, OnOk, OnSome};
ghost use Rattle.frz_board.specs.declared.man.Colour.TheVariants.{White, Black};
ghost use Rattle.frz_sets.specs.Sets.{size_of};
ghost use Rattle.frz_sets.specs.Sound.{IsSound};
ghost use Rattle.frz_game.specs.Bounds.{IsTableOf};
ghost use Rattle.frz_store.specs.Told.{store_of};
ghost use Rattle.frz_store.specs.Writes.{Written};
ghost use Rattle.frz_table.specs.Layout.{file_of, magic_of};
ghost use Rattle.frz_build.specs.Building.{Builds, writing_calls};

use crate::serving::solved;
use frz_build::{NewTable, append_codes, begin_table, build_ruled};
use frz_check::{ExitBook, Game};
use frz_plane_chess::BothCodes;
use frz_sets::Rules;
use frz_steps::Steps;
use frz_store::{Store, StoreFault};
use frz_table::Set;
use std::alloc::Global;
use std::sync::ledger::Ledger;

/// The codes of both sides that planes give, with exits valued by the book.
fn solve_rules<B: ExitBook>(alloc: Global, rules: &Rules, book: &B) -> Option<BothCodes>
    requires sound { IsSound rules.now }
    ensures white { IfSome result (λ both. IsTableOf rules.now (B.value_at book.now) White
        both.white.items) }
    ensures black { IfSome result (λ both. IsTableOf rules.now (B.value_at book.now) Black
        both.black.items) }
    ensures some { OnSome result (1 ≤ size_of rules.now.groups) }
{
    let set = Set::new(alloc, rules).ok()?;
    let _some = set.size();
    let game = Game {
        set: &set,
        rules,
        book,
    };
    solved(alloc, &game)
}

/// Creates the file and writes the header and the codes of both sides, White's first. Answers the
/// size.
fn write_both<S: Store>(
    file: &NewTable<'_>,
    size: u32,
    white: &[u32],
    black: &[u32],
    store: &mut S,
) -> Result<u32, StoreFault>
    requires text { length file.now.text.now < 2 ^ 32 }
    requires some { 1 ≤ size }
    requires white { length white.now ≡ size }
    requires black { length black.now ≡ size }
    ensures size { IfOk result (λ answer. answer ≡ size) }
    ensures written { Written file.now.name.now
        (file_of (magic_of file.now.kind) file.now.text.now size white.now black.now) result
        (store_of S.Store store.old) (store_of S.Store store.new) }
    ensures room { OnOk result (S.room store.new ≡ 0) }
    ensures asked { S.asked store.new ≡ S.asked store.old }
    ensures calls { S.calls store.new ≤ S.calls store.old + writing_calls size }
{
    begin_table(file, size, store)?;
    append_codes(white, store)?;
    append_codes(black, store)?;
    Ok(size)
}

/// Solves the rules for both sides by planes, with exits valued by the book, writes the table file
/// and answers the size of their set. Where planes do not serve, it is built as [`build_ruled`] does.
/// All memory is taken before the file is created, and a file of that name is replaced.
pub fn build_by_planes<S: Store, B: ExitBook, L: Ledger>(
    alloc: Global,
    rules: &Rules,
    book: &B,
    file: &NewTable<'_>,
    store: &mut S,
    steps: &mut Steps<L>,
) -> Result<u32, StoreFault>
    requires sound { IsSound rules.now }
    requires text { length file.now.text.now < 2 ^ 32 }
    ensures size { IfOk result (λ size. size ≡ size_of rules.now.groups) }
    ensures built { Builds (magic_of file.now.kind) file.now.text.now rules.now
        (B.value_at book.now) file.now.name.now result
        (store_of S.Store store.old) (store_of S.Store store.new) }
    ensures room { OnOk result (S.room store.new ≡ 0) }
    ensures asked { S.asked store.new ≡ S.asked store.old }
    ensures calls { S.calls store.new
        ≤ S.calls store.old + writing_calls (size_of rules.now.groups) }
    ensures cost { steps.new ≤ steps.old + 4 * size_of rules.now.groups }
    ensures later { steps.old ≤ steps.new }
{
    match solve_rules(alloc, rules, book) {
        Some(both) => write_both(
            file,
            both.white.len() as u32,
            &both.white,
            &both.black,
            store,
        ),
        None => build_ruled(alloc, rules, book, file, store, steps),
    }
}
