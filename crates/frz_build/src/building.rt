//! Building a table file.
ghost use Rattle.std.specs.Prelude.{◌≡◌, ◌+◌, ◌*◌, ◌^◌, ◌≤◌, ◌<◌, length, IfOk, OnOk};
ghost use Rattle.frz_board.specs.declared.man.Colour.TheVariants.{Black, White};
ghost use Rattle.frz_sets.specs.Sets.{size_of};
ghost use Rattle.frz_sets.specs.Sound.{IsSound};
ghost use Rattle.frz_check.specs.Bounds.{IsTableOf};
ghost use Rattle.frz_check.specs.Games.{graph_by};
ghost use Rattle.frz_retro.specs.Notes.{AreNoted};
ghost use Rattle.frz_store.specs.Told.{store_of};
ghost use Rattle.frz_store.specs.Writes.{Appended};
ghost use Rattle.frz_table.specs.Layout.{magic_of, pieces_of};
ghost use Rattle.frz_table.specs.Numbers.{number_bytes};
ghost use Rattle.frz_build.specs.Building.{Builds, writing_calls};

use crate::{append_codes, begin_table};
use frz_board::Colour;
use frz_check::laws::tables;
use frz_check::{ExitBook, Game};
use frz_retro::BothSides;
use frz_steps::Steps;
use frz_store::{Failed, Store, StoreFault};
use frz_table::FileKind;
use std::alloc::Global;
use std::sync::ledger::Ledger;

/// What a new table file is to have: its name, its kind, and its rules text.
#[derive(Clone, Copy)]
pub struct NewTable<'a> {
    pub name: &'a str,
    pub kind: FileKind,
    pub text: &'a [u8],
}

/// Solves the game for White and appends White's codes. Keeps, for `write_black`, what each number
/// begins with for Black.
fn write_white<S: Store, B: ExitBook, L: Ledger>(
    game: &Game<'_, B>,
    sides: &mut BothSides,
    store: &mut S,
    steps: &mut Steps<L>,
) -> Result<(), Failed>
    requires sound { IsSound game.now.rules.now }
    requires size { length sides.old.entries ≡ size_of game.now.rules.now.groups }
    requires some { 1 ≤ length sides.old.entries }
    requires room { 4 * length sides.old.entries ≤ S.room store.old }
    ensures table { IsTableOf game.now.rules.now (B.value_at game.now.book.now) White
        sides.new.entries }
    ensures noted { let size = size_of game.now.rules.now.groups in
        AreNoted (graph_by game.now.rules.now (B.value_at game.now.book.now)) size Black size
        sides.new.notes }
    ensures appended { Appended (number_bytes sides.new.entries) result
        (store_of S.Store store.old) (store_of S.Store store.new) }
    ensures room { OnOk result (S.room store.new + 4 * length sides.new.entries
        ≡ S.room store.old) }
    ensures asked { S.asked store.new ≡ S.asked store.old }
    ensures calls { S.calls store.new ≤ S.calls store.old + pieces_of (length sides.new.entries) }
    ensures cost { steps.new ≤ steps.old + 2 * length sides.new.entries }
    ensures later { steps.old ≤ steps.new }
{
    sides.run_game(game, Colour::White, steps);
    append_codes(sides.entries(), store)
}

/// Solves the game for Black, from what `write_white` kept, and appends Black's codes.
fn write_black<S: Store, B: ExitBook, L: Ledger>(
    game: &Game<'_, B>,
    sides: &mut BothSides,
    store: &mut S,
    steps: &mut Steps<L>,
) -> Result<(), Failed>
    requires sound { IsSound game.now.rules.now }
    requires size { length sides.old.entries ≡ size_of game.now.rules.now.groups }
    requires noted { let size = size_of game.now.rules.now.groups in
        AreNoted (graph_by game.now.rules.now (B.value_at game.now.book.now)) size Black size
        sides.old.notes }
    requires some { 1 ≤ length sides.old.entries }
    requires room { 4 * length sides.old.entries ≤ S.room store.old }
    ensures table { IsTableOf game.now.rules.now (B.value_at game.now.book.now) Black
        sides.new.entries }
    ensures appended { Appended (number_bytes sides.new.entries) result
        (store_of S.Store store.old) (store_of S.Store store.new) }
    ensures room { OnOk result (S.room store.new + 4 * length sides.new.entries
        ≡ S.room store.old) }
    ensures asked { S.asked store.new ≡ S.asked store.old }
    ensures calls { S.calls store.new ≤ S.calls store.old + pieces_of (length sides.new.entries) }
    ensures cost { steps.new ≤ steps.old + length sides.new.entries }
    ensures later { steps.old ≤ steps.new }
{
    sides.run_game_second(game, Colour::Black, steps);
    append_codes(sides.entries(), store)
}

/// Creates the file and writes the header, White's codes and Black's codes. Answers the size.
fn write_table<S: Store, B: ExitBook, L: Ledger>(
    game: &Game<'_, B>,
    file: &NewTable<'_>,
    sides: &mut BothSides,
    store: &mut S,
    steps: &mut Steps<L>,
) -> Result<u32, StoreFault>
    requires sound { IsSound game.now.rules.now }
    requires text { length file.now.text.now < 2 ^ 32 }
    requires size { length sides.old.entries ≡ size_of game.now.rules.now.groups }
    ensures size { IfOk result (λ size. size ≡ size_of game.now.rules.now.groups) }
    ensures built { Builds (magic_of file.now.kind) file.now.text.now game.now.rules.now
        (B.value_at game.now.book.now) file.now.name.now result
        (store_of S.Store store.old) (store_of S.Store store.new) }
    ensures room { OnOk result (S.room store.new ≡ 0) }
    ensures asked { S.asked store.new ≡ S.asked store.old }
    ensures calls { S.calls store.new
        ≤ S.calls store.old + writing_calls (size_of game.now.rules.now.groups) }
    ensures cost { steps.new ≤ steps.old + 4 * size_of game.now.rules.now.groups }
    ensures later { steps.old ≤ steps.new }
{
    tables();
    let size = game.set.size();
    begin_table(file, size, store)?;
    write_white(game, sides, store, steps)?;
    write_black(game, sides, store, steps)?;
    Ok(size)
}

/// Solves the game for both sides, writes the table file and answers the size of its set. All
/// memory is taken before the file is created, and a file of that name is replaced.
pub fn build_table<S: Store, B: ExitBook, L: Ledger>(
    alloc: Global,
    game: &Game<'_, B>,
    file: &NewTable<'_>,
    store: &mut S,
    steps: &mut Steps<L>,
) -> Result<u32, StoreFault>
    requires sound { IsSound game.now.rules.now }
    requires text { length file.now.text.now < 2 ^ 32 }
    ensures size { IfOk result (λ size. size ≡ size_of game.now.rules.now.groups) }
    ensures built { Builds (magic_of file.now.kind) file.now.text.now game.now.rules.now
        (B.value_at game.now.book.now) file.now.name.now result
        (store_of S.Store store.old) (store_of S.Store store.new) }
    ensures room { OnOk result (S.room store.new ≡ 0) }
    ensures asked { S.asked store.new ≡ S.asked store.old }
    ensures calls { S.calls store.new
        ≤ S.calls store.old + writing_calls (size_of game.now.rules.now.groups) }
    ensures cost { steps.new ≤ steps.old + 4 * size_of game.now.rules.now.groups }
    ensures later { steps.old ≤ steps.new }
{
    match BothSides::new(alloc, game.set.size()) {
        Ok(mut sides) => write_table(game, file, &mut sides, store, steps),
        Err(_) => Err(StoreFault::NoMemory),
    }
}
