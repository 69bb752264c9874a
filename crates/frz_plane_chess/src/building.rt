//! The live pairs and the rows of all configurations.

ghost use Rattle.std.specs.Prelude.{ℕ, ◌≡◌, ◌<◌, IfOk, None, length};
ghost use Rattle.std.specs.List.{slice_index_or};
ghost use Rattle.frz_sets.specs.Sound.{IsSound};
ghost use Rattle.frz_configurations.specs.Configurations.{configuration_count};
ghost use Rattle.frz_kingless.specs.Boards.{IsBoardOf};
ghost use Rattle.frz_plane_arms.specs.MenArms.{AreAllLive};
ghost use Rattle.frz_plane_chess.specs.Rows.{IsRow, IsRowOf};

use crate::moving::{mated, moving};
use crate::row::Row;
use frz_configurations::Configurations;
use frz_exits::ExitBook;
use frz_fide::Bitboards;
use frz_index::Set;
use frz_kingless::{board_of, live_pairs};
use frz_plane_arms::inner_moves;
use frz_plane_exits::exits_of;
use frz_planes::Plane;
use std::alloc::{AllocError, Global};

/// The live pairs of all configurations.
pub(crate) fn all_lives(
    alloc: Global,
    set: &Set,
    configurations: &Configurations<'_>,
) -> Result<Vec<Plane>, AllocError>
    requires sound { IsSound configurations.now.rules.now }
    requires set { set.now ≡ configurations.now.rules.now.groups }
    ensures many { IfOk result (λ lives. length lives.items
        ≡ configuration_count configurations.now.rules.now.groups) }
    ensures live { IfOk result (λ lives.
        AreAllLive configurations.now.rules.now.groups lives.items) }
{
    let mut lives = Vec::new(alloc);
    for c in 0..configurations.count() {
        lives.push(live_pairs(set, configurations, c))?;
    }
    Ok(lives)
}

/// The row of a configuration with this board. `lives` has the live pairs of all configurations.
fn row_on<B: ExitBook>(
    alloc: Global,
    set: &Set,
    configurations: &Configurations<'_>,
    book: &B,
    lives: &[Plane],
    configuration: u32,
    p: &Bitboards,
) -> Result<Row, AllocError>
    requires sound { IsSound configurations.now.rules.now }
    requires set { set.now ≡ configurations.now.rules.now.groups }
    requires inside { configuration < configuration_count configurations.now.rules.now.groups }
    requires many { length lives.now ≡ configuration_count configurations.now.rules.now.groups }
    requires live { AreAllLive configurations.now.rules.now.groups lives.now }
    requires board { IsBoardOf configurations.now.rules.now.groups configuration p.now }
    ensures { IfOk result (λ row. IsRowOf configurations.now.rules.now (B.value_at book.now)
        configuration row p.now) }
{
    let rules = configurations.rules;
    let live = &lives[configuration as usize];
    let moves = inner_moves(alloc, set, configurations, p)?;
    let Ok(exits) = exits_of(alloc, set, configurations, book, p, live) else {
        return Err(AllocError);
    };
    let any = moving(rules, &moves, &exits, live, lives, false);
    let free = moving(rules, &moves, &exits, live, lives, true);
    let mates = mated(p, live, &any);
    Ok(Row {
        turn: p.turn(),
        moves,
        exits,
        moving: any,
        moving_freely: free,
        mated: mates,
    })
}

/// The row of a configuration, and `None` where it has no position.
fn row_of<B: ExitBook>(
    alloc: Global,
    set: &Set,
    configurations: &Configurations<'_>,
    book: &B,
    lives: &[Plane],
    configuration: u32,
) -> Result<Option<Row>, AllocError>
    requires sound { IsSound configurations.now.rules.now }
    requires set { set.now ≡ configurations.now.rules.now.groups }
    requires inside { configuration < configuration_count configurations.now.rules.now.groups }
    requires many { length lives.now ≡ configuration_count configurations.now.rules.now.groups }
    requires live { AreAllLive configurations.now.rules.now.groups lives.now }
    ensures { IfOk result
        (IsRow configurations.now.rules.now (B.value_at book.now) configuration) }
{
    if lives[configuration as usize].is_empty() {
        return Ok(None);
    }
    match board_of(set, configurations, configuration) {
        None => Ok(None),
        Some(p) => {
            let row = row_on(alloc, set, configurations, book, lives, configuration, &p)?;
            Ok(Some(row))
        }
    }
}

/// The rows of all configurations.
pub(crate) fn all_rows<B: ExitBook>(
    alloc: Global,
    set: &Set,
    configurations: &Configurations<'_>,
    book: &B,
    lives: &[Plane],
) -> Result<Vec<Option<Row>>, AllocError>
    requires sound { IsSound configurations.now.rules.now }
    requires set { set.now ≡ configurations.now.rules.now.groups }
    requires many { length lives.now ≡ configuration_count configurations.now.rules.now.groups }
    requires live { AreAllLive configurations.now.rules.now.groups lives.now }
    ensures many { IfOk result (λ rows. length rows.items
        ≡ configuration_count configurations.now.rules.now.groups) }
    ensures rows { let r = configurations.now.rules.now in
        IfOk result (λ rows. (c : ℕ) → c < configuration_count r.groups →
        IsRow r (B.value_at book.now) c (slice_index_or rows.items c None)) }
{
    let mut rows = Vec::new(alloc);
    for c in 0..configurations.count() {
        let row = row_of(alloc, set, configurations, book, lives, c)?;
        rows.push(row)?;
    }
    Ok(rows)
}
