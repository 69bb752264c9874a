//! All exits of a configuration.

ghost use Rattle.std.specs.Prelude.{◌≡◌, IfOk, OnOk};
ghost use Rattle.frz_sets.specs.Sound.{IsSound};
ghost use Rattle.frz_plane_exits.specs.Adding.{Adds, KingLeaves, ManLeaves};
ghost use Rattle.frz_plane_exits.specs.Exits.{AreExits, HasLivePairs};
ghost use Rattle.frz_plane_exits.specs.Leaving.{AreMembers};

use crate::asking::add_pairs;
use crate::exit_plane::ExitPlane;
use crate::leaving::{king_leaves, man_leaves};
use crate::left::left_of;
use crate::mover::Mover;
use frz_board::{NoMemory, Square};
use frz_configurations::Configurations;
use frz_exits::ExitBook;
use frz_fide::Bitboards;
use frz_index::Set;
use frz_pair_moves::laws::movers;
use frz_pair_moves::{next_step, step_at};
use frz_planes::Plane;
use std::alloc::{AllocError, Global};

/// Adds the exits of the steps of men.
fn add_men<B: ExitBook>(
    exits: &mut Vec<ExitPlane>,
    set: &Set,
    configurations: &Configurations<'_>,
    book: &B,
    p: &Bitboards,
    live: &Plane,
) -> Result<(), AllocError>
    requires sound { IsSound configurations.now.rules.now }
    requires set { set.now ≡ configurations.now.rules.now.groups }
    requires live { AreMembers configurations.now.rules.now.groups p.now live.now }
    ensures { OnOk result (Adds exits.old.items exits.new.items
        (ManLeaves configurations.now.rules.now (B.value_at book.now) p.now)) }
{
    let mut n: u16 = 0;
    while let Some(k) = next_step(p, n) {
        n = k + 1;
        let m = step_at(k);
        let pairs = man_leaves(set, configurations, p, live, m);
        add_pairs(exits, configurations.rules, book, p, &Mover::Man(m), &pairs)?;
    }
    Ok(())
}

/// Adds the exits of the steps of the king of the side to move.
fn add_kings<B: ExitBook>(
    exits: &mut Vec<ExitPlane>,
    set: &Set,
    configurations: &Configurations<'_>,
    book: &B,
    p: &Bitboards,
    live: &Plane,
) -> Result<(), AllocError>
    requires sound { IsSound configurations.now.rules.now }
    requires set { set.now ≡ configurations.now.rules.now.groups }
    requires live { AreMembers configurations.now.rules.now.groups p.now live.now }
    ensures { OnOk result (Adds exits.old.items exits.new.items
        (KingLeaves configurations.now.rules.now (B.value_at book.now) p.now)) }
{
    let quiet = left_of(set, configurations, &p.hand_over(None));
    for n in 0..64 {
        let s = Square::at(n);
        let pairs = king_leaves(set, configurations, p, live, s, &quiet);
        add_pairs(
            exits,
            configurations.rules,
            book,
            p,
            &Mover::King(s),
            &pairs,
        )?;
    }
    Ok(())
}

/// The exits of men and kings.
fn all_exits<B: ExitBook>(
    alloc: Global,
    set: &Set,
    configurations: &Configurations<'_>,
    book: &B,
    p: &Bitboards,
    live: &Plane,
) -> Result<Vec<ExitPlane>, AllocError>
    requires sound { IsSound configurations.now.rules.now }
    requires set { set.now ≡ configurations.now.rules.now.groups }
    requires live { AreMembers configurations.now.rules.now.groups p.now live.now }
    ensures { IfOk result (λ exits.
        AreExits configurations.now.rules.now (B.value_at book.now) p.now exits.items) }
{
    movers();
    let mut exits = Vec::new(alloc);
    add_men(&mut exits, set, configurations, book, p, live)?;
    add_kings(&mut exits, set, configurations, book, p, live)?;
    Ok(exits)
}

/// The steps that leave the set from the positions of a configuration: the pairs of kings' squares
/// at which there is one, for each value that the book gives a position to which one leads, free
/// steps and others apart. The only error is want of memory.
pub fn exits_of<B: ExitBook>(
    alloc: Global,
    set: &Set,
    configurations: &Configurations<'_>,
    book: &B,
    p: &Bitboards,
    live: &Plane,
) -> Result<Vec<ExitPlane>, NoMemory>
    requires sound { IsSound configurations.now.rules.now }
    requires set { set.now ≡ configurations.now.rules.now.groups }
    requires live { HasLivePairs set.now p.now live.now }
    ensures { IfOk result (λ exits.
        AreExits configurations.now.rules.now (B.value_at book.now) p.now exits.items) }
{
    match all_exits(alloc, set, configurations, book, p, live) {
        Ok(exits) => Ok(exits),
        Err(_) => Err(NoMemory),
    }
}
