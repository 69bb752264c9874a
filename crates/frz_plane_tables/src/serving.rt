//! Where planes serve.
ghost use Rattle.std.specs.Prelude.{IfSome};
ghost use Rattle.frz_board.specs.declared.man.Colour.TheVariants.{Black, White};
ghost use Rattle.frz_sets.specs.Sound.{IsSound};
ghost use Rattle.frz_game.specs.Bounds.{IsTableOf};

use frz_configurations::Configurations;
use frz_game::{ExitBook, Game};
use frz_plane_chess::{BothCodes, solve_planes};
use frz_sets::Rules;
use frz_table::Set;
use std::alloc::Global;

/// Sets of up to so many numbers are solved by planes whatever they are.
const SMALL: u32 = 65536;

/// So many numbers a configuration, of the 4,096 pairs of a plane, make planes worth while.
const MANY_PAIRS: u32 = 1024;

/// With fewer, but so many, they take less time and more memory, of which they may have this much.
const SOME_PAIRS: u32 = 128;

/// A configuration takes some 5 kilobytes.
const MOST_CONFIGURATIONS: u32 = 524_288;

/// Have so many configurations enough numbers each, of `size` in all?
fn are_filled(size: u32, configurations: u32) -> bool {
    size / MANY_PAIRS >= configurations
        || (configurations <= MOST_CONFIGURATIONS && size / SOME_PAIRS >= configurations)
}

/// Is the set small, or do its kings have many squares? Where they have few, planes are mostly
/// empty, and numbers take less memory one by one.
fn planes_serve(alloc: Global, set: &Set, rules: &Rules) -> bool
    requires { IsSound rules.now }
{
    let size = set.size();
    match Configurations::new(alloc, rules) {
        Ok(configurations) => size <= SMALL || are_filled(size, configurations.count()),
        Err(_) => false,
    }
}

/// The codes of both sides by planes. `None` where planes do not serve, or find no memory.
pub(crate) fn solved<B: ExitBook>(alloc: Global, game: &Game<'_, B>) -> Option<BothCodes>
    requires sound { IsSound game.now.rules.now }
    ensures white { IfSome result (λ both. IsTableOf game.now.rules.now
        (B.value_at game.now.book.now) White both.white.items) }
    ensures black { IfSome result (λ both. IsTableOf game.now.rules.now
        (B.value_at game.now.book.now) Black both.black.items) }
{
    if planes_serve(alloc, game.set, game.rules) {
        solve_planes(alloc, game).ok()
    } else {
        None
    }
}
