//! The pairs at which steps leave the set to exits that count.

ghost use Rattle.std.specs.Prelude.{◌≡◌, ◌↔◌, ⊤, IsTrue, true};
ghost use Rattle.frz_plane_chess.specs.Counted.{AreExitsWhere, Counts, IsWorth};

use frz_board::Colour;
use frz_exits::{Class, Value, class, lag};
use frz_plane_exits::ExitPlane;
use frz_plane_game::Exits;
use frz_planes::Plane;

/// Is the value that of such an exit?
fn is_worth(value: Value, side: Colour, exits: Exits) -> bool
    ensures { IsTrue result ↔ IsWorth side exits value }
{
    match exits {
        Exits::Wins(plies) => class(value, side) == Class::Good && lag(value) <= plies,
        Exits::Losses => class(value, side) == Class::Bad,
    }
}

/// Do steps of this freedom count?
fn is_counted(free: bool, only_free: bool) -> bool
    ensures { IsTrue result ↔ (only_free ≡ true → free ≡ true) }
{
    free || !only_free
}

/// Does the exit count?
fn counts(exit: &ExitPlane, only_free: bool, side: Colour, worth: Exits, into: bool) -> bool
    ensures { IsTrue result
        ↔ Counts only_free (λ v. IsTrue into ↔ IsWorth side worth v) exit.now }
{
    is_counted(exit.free, only_free) && is_worth(exit.value, side, worth) == into
}

/// The pairs at which a step leaves the set; a free step, where free steps alone count.
pub(crate) fn leaving_anywhere(exits: &[ExitPlane], only_free: bool) -> Plane
    ensures { AreExitsWhere exits.now only_free (λ _. ⊤) result }
{
    let mut pairs = Plane::empty();
    for exit in exits {
        if is_counted(exit.free, only_free) {
            pairs.union_with(&exit.plane);
        }
    }
    pairs
}

/// The pairs at which a step leaves the set to an exit of this worth to the side, or to another exit
/// where `into` is false; a free step, where free steps alone count.
pub(crate) fn leaving(
    exits: &[ExitPlane],
    only_free: bool,
    side: Colour,
    worth: Exits,
    into: bool,
) -> Plane
    ensures { AreExitsWhere exits.now only_free
        (λ v. IsTrue into ↔ IsWorth side worth v) result }
{
    let mut pairs = Plane::empty();
    for exit in exits {
        if counts(exit, only_free, side, worth, into) {
            pairs.union_with(&exit.plane);
        }
    }
    pairs
}
