//! What steps are worth: the book and the forbid lines are asked, pair by pair.

ghost use Rattle.std.specs.Prelude.{ℕ, ◌≡◌, ◌<◌, true, OnOk};
ghost use Rattle.frz_fide.specs.Legal.{after as board_after};
ghost use Rattle.frz_fide.specs.Valid.{IsValid};
ghost use Rattle.frz_exits.specs.Forbidding.{is_free};
ghost use Rattle.frz_planes.specs.Planes.{has_pair};
ghost use Rattle.frz_king_planes.specs.Kings.{with_kings as crowned};
ghost use Rattle.frz_plane_exits.specs.Adding.{Adds, IsPair, IsPairOf};
ghost use Rattle.frz_plane_exits.specs.Leaving.{step_by};

use crate::exit_plane::{ExitPlane, add_pair};
use crate::mover::{Mover, step_of};
use frz_board::Square;
use frz_exits::{ExitBook, allowed};
use frz_fide::Bitboards;
use frz_king_planes::with_kings;
use frz_pair_moves::after;
use frz_planes::Plane;
use frz_sets::Rules;
use std::alloc::AllocError;

/// Adds the pair to the exits of the value and the freedom that the step has there.
fn add_at<B: ExitBook>(
    exits: &mut Vec<ExitPlane>,
    rules: &Rules,
    book: &B,
    p: &Bitboards,
    mover: &Mover,
    a: u8,
    b: u8,
) -> Result<(), AllocError>
    requires white { a < 64 }
    requires black { b < 64 }
    requires valid { IsValid
        (board_after (crowned p.now a b) (step_by mover.now p.now.turn a b)) }
    ensures { let position = crowned p.now a b in
        let step = step_by mover.now p.now.turn a b in
        OnOk result (Adds exits.old.items exits.new.items (IsPair
        (B.value_at book.now (board_after position step))
        (is_free rules.now p.now.turn position step) a b)) }
{
    let (white, black) = (Square::at(a), Square::at(b));
    let position = with_kings(p, white, black);
    let m = step_of(mover, p.turn(), white, black);
    let value = book.value_on(&after(&position, m));
    let free = allowed(rules, p.turn(), position.as_position(), m);
    add_pair(exits, value, free, a, b)
}

/// Adds the pairs of the plane to the exits, each to those of the value and the freedom that the
/// step has there.
pub(crate) fn add_pairs<B: ExitBook>(
    exits: &mut Vec<ExitPlane>,
    rules: &Rules,
    book: &B,
    p: &Bitboards,
    mover: &Mover,
    pairs: &Plane,
) -> Result<(), AllocError>
    requires { (a b : ℕ) → a < 64 → b < 64 → has_pair pairs.now a b ≡ true →
        IsValid (board_after (crowned p.now a b) (step_by mover.now p.now.turn a b)) }
    ensures { OnOk result (Adds exits.old.items exits.new.items
        (IsPairOf pairs.now rules.now (B.value_at book.now) p.now mover.now)) }
{
    let mut n: u16 = 0;
    while let Some((a, b)) = pairs.next_pair(n) {
        n = 64 * u16::from(a) + u16::from(b) + 1;
        add_at(exits, rules, book, p, mover, a, b)?;
    }
    Ok(())
}
