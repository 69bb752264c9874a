//! Codes of bounds and local codes, worked by hand, and a law that is called.

ghost use Rattle.std.specs.Prelude.{ℕ};
ghost use Rattle.frz_board.specs.declared.man.Colour.{Colour};
ghost use Rattle.frz_board.specs.Men.{other_of};
ghost use Rattle.frz_arena.specs.Arena.{Arena, IsLawful};
ghost use Rattle.frz_arena.specs.Plies.{WinsWithin};

use crate::expect::expect_equal;
use frz_arena::laws::plies::one_winner;
use frz_arena::{Bound, Class, Node, bound_of, code, exit_code, local_code};
use frz_board::Colour::{Black, White};

/// A law at numbers, by a call.
fn one_winner_at_numbers()
    ensures { (arena : Arena ℕ ℕ ℕ) → IsLawful arena → (side : Colour) (n m : ℕ) (p : ℕ) →
        WinsWithin arena side n p → WinsWithin arena (other_of side) m p → ⊥ }
{
    one_winner::<u32, u32, u32>();
}

#[test]
fn a_law_is_called() {
    one_winner_at_numbers();
}

#[test]
fn codes_stand_for_bounds(rt: HostRuntime) {
    let codes = [code(Bound::Wins(0)), code(Bound::Fails(2))];
    expect_equal(&rt, &codes, &[2, 7], "codes");
    let bounds = [bound_of(6), bound_of(0)];
    expect_equal(&rt, &bounds, &[Some(Bound::Wins(2)), None], "bounds");
    let exits = [exit_code(Class::Good, 7), exit_code(Class::Bad, 7)];
    expect_equal(&rt, &exits, &[16, 3], "exits");
}

#[test]
fn the_side_is_to_move(rt: HostRuntime) {
    let node = Node::Going(White);
    let codes = [
        local_code(White, node, &[7, 6, 1, 4], &[]),
        local_code(White, node, &[7, 1], &[4]),
        local_code(White, node, &[7, 3], &[4]),
        local_code(White, node, &[], &[4]),
    ];
    expect_equal(&rt, &codes, &[6, 1, 9, 3], "codes");
}

#[test]
fn the_opponent_is_to_move(rt: HostRuntime) {
    let node = Node::Going(Black);
    let codes = [
        local_code(White, node, &[], &[4, 7, 5]),
        local_code(White, node, &[], &[4, 1]),
        local_code(White, node, &[4], &[4, 6]),
    ];
    expect_equal(&rt, &codes, &[7, 1, 8], "codes");
}

#[test]
fn the_game_is_over(rt: HostRuntime) {
    let codes = [
        local_code(White, Node::Broken, &[], &[]),
        local_code(White, Node::Mate(Black), &[], &[]),
        local_code(White, Node::Mate(White), &[], &[]),
        local_code(White, Node::Stalemate(White), &[], &[]),
    ];
    expect_equal(&rt, &codes, &[0, 2, 3, 1], "codes");
}
