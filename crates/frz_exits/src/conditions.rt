//! When the conditions of an exit line hold.

ghost use Rattle.std.specs.Prelude.{◌≡◌, ◌&&◌};
ghost use Rattle.std.specs.List.{list_any};
ghost use Rattle.frz_board.specs.Boards.{has};
ghost use Rattle.frz_board.specs.Shapes.{count_of};
ghost use Rattle.frz_board.specs.Squares.{squares, distance};
ghost use Rattle.frz_fide.specs.Valid.{IsValid};
ghost use Rattle.frz_squares.specs.SquareSets.{has_square};
ghost use Rattle.frz_exits.specs.Conditions as conditions;
ghost use Rattle.frz_exits.specs.Conditions.{in_range, condition_holds, conditions_hold};
ghost use Rattle.frz_board.specs.declared.man.Kind.TheVariants.{King};

use frz_board::{Colour, Kind, Man, Square};
use frz_fide::{Bitboards, both, next_square};
use frz_sets::{Cond, Test};
use frz_squares::SquareSet;

fn is_in_range(least: u8, most: u8, n: u8) -> bool
    ensures { result ≡ in_range least most n }
{
    least <= n && n <= most
}

/// How many men of this colour and kind stand on the board.
fn count(q: &Bitboards, colour: Colour, kind: Kind) -> u8
    requires { IsValid q.now }
    ensures { result ≡ count_of q.now colour kind }
{
    q.men(Man { colour, kind }).count_ones() as u8
}

/// Does a man of this colour and kind stand on one of the squares?
fn stands_on(q: &Bitboards, colour: Colour, kind: Kind, set: SquareSet) -> bool
    ensures { result ≡ list_any (λ s. has q.now colour kind s && has_square set s) squares }
{
    both(q.men(Man { colour, kind }), set.0) != 0
}

/// Is the distance of the side's king from the square from `least` to `most`? A side has one king.
fn is_king_within(q: &Bitboards, colour: Colour, square: Square, least: u8, most: u8) -> bool
    requires { IsValid q.now }
    ensures { result ≡ list_any (λ s. has q.now colour King s
        && in_range least most (distance s square)) squares }
{
    let kind = Kind::King;
    match next_square(q.men(Man { colour, kind }), 0) {
        None => false,
        Some(king) => is_in_range(least, most, king.distance(square)),
    }
}

/// Does the test hold at the position?
fn test_holds(test: &Test, q: &Bitboards) -> bool
    requires { IsValid q.now }
    ensures { result ≡ conditions.test_holds test.now q.now }
{
    match *test {
        Test::Turn(side) => side == q.turn(),
        Test::Count(side, kind, least, most) => is_in_range(least, most, count(q, side, kind)),
        Test::On(side, kind, set) => stands_on(q, side, kind, set),
        Test::Distance(side, square, least, most) => is_king_within(q, side, square, least, most),
        Test::Check => q.is_in_check(q.turn()),
        Test::Always => true,
    }
}

/// Does the condition hold: its test, or the test's negation?
fn holds(cond: &Cond, q: &Bitboards) -> bool
    requires { IsValid q.now }
    ensures { result ≡ condition_holds q.now cond.now }
{
    if cond.negated {
        !test_holds(&cond.test, q)
    } else {
        test_holds(&cond.test, q)
    }
}

/// Do all the conditions hold at the position?
pub fn all_hold(conds: &[Cond], q: &Bitboards) -> bool
    requires { IsValid q.now }
    ensures { result ≡ conditions_hold q.now conds.now }
{
    conds.iter().all(|cond| holds(cond, q))
}
