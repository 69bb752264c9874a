//! Playing a move.

ghost use Rattle.std.specs.Prelude.{◌≡◌, ◌↔◌, Some, IfSome, IsTrue, not, ◌&&◌, true};
ghost use Rattle.frz_board.specs.Boards.{man_on, holds};
ghost use Rattle.frz_board.specs.Men.{same_colour};
ghost use Rattle.frz_fide.specs.Legal.{can_go, is_legal, played, after as board_after};
ghost use Rattle.frz_fide.specs.Valid.{IsValid};

use super::aftermath::{boards_after, is_safe};
use super::ways::{is_right_promotion, is_way};
use frz_bits::Bitboards;
use frz_board::{Man, Move, Position};

/// Is the move legal for this man, apart from the safety of its king?
fn may_make(p: &Bitboards, man: Man, m: Move) -> bool
    requires { man_on p.now m.from ≡ Some man }
    ensures { result ≡ can_go p.now m }
{
    (man.colour == p.turn() && !p.holds(p.turn(), m.to))
        && (is_way(p, man, m.from, m.to) && is_right_promotion(man.colour, man.kind, m.to, m.promo))
}

#[tactic(auto, unfolding(crate::specs::Legal::is_legal))]
fn is_legal_move(p: &Bitboards, m: Move) -> bool
    ensures { result ≡ is_legal p.now m }
{
    match p.man(m.from) {
        None => false,
        Some(man) => may_make(p, man, m) && is_safe(p, man, m),
    }
}

/// The position after the move, which is valid. `None` exactly where the move is not legal.
pub fn play(p: &Position, m: Move) -> Option<Position>
    requires { IsValid p.now }
    ensures position { result ≡ played p.now m }
    ensures valid { IfSome result IsValid }
{
    let boards = Bitboards::of(p);
    let _to = m.to.number();
    if is_legal_move(&boards, m) {
        Some(boards_after(&boards, m).position())
    } else {
        None
    }
}

/// The position after a legal move, which is valid.
pub fn after(p: &Bitboards, m: Move) -> Bitboards
    requires valid { IsValid p.now }
    requires legal { is_legal p.now m ≡ true }
    ensures position { result ≡ board_after p.now m }
    ensures valid { IsValid result }
{
    let _to = m.to.number();
    boards_after(p, m)
}

fn is_same(p: &Position, q: &Position) -> bool
    ensures { IsTrue result ↔ (p.now ≡ q.now) }
{
    (p.turn() == q.turn() && p.ep() == q.ep()) && p.cells() == q.cells()
}

/// Is the move legal, and does it lead to this valid position?
#[tactic(auto, unfolding(crate::specs::Legal::is_legal))]
pub fn leads(p: &Bitboards, m: Move, q: &Position) -> bool
    requires { IsValid q.now }
    ensures { IsTrue result ↔ ((is_legal p.now m ≡ true) × (board_after p.now m ≡ q.now)) }
{
    match p.man(m.from) {
        None => false,
        Some(man) => may_make(p, man, m) && is_same(boards_after(p, m).as_position(), q),
    }
}
