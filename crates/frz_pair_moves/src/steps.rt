//! The steps that men can go, one after another.

ghost use Rattle.std.specs.Prelude.{ℕ, ◌≡◌, ◌<◌, ◌≤◌, ◌+◌, MatchOption, true, false};
ghost use Rattle.frz_board.specs.Moving.{is_promotion};
ghost use Rattle.frz_fide.specs.Legal.{advances as advances_two, can_go as board_can_go, goes, promotes, takes_in_passing as passes};
ghost use Rattle.frz_pair_moves.specs.Steps.{HasNoStepFrom, IsNextStep, promotion_at as promotion_of, step_at as step_of};

use frz_bits::Bitboards;
use frz_board::{Colour, Kind, Man, Move, Square};

/// Does a pawn of the side take en passant if it goes from `a` to `b`?
pub(crate) fn takes_in_passing(p: &Bitboards, c: Colour, a: Square, b: Square) -> bool
    ensures { result ≡ passes p.now c a b }
{
    a.is_pawn_attack(c, b) && p.as_position().is_target(b)
}

/// May a pawn of the side advance two squares from `a` to `b`?
pub(crate) fn advances(p: &Bitboards, c: Colour, a: Square, b: Square) -> bool
    ensures { result ≡ advances_two p.now c a b }
{
    let over = Square::at((a.number() + b.number()) / 2);
    (a.is_home_rank(c) && (a.files_apart(b) == 0 && a.is_forward(c, 2, b)))
        && (p.is_empty(b) && p.is_empty(over))
}

/// Has a pawn of the side a way from `a` to `b`?
fn pawn_goes(p: &Bitboards, c: Colour, a: Square, b: Square) -> bool
    ensures { result ≡ goes p.now c Kind.Pawn a b }
{
    let captures = a.is_pawn_attack(c, b) && p.holds(c.other(), b);
    let steps = (a.files_apart(b) == 0 && a.is_forward(c, 1, b)) && p.is_empty(b);
    (captures || steps) || (advances(p, c, a, b) || takes_in_passing(p, c, a, b))
}

/// Has the man a way from `a` to `b`?
fn man_goes(p: &Bitboards, man: Man, a: Square, b: Square) -> bool
    ensures { result ≡ goes p.now man.colour man.kind a b }
{
    match man.kind {
        Kind::Pawn => pawn_goes(p, man.colour, a, b),
        _ => p.reaches(man, a, b),
    }
}

/// Is `promo` right for a man of this kind that arrives on `b`?
fn is_right_promotion(c: Colour, kind: Kind, b: Square, promo: Option<Kind>) -> bool
    ensures { result ≡ promotes c kind b promo }
{
    match kind {
        Kind::Pawn => match promo {
            None => !b.is_last_rank(c),
            Some(Kind::King) | Some(Kind::Pawn) => false,
            Some(_) => b.is_last_rank(c),
        },
        _ => promo.is_none(),
    }
}

/// Can a man of the side to move make this step, whatever becomes of its king?
pub fn can_go(p: &Bitboards, m: Move) -> bool
    ensures { result ≡ board_can_go p.now m }
{
    match p.man(m.from) {
        None => false,
        Some(man) => {
            (man.colour == p.turn() && !p.holds(p.turn(), m.to))
                && (man_goes(p, man, m.from, m.to)
                    && is_right_promotion(man.colour, man.kind, m.to, m.promo))
        }
    }
}

/// The promotion of this number.
fn promotion_at(n: u16) -> Option<Kind>
    ensures promotion { result ≡ promotion_of n }
    ensures right { is_promotion result ≡ true }
{
    match n {
        1 => Some(Kind::Queen),
        2 => Some(Kind::Rook),
        3 => Some(Kind::Bishop),
        4 => Some(Kind::Knight),
        _ => None,
    }
}

/// The step of this number. Steps are numbered in move order: by origin, then destination, then
/// promotion, none first.
pub fn step_at(n: u16) -> Move
    requires { n < 20480 }
    ensures { result ≡ step_of n }
{
    Move {
        from: Square::at((n / 320) as u8),
        to: Square::at((n / 5 % 64) as u8),
        promo: promotion_at(n % 5),
    }
}

/// The next number to look at: that of the next square, where none of the mover's men stands.
fn following(p: &Bitboards, n: u16) -> u16
    requires { n < 20480 }
    ensures further { n < result }
    ensures below { result ≤ 20480 }
    ensures passed { (k : ℕ) → n < k → k < result → board_can_go p.now (step_of k) ≡ false }
{
    let from = n / 320;
    if p.holds(p.turn(), Square::at(from as u8)) {
        n + 1
    } else {
        320 * (from + 1)
    }
}

/// The first number from `n` on of a step that a man of the side to move can make, whatever becomes
/// of its king. `None` where there is none.
pub fn next_step(p: &Bitboards, n: u16) -> Option<u16>
    requires { n ≤ 20480 }
    ensures { MatchOption result (HasNoStepFrom p.now n) (IsNextStep p.now n) }
{
    let mut k = n;
    while k < 20480 {
        if can_go(p, step_at(k)) {
            return Some(k);
        }
        k = following(p, k);
    }
    None
}
