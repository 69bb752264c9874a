//! The ways in which men go from square to square, whatever becomes of their king.

ghost use Rattle.std.specs.Prelude.{ℕ, ◌≡◌, ◌<◌, ◌&&◌, true, false};
ghost use Rattle.frz_squares.specs.SquareSets.{has_square, set_of};
ghost use Rattle.frz_fide.specs.Legal.{passed_over, captures, takes_in_passing, steps, advances, goes, promotes};

use frz_bits::{Bitboards, next_square, pawn_set, with_square, without};
use frz_board::{Colour, Kind, Man, Square};

/// The square that a pawn passes over when it advances two squares.
pub fn midway(a: Square, b: Square) -> Square
    ensures { result ≡ passed_over a b }
{
    Square::at((a.number() + b.number()) / 2)
}

fn takes_a_man(p: &Bitboards, c: Colour, a: Square, b: Square) -> bool
    ensures { result ≡ captures p.now c a b }
{
    a.is_pawn_attack(c, b) && p.holds(c.other(), b)
}

/// Does a pawn of the side capture en passant if it goes from `a` to `b`?
pub fn takes_passing(p: &Bitboards, c: Colour, a: Square, b: Square) -> bool
    ensures { result ≡ takes_in_passing p.now c a b }
{
    a.is_pawn_attack(c, b) && p.as_position().is_target(b)
}

fn steps_ahead(p: &Bitboards, c: Colour, a: Square, b: Square) -> bool
    ensures { result ≡ steps p.now c a b }
{
    (a.files_apart(b) == 0 && a.is_forward(c, 1, b)) && p.is_empty(b)
}

/// May a pawn of the side advance two squares from `a` to `b`?
pub fn advances_two(p: &Bitboards, c: Colour, a: Square, b: Square) -> bool
    ensures { result ≡ advances p.now c a b }
{
    (a.is_home_rank(c) && (a.files_apart(b) == 0 && a.is_forward(c, 2, b)))
        && (p.is_empty(b) && p.is_empty(midway(a, b)))
}

/// Has the man a way from `a` to `b`? A pawn has four ways, any other man goes to what it attacks.
/// Whether its king is safe afterwards is not asked.
pub fn is_way(p: &Bitboards, man: Man, a: Square, b: Square) -> bool
    ensures { result ≡ goes p.now man.colour man.kind a b }
{
    match man.kind {
        Kind::Pawn => {
            (takes_a_man(p, man.colour, a, b) || steps_ahead(p, man.colour, a, b))
                || (advances_two(p, man.colour, a, b) || takes_passing(p, man.colour, a, b))
        }
        _ => p.reaches(man, a, b),
    }
}

/// Those of `squares` that a pawn on `a` has to look at: diagonally the other side's men, straight
/// ahead the empty squares. With a target all of them, since it may be captured en passant.
fn pawn_targets(p: &Bitboards, man: Man, a: Square, squares: u64) -> u64
    requires { man.kind ≡ Kind.Pawn }
    ensures within { (b : ℕ) → b < 64 → has_square result b ≡ true → has_square squares b ≡ true }
    ensures others { (b : ℕ) → b < 64 → has_square result b ≡ false →
        (has_square squares b && goes p.now man.colour man.kind a b) ≡ false }
{
    match p.ep() {
        Some(_) => squares,
        None => {
            let slanting = pawn_set(man.colour, a);
            let untaken = without(slanting, p.side(man.colour.other()));
            let blocked = without(p.occupied(), slanting);
            let near = without(squares, untaken);
            without(near, blocked)
        }
    }
}

/// `open_ways` for a pawn, square by square.
fn pawn_ways(p: &Bitboards, man: Man, a: Square, squares: u64) -> u64
    requires { man.kind ≡ Kind.Pawn }
    ensures { result ≡
        set_of (λ b. has_square squares b && goes p.now man.colour man.kind a b) }
{
    let near = pawn_targets(p, man, a, squares);
    let mut word = 0;
    let mut n = 0;
    while let Some(b) = next_square(near, n) {
        word = with_square(word, b, is_way(p, man, a, b));
        n = b.number() + 1;
    }
    word
}

/// The bitboard of those of `squares` to which the man on `a` has a way. What a piece reaches is
/// told by words.
pub fn open_ways(p: &Bitboards, man: Man, a: Square, squares: u64) -> u64
    ensures { result ≡
        set_of (λ b. has_square squares b && goes p.now man.colour man.kind a b) }
{
    match man.kind {
        Kind::Pawn => pawn_ways(p, man, a, squares),
        _ => p.reached(man, a, squares),
    }
}

/// Is `promo` right for a man of this kind that arrives on `b`? A pawn on its last rank promotes to
/// a queen, rook, bishop or knight; any other move has no promotion.
pub fn is_right_promotion(c: Colour, k: Kind, b: Square, promo: Option<Kind>) -> bool
    ensures { result ≡ promotes c k b promo }
{
    match k {
        Kind::Pawn => match promo {
            None => !b.is_last_rank(c),
            Some(Kind::King) | Some(Kind::Pawn) => false,
            Some(_) => b.is_last_rank(c),
        },
        _ => promo.is_none(),
    }
}
