//! A position with the sets of its men as words of 64 bits, and what attacks what in it.

ghost use Rattle.std.specs.Prelude.{ℕ, ◌≡◌, ◌<◌, ◌≤◌, ◌==◌, ◌&&◌, not, replicate, slice_index, slice_set};
ghost use Rattle.frz_board.specs.Men.{is_man_of, man_of_cell, other_of};
ghost use Rattle.frz_board.specs.Boards.{Board, is_empty, man_on, holds, has};
ghost use Rattle.frz_board.specs.EnPassant.{has_pawn_beside};
ghost use Rattle.frz_board.specs.Attacks.{is_clear, reaches, attacks, is_attacked, is_in_check};
ghost use Rattle.frz_squares.specs.SquareSets.{has_square, set_of};
ghost use Rattle.frz_bits.specs.Reaching.{may_attack};

use super::lanes::{cells_equal, cells_from, cells_unlike};
use super::rays::seen;
use super::sets::{between, bishop_lines, king_set, knight_set, pawn_set, rook_lines};
use super::ways::{queen_lines, reaching_set};
use super::word::{both, contains, either, next_square, replaced, with_square};
use frz_board::{Colour, Kind, Man, Position, Square, cell_of};
use std::marker::Model;
use std::simd::prelude::*;

fn is_white(cell: u8) -> bool
    ensures { result ≡ is_man_of Colour.White (man_of_cell cell) }
{
    1 <= cell && cell <= 6
}

fn is_black(cell: u8) -> bool
    ensures { result ≡ is_man_of Colour.Black (man_of_cell cell) }
{
    7 <= cell && cell <= 12
}

/// A position with two words: the squares where White's men stand, and those where Black's do.
/// Contracts see the position alone.
#[derive(Drop)]
pub struct Bitboards {
    position: Position,
    white: u64,
    black: u64,
}

impl Model for Bitboards {
    ghost use Rattle.frz_board.specs.Boards.{Board};
    ghost use Rattle.frz_bits.specs.Sides.{HasSides};

    ghost Value = { Board };

    ghost view = { λ b. b.position };

    ghost invariant = { λ b. HasSides b.position b.white b.black };
}

impl Bitboards {
    /// The position with its words, gathered from its cells.
    pub fn of(p: &Position) -> Bitboards
        ensures { result ≡ p.now }
    {
        let cells = u8x64::from_array(p.cells());
        Bitboards {
            position: *p,
            white: cells_from(cells, 1, 7),
            black: cells_from(cells, 7, 13),
        }
    }

    /// A board without men.
    pub fn empty(turn: Colour, ep: Option<Square>) -> Bitboards
        ensures { result ≡ record { cells = replicate 64 0; turn = turn; ep = ep } }
    {
        Bitboards {
            position: Position::empty(turn, ep),
            white: 0,
            black: 0,
        }
    }

    /// Writes `c` into the cell of the square: a man's number, or 0 to empty it.
    pub fn set(&mut self, s: Square, c: u8)
        requires { c ≤ 12 }
        ensures { self.new ≡ record self.old { cells = slice_set self.old.cells s c } }
    {
        self.position.set(s, c);
        self.white = replaced(self.white, s, is_white(c));
        self.black = replaced(self.black, s, is_black(c));
    }

    /// The squares where a man of the side stands.
    pub fn side(&self, c: Colour) -> u64
        ensures { result ≡ set_of (λ s. holds self.now c s) }
    {
        match c {
            Colour::White => self.white,
            Colour::Black => self.black,
        }
    }

    /// The squares where a man of this colour and kind stands.
    pub fn men(&self, man: Man) -> u64
        ensures { result ≡ set_of (λ s. has self.now man.colour man.kind s) }
    {
        cells_equal(u8x64::from_array(self.position.cells()), cell_of(man))
    }

    /// The squares where a man of either side stands.
    pub fn occupied(&self) -> u64
        ensures { result ≡ set_of (λ s. not (is_empty self.now s)) }
    {
        self.white | self.black
    }

    /// The side to move.
    pub fn turn(&self) -> Colour
        ensures { result ≡ self.now.turn }
    {
        self.position.turn()
    }

    /// The man on the square, and `None` if it is empty.
    pub fn man(&self, s: Square) -> Option<Man>
        ensures { result ≡ man_on self.now s }
    {
        self.position.man(s)
    }

    /// The target: the square that a pawn has just passed over, where it may be captured en
    /// passant.
    pub fn ep(&self) -> Option<Square>
        ensures { result ≡ self.now.ep }
    {
        self.position.ep()
    }

    /// The position without its words, as a reference.
    pub fn as_position(&self) -> &Position
        ensures { result.now ≡ self.now }
    {
        &self.position
    }

    /// The position with the other side to move, and this target or none.
    pub fn hand_over(&self, ep: Option<Square>) -> Bitboards
        ensures { result ≡ record self.now { turn = other_of self.now.turn; ep = ep } }
    {
        Bitboards {
            position: self.position.hand_over(ep),
            white: self.white,
            black: self.black,
        }
    }

    /// The position without its words, as a copy.
    pub fn position(&self) -> Position
        ensures { result ≡ self.now }
    {
        self.position
    }

    /// Is the square empty?
    pub fn is_empty(&self, s: Square) -> bool
        ensures { result ≡ is_empty self.now s }
    {
        self.position.cell(s) == 0
    }

    /// Does a man of the side stand on the square?
    pub fn holds(&self, c: Colour, s: Square) -> bool
        ensures { result ≡ holds self.now c s }
    {
        self.position.holds(c, s)
    }

    /// Does a pawn of the side stand beside the square, on the same rank?
    pub fn has_pawn_beside(&self, c: Colour, s: Square) -> bool
        ensures { result ≡ has_pawn_beside self.now c s }
    {
        self.position.has_pawn_beside(c, s)
    }

    /// Is each square strictly between `a` and `b` empty? So it is where they share no line.
    pub fn is_clear(&self, a: Square, b: Square) -> bool
        ensures { result ≡ is_clear self.now a b }
    {
        between(a, b) & self.occupied() == 0
    }

    /// The position with `c` in the cell of the square: a man's number, or 0 to empty it.
    pub fn put(&self, s: Square, c: u8) -> Bitboards
        requires { c ≤ 12 }
        ensures { result ≡ record self.now { cells = slice_set self.now.cells s c } }
    {
        Bitboards {
            position: self.position.put(s, c),
            white: replaced(self.white, s, is_white(c)),
            black: replaced(self.black, s, is_black(c)),
        }
    }

    /// Would this man, standing on `a`, attack `b`?
    #[tactic(auto, using(frz_squares::proofs::Lemmas::set_reading))]
    pub fn reaches(&self, man: Man, a: Square, b: Square) -> bool
        ensures { result ≡ reaches self.now man.colour man.kind a b }
    {
        match man.kind {
            Kind::King => contains(king_set(a), b),
            Kind::Queen => {
                (contains(rook_lines(a), b) || contains(bishop_lines(a), b)) && self.is_clear(a, b)
            }
            Kind::Rook => contains(rook_lines(a), b) && self.is_clear(a, b),
            Kind::Bishop => contains(bishop_lines(a), b) && self.is_clear(a, b),
            Kind::Knight => contains(knight_set(a), b),
            Kind::Pawn => contains(pawn_set(man.colour, a), b),
        }
    }

    /// Those of `squares` that no man hides from `s`.
    fn unhidden(&self, s: Square, squares: u64) -> u64
        ensures { result ≡ set_of (λ b. has_square squares b && is_clear self.now s b) }
    {
        seen(s, squares, self.occupied())
    }

    /// Those of `squares` that this man, standing on `s`, would attack.
    pub fn reached(&self, man: Man, s: Square, squares: u64) -> u64
        ensures { (b : ℕ) → b < 64 → has_square result b
            ≡ (has_square squares b && reaches self.now man.colour man.kind s b) }
    {
        match man.kind {
            Kind::King => both(squares, king_set(s)),
            Kind::Queen => self.unhidden(s, both(squares, queen_lines(s))),
            Kind::Rook => self.unhidden(s, both(squares, rook_lines(s))),
            Kind::Bishop => self.unhidden(s, both(squares, bishop_lines(s))),
            Kind::Knight => both(squares, knight_set(s)),
            Kind::Pawn => both(squares, pawn_set(man.colour, s)),
        }
    }

    /// Does the man on `a` attack `b`?
    pub fn attacks(&self, a: Square, b: Square) -> bool
        ensures { result ≡ attacks self.now a b }
    {
        match self.man(a) {
            None => false,
            Some(man) => self.reaches(man, a, b),
        }
    }

    /// The squares of the side's men that may attack `s`: those on a line with it or a knight's
    /// jump away.
    fn men_in_reach(&self, s: Square, by: Colour) -> u64
        ensures { result ≡ set_of (λ a. may_attack self.now s by a) }
    {
        both(self.side(by), reaching_set(s))
    }

    /// The squares from which a man of the side `by` attacks `s`.
    pub fn attackers(&self, s: Square, by: Colour) -> u64
        ensures { result ≡ set_of (λ a. holds self.now by a && attacks self.now a s) }
    {
        let men = self.men_in_reach(s, by);
        let mut word = 0;
        let mut n = 0;
        while let Some(a) = next_square(men, n) {
            word = with_square(word, a, self.attacks(a, s));
            n = a.number() + 1;
        }
        word
    }

    /// Does a man of the side `by` attack `s`?
    pub fn is_attacked(&self, s: Square, by: Colour) -> bool
        ensures { result ≡ is_attacked self.now s by }
    {
        let men = self.men_in_reach(s, by);
        let mut n = 0;
        while let Some(a) = next_square(men, n) {
            if self.attacks(a, s) {
                return true;
            }
            n = a.number() + 1;
        }
        false
    }

    /// The squares that the man on `a` attacks, and none if it is empty.
    fn attacked_from(&self, a: Square) -> u64
        ensures { (b : ℕ) → b < 64 → has_square result b ≡ attacks self.now a b }
    {
        match self.man(a) {
            None => 0,
            Some(man) => self.reached(man, a, u64::MAX),
        }
    }

    /// The squares that a man of the side `by` attacks.
    pub fn attacked(&self, by: Colour) -> u64
        ensures { result ≡ set_of (λ s. is_attacked self.now s by) }
    {
        let men = self.side(by);
        let mut word = 0;
        let mut n = 0;
        while let Some(a) = next_square(men, n) {
            word = either(word, self.attacked_from(a));
            n = a.number() + 1;
        }
        word
    }

    /// Does a man of this colour and kind stand on the square?
    pub fn has(&self, c: Colour, k: Kind, s: Square) -> bool
        ensures { result ≡ has self.now c k s }
    {
        self.position.has(c, k, s)
    }

    /// Is the side's king attacked?
    pub fn is_in_check(&self, c: Colour) -> bool
        ensures { result ≡ is_in_check self.now c }
    {
        let colour = c;
        let kind = Kind::King;
        let kings = self.men(Man { colour, kind });
        let mut n = 0;
        while let Some(s) = next_square(kings, n) {
            if self.is_attacked(s, c.other()) {
                return true;
            }
            n = s.number() + 1;
        }
        false
    }
}

/// The squares from which a man of the side `by` attacks `s`. It gathers the position's words anew.
pub fn attackers(p: &Position, s: Square, by: Colour) -> u64
    ensures { result ≡ set_of (λ a. holds p.now by a && attacks p.now a s) }
{
    Bitboards::of(p).attackers(s, by)
}

/// The squares on which the cells of the two positions differ.
pub fn changed(p: &Bitboards, q: &Bitboards) -> u64
    ensures { result
        ≡ set_of (λ s. not (slice_index p.now.cells s == slice_index q.now.cells s)) }
{
    cells_unlike(
        u8x64::from_array(p.position.cells()),
        u8x64::from_array(q.position.cells()),
    )
}
