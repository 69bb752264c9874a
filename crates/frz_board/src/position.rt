//! Positions: what stands on the squares, who is to move, and the target. Counts of men are in
//! `counts`, pawns that have just passed in `passing`, the conditions on a position in `shape`.

ghost use Rattle.std.specs.Prelude.{All, ◌≡◌, ◌<◌, ◌≤◌, ◌↔◌, IsSome, IfSome, replicate, slice_index, slice_set};
ghost use Rattle.frz_board.specs.Boards.{Board, CellsFit, man_on, holds, has};
ghost use Rattle.frz_board.specs.Men.{other_of};

use super::man::{Colour, Kind, Man, cell_of, man_of};
use super::square::Square;
use std::marker::Model;

/// A position: 64 cells, a1 first and h8 last, the side to move and the target, the square that a
/// pawn has just passed over. Each cell is the number of a man, as `cell_of` gives it, or 0 where
/// the square is empty.
#[derive(Clone, Copy)]
pub struct Position {
    cells: [u8; 64],
    turn: Colour,
    ep: Option<Square>,
}

impl Model for Position {
    ghost use Rattle.frz_board.specs.Boards.{Board, CellsFit};

    ghost Value = { Board };

    ghost view = { λ p. record { cells = p.cells; turn = p.turn; ep = p.ep } };

    ghost invariant = { λ p. CellsFit p.cells };

    ghost inverse = { λ p. record { cells = p.cells; turn = p.turn; ep = p.ep } };
}

impl Position {
    /// The position, and `None` exactly where a cell is above 12. Nothing else is tested.
    pub fn new(cells: [u8; 64], turn: Colour, ep: Option<Square>) -> Option<Position>
        ensures there { IsSome result ↔ All (λ c. c < 13) cells }
        ensures same { IfSome result (λ p. p ≡ record { cells = cells; turn = turn; ep = ep }) }
    {
        if cells.iter().all(|c| *c < 13) {
            Some(Position { cells, turn, ep })
        } else {
            None
        }
    }

    /// The position of cells that are known to be at most 12 each.
    pub fn with_cells(cells: [u8; 64], turn: Colour, ep: Option<Square>) -> Position
        requires { All (λ c. c < 13) cells }
        ensures { result ≡ record { cells = cells; turn = turn; ep = ep } }
    {
        Position { cells, turn, ep }
    }

    /// A board without men.
    pub fn empty(turn: Colour, ep: Option<Square>) -> Position
        ensures { result ≡ record { cells = replicate 64 0; turn = turn; ep = ep } }
    {
        Position {
            cells: [0; 64],
            turn,
            ep,
        }
    }

    /// The number of the man on the square, or 0 if it is empty.
    pub fn cell(&self, s: Square) -> u8
        ensures cell { result ≡ slice_index self.now.cells s }
        ensures fits { result ≤ 12 }
    {
        self.cells[s.number() as usize]
    }

    /// The cells of all squares, a1 first and h8 last.
    pub fn cells(&self) -> [u8; 64]
        ensures cells { result ≡ self.now.cells }
        ensures fits { CellsFit self.now.cells }
    {
        self.cells
    }

    /// The side to move.
    pub fn turn(&self) -> Colour
        ensures turn { result ≡ self.now.turn }
        ensures fits { CellsFit self.now.cells }
    {
        self.turn
    }

    /// The target: the square that a pawn has just passed over, where it may be captured en
    /// passant.
    pub fn ep(&self) -> Option<Square>
        ensures { result ≡ self.now.ep }
    {
        self.ep
    }

    /// The man on the square, and `None` if it is empty.
    pub fn man(&self, s: Square) -> Option<Man>
        ensures { result ≡ man_on self.now s }
    {
        man_of(self.cell(s))
    }

    /// Does a man of this side stand on the square?
    pub fn holds(&self, c: Colour, s: Square) -> bool
        ensures { result ≡ holds self.now c s }
    {
        match self.man(s) {
            None => false,
            Some(man) => man.colour == c,
        }
    }

    /// Does a man of this colour and kind stand on the square?
    pub fn has(&self, c: Colour, k: Kind, s: Square) -> bool
        ensures { result ≡ has self.now c k s }
    {
        self.cell(s) == cell_of(Man { colour: c, kind: k })
    }

    /// The position with `c` in the cell of the square: a man's number, or 0 to empty it.
    pub fn put(&self, s: Square, c: u8) -> Position
        requires { c ≤ 12 }
        ensures on_board { s < 64 }
        ensures put { result ≡ record self.now { cells = slice_set self.now.cells s c } }
    {
        let mut cells = self.cells;
        cells[s.number() as usize] = c;
        Position {
            cells,
            turn: self.turn,
            ep: self.ep,
        }
    }

    /// Writes `c` into the cell of the square: a man's number, or 0 to empty it.
    pub fn set(&mut self, s: Square, c: u8)
        requires { c ≤ 12 }
        ensures on_board { s < 64 }
        ensures put { self.new ≡ record self.old { cells = slice_set self.old.cells s c } }
    {
        self.cells[s.number() as usize] = c;
    }

    /// The position with this target, or with none.
    pub fn with_target(&self, ep: Option<Square>) -> Position
        ensures { result ≡ record self.now { ep = ep } }
    {
        Position { ep, ..*self }
    }

    /// The position with the other side to move, and this target or none.
    pub fn hand_over(&self, ep: Option<Square>) -> Position
        ensures { result ≡ record self.now { turn = other_of self.now.turn; ep = ep } }
    {
        Position {
            cells: self.cells,
            turn: self.turn.other(),
            ep,
        }
    }
}
