//! The forbid lines that bind a king.

ghost use Rattle.std.specs.Prelude.{ℕ, ◌≡◌, ◌<◌, ◌&&◌};
ghost use Rattle.frz_squares.specs.SquareSets.{has_square};
ghost use Rattle.frz_plane_arms.specs.Binding.{is_binding, is_bound_to, may_go, names_king};

use frz_board::{Colour, Kind, Square};
use frz_sets::{Forbid, Only};

/// Are a king's captures among the moves that a line names, or else his other steps?
fn names_steps(only: Only, captures: bool) -> bool
    ensures { result ≡ names_king only captures }
{
    match only {
        Only::Any => true,
        Only::Capture => captures,
        Only::Promotion => false,
    }
}

/// Does the line bind the king of the side, in captures or else in other steps?
fn binds(line: &Forbid, side: Colour, captures: bool) -> bool
    ensures { result ≡ is_binding side captures line.now }
{
    line.colour == side && (line.kind == Kind::King && names_steps(line.only, captures))
}

/// The squares to which the line forbids the king of the side to go.
fn ends(line: &Forbid, side: Colour, captures: bool) -> u64
    ensures { (s : ℕ) → s < 64 →
        has_square result s ≡ (is_binding side captures line.now && has_square line.now.to s) }
{
    if binds(line, side, captures) {
        line.to.0
    } else {
        0
    }
}

/// The squares from which the line forbids the king of the side to go to this one.
fn origins(line: &Forbid, side: Colour, captures: bool, s: Square) -> u64
    ensures { (a : ℕ) → a < 64 → has_square result a
        ≡ ((is_binding side captures line.now && has_square line.now.to s)
        && has_square line.now.from a) }
{
    if binds(line, side, captures) && line.to.has(s.number()) {
        line.from.0
    } else {
        0
    }
}

/// The squares to which some line forbids the king of the side to go, from any square.
pub(crate) fn bound_squares(lines: &[Forbid], side: Colour, captures: bool) -> u64
    ensures { (s : ℕ) → s < 64 → has_square result s ≡ is_bound_to lines.now side captures s }
{
    let mut squares = 0;
    for line in lines {
        squares |= ends(line, side, captures);
    }
    squares
}

/// The squares from which no line forbids the king of the side to go to this one.
pub(crate) fn free_origins(lines: &[Forbid], side: Colour, captures: bool, s: Square) -> u64
    ensures { (a : ℕ) → a < 64 → has_square result a ≡ may_go lines.now side captures a s }
{
    let mut bound = 0;
    for line in lines {
        bound |= origins(line, side, captures, s);
    }
    !bound
}
