//! The moves that the rules forbid a side.

ghost use Rattle.std.specs.Prelude.{◌≡◌};
ghost use Rattle.frz_exits.specs.Forbidding.{is_capture, is_such, covers, is_forbidden, is_free};

use frz_board::{Colour, Kind, Move, Position, Square};
use frz_sets::{Forbid, Only, Rules};

/// Does the move capture a man, en passant too?
fn captures(p: &Position, m: Move) -> bool
    ensures { result ≡ is_capture p.now m }
{
    p.cell(m.to) != 0
        || p.has(p.turn(), Kind::Pawn, m.from)
            && (m.from.is_pawn_attack(p.turn(), m.to) && p.is_target(m.to))
}

/// Is the move of the sort that the line names: any move, a capture or a promotion?
fn is_one_of(only: Only, p: &Position, m: Move) -> bool
    ensures { result ≡ is_such only p.now m }
{
    match only {
        Only::Any => true,
        Only::Capture => captures(p, m),
        Only::Promotion => m.promo.is_some(),
    }
}

/// Does the line cover the move: a man of its colour and kind, its squares and its sort of move?
#[tactic(auto, unfolding(crate::specs::Forbidding::covers))]
#[inline(never)]
fn line_covers(line: &Forbid, p: &Position, m: Move) -> bool
    ensures { result ≡ covers line.now p.now m }
{
    p.has(line.colour, line.kind, m.from)
        && (line.from.has(m.from.number()) && line.to.has(m.to.number()))
        && is_one_of(line.only, p, m)
}

/// Does one of the lines forbid the side the move?
#[inline(always)]
fn forbids(lines: &[Forbid], side: Colour, p: &Position, m: Move) -> bool
    ensures { result ≡ is_forbidden lines.now side p.now m }
{
    lines
        .iter()
        .any(|line| line.colour == side && line_covers(line, p, m))
}

/// Is the move free: covered by no forbid line of `side`? It is meant for a legal move of the side
/// to move.
#[inline(always)]
pub fn allowed(r: &Rules, side: Colour, p: &Position, m: Move) -> bool
    ensures { result ≡ is_free r.now side p.now m }
{
    !forbids(&r.forbids, side, p, m)
}
