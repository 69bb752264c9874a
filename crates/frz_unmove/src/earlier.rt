//! The position before a move, and its number if the set has it and the move leads from it.
ghost use Rattle.std.specs.Prelude.{◌≡◌, ◌≤◌, ◌&&◌, ◌↔◌, IsTrue, Some, true, ℕ};
ghost use Rattle.frz_board.specs.Moving.{IsStep};
ghost use Rattle.frz_fide.specs.Legal.{after, is_legal, is_target};
ghost use Rattle.frz_fide.specs.Valid.{IsValid};
ghost use Rattle.frz_index.specs.Members.{HasNumber};
ghost use Rattle.frz_unmove.specs.Earlier.{before, mover_cell as cell_of_mover, name, was_en_passant};

use crate::quiet::{number_by_board, stepped_man};
use frz_bits::Bitboards;
use frz_board::{Move, Square};
use frz_fide::{beside, leads, valid_boards};
use frz_index::Set;
use frz_sets::pawn_cell;

/// The cell of the man that has moved, as it was before the move: a pawn's, if it promoted.
fn mover_cell(q: &Bitboards, m: Move) -> u8
    ensures cell { result ≡ cell_of_mover q.now m }
    ensures fits { result ≤ 12 }
{
    if m.promo.is_some() {
        pawn_cell(q.turn().other())
    } else {
        q.as_position().cell(m.to)
    }
}

fn is_at(target: &Option<Square>, b: Square) -> bool
    ensures { result ≡ is_target target.now b }
{
    match target {
        None => false,
        Some(t) => *t == b,
    }
}

/// Did a pawn capture en passant, going diagonally to the earlier target?
fn took_passing(q: &Bitboards, m: Move, target: &Option<Square>) -> bool
    ensures { result ≡ was_en_passant q.now m target.now }
{
    let mover = q.turn().other();
    mover_cell(q, m) == pawn_cell(mover)
        && (m.from.is_pawn_attack(mover, m.to) && is_at(target, m.to))
}

/// The position before the move that led to `q`, if the cell `taken` stood on the move's last
/// square and `target` was the en passant target.
fn earlier(q: &Bitboards, m: Move, taken: u8, target: &Option<Square>) -> Bitboards
    requires { taken ≤ 12 }
    ensures { result ≡ before q.now (name m taken target.now) }
{
    let cell = mover_cell(q, m);
    let mut p = q.hand_over(*target);
    p.set(m.to, taken);
    p.set(m.from, cell);
    if took_passing(q, m, target) {
        p.set(beside(m.from, m.to), pawn_cell(q.turn()));
    }
    p
}

pub(crate) fn is_valid(p: &Bitboards) -> bool
    ensures { IsTrue result ↔ IsValid p.now }
{
    valid_boards(p).is_ok()
}

/// The number of the position that `earlier` gives, computed from the men that moved. `None` unless
/// the set has it and the move leads from it to `q`.
fn number_of_earlier(
    set: &Set,
    at: u32,
    q: &Bitboards,
    m: Move,
    taken: u8,
    target: &Option<Square>,
) -> Option<u32>
    requires number { HasNumber set.now at q.now }
    requires valid { IsValid q.now }
    requires taken { taken ≤ 12 }
    ensures step { IsStep m }
    ensures number { let p = before q.now (name m taken target.now) in
        (i : ℕ) → (result ≡ Some i)
        ↔ (HasNumber set.now i p × (is_legal p m ≡ true) × (after p m ≡ q.now)) }
{
    let _from = m.from.number();
    let _to = m.to.number();
    let p = earlier(q, m, taken, target);
    if leads(&p, m, q.as_position()) && is_valid(&p) {
        set.number_beside(at, q, &p)
    } else {
        None
    }
}

/// The number of the position that `earlier` gives. `None` unless the set has it, and the move is
/// legal there and leads to `q`, whose number is `at`.
pub(crate) fn number_before(
    set: &Set,
    at: u32,
    q: &Bitboards,
    m: Move,
    taken: u8,
    target: &Option<Square>,
) -> Option<u32>
    requires number { HasNumber set.now at q.now }
    requires valid { IsValid q.now }
    requires taken { taken ≤ 12 }
    ensures step { IsStep m }
    ensures number { let p = before q.now (name m taken target.now) in
        (i : ℕ) → (result ≡ Some i)
        ↔ (HasNumber set.now i p × (is_legal p m ≡ true) × (after p m ≡ q.now)) }
{
    let _from = m.from.number();
    let _to = m.to.number();
    match stepped_man(q, m, taken) {
        Some(man) => number_by_board(set, at, q, man, m, taken, target),
        None => number_of_earlier(set, at, q, m, taken, target),
    }
}
