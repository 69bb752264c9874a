//! The position before a move that took nothing and was no pawn's, and its number.
ghost use Rattle.std.specs.Prelude.{◌≡◌, ◌↔◌, ◌<◌, ◌&&◌, IfSome, None, Some, false, slice_set, true, ℕ};
ghost use Rattle.frz_board.specs.Attacks.{reaches};
ghost use Rattle.frz_board.specs.Boards.{is_empty};
ghost use Rattle.frz_board.specs.Men.{is_pawn};
ghost use Rattle.frz_board.specs.Moving.{IsStep};
ghost use Rattle.frz_fide.specs.Valid.{IsValid};
ghost use Rattle.frz_index.specs.Members.{HasNumber};
ghost use Rattle.frz_index.specs.Stepping.{IsTurned, stepped};
ghost use Rattle.frz_squares.specs.SquareSets.{has_square};
ghost use Rattle.frz_unmove.specs.Quiet.{IsPieceAt, IsQuietBack, IsReady, is_quiet_origin, keeps_target};

use crate::earlier::is_valid;
use frz_bits::{Bitboards, next_square, replaced, without};
use frz_board::{Kind, Man, Move, Square, cell_of};
use frz_index::{Set, Turned};

/// The man that has moved, if it is no pawn and took nothing, and `q` has no en passant target.
pub(crate) fn stepped_man(q: &Bitboards, m: Move, taken: u8) -> Option<Man>
    ensures { IfSome result (λ man. IsQuietBack q.now m taken man) }
{
    if taken != 0 || q.ep().is_some() {
        return None;
    }
    if m.promo.is_some() || !q.is_empty(m.from) {
        return None;
    }
    if !q.holds(q.turn().other(), m.to) {
        return None;
    }
    match q.man(m.to) {
        None => None,
        Some(man) => match man.kind {
            Kind::Pawn => None,
            _ => Some(man),
        },
    }
}

/// The position before the man went from `from` to `to`, if `target` was the en passant target.
fn back(q: &Bitboards, man: Man, from: Square, to: Square, target: &Option<Square>) -> Bitboards
    ensures { result ≡ stepped q.now man to from target.now }
{
    let mut p = q.hand_over(*target);
    p.set(to, 0);
    p.set(from, cell_of(man));
    p
}

/// The man that has moved, the board without him, and the square of the king of the side to move,
/// which is not attacked on that board.
#[derive(Drop)]
pub(crate) struct Ready<'a> {
    pub man: Man,
    pub bare: &'a Bitboards,
    pub king: Square,
}

/// The man that has moved to the square, if it is no pawn and `q` has no en passant target.
fn piece_at(q: &Bitboards, to: Square) -> Option<Man>
    ensures { IfSome result (λ man. IsPieceAt q.now to man) }
{
    if q.ep().is_some() || !q.holds(q.turn().other(), to) {
        return None;
    }
    match q.man(to) {
        None => None,
        Some(man) => match man.kind {
            Kind::Pawn => None,
            _ => Some(man),
        },
    }
}

/// The man on the square, ready to be taken back. `bare` is the board without him. `None` if the
/// king of the side to move is attacked on it.
pub(crate) fn ready_on<'a>(
    q: &Bitboards,
    to: Square,
    man: Man,
    bare: &'a Bitboards,
) -> Option<Ready<'a>>
    requires piece { IsPieceAt q.now to man }
    requires bare { bare.now ≡ record q.now { cells = slice_set q.now.cells to 0 } }
    ensures { IfSome result (λ r. IsReady q.now to r) }
{
    if bare.is_in_check(q.turn()) {
        return None;
    }
    let colour = q.turn();
    let kind = Kind::King;
    let king = next_square(q.men(Man { colour, kind }), 0)?;
    Some(Ready { man, bare, king })
}

/// The man that moved to the square, if the move took nothing, promoted nothing and was no pawn's,
/// and left no en passant target.
pub(crate) fn moved_piece(q: &Bitboards, to: Square, promo: Option<Kind>, taken: u8) -> Option<Man>
    ensures piece { IfSome result (λ man. IsPieceAt q.now to man) }
    ensures plain { IfSome result (λ _. (taken ≡ 0) × (promo ≡ None)) }
{
    if taken != 0 || promo.is_some() {
        return None;
    }
    piece_at(q, to)
}

/// Those of `squares` on which the man may have stood while `target` was the en passant target.
/// `bare` is the board without him.
fn keeping_target(bare: &Bitboards, target: &Option<Square>, squares: u64) -> u64
    ensures { (a : ℕ) → a < 64 → has_square result a
        ≡ (has_square squares a && keeps_target bare.now target.now a) }
{
    match target {
        None => squares,
        Some(t) => {
            let passer = bare.turn();
            let board = bare.as_position();
            if !board.has_passed(passer, *t) {
                return 0;
            }
            if !board.has_pawn_beside(passer.other(), t.ahead(passer)) {
                return 0;
            }
            replaced(replaced(squares, *t, false), t.ahead(passer.other()), false)
        }
    }
}

/// Those of `squares` from which the man of `ready` may have gone to his square while `target` was
/// the en passant target: they are empty, and on the board without him he has an open way to it
/// and none to the king.
pub(crate) fn quiet_origins(
    q: &Bitboards,
    ready: &Ready<'_>,
    to: Square,
    target: &Option<Square>,
    squares: u64,
) -> u64
    requires { is_pawn ready.now.man.kind ≡ false }
    ensures { (a : ℕ) → a < 64 → has_square result a
        ≡ (has_square squares a
        && (is_empty q.now a && is_quiet_origin ready.now target.now to a)) }
{
    let free = without(squares, q.occupied());
    let kept = keeping_target(ready.bare, target, free);
    let ways = ready.bare.reached(ready.man, to, kept);
    without(ways, ready.bare.reached(ready.man, ready.king, ways))
}

/// The number of the position before the move from one of the squares that `quiet_origins` gives,
/// if the set has it. That position needs no test.
pub(crate) fn number_by_lines(
    set: &Set,
    at: u32,
    q: &Bitboards,
    m: Move,
    ready: &Ready<'_>,
    turned: &Turned,
    target: &Option<Square>,
) -> Option<u32>
    requires turned { IsTurned set.now at q.now target.now turned.now }
    requires number { HasNumber set.now at q.now }
    requires quiet { IsQuietBack q.now m 0 ready.now.man }
    requires ready { IsReady q.now m.to ready.now }
    requires origin { is_quiet_origin ready.now target.now m.to m.from ≡ true }
    ensures step { IsStep m }
    ensures number { let p = stepped q.now ready.now.man m.to m.from target.now in
        let man = ready.now.man in
        (i : ℕ) → (result ≡ Some i)
        ↔ (HasNumber set.now i p × (reaches p man.colour man.kind m.from m.to ≡ true)) }
{
    let _from = m.from.number();
    let _to = m.to.number();
    match set.number_after_step(turned, at, q, ready.man, m.to, m.from, target) {
        Some(n) => Some(n),
        None => set.number_beside(at, q, &back(q, ready.man, m.from, m.to, target)),
    }
}

/// The number of the position before the move, if the set has it and the man can go so. The
/// position is made, and its validity tested.
pub(crate) fn number_by_board(
    set: &Set,
    at: u32,
    q: &Bitboards,
    man: Man,
    m: Move,
    taken: u8,
    target: &Option<Square>,
) -> Option<u32>
    requires number { HasNumber set.now at q.now }
    requires quiet { IsQuietBack q.now m taken man }
    ensures { let p = stepped q.now man m.to m.from target.now in
        (i : ℕ) → (result ≡ Some i)
        ↔ (HasNumber set.now i p × (reaches p man.colour man.kind m.from m.to ≡ true)) }
{
    let p = back(q, man, m.from, m.to, target);
    if !p.reaches(man, m.from, m.to) {
        return None;
    }
    if !is_valid(&p) {
        return None;
    }
    let turned = set.turned(at, q, target);
    match set.number_after_step(&turned, at, q, man, m.to, m.from, target) {
        Some(n) => Some(n),
        None => set.number_beside(at, q, &p),
    }
}
