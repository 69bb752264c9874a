//! The search for the legal moves that lead to a position, by move, man taken and earlier target.
ghost use Rattle.std.specs.Prelude.{ℕ, ◌≡◌, ◌≤◌, ◌<◌, ◌+◌, ◌&&◌, MatchOption, None, Some, false, true, length};
ghost use Rattle.frz_board.specs.Boards.{holds, man_on};
ghost use Rattle.frz_board.specs.Men.{cell_of_man, is_man_of, man_of_cell, other_of};
ghost use Rattle.frz_board.specs.Moving.{is_promotion};
ghost use Rattle.frz_fide.specs.Legal.{is_last};
ghost use Rattle.frz_fide.specs.Valid.{IsValid};
ghost use Rattle.frz_index.specs.Members.{HasNumber, Member};
ghost use Rattle.frz_index.specs.Room.{has_room};
ghost use Rattle.frz_index.specs.Stepping.{IsTurned};
ghost use Rattle.frz_unmove.specs.Earlier.{mover_cell as cell_of_mover};
ghost use Rattle.frz_unmove.specs.Quiet.{IsQuietBack, IsReady, is_quiet_origin};
ghost use Rattle.frz_unmove.specs.Adding.{Adds};
ghost use Rattle.frz_unmove.specs.Gathering.{Comes, ComesAs, ComesAt, ComesFrom, ComesTaking, ComesTo, HasOrigins, IsReadyEnd, IsTargetWord, first_taken as first_taken_of};

use crate::earlier::number_before;
use crate::origins::origins;
use crate::preds::{Pred, Preds};
use crate::quiet::{Ready, moved_piece, number_by_lines, quiet_origins, ready_on};
use crate::targets::earlier_targets;
use frz_bits::{Bitboards, next_square};
use frz_board::{Colour, Kind, Man, Move, Square, man_of};
use frz_index::{Set, Turned};

/// Where a move arrived, and what a pawn became there.
#[derive(Clone, Copy)]
struct Arrival {
    to: Square,
    promo: Option<Kind>,
}

/// Adds the move that took the cell `taken` and had this earlier target, with the number of the
/// position before it, if the set has that position and the move leads from it to `q`.
fn add_named(
    set: &Set,
    at: u32,
    q: &Bitboards,
    m: Move,
    taken: u8,
    target: &Option<Square>,
    out: &mut Preds,
)
    requires taken { taken ≤ 12 }
    requires number { HasNumber set.now at q.now }
    requires valid { IsValid q.now }
    requires room { length out.old + 1 ≤ 131072 }
    ensures { Adds (ComesFrom set.now q.now m taken target.now) out.old out.new 1 }
{
    if let Some(number) = number_before(set, at, q, m, taken, target) {
        out.push(Pred { number, mv: m });
    }
}

/// Adds the move of the man of `ready`, which took nothing and had this earlier target, if the set
/// has the position before it.
fn add_step(
    set: &Set,
    at: u32,
    q: &Bitboards,
    m: Move,
    ready: &Ready<'_>,
    turned: &Turned,
    target: &Option<Square>,
    out: &mut Preds,
)
    requires number { HasNumber set.now at q.now }
    requires turned { IsTurned set.now at q.now target.now turned.now }
    requires quiet { IsQuietBack q.now m 0 ready.now.man }
    requires ready { IsReady q.now m.to ready.now }
    requires origin { is_quiet_origin ready.now target.now m.to m.from ≡ true }
    requires room { length out.old + 1 ≤ 131072 }
    ensures { Adds (ComesFrom set.now q.now m 0 target.now) out.old out.new 1 }
{
    if let Some(number) = number_by_lines(set, at, q, m, ready, turned, target) {
        out.push(Pred { number, mv: m });
    }
}

/// Adds the moves of the man of `ready` from the squares `origins` that took nothing and had this
/// earlier target.
fn add_steps(
    set: &Set,
    at: u32,
    q: &Bitboards,
    to: Square,
    origins: u64,
    ready: &Ready<'_>,
    target: &Option<Square>,
    out: &mut Preds,
)
    requires number { HasNumber set.now at q.now }
    requires ready { IsReady q.now to ready.now }
    requires origins { HasOrigins set.now q.now to None origins }
    requires room { length out.old + 64 ≤ 131072 }
    ensures { Adds (ComesAt set.now q.now to None 0 target.now) out.old out.new 64 }
{
    let quiet = quiet_origins(q, ready, to, target, origins);
    let turned = set.turned(at, q, target);
    let promo = None;
    let mut n = 0;
    while let Some(from) = next_square(quiet, n) {
        let m = Move { from, to, promo };
        add_step(set, at, q, m, ready, &turned, target, out);
        n = from.number() + 1;
    }
}

/// The end of a move: where it arrived, what a pawn became there, the cell of what it took there (0
/// for nothing), and the man that can be taken back by words, if one can.
#[derive(Drop)]
struct End<'a> {
    to: Square,
    promo: Option<Kind>,
    taken: u8,
    ready: Option<Ready<'a>>,
}

/// Adds the moves with this end from the squares `origins` that had this earlier target. Each
/// position before such a move is tested.
fn add_tested(
    set: &Set,
    at: u32,
    q: &Bitboards,
    end: &End<'_>,
    origins: u64,
    target: &Option<Square>,
    out: &mut Preds,
)
    requires promo { is_promotion end.now.promo ≡ true }
    requires taken { end.now.taken ≤ 12 }
    requires origins { HasOrigins set.now q.now end.now.to end.now.promo origins }
    requires number { HasNumber set.now at q.now }
    requires valid { IsValid q.now }
    requires room { length out.old + 64 ≤ 131072 }
    ensures { Adds (ComesAt set.now q.now end.now.to end.now.promo end.now.taken target.now)
        out.old out.new 64 }
{
    let to = end.to;
    let promo = end.promo;
    let mut n = 0;
    while let Some(from) = next_square(origins, n) {
        add_named(set, at, q, Move { from, to, promo }, end.taken, target, out);
        n = from.number() + 1;
    }
}

/// Adds the moves with this end from the squares `origins` that had this earlier target.
fn add_at(
    set: &Set,
    at: u32,
    q: &Bitboards,
    end: &End<'_>,
    origins: u64,
    target: &Option<Square>,
    out: &mut Preds,
)
    requires promo { is_promotion end.now.promo ≡ true }
    requires taken { end.now.taken ≤ 12 }
    requires ready { IsReadyEnd q.now end.now }
    requires origins { HasOrigins set.now q.now end.now.to end.now.promo origins }
    requires number { HasNumber set.now at q.now }
    requires valid { IsValid q.now }
    requires room { length out.old + 64 ≤ 131072 }
    ensures { Adds (ComesAt set.now q.now end.now.to end.now.promo end.now.taken target.now)
        out.old out.new 64 }
{
    match &end.ready {
        Some(ready) => add_steps(set, at, q, end.to, origins, ready, target, out),
        None => add_tested(set, at, q, end, origins, target, out),
    }
}

/// Adds the moves with this end: those without an earlier target, and those with each of `targets`.
fn add_each(
    set: &Set,
    at: u32,
    q: &Bitboards,
    end: &End<'_>,
    origins: u64,
    targets: u64,
    out: &mut Preds,
)
    requires promo { is_promotion end.now.promo ≡ true }
    requires taken { end.now.taken ≤ 12 }
    requires ready { IsReadyEnd q.now end.now }
    requires origins { HasOrigins set.now q.now end.now.to end.now.promo origins }
    requires targets { IsTargetWord set.now q.now end.now.to targets }
    requires number { HasNumber set.now at q.now }
    requires valid { IsValid q.now }
    requires room { length out.old + 576 ≤ 131072 }
    ensures { Adds (ComesTaking set.now q.now end.now.to end.now.promo end.now.taken)
        out.old out.new 576 }
{
    add_at(set, at, q, end, origins, &None, out);
    let mut n = 0;
    while let Some(t) = next_square(targets, n) {
        add_at(set, at, q, end, origins, &Some(t), out);
        n = t.number() + 1;
    }
}

/// Adds the moves that took the cell `taken`, 0 for nothing: those without an earlier target, and
/// those with each of `targets`.
fn add_taking(
    set: &Set,
    at: u32,
    q: &Bitboards,
    arrival: &Arrival,
    origins: u64,
    targets: u64,
    taken: u8,
    out: &mut Preds,
)
    requires promo { is_promotion arrival.now.promo ≡ true }
    requires taken { taken ≤ 12 }
    requires origins { HasOrigins set.now q.now arrival.now.to arrival.now.promo origins }
    requires targets { IsTargetWord set.now q.now arrival.now.to targets }
    requires number { HasNumber set.now at q.now }
    requires valid { IsValid q.now }
    requires room { length out.old + 576 ≤ 131072 }
    ensures { Adds (ComesTaking set.now q.now arrival.now.to arrival.now.promo taken)
        out.old out.new 576 }
{
    let to = arrival.to;
    let promo = arrival.promo;
    match moved_piece(q, to, promo, taken) {
        Some(man) => {
            let bare = q.put(to, 0);
            let ready = ready_on(q, to, man, &bare);
            let end = End {
                to,
                promo,
                taken,
                ready,
            };
            add_each(set, at, q, &end, origins, targets, out);
        }
        None => {
            let ready = None;
            let end = End {
                to,
                promo,
                taken,
                ready,
            };
            add_each(set, at, q, &end, origins, targets, out);
        }
    }
}

/// Has the set room for one man more, the one of this cell on the square? `false` for no man.
fn may_take(set: &Set, q: &Bitboards, taken: u8, to: Square) -> bool
    requires taken { taken ≤ 12 }
    requires member { Member set.now q.now }
    ensures { MatchOption (man_of_cell taken)
        (result ≡ false)
        (λ man. result ≡ has_room set.now q.now man to) }
{
    if !set.may_lack(taken, to) {
        return false;
    }
    match man_of(taken) {
        None => false,
        Some(man) => set.has_room_beside(q, man, to),
    }
}

/// Adds the moves that took the man of the cell `taken`, if the set has room for it.
fn add_taken(
    set: &Set,
    at: u32,
    q: &Bitboards,
    arrival: &Arrival,
    origins: u64,
    targets: u64,
    taken: u8,
    out: &mut Preds,
)
    requires promo { is_promotion arrival.now.promo ≡ true }
    requires taken { taken ≤ 12 }
    requires side { is_man_of q.now.turn (man_of_cell taken) ≡ true }
    requires origins { HasOrigins set.now q.now arrival.now.to arrival.now.promo origins }
    requires targets { IsTargetWord set.now q.now arrival.now.to targets }
    requires number { HasNumber set.now at q.now }
    requires valid { IsValid q.now }
    requires room { length out.old + 576 ≤ 131072 }
    ensures { Adds (ComesTaking set.now q.now arrival.now.to arrival.now.promo taken)
        out.old out.new 576 }
{
    if may_take(set, q, taken, arrival.to) {
        add_taking(set, at, q, arrival, origins, targets, taken, out);
    }
}

/// The cell of this side's queen, the first of the five kinds that may be taken.
fn first_taken(c: Colour) -> u8
    ensures first { result ≡ first_taken_of c }
    ensures low { result ≤ 8 }
{
    match c {
        Colour::White => 2,
        Colour::Black => 8,
    }
}

/// Adds the moves from these origins: those that took nothing, and those that took a man of one of
/// the five kinds that may be taken.
fn add_from_origins(
    set: &Set,
    at: u32,
    q: &Bitboards,
    to: Square,
    promo: Option<Kind>,
    origins: u64,
    out: &mut Preds,
)
    requires promo { is_promotion promo ≡ true }
    requires origins { HasOrigins set.now q.now to promo origins }
    requires number { HasNumber set.now at q.now }
    requires valid { IsValid q.now }
    requires room { length out.old + 3456 ≤ 131072 }
    ensures { Adds (ComesAs set.now q.now to promo) out.old out.new 3456 }
{
    let arrival = Arrival { to, promo };
    let targets = earlier_targets(set, q, to);
    add_taking(set, at, q, &arrival, origins, targets, 0, out);
    let first = first_taken(q.turn());
    for k in 0..5 {
        add_taken(set, at, q, &arrival, origins, targets, first + k, out);
    }
}

/// Adds the moves to the square by this man, as it was before the move; there are none if no square
/// is left from which it may have come.
fn add_as(
    set: &Set,
    at: u32,
    q: &Bitboards,
    to: Square,
    promo: Option<Kind>,
    man: Man,
    out: &mut Preds,
)
    requires promo { is_promotion promo ≡ true }
    requires mover { (a : ℕ) →
        cell_of_mover q.now (record { from = a; to = to; promo = promo }) ≡ cell_of_man man }
    requires number { HasNumber set.now at q.now }
    requires valid { IsValid q.now }
    requires room { length out.old + 3456 ≤ 131072 }
    ensures { Adds (ComesAs set.now q.now to promo) out.old out.new 3456 }
{
    let origins = origins(set, q, to, promo, man);
    if origins == 0 {
        return;
    }
    add_from_origins(set, at, q, to, promo, origins, out);
}

/// May a pawn have become this man on the square?
fn is_promoted(man: Man, to: Square) -> bool
    ensures { result ≡ (is_last man.colour to && is_promotion (Some man.kind)) }
{
    let last = match man.colour {
        Colour::White => to.rank() == 7,
        Colour::Black => to.rank() == 0,
    };
    last && !matches!(man.kind, Kind::King | Kind::Pawn)
}

/// Adds the moves that brought the man to the square: its own, and those of a pawn that became it.
fn add_man(set: &Set, at: u32, q: &Bitboards, to: Square, man: Man, out: &mut Preds)
    requires man { man_on q.now to ≡ Some man }
    requires own { man.colour ≡ other_of q.now.turn }
    requires number { HasNumber set.now at q.now }
    requires valid { IsValid q.now }
    requires room { length out.old + 6912 ≤ 131072 }
    ensures { Adds (ComesTo set.now q.now to) out.old out.new 6912 }
{
    add_as(set, at, q, to, None, man, out);
    if is_promoted(man, to) {
        let colour = man.colour;
        let kind = Kind::Pawn;
        add_as(set, at, q, to, Some(man.kind), Man { colour, kind }, out);
    }
}

/// Adds the moves to the square, on which a man of the side that has moved stands.
fn add_square(set: &Set, at: u32, q: &Bitboards, to: Square, out: &mut Preds)
    requires own { holds q.now (other_of q.now.turn) to ≡ true }
    requires number { HasNumber set.now at q.now }
    requires valid { IsValid q.now }
    requires room { length out.old + 6912 ≤ 131072 }
    ensures { Adds (ComesTo set.now q.now to) out.old out.new 6912 }
{
    if let Some(man) = q.man(to) {
        add_man(set, at, q, to, man, out);
    }
}

/// Adds all legal moves that lead from positions of the set to `q`, whose number is `at`. It goes
/// over the men of the side that has moved.
pub(crate) fn add_all(set: &Set, at: u32, q: &Bitboards, out: &mut Preds)
    requires number { HasNumber set.now at q.now }
    requires valid { IsValid q.now }
    requires room { length out.old + 110592 ≤ 131072 }
    ensures { Adds (Comes set.now q.now) out.old out.new 110592 }
{
    let men = q.side(q.turn().other());
    let mut n = 0;
    while let Some(to) = next_square(men, n) {
        add_square(set, at, q, to, out);
        n = to.number() + 1;
    }
}
