//! The list of legal moves.

ghost use Rattle.std.specs.Prelude.{Contains, ◌↔◌, ◌≡◌, ◌+◌, ◌≤◌, ◌++◌, ◌∷◌, [], length, filter, true, false, ◌&&◌, Some};
ghost use Rattle.std.specs.List.Sorted.{IsStrictlySortedBy};
ghost use Rattle.arrayvec.specs.ArrayVec.{array_vec_len};
ghost use Rattle.frz_board.specs.Attacks.{is_attacked};
ghost use Rattle.frz_board.specs.Boards.{man_on, holds};
ghost use Rattle.frz_board.specs.Men.{other_of, same_colour, is_pawn};
ghost use Rattle.frz_board.specs.Moving.{Step, IsStep, is_promotion, step_cmp};
ghost use Rattle.frz_fide.specs.Legal.{is_legal, can_go, goes, is_last};
ghost use Rattle.frz_squares.specs.SquareSets.{has_square, set_of};
ghost use Rattle.frz_fide.specs.Exposing.{is_king, may_expose as man_may_expose, without as board_without};
ghost use Rattle.frz_fide.specs.Valid.{IsValid};
ghost use Rattle.frz_fide.specs.Listing.{legal_moves_of};
ghost use Rattle.frz_fide.specs.SquareBySquare.{legal_between, legal_from, legal_by_squares, chosen};

use super::exposing::{barred, keeps_safe, may_expose};
use super::ways::open_ways;
use arrayvec::ArrayVec;
use frz_bits::{Bitboards, move_set, next_square, without};
use frz_board::{Kind, Man, Move, Position, Square};
use frz_steps::Steps;
use std::sync::ledger::Ledger;

/// A list with room for all legal moves of a position: at most 16 men, each with at most 64 moves.
pub type MoveList = ArrayVec<Move, 1024>;

/// Adds a move that is legal apart from the king's safety, if the king is safe after it.
#[tactic(auto, unfolding(crate::specs::Legal::is_legal))]
fn add_if_safe(p: &Bitboards, man: Man, m: Move, barred: u64, exposing: bool, list: &mut MoveList)
    requires valid { IsValid p.now }
    requires man { man_on p.now m.from ≡ Some man }
    requires can { can_go p.now m ≡ true }
    requires barred { is_king man.kind ≡ true → barred
        ≡ set_of (λ s. is_attacked (board_without p.now m.from) s (other_of p.now.turn)) }
    requires exposing { exposing ≡ man_may_expose p.now man m.from }
    requires room { array_vec_len list.old + length (filter (is_legal p.now) (m ∷ [])) ≤ 1024 }
    ensures { list.new.items ≡ list.old.items ++ filter (is_legal p.now) (m ∷ []) }
{
    if keeps_safe(p, man, m, barred, exposing) {
        list.push(m);
    }
}

/// The move of a pawn that promotes to this kind.
fn promotion(from: Square, to: Square, kind: Kind) -> Move
    requires { is_promotion (Some kind) ≡ true }
    ensures { result ≡ record { from = from; to = to; promo = Some kind } }
{
    Move {
        from,
        to,
        promo: Some(kind),
    }
}

/// Adds the legal moves of a pawn to `to` on its last rank: to a queen, rook, bishop and knight, in
/// this order.
fn add_choices(
    p: &Bitboards,
    man: Man,
    from: Square,
    to: Square,
    barred: u64,
    exposing: bool,
    list: &mut MoveList,
)
    requires valid { IsValid p.now }
    requires man { man_on p.now from ≡ Some man }
    requires barred { is_king man.kind ≡ true → barred
        ≡ set_of (λ s. is_attacked (board_without p.now from) s (other_of p.now.turn)) }
    requires exposing { exposing ≡ man_may_expose p.now man from }
    requires queen { can_go p.now (record { from = from; to = to; promo = Some Kind.Queen })
        ≡ true }
    requires rook { can_go p.now (record { from = from; to = to; promo = Some Kind.Rook }) ≡ true }
    requires bishop { can_go p.now (record { from = from; to = to; promo = Some Kind.Bishop })
        ≡ true }
    requires knight { can_go p.now (record { from = from; to = to; promo = Some Kind.Knight })
        ≡ true }
    requires room { array_vec_len list.old + length (chosen p.now from to) ≤ 1024 }
    ensures { list.new.items ≡ list.old.items ++ chosen p.now from to }
{
    add_if_safe(
        p,
        man,
        promotion(from, to, Kind::Queen),
        barred,
        exposing,
        list,
    );
    add_if_safe(
        p,
        man,
        promotion(from, to, Kind::Rook),
        barred,
        exposing,
        list,
    );
    add_if_safe(
        p,
        man,
        promotion(from, to, Kind::Bishop),
        barred,
        exposing,
        list,
    );
    add_if_safe(
        p,
        man,
        promotion(from, to, Kind::Knight),
        barred,
        exposing,
        list,
    );
}

/// Is the man a pawn that promotes on `to`?
fn must_choose(man: Man, to: Square) -> bool
    ensures { result ≡ (is_pawn man.kind && is_last man.colour to) }
{
    man.kind == Kind::Pawn && to.is_last_rank(man.colour)
}

/// Adds the legal moves of the man on `from` to `to`, to which it has a way, and where no man of its
/// side stands.
#[tactic(auto, using(crate::proofs::Skip::skips))]
fn add_between(
    p: &Bitboards,
    man: Man,
    from: Square,
    to: Square,
    barred: u64,
    exposing: bool,
    list: &mut MoveList,
)
    requires valid { IsValid p.now }
    requires man { man_on p.now from ≡ Some man }
    requires own { same_colour man.colour p.now.turn ≡ true }
    requires free { holds p.now p.now.turn to ≡ false }
    requires way { goes p.now man.colour man.kind from to ≡ true }
    requires barred { is_king man.kind ≡ true → barred
        ≡ set_of (λ s. is_attacked (board_without p.now from) s (other_of p.now.turn)) }
    requires exposing { exposing ≡ man_may_expose p.now man from }
    requires room { array_vec_len list.old + length (legal_between p.now from to) ≤ 1024 }
    ensures { list.new.items ≡ list.old.items ++ legal_between p.now from to }
{
    if must_choose(man, to) {
        add_choices(p, man, from, to, barred, exposing, list);
    } else {
        let promo = None;
        add_if_safe(p, man, Move { from, to, promo }, barred, exposing, list);
    }
}

/// Adds the legal moves of the man on `from`, square by square of those to which it has a way and
/// that its own side does not hold. For a man that has none, as a pawn that is blocked and takes
/// nothing, no other board is made.
#[tactic(auto, using(crate::proofs::Order::loops))]
fn add_from(p: &Bitboards, man: Man, from: Square, list: &mut MoveList)
    requires valid { IsValid p.now }
    requires man { man_on p.now from ≡ Some man }
    requires own { same_colour man.colour p.now.turn ≡ true }
    requires room { array_vec_len list.old + length (legal_from p.now from) ≤ 1024 }
    ensures { list.new.items ≡ list.old.items ++ legal_from p.now from }
{
    let targets = without(move_set(man, from), p.side(p.turn()));
    let ways = open_ways(p, man, from, targets);
    if ways == 0 {
        return;
    }
    let bare = p.put(from, 0);
    let exposing = may_expose(p, man, from, &bare);
    let barred = barred(p, man, &bare);
    let mut n = 0;
    while let Some(to) = next_square(ways, n) {
        add_between(p, man, from, to, barred, exposing, list);
        n = to.number() + 1;
    }
}

/// Adds the legal moves from a square that the side to move holds.
fn add_square(p: &Bitboards, from: Square, list: &mut MoveList)
    requires valid { IsValid p.now }
    requires own { holds p.now p.now.turn from ≡ true }
    requires room { array_vec_len list.old + length (legal_from p.now from) ≤ 1024 }
    ensures { list.new.items ≡ list.old.items ++ legal_from p.now from }
{
    if let Some(man) = p.man(from) {
        add_from(p, man, from, list);
    }
}

/// Puts all legal moves into the list: it goes over the squares of the side to move.
#[tactic(auto, using(crate::proofs::Order::loops))]
fn put_all(p: &Bitboards, list: &mut MoveList)
    requires valid { IsValid p.now }
    requires room { length (legal_by_squares p.now) ≤ 1024 }
    ensures { list.new.items ≡ legal_by_squares p.now }
{
    let own = p.side(p.turn());
    list.clear();
    let mut n = 0;
    while let Some(from) = next_square(own, n) {
        add_square(p, from, list);
        n = from.number() + 1;
    }
}

/// Puts all legal moves into the list, in place of what was there. They are in move order: by
/// origin, then destination, then promotion. The call counts as one step.
#[tactic(auto, using(crate::proofs::BySquares::by_squares, crate::proofs::Room::legal_room))]
pub fn put_legal_moves<L: Ledger>(p: &Bitboards, list: &mut MoveList, steps: &mut Steps<L>)
    requires { IsValid p.now }
    ensures moves { list.new.items ≡ legal_moves_of p.now }
    ensures step { steps.new ≡ steps.old + 1 }
{
    steps.tick();
    put_all(p, list);
}

/// All legal moves, in move order: by origin, then destination, then promotion. The call counts as
/// one step.
#[tactic(auto, using(crate::proofs::BySquares::by_squares, crate::proofs::Room::legal_room))]
pub fn legal_moves<L: Ledger>(p: &Position, steps: &mut Steps<L>) -> MoveList
    requires { IsValid p.now }
    ensures moves { result.items ≡ legal_moves_of p.now }
    ensures all { (m : Step) → Contains result.items m ↔ (IsStep m × (is_legal p.now m ≡ true)) }
    ensures order { IsStrictlySortedBy step_cmp result.items }
    ensures step { steps.new ≡ steps.old + 1 }
{
    let mut list = MoveList::new();
    put_legal_moves(&Bitboards::of(p), &mut list, steps);
    list
}
