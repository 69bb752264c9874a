//! The set of positions that the groups of some rules describe.
ghost use Rattle.std.specs.Prelude.{◌≡◌, ◌↔◌, ◌<◌, ◌≤◌, IfOk, IfSome, IsNone, IsSome, IsTrue, MatchOption, None, Some, ◌/◌, false, map, true};
ghost use Rattle.frz_board.specs.Boards.{Board, is_empty, man_on};
ghost use Rattle.frz_board.specs.Men.{cell_of_man};
ghost use Rattle.frz_board.specs.declared.man.Colour.TheVariants.{White};
ghost use Rattle.frz_board.specs.declared.man.Man.{Man};
ghost use Rattle.frz_combinations.specs.MixedRadix.{product};
ghost use Rattle.frz_fide.specs.Legal.{after, is_legal};
ghost use Rattle.frz_fide.specs.Valid.{IsValid};
ghost use Rattle.frz_sets.specs.Sets.{radix_of, size_of, targets};
ghost use Rattle.frz_sets.specs.Sound.{IsCounted, IsSound};
ghost use Rattle.frz_squares.specs.SquareSets.{set_of};
ghost use Rattle.frz_sets.specs.declared.limits.TheConstants.{MOST_NUMBERS};
ghost use Rattle.frz_index.specs.Members.{Broken, HasNumber, HasShape, Member, Num};
ghost use Rattle.frz_index.specs.Partners.{with_black};
ghost use Rattle.frz_index.specs.Membership.{number_of, position_at};
ghost use Rattle.frz_index.specs.Candidates.{candidate, put_group};
ghost use Rattle.frz_index.specs.FreeSquares.{is_group_free, is_spread};
ghost use Rattle.frz_index.specs.Kept.{IsPlan, is_known};
ghost use Rattle.frz_index.specs.Leaving.{leaves};
ghost use Rattle.frz_index.specs.TurnStates.{turn_in};
ghost use Rattle.frz_index.specs.Room.{has_room};
ghost use Rattle.frz_index.specs.Stepping.{IsCountedOnBoth, IsQuiet, IsTurned, stepped};
ghost use Rattle.frz_index.specs.Taking.{IsCountedTaking, IsTaking};

use crate::across::{
    Turned, arriving, number_after_taking_in, stepping_man, taking_men, turned_in,
};
use crate::among::number_after_step_in;
use crate::beside::number_beside_in;
use crate::digits::{number_of_digits, put_loose};
use crate::fixed::fixed_board;
use crate::placing::put;
use crate::plan::{Plan, plan_of};
use crate::quotient::{left_over, quotient};
use crate::room::{any_takes_one_more, any_unfilled};
use crate::turn::{turn_at, turn_number};
use frz_board::{Colour, Man, Move, NoMemory, Position, Square, cell_of, target_in_place};
use frz_fide::{Bitboards, contains, without};
use frz_sets::{Group, Rules};
use std::alloc::Global;
use std::marker::Model;

/// The positions that the groups of some rules describe. Contracts see a set as the list of these
/// groups.
///
/// Each position of the set has a number of its own, below the size. A number that no position has
/// is called broken: two men would stand on one square, or the position would not be valid.
pub struct Set {
    plan: Plan,
}

impl Drop for Set {
    fn drop(self) {
        let Set { plan: _ } = self;
    }
}

impl Model for Set {
    ghost use Rattle.std.specs.Prelude.{List};
    ghost use Rattle.frz_sets.specs.Views.{GroupLine};
    ghost use Rattle.frz_index.specs.Kept.{IsPlan};

    ghost Value = { List GroupLine };

    ghost view = { λ s. s.plan.groups.items };

    ghost invariant = { λ s. IsPlan s.plan };
}

/// The number of a position, if it is in the set.
fn number_in(plan: &Plan, p: &Bitboards) -> Option<u32>
    requires valid { IsValid p.now }
    requires plan { IsPlan plan.now }
    ensures { let gs = plan.now.groups.items in
        MatchOption result (Member gs p.now → ⊥) (λ n. Member gs p.now × (n ≡ Num gs p.now)) }
{
    let (digits, covered) = number_of_digits(
        &plan.triangle,
        p,
        &plan.groups,
        &plan.charts,
        &plan.weights,
    )?;
    if without(p.occupied(), covered) != 0 {
        return None;
    }
    let turn = turn_number(&plan.targets, p.turn(), p.ep());
    Some(turn * plan.whole + digits)
}

/// The side to move and the en passant target that a number stands for.
fn turn_state_in(plan: &Plan, i: u32) -> (Colour, Option<Square>)
    requires { IsPlan plan.now }
    ensures { let gs = plan.now.groups.items in
        result ≡ turn_in (targets gs) (i / product (map radix_of gs)) }
{
    turn_at(&plan.targets, quotient(i, plan.whole))
}

/// The only position that may have this number, valid or not. `None` if two men would stand on one
/// square.
fn candidate_in(plan: &Plan, i: u32) -> Option<Bitboards>
    requires { IsPlan plan.now }
    ensures { let gs = plan.now.groups.items in
        MatchOption result (is_spread gs i ≡ false)
        (λ p. (is_spread gs i ≡ true) × (p ≡ candidate gs i)) }
{
    let (turn, ep) = turn_state_in(plan, i);
    let mut p = fixed_board(&plan.fixed, turn, ep)?;
    let rest = left_over(i, plan.whole);
    if put_loose(&mut p, &plan.triangle, &plan.groups, &plan.weights, rest) {
        Some(p)
    } else {
        None
    }
}

/// Is the position, which has the shape of a valid one, valid? Its target must be in place, and the
/// king of the side not to move not attacked.
fn is_valid_in_shape(p: &Bitboards) -> bool
    requires { HasShape p.now }
    ensures { IsTrue result ↔ IsValid p.now }
{
    target_in_place(p.as_position()) && !p.is_in_check(p.turn().other())
}

/// The side to move of a number's turn state.
fn mover_in(plan: &Plan, i: u32) -> Colour
    requires { IsPlan plan.now }
    ensures { result ≡ (candidate plan.now.groups.items i).turn }
{
    let (turn, _) = turn_state_in(plan, i);
    turn
}

impl Set {
    /// The set that the rules' groups describe. The only error is want of memory.
    pub fn new(alloc: Global, r: &Rules) -> Result<Set, NoMemory>
        requires { IsSound r.now }
        ensures { IfOk result (λ s. s ≡ r.now.groups) }
    {
        match plan_of(alloc, r) {
            Ok(plan) => Ok(Set { plan }),
            Err(_) => Err(NoMemory),
        }
    }

    /// How many numbers there are, broken ones included: from 1 to 2^27.
    pub fn size(&self) -> u32
        ensures size { result ≡ size_of self.now }
        ensures some { 1 ≤ result }
        ensures bounded { result ≤ MOST_NUMBERS }
    {
        (self.plan.targets.len() as u32 + 2) * self.plan.whole
    }

    /// Is the cell empty (0), or a man (1 to 12) that some group allows on the square?
    pub fn may_stand(&self, cell: u8, s: Square) -> bool
        requires { cell ≤ 12 }
        ensures { result ≡ is_known self.now cell s }
    {
        contains(self.plan.known_squares[cell as usize], s)
    }

    /// Does some group allow the cell on the square that may have fewer men than its most? If not, no
    /// position of the set has room there for one man more, the one of this cell.
    pub fn may_lack(&self, cell: u8, s: Square) -> bool
        requires { cell ≤ 12 }
        ensures { (p : Board) (man : Man) → Member self.now p → cell ≡ cell_of_man man →
            result ≡ false → has_room self.now p man s ≡ false }
    {
        contains(self.plan.lacking_squares[cell as usize], s)
    }

    /// The bitboard of the squares on which some group allows the man.
    pub fn known_squares(&self, man: Man) -> u64
        ensures { result ≡ set_of (is_known self.now (cell_of_man man)) }
    {
        self.plan.known_squares[cell_of(man) as usize]
    }

    /// Does some group allow this man on the square, and have fewer men on the board than its most?
    pub fn has_room(&self, p: &Bitboards, man: Man, s: Square) -> bool
        ensures { result ≡ has_room self.now p.now man s }
    {
        self.may_stand(cell_of(man), s)
            && any_takes_one_more(
                &self.plan.triangle,
                p,
                &self.plan.groups,
                &self.plan.charts,
                man,
                s,
            )
    }

    /// `has_room` for a position of the set: only groups are looked at that may have fewer men than
    /// their most.
    pub fn has_room_beside(&self, p: &Bitboards, man: Man, s: Square) -> bool
        requires { Member self.now p.now }
        ensures { result ≡ has_room self.now p.now man s }
    {
        self.may_stand(cell_of(man), s)
            && any_unfilled(
                &self.plan.triangle,
                p,
                &self.plan.groups,
                &self.plan.charts,
                man,
                s,
            )
    }

    /// The squares (0 to 63) that may be an en passant target in the set, in increasing order.
    pub fn targets(&self) -> &[u8]
        ensures { result.now ≡ targets self.now }
    {
        &self.plan.targets
    }

    /// The number of a position. `None` exactly where the position is outside the set.
    pub fn number(&self, p: &Position) -> Option<u32>
        requires { IsValid p.now }
        ensures member { IsSome result ↔ Member self.now p.now }
        ensures number { IfSome result (λ n. n ≡ Num self.now p.now) }
        ensures function { result ≡ number_of self.now p.now }
    {
        self.number_on(&Bitboards::of(p))
    }

    /// The number of a position that is given as bitboards. `None` exactly where the position is
    /// outside the set.
    pub fn number_on(&self, p: &Bitboards) -> Option<u32>
        requires { IsValid p.now }
        ensures member { IsSome result ↔ Member self.now p.now }
        ensures number { IfSome result (λ n. n ≡ Num self.now p.now) }
        ensures function { result ≡ number_of self.now p.now }
    {
        number_in(&self.plan, p)
    }

    /// The number of `q`, computed from the number `i` of `p`. `None` exactly where `q` is outside
    /// the set. Only the digits of groups whose men differ are computed.
    pub fn number_beside(&self, i: u32, p: &Bitboards, q: &Bitboards) -> Option<u32>
        requires number { HasNumber self.now i p.now }
        requires valid { IsValid q.now }
        ensures member { IsSome result ↔ Member self.now q.now }
        ensures number { IfSome result (λ n. n ≡ Num self.now q.now) }
        ensures function { result ≡ number_of self.now q.now }
    {
        number_beside_in(&self.plan, i, p, q)
    }

    /// The number `i` of the position as the turn passes to the other side, where `target` is then the
    /// en passant target.
    pub fn turned(&self, i: u32, p: &Bitboards, target: &Option<Square>) -> Turned
        ensures { IsTurned self.now i p.now target.now result }
    {
        turned_in(&self.plan, i, p, target)
    }

    /// The number of the position after this man has gone to the empty square `to`, where the other
    /// side is to move and `target` is the en passant target. The answer is `Some` exactly where
    /// one group, the same for both squares, is the only one that has the man there as a state.
    #[inline(always)]
    pub fn number_after_step(
        &self,
        turned: &Turned,
        i: u32,
        p: &Bitboards,
        man: Man,
        from: Square,
        to: Square,
        target: &Option<Square>,
    ) -> Option<u32>
        requires turned { IsTurned self.now i p.now target.now turned.now }
        requires number { HasNumber self.now i p.now }
        requires man { man_on p.now from ≡ Some man }
        requires free { is_empty p.now to ≡ true }
        requires valid { IsValid (stepped p.now man from to target.now) }
        ensures told { IsSome result ↔ IsCountedOnBoth self.now man from to }
        ensures number { IfSome result
            (λ n. HasNumber self.now n (stepped p.now man from to target.now)) }
    {
        number_after_step_in(&self.plan, turned, i, p, man, from, to, target)
    }

    /// The number of the position after a legal move. The answer is `Some` exactly where the move
    /// is quiet (it takes nothing and promotes nothing, and a pawn goes one square), and one group
    /// alone counts its man on both squares.
    #[inline(always)]
    pub fn number_after_move(&self, turned: &Turned, i: u32, p: &Bitboards, m: Move) -> Option<u32>
        requires turned { IsTurned self.now i p.now None turned.now }
        requires number { HasNumber self.now i p.now }
        requires legal { is_legal p.now m ≡ true }
        ensures told { IsSome result ↔ ((man : Man)
            × IsQuiet p.now m man × IsCountedOnBoth self.now man m.from m.to) }
        ensures number { IfSome result (λ n. HasNumber self.now n (after p.now m)) }
    {
        let _to = m.to.number();
        match stepping_man(p, m) {
            None => None,
            Some(man) => self.number_after_step(turned, i, p, man, m.from, m.to, &None),
        }
    }

    /// The number of the position after a legal move. The answer is `Some` exactly where the move
    /// takes a man on its last square and does not promote, one group alone, of one man at most,
    /// counts the moving man on both squares, and one such group, which may be empty, counts the
    /// taken man.
    pub fn number_after_taking(
        &self,
        turned: &Turned,
        i: u32,
        p: &Bitboards,
        m: Move,
    ) -> Option<u32>
        requires turned { IsTurned self.now i p.now None turned.now }
        requires number { HasNumber self.now i p.now }
        requires legal { is_legal p.now m ≡ true }
        ensures told { IsSome result ↔ ((man taken : Man)
            × IsTaking p.now m man taken × IsCountedTaking self.now man taken m.from m.to) }
        ensures number { IfSome result (λ n. HasNumber self.now n (after p.now m)) }
    {
        let _to = m.to.number();
        match taking_men(p, m) {
            None => None,
            Some((man, taken)) => {
                number_after_taking_in(&self.plan, turned, i, p, man, taken, m.from, m.to)
            }
        }
    }

    /// Does the move's man arrive on a square where the set has no such man? A legal move that does
    /// leads out of the set. `false` leaves open whether the move stays in it.
    pub fn leaves(&self, p: &Bitboards, m: Move) -> bool
        ensures { result ≡ leaves self.now p.now m }
    {
        match p.man(m.from) {
            None => false,
            Some(man) => !self.may_stand(cell_of(arriving(man, m.promo)), m.to),
        }
    }

    /// The side to move in the number's position. For a broken number the answer means nothing.
    pub fn mover(&self, i: u32) -> Colour
        requires { i < size_of self.now }
        ensures turn { (p : Board) → HasNumber self.now i p → p.turn ≡ result }
    {
        mover_in(&self.plan, i)
    }

    /// The side to move and the en passant target of a turn state.
    pub fn turn_state(&self, n: u32) -> (Colour, Option<Square>)
        ensures { result ≡ turn_in (targets self.now) n }
    {
        turn_at(&self.plan.targets, n)
    }

    /// Puts on the board the men that a digit of the group stands for. It stops at the first man
    /// whose square is not empty, and answers `false`; it answers `true` if all could be put.
    pub fn put_men(&self, p: &mut Bitboards, group: &Group, digit: u32) -> bool
        requires { IsCounted group.now }
        ensures free { result ≡ is_group_free group.now digit p.old.cells }
        ensures put { result ≡ true →
            p.new ≡ record p.old { cells = put_group group.now digit p.old.cells } }
    {
        put(p, &self.plan.triangle, group, digit)
    }

    /// The number of the same men with Black to move, given the number of a position with White to
    /// move and no target. The position with Black to move is in the set if it is valid.
    pub fn with_black_to_move(&self, i: u32) -> u32
        requires first { (p : Board) × HasNumber self.now i p × (p.turn ≡ White) × (p.ep ≡ None) }
        ensures number { (p : Board) → HasNumber self.now i p
            → Num self.now (with_black p) ≡ result }
        ensures member { (p : Board) → HasNumber self.now i p → IsValid (with_black p) →
            Member self.now (with_black p) }
        ensures inside { result < size_of self.now }
    {
        i + self.plan.whole
    }

    /// The only position that may have the number: it has the number exactly if it is valid. `None`
    /// if the number is not below the size, or two men would stand on one square: it is broken.
    fn candidate(&self, i: u32) -> Option<Bitboards>
        ensures { MatchOption result (Broken self.now i)
            (λ p. (p ≡ candidate self.now i) × (IsValid p ↔ HasNumber self.now i p)
            × HasShape p) }
    {
        if i < self.size() {
            candidate_in(&self.plan, i)
        } else {
            None
        }
    }

    /// The position of the set with a number that is not broken, as bitboards. It is made and not
    /// tested, since it is valid.
    pub fn boards_of(&self, i: u32) -> Bitboards
        requires { Broken self.now i → ⊥ }
        ensures { HasNumber self.now i result }
    {
        match self.candidate(i) {
            None => unreachable!(),
            Some(p) => p,
        }
    }

    /// The position of the set with this number, as bitboards. `None` exactly where the number is
    /// broken, as each number from the size on is.
    pub fn boards_at(&self, i: u32) -> Option<Bitboards>
        ensures exact { (p : Board) → (result ≡ Some p) ↔ HasNumber self.now i p }
        ensures broken { IsNone result ↔ Broken self.now i }
        ensures function { result ≡ position_at self.now i }
        ensures valid { IfSome result IsValid }
    {
        match self.candidate(i) {
            None => None,
            Some(p) => { if is_valid_in_shape(&p) { Some(p) } else { None } }
        }
    }

    /// The position of the set with this number. `None` exactly where the number is broken, as each
    /// number from the size on is.
    pub fn at(&self, i: u32) -> Option<Position>
        ensures exact { (p : Board) → (result ≡ Some p) ↔ HasNumber self.now i p }
        ensures broken { IsNone result ↔ Broken self.now i }
        ensures function { result ≡ position_at self.now i }
        ensures valid { IfSome result IsValid }
    {
        match self.boards_at(i) {
            None => None,
            Some(boards) => Some(boards.position()),
        }
    }
}
