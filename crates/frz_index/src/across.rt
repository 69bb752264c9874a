//! The number of a position after a move, computed from the number before it.
ghost use Rattle.std.specs.Prelude.{ℕ, ◌≡◌, ◌≢◌, ◌<◌, ◌≤◌, ◌+◌, ◌-◌, ◌*◌, ◌^◌, ◌↔◌, IfSome, IsSome, MatchOption, None, Some, true};
ghost use Rattle.frz_board.specs.Boards.{is_empty, man_on};
ghost use Rattle.frz_board.specs.declared.man.Man.{Man};
ghost use Rattle.frz_fide.specs.Legal.{arrives};
ghost use Rattle.frz_fide.specs.Valid.{IsValid};
ghost use Rattle.frz_index.specs.Kept.{IsPlan};
ghost use Rattle.frz_index.specs.Members.{HasNumber};
ghost use Rattle.frz_index.specs.Shares.{IsShareOf};
ghost use Rattle.frz_index.specs.Stepping.{IsQuiet, IsSharedOnBoth, IsTurned, is_plain as is_plain_move, stepped, turn_adds as turn_adds_to};
ghost use Rattle.frz_index.specs.Taking.{IsCountedTaking, IsSpare, IsTaking};

use crate::plan::Plan;
use crate::shares::{Share, cell_on};
use crate::turn::turn_number;
use frz_board::{Colour, Kind, Man, Move, Square, cell_of};
use frz_fide::Bitboards;

/// What the man on the square adds to a number. `None` unless only one group has him there as a
/// state, and that group has one man at most.
pub(crate) fn share(plan: &Plan, man: Man, s: Square) -> Option<Share>
    requires { IsPlan plan.now }
    ensures { IsShareOf plan.now.groups.items man s result }
{
    let _number = s.number();
    plan.shares[cell_on(cell_of(man), s)]
}

/// What a turn state adds to a number.
pub(crate) fn turn_adds(plan: &Plan, turn: Colour, target: Option<Square>) -> u64
    requires { IsPlan plan.now }
    ensures adds { result ≡ turn_adds_to plan.now.groups.items turn target }
    ensures small { result ≤ 66 * 134217728 }
{
    u64::from(turn_number(&plan.targets, turn, target)) * u64::from(plan.whole)
}

/// A number as the turn passes to the other side, before a man moves: with what the new turn state
/// adds, and what the old one added. It serves all moves of a position that leave the same target.
#[derive(Clone, Copy)]
pub struct Turned {
    pub gained: u64,
    pub lost: u64,
}

/// The number `i` of the position as the turn passes to the other side, with this target then.
pub(crate) fn turned_in(plan: &Plan, i: u32, p: &Bitboards, target: &Option<Square>) -> Turned
    requires { IsPlan plan.now }
    ensures { IsTurned plan.now.groups.items i p.now target.now result }
{
    let before = turn_adds(plan, p.turn(), p.ep());
    let after = turn_adds(plan, p.turn().other(), *target);
    Turned {
        gained: u64::from(i) + after,
        lost: before,
    }
}

/// The number after a step: `left` goes from the turned number, and `comes` is added.
pub(crate) fn number_by(turned: &Turned, left: u64, comes: u64) -> u32
    requires fits { turned.now.gained + comes < 2 ^ 64 }
    requires some { left + turned.now.lost ≤ turned.now.gained + comes }
    requires small { turned.now.gained + comes - left - turned.now.lost < 134217728 }
    ensures { result ≡ turned.now.gained + comes - left - turned.now.lost }
{
    (turned.gained + comes - left - turned.lost) as u32
}

/// The number of the position after the man has gone to the empty square `to`, with this target
/// after it. `None` unless `share` tells what he adds on both squares, by the same group.
#[inline(always)]
pub(crate) fn number_after_in(
    plan: &Plan,
    turned: &Turned,
    _i: u32,
    _p: &Bitboards,
    man: Man,
    from: Square,
    to: Square,
    _target: &Option<Square>,
) -> Option<u32>
    requires plan { IsPlan plan.now }
    requires turned { IsTurned plan.now.groups.items _i _p.now _target.now turned.now }
    requires number { HasNumber plan.now.groups.items _i _p.now }
    requires man { man_on _p.now from ≡ Some man }
    requires free { is_empty _p.now to ≡ true }
    requires valid { IsValid (stepped _p.now man from to _target.now) }
    ensures told { IsSome result ↔ IsSharedOnBoth plan.now.groups.items man from to }
    ensures number { IfSome result
        (λ n. HasNumber plan.now.groups.items n (stepped _p.now man from to _target.now)) }
{
    let _from = from.number();
    let _to = to.number();
    let left = share(plan, man, from)?;
    let comes = share(plan, man, to)?;
    if left.group != comes.group {
        return None;
    }
    Some(number_by(turned, left.adds, comes.adds))
}

/// Is the man no pawn, or does it go one square forward?
fn is_plain(man: Man, a: Square, b: Square) -> bool
    ensures { result ≡ is_plain_move man a b }
{
    man.kind != Kind::Pawn || (a.files_apart(b) == 0 && a.is_forward(man.colour, 1, b))
}

/// The man that makes the move, if the move is quiet: its last square is empty, it promotes
/// nothing, and a pawn goes one square forward.
pub(crate) fn stepping_man(p: &Bitboards, m: Move) -> Option<Man>
    ensures { MatchOption result ((man : Man) → IsQuiet p.now m man → ⊥) (IsQuiet p.now m) }
{
    if m.promo.is_some() || !p.is_empty(m.to) {
        return None;
    }
    match p.man(m.from) {
        None => None,
        Some(man) => {
            if is_plain(man, m.from, m.to) {
                Some(man)
            } else {
                None
            }
        }
    }
}

/// The man that stands on the last square after this man's move: what it promotes to, or itself.
pub(crate) fn arriving(man: Man, promo: Option<Kind>) -> Man
    ensures { result ≡ arrives man promo }
{
    Man {
        colour: man.colour,
        kind: promo.unwrap_or(man.kind),
    }
}

/// How much lower a number is without the man. `None` unless one group alone, of one man at most,
/// counts him and may be empty.
fn loss(plan: &Plan, man: Man, s: Square) -> Option<u64>
    requires { IsPlan plan.now }
    ensures { let gs = plan.now.groups.items in
        MatchOption result ((x : ℕ) → IsSpare gs man s x → ⊥) (IsSpare gs man s) }
{
    let share = share(plan, man, s)?;
    if plan.groups[share.group as usize].least == 0 {
        Some(share.adds + u64::from(plan.weights[share.group as usize]))
    } else {
        None
    }
}

/// The number of the position after the man has taken another one without promotion. `None` unless
/// `share` tells what he adds on both squares, by the same group, and `loss` what goes with the
/// taken man.
pub(crate) fn number_after_taking_in(
    plan: &Plan,
    turned: &Turned,
    _i: u32,
    _p: &Bitboards,
    man: Man,
    taken: Man,
    from: Square,
    to: Square,
) -> Option<u32>
    requires plan { IsPlan plan.now }
    requires turned { IsTurned plan.now.groups.items _i _p.now None turned.now }
    requires number { HasNumber plan.now.groups.items _i _p.now }
    requires man { man_on _p.now from ≡ Some man }
    requires taken { man_on _p.now to ≡ Some taken }
    requires apart { from ≢ to }
    requires valid { IsValid (stepped _p.now man from to None) }
    ensures told { IsSome result ↔ IsCountedTaking plan.now.groups.items man taken from to }
    ensures number { IfSome result
        (λ n. HasNumber plan.now.groups.items n (stepped _p.now man from to None)) }
{
    let _from = from.number();
    let _to = to.number();
    let left = share(plan, man, from)?;
    let comes = share(plan, man, to)?;
    let less = loss(plan, taken, to)?;
    if left.group != comes.group {
        return None;
    }
    Some(number_by(turned, left.adds + less, comes.adds))
}

/// The man that makes the move, and the man that it takes on its last square. `None` if one of them
/// is missing, or the move promotes.
pub(crate) fn taking_men(p: &Bitboards, m: Move) -> Option<(Man, Man)>
    ensures { MatchOption result ((man taken : Man) → IsTaking p.now m man taken → ⊥)
        (λ (man, taken). IsTaking p.now m man taken) }
{
    if m.promo.is_some() {
        return None;
    }
    match p.man(m.from) {
        None => None,
        Some(man) => match p.man(m.to) {
            None => None,
            Some(taken) => Some((man, taken)),
        },
    }
}
