//! Squeezes, which are mutual zugzwangs: pairs of numbers at which neither side would like to move.
ghost use Rattle.std.specs.Prelude.{◌≡◌, ◌<◌, length, IfSome, None};
ghost use Rattle.frz_board.specs.Boards.{Board};
ghost use Rattle.frz_board.specs.declared.man.Colour.TheVariants.{White};
ghost use Rattle.frz_index.specs.Members.{HasNumber};
ghost use Rattle.frz_index.specs.Membership.{number_of};
ghost use Rattle.frz_index.specs.Partners.{with_black};
ghost use Rattle.frz_sets.specs.Sets.{size_of};
ghost use Rattle.frz_report.specs.Squeezes as words;
ghost use Rattle.frz_report.specs.Squeezes.{rank_of, rank_at, is_first as stands_first, is_worse_to_move as worse, partner_of, squeeze_on};

use frz_arena::is_win;
use frz_board::{Colour, Position};
use frz_fide::valid;
use frz_game::Entries;
use frz_index::Set;

/// What a code is worth to its side: a win 2, a hold 1, and every other code 0.
fn rank(code: u32) -> u8
    ensures { result ≡ rank_of code }
{
    if is_win(code) {
        2
    } else if code == 1 {
        1
    } else {
        0
    }
}

/// What the side's code at the number is worth.
fn rank_in<E: Entries>(entries: &E, side: Colour, i: u32) -> u8
    requires { i < length (E.codes entries.now side) }
    ensures { result ≡ rank_at (E.codes entries.now) side i }
{
    rank(entries.entry(side, i))
}

/// Is each side's rank lower where it is to move?
fn is_worse_to_move<E: Entries>(entries: &E, w: u32, b: u32) -> bool
    requires first { w < length (E.codes entries.now White) }
    requires second { b < length (E.codes entries.now White) }
    ensures { result ≡ worse (E.codes entries.now) w b }
{
    rank_in(entries, Colour::White, w) < rank_in(entries, Colour::White, b)
        && rank_in(entries, Colour::Black, b) < rank_in(entries, Colour::Black, w)
}

/// Is White to move, with no en passant target?
fn is_first(p: &Position) -> bool
    ensures { result ≡ stands_first p.now }
{
    p.turn() == Colour::White && p.ep().is_none()
}

/// The number of the position `q`, which has the men of the position with number `w`, Black to move
/// and no en passant target; `None` if `q` is not valid.
fn number_if_valid(set: &Set, w: u32, q: &Position) -> Option<u32>
    requires { (p : Board) × HasNumber set.now w p × (p.turn ≡ White) × (p.ep ≡ None)
        × (q.now ≡ with_black p) }
    ensures number { result ≡ number_of set.now q.now }
    ensures inside { IfSome result (λ b. b < size_of set.now) }
{
    match valid(q) {
        Ok(()) => Some(set.with_black_to_move(w)),
        Err(_) => None,
    }
}

/// The number of the same men with Black to move, if White is to move in `p` with no en passant
/// target; else `None`, and also if that position is not valid.
fn partner(set: &Set, w: u32, p: &Position) -> Option<u32>
    requires { HasNumber set.now w p.now }
    ensures number { result ≡ partner_of set.now p.now }
    ensures inside { IfSome result (λ b. b < size_of set.now) }
{
    if is_first(p) {
        number_if_valid(set, w, &p.hand_over(None))
    } else {
        None
    }
}

/// The number of the second position of a squeeze, where Black is to move, if `p` with the number
/// `w` is the first; else `None`.
pub fn squeezed_with<E: Entries>(set: &Set, entries: &E, w: u32, p: &Position) -> Option<u32>
    requires position { HasNumber set.now w p.now }
    requires inside { w < size_of set.now }
    requires many { length (E.codes entries.now White) ≡ size_of set.now }
    ensures { words.squeezed_by w p.now result ≡ squeeze_on set.now (E.codes entries.now) w p.now }
{
    let b = partner(set, w, p)?;
    if is_worse_to_move(entries, w, b) {
        Some(b)
    } else {
        None
    }
}
