//! The en passant targets that there may have been before a move.
ghost use Rattle.std.specs.Prelude.{ℕ, ◌≡◌, ◌==◌, ◌&&◌, ◌||◌, ◌<◌, ◌≤◌, true};
ghost use Rattle.frz_squares.specs.SquareSets.{has_square};
ghost use Rattle.frz_unmove.specs.Gathering.{IsTargetWord, may_have_passed as may_have_passed_over, may_have_stood as stood_before};

use frz_bits::{Bitboards, replaced};
use frz_board::{Kind, Square};
use frz_index::Set;

/// Can a pawn have passed over `t` just before a move to `to`? It still stands ahead of `t`, or the
/// move went to its square, or to `t`.
fn may_have_passed(q: &Bitboards, to: Square, t: Square) -> bool
    requires low { 8 ≤ t }
    requires high { t < 56 }
    ensures { result ≡ may_have_passed_over q.now to t }
{
    let stood = t.ahead(q.turn());
    q.has(q.turn(), Kind::Pawn, stood) || (stood == to || t == to)
}

/// May `t` have been the target before a move to `to`? Whether the set has it is not asked.
fn may_have_stood(q: &Bitboards, to: Square, t: Square) -> bool
    ensures { result ≡ stood_before q.now to t }
{
    t.is_passing_rank(q.turn()) && may_have_passed(q, to, t)
}

/// The bitboard `word` with this target added, if it may have been the target before the move.
fn with_target(word: u64, q: &Bitboards, to: Square, target: u8) -> u64
    ensures { (t : ℕ) → t < 64 →
        has_square result t ≡ (has_square word t || (t == target && stood_before q.now to t)) }
{
    match Square::new(target) {
        None => word,
        Some(t) => {
            if may_have_stood(q, to, t) {
                replaced(word, t, true)
            } else {
                word
            }
        }
    }
}

/// The bitboard of the set's possible targets that may have stood before a move to this square.
pub(crate) fn earlier_targets(set: &Set, q: &Bitboards, to: Square) -> u64
    ensures { IsTargetWord set.now q.now to result }
{
    let mut word = 0;
    for target in set.targets() {
        word = with_target(word, q, to, *target);
    }
    word
}
