//! The states, a kind and a square each, that the places of a group line give.
ghost use Rattle.std.specs.Prelude.{◌≡◌, ◌<◌, ◌==◌, ◌&&◌, not, map, IfOk};
ghost use Rattle.std.specs.List.{list_any};
ghost use Rattle.frz_board.specs.Men.{number_of_kind, is_pawn as is_pawn_kind};
ghost use Rattle.frz_words.specs.Squares.{has_square};
ghost use Rattle.frz_sets.specs.Groups.{state_at as state_of_number, same_state, is_king as is_king_state, is_end_pawn as is_end_pawn_state, shares};
ghost use Rattle.frz_rules.specs.States.{is_placed, states_of};

use frz_board::{Kind, Square};
use frz_words::SquareSet;
use std::alloc::{AllocError, Global};

pub fn is_pawn(kind: Kind) -> bool
    ensures { result ≡ is_pawn_kind kind }
{
    match kind {
        Kind::Pawn => true,
        _ => false,
    }
}

/// The state of a number below 384: by kind, then square, 64 of each of the six kinds.
fn state_at(n: u16) -> (Kind, Square)
    requires { n < 384 }
    ensures { result ≡ state_of_number n }
{
    let kind = Kind::of_number((n / 64) as u8 + 1);
    (kind, Square::at((n % 64) as u8))
}

fn place_has(place: &(Kind, SquareSet), s: &(Kind, Square)) -> bool
    ensures { result ≡ (number_of_kind place.now.0 == number_of_kind s.now.0
        && has_square place.now.1 s.now.1) }
{
    place.0.number() == s.0.number() && place.1.has(s.1.number())
}

fn is_in_place(places: &[(Kind, SquareSet)], s: &(Kind, Square)) -> bool
    ensures { result ≡ is_placed places.now s.now }
{
    places.iter().any(|p| place_has(p, s))
}

/// The states of the places, by kind, then square, each once.
#[tactic(auto, using(crate::proofs::Placing::placing))]
pub fn states(
    alloc: Global,
    places: &[(Kind, SquareSet)],
) -> Result<Vec<(Kind, Square)>, AllocError>
    ensures { IfOk result (λ v. v.items ≡ states_of places.now) }
{
    let mut found = Vec::new(alloc);
    for n in 0..384u16 {
        let state = state_at(n);
        if is_in_place(places, &state) {
            found.push(state)?;
        }
    }
    Ok(found)
}

fn is_king(s: &(Kind, Square)) -> bool
    ensures { result ≡ is_king_state s.now }
{
    s.0.number() == 1
}

fn is_end_pawn(s: &(Kind, Square)) -> bool
    ensures { result ≡ is_end_pawn_state s.now }
{
    is_pawn(s.0) && (s.1.rank() == 0 || s.1.rank() == 7)
}

/// Is a king among the states?
pub fn has_king(states: &[(Kind, Square)]) -> bool
    ensures { result ≡ list_any is_king_state states.now }
{
    states.iter().any(|s| is_king(s))
}

/// Is another man than a king among the states?
pub fn has_other_than_king(states: &[(Kind, Square)]) -> bool
    ensures { result ≡ list_any (λ s. not (is_king_state s)) states.now }
{
    states.iter().any(|s| !is_king(s))
}

/// Is a pawn on rank 1 or 8 among the states?
pub fn has_end_pawn(states: &[(Kind, Square)]) -> bool
    ensures { result ≡ list_any is_end_pawn_state states.now }
{
    states.iter().any(|s| is_end_pawn(s))
}

fn has_state(states: &[(Kind, Square)], s: &(Kind, Square)) -> bool
    ensures { result ≡ list_any (same_state s.now) states.now }
{
    states.iter().any(|t| s.0.number() == t.0.number() && s.1.number() == t.1.number())
}

/// Is one of the states among the others?
pub fn share(states: &[(Kind, Square)], others: &[(Kind, Square)]) -> bool
    ensures { result ≡ shares states.now others.now }
{
    states.iter().any(|s| has_state(others, s))
}
