//! The local code of a number: the code that the codes one ply on give it.

ghost use Rattle.std.specs.Prelude.{◌≡◌, ◌||◌, not, All, length, map};
ghost use Rattle.frz_arena.specs.LocalCodes.{node_code, turn_code as code_at_turn};
ghost use Rattle.frz_graph.specs.EntryCodes.{arm_code, IsWithin};
ghost use Rattle.frz_graph.specs.FreeCodes.{counted_codes, free_among};

use crate::arm::{Arm, NextList};
use crate::entries::{CodeList, Entries, next_code_of};
use frz_arena::{Best, Node, local_code};
use frz_board::Colour;

/// Does the move count? Where the side itself moves (`own`) its free moves alone do, else all
/// moves.
fn counts(own: bool, arm: &Arm) -> bool
    ensures { result ≡ (not own || arm.now.free) }
{
    !own || arm.free
}

/// The local code of a number where the game goes on, by the codes of its moves.
fn turn_code(own: bool, list: &NextList, codes: &CodeList) -> u64
    requires { length list.now.items ≡ length codes.now.items }
    ensures { result ≡ code_at_turn own (counted_codes own list.now.items codes.now.items) }
{
    let mut best = Best::new(own);
    for (i, arm) in list.as_slice().iter().enumerate() {
        if counts(own, arm) {
            best = best.with(codes[i]);
        }
    }
    best.code()
}

/// The local code for `side` of a number, by what the number is (`node`) and the codes of its
/// moves.
pub fn local(side: Colour, node: Node, list: &NextList, codes: &CodeList) -> u64
    requires { length list.now.items ≡ length codes.now.items }
    ensures { result ≡
        node_code side node (free_among list.now.items codes.now.items) codes.now.items }
{
    match node {
        Node::Going(mover) => turn_code(mover == side, list, codes),
        _ => local_code(side, node, &[], &[]),
    }
}

/// The local code of a number where the game goes on, by the entries of the side. The codes of the
/// moves are used one by one, and no list of them is made.
fn turn_code_by<E: Entries>(own: bool, side: Colour, list: &NextList, entries: &E) -> u64
    requires { All (λ a. IsWithin (length (E.codes entries.now side)) a.next) list.now.items }
    ensures { result ≡ code_at_turn own (counted_codes own list.now.items
        (map (arm_code side (E.codes entries.now side)) list.now.items)) }
{
    let mut best = Best::new(own);
    for arm in list.as_slice() {
        if counts(own, arm) {
            best = best.with(next_code_of(side, arm.next, entries));
        }
    }
    best.code()
}

/// The local code for `side` of a number, by what the number is (`node`), its moves and the entries
/// of the side. It goes over the moves once, and only where the game goes on.
pub fn local_by<E: Entries>(side: Colour, node: Node, list: &NextList, entries: &E) -> u64
    requires { All (λ a. IsWithin (length (E.codes entries.now side)) a.next) list.now.items }
    ensures { let codes = map (arm_code side (E.codes entries.now side)) list.now.items in
        result ≡ node_code side node (free_among list.now.items codes) codes }
{
    match node {
        Node::Going(mover) => turn_code_by(mover == side, side, list, entries),
        _ => local_code(side, node, &[], &[]),
    }
}
