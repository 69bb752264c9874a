//! What is due at a number of a way: its end, or a ply.
ghost use Rattle.std.specs.Prelude.{◌≡◌};
ghost use Rattle.frz_ways.specs.Dues.{due_by, due_on};

use frz_arena::{Node, is_failure};
use frz_board::Colour;

/// What is due at a number of a way. A colour is that of the side to move.
#[derive(Clone, Copy, PartialEq, Eq)]
pub enum Due {
    /// The kept code differs from the local code, which is given here.
    Wrong(u64),
    /// The number is the start of the way, and its code is a failure: no bound to play for.
    NoBound,
    Mate(Colour),
    Stalemate(Colour),
    Cut,
    Ply(Colour),
}

/// What is due where the kept code is the local one. A way that is late is cut at a hold.
fn due_at(node: Node, kept: u32, is_late: bool) -> Due
    ensures { result ≡ due_on is_late kept node }
{
    match node {
        Node::Broken => Due::Wrong(0),
        Node::Mate(mover) => Due::Mate(mover),
        Node::Stalemate(mover) => Due::Stalemate(mover),
        Node::Going(mover) => {
            if kept == 1 && is_late {
                Due::Cut
            } else {
                Due::Ply(mover)
            }
        }
    }
}

/// What is due at a number. The kept code is first compared with `given`, the local code; then a
/// start whose code is a failure is refused.
pub fn what_is_due(node: Node, kept: u32, given: u64, is_start: bool, is_late: bool) -> Due
    ensures { result ≡ due_by is_start is_late kept given node }
{
    if u64::from(kept) != given {
        return Due::Wrong(given);
    }
    if is_start && is_failure(kept) {
        return Due::NoBound;
    }
    due_at(node, kept, is_late)
}
