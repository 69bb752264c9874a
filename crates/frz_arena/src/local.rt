//! The local code of a position, which the codes one ply on give it.

ghost use Rattle.std.specs.Prelude.{◌≡◌};
ghost use Rattle.frz_arena.specs.LocalCodes as local_codes;

use super::best::Best;
use super::node::Node;
use frz_board::Colour;

/// The code where a move is due, by the codes of the moves that count. `own` says that the side
/// itself is to move, not its opponent.
fn turn_code(own: bool, codes: &[u32]) -> u64
    ensures { result ≡ local_codes.turn_code own codes.now }
{
    let mut best = Best::new(own);
    for code in codes {
        best = best.with(*code);
    }
    best.code()
}

/// The local code of `side` at a position. `free` has the codes of the moves that the mover may
/// play, among which the side itself chooses; `all` has those of all legal moves, among which its
/// opponent does.
pub fn local_code(side: Colour, node: Node, free: &[u32], all: &[u32]) -> u64
    ensures { result ≡ local_codes.node_code side node free.now all.now }
{
    match node {
        Node::Broken => 0,
        Node::Mate(mover) => { if mover == side { 3 } else { 2 } }
        Node::Stalemate(_) => 1,
        Node::Going(mover) => {
            if mover == side {
                turn_code(true, free)
            } else {
                turn_code(false, all)
            }
        }
    }
}
