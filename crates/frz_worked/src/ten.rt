//! A game of ten numbers, made by hand: a mate, a stalemate, a broken number, a move that is not
//! free, exits that are due in several passes, and a cycle.
ghost use Rattle.std.specs.Prelude.{◌≡◌};
ghost use Rattle.frz_worked.specs.Ten.{IsSound, arm_of, game, is_free, leads_to, pred_of, step_of};

use frz_arena::Node;
use frz_board::{Colour, Move, Square};
use frz_graph::{Arm, Lists, Next, NumberedGame};
use frz_retro::Graph;
use frz_sets::Value;
use frz_steps::Steps;
use frz_unmove::{Pred, Preds};
use std::sync::ledger::Ledger;

/// A move of a number, and where it leads.
#[derive(Clone, Copy)]
pub struct Edge {
    pub number: u32,
    pub next: Next,
}

/// What each number is.
pub const NODES: [Node; 10] = [
    Node::Mate(Colour::Black),
    Node::Broken,
    Node::Going(Colour::White),
    Node::Going(Colour::Black),
    Node::Going(Colour::White),
    Node::Going(Colour::Black),
    Node::Going(Colour::White),
    Node::Going(Colour::White),
    Node::Going(Colour::Black),
    Node::Stalemate(Colour::White),
];

/// All moves.
pub const EDGES: [Edge; 15] = [
    Edge {
        number: 2,
        next: Next::Inside(0),
    },
    Edge {
        number: 2,
        next: Next::Outside(Value::WhiteWinsIn(3)),
    },
    Edge {
        number: 3,
        next: Next::Inside(2),
    },
    Edge {
        number: 3,
        next: Next::Outside(Value::WhiteWinsIn(5)),
    },
    Edge {
        number: 4,
        next: Next::Inside(3),
    },
    Edge {
        number: 4,
        next: Next::Inside(0),
    },
    Edge {
        number: 5,
        next: Next::Inside(4),
    },
    Edge {
        number: 5,
        next: Next::Inside(6),
    },
    Edge {
        number: 6,
        next: Next::Inside(5),
    },
    Edge {
        number: 6,
        next: Next::Outside(Value::Unknown),
    },
    Edge {
        number: 7,
        next: Next::Inside(3),
    },
    Edge {
        number: 7,
        next: Next::Outside(Value::WhiteWinsIn(6)),
    },
    Edge {
        number: 8,
        next: Next::Inside(7),
    },
    Edge {
        number: 8,
        next: Next::Inside(9),
    },
    Edge {
        number: 8,
        next: Next::Outside(Value::BlackWinsIn(2)),
    },
];

/// The move that its mover may not play: from which number, and to which.
pub const BARRED: (u32, u8) = (4, 0);

/// Each move goes from the square a1 to the square of the number that it leads to, or to h8.
fn step_of(next: Next) -> Move
    ensures { result ≡ step_of next }
{
    let target = match next {
        Next::Inside(q) => q.min(63) as u8,
        Next::Outside(_) => 63,
    };
    Move {
        from: Square::at(0),
        to: Square::at(target),
        promo: None,
    }
}

/// Whether the mover may play the move.
fn is_free(number: u32, mv: Move) -> bool
    ensures { result ≡ is_free number mv.to }
{
    !(number == BARRED.0 && mv.to.number() == BARRED.1)
}

/// The move as one of its number.
fn arm_of(edge: Edge) -> Arm
    ensures { result ≡ arm_of edge }
{
    let mv = step_of(edge.next);
    Arm {
        mv,
        free: is_free(edge.number, mv),
        next: edge.next,
    }
}

/// The move as one that leads to a number.
fn pred_of(edge: Edge) -> Pred
    ensures { result ≡ pred_of edge }
{
    Pred {
        number: edge.number,
        mv: step_of(edge.next),
    }
}

/// Whether the move leads to the number.
fn leads_to(q: u32, next: Next) -> bool
    ensures { result ≡ leads_to q next }
{
    match next {
        Next::Inside(p) => p == q,
        Next::Outside(_) => false,
    }
}

/// The game of these tables.
#[derive(Clone, Copy, Debug)]
pub struct Ten;

impl Ten {
    /// The game.
    pub fn new() -> Ten
        ensures { IsSound }
    {
        Ten
    }
}

impl<L: Ledger> NumberedGame<L> for Ten {
    ghost arena = { λ _. game };

    ghost count = { λ _. 10 };

    ghost sound = { λ _. IsSound };

    ghost finite = { λ _ sound. sound.finite };

    fn size(&self) -> u32 {
        10
    }

    fn nexts_by(&self, i: u32, lists: &mut Lists, _: &mut Steps<L>) -> Node {
        lists.nexts.clear();
        for edge in EDGES.iter() {
            if edge.number == i {
                lists.nexts.push(arm_of(*edge));
            }
        }
        NODES[i as usize]
    }
}

impl<L: Ledger> Graph<L> for Ten {
    ghost different = { λ _ sound. sound.different };

    fn preds(&self, q: u32, out: &mut Preds, steps: &mut Steps<L>) {
        out.clear();
        for edge in EDGES.iter() {
            if leads_to(q, edge.next) {
                out.push(pred_of(*edge));
            }
        }
        steps.tick();
    }

    fn mover(&self, i: u32) -> Colour {
        let node = NODES[i as usize];
        match node {
            Node::Mate(c) | Node::Stalemate(c) | Node::Going(c) => c,
            Node::Broken => unreachable!(),
        }
    }

    fn free(&self, i: u32, mv: Move) -> bool {
        is_free(i, mv)
    }
}
