//! The passes of the solver: pass `k` settles the numbers whose bounds have `k` plies.

ghost use Rattle.std.specs.Prelude.{◌≡◌, ℕ, ◌+◌, ◌-◌, ◌*◌, ◌<◌, ◌≤◌, length, slice_index};
ghost use Rattle.frz_arena.specs.Tables.{IsExact};
ghost use Rattle.frz_board.specs.Men.{other_of};
ghost use Rattle.frz_retro.specs.Notes.{AreNoted, HasRoom};
ghost use Rattle.frz_retro.specs.Tallies.{HasBegun, InPass};
ghost use Rattle.frz_retro.specs.Work.{done_in};

use crate::beginning::{begin_all, begin_noted};
use crate::due::settle_late;
use crate::graph::Graph;
use crate::local::local_codes;
use crate::meeting::go_through;
use crate::notes::Notes;
use crate::tally::Tally;
use frz_board::Colour;
use frz_graph::Lists;
use frz_steps::Steps;
use frz_unmove::Preds;
use std::sync::ledger::Ledger;

/// Pass `k`: it settles the numbers whose exits are due, and then those predecessors that the
/// numbers of the pass before settle. The numbers of the pass before stand in the queue from `head`
/// on. The pass sorts them, so that it comes to neighbours in the lists one after another. No code
/// that exits give is above `last`.
pub fn pass<G: Graph<L>, L: Ledger>(
    graph: &G,
    side: Colour,
    k: u32,
    head: usize,
    last: u32,
    tally: &mut Tally,
    preds: &mut Preds,
    steps: &mut Steps<L>,
)
    requires sound { G.sound graph.now }
    requires head { head ≤ tally.old.tail }
    requires last { (i : ℕ) → i < G.count graph.now → slice_index tally.old.later i ≤ last }
    requires work { InPass (G.arena graph.now) (G.count graph.now) side k 0 tally.old.tail
        (done_in tally.old.queue head) tally.old }
    ensures kept { InPass (G.arena graph.now) (G.count graph.now) side k (G.count graph.now)
        tally.old.tail (done_in tally.new.queue tally.old.tail) tally.new }
    ensures tail { tally.old.tail ≤ tally.new.tail }
    ensures exits { tally.new.later ≡ tally.old.later }
    ensures cost { steps.new ≡ steps.old + (tally.old.tail - head) }
{
    tally.put_in_order(head);
    let end = tally.tail();
    settle_late(graph, side, k, last, tally);
    for at in head..end {
        let q = tally.queued(at);
        graph.preds(q, preds, steps);
        go_through(graph, side, q, preds.items(), tally);
    }
}

/// Runs all passes, from the numbers that begin settled, until the queue has no further number and
/// no exit is still due. No code that exits give is above `last`.
pub fn passes<G: Graph<L>, L: Ledger>(
    graph: &G,
    side: Colour,
    last: u32,
    tally: &mut Tally,
    preds: &mut Preds,
    steps: &mut Steps<L>,
)
    requires sound { G.sound graph.now }
    requires begun { HasBegun (G.arena graph.now) (G.count graph.now) side (G.count graph.now)
        tally.old }
    requires last { (i : ℕ) → i < G.count graph.now → slice_index tally.old.later i ≤ last }
    requires short { last ≤ 2004 }
    ensures exact { IsExact (G.arena graph.now) side (G.count graph.now) tally.new.codes }
    ensures cost { steps.new ≤ steps.old + G.count graph.now }
    ensures later { steps.old ≤ steps.new }
{
    local_codes();
    let mut head = 0;
    let mut tail = tally.tail();
    let mut k = 0;
    'passes: while head < tail || 2 * k + 4 <= last {
        k += 1;
        pass(graph, side, k, head, last, tally, preds, steps);
        head = tail;
        tail = tally.tail();
    }
}

/// Solves the game for `side`, in a tally of the game's size, and writes into `notes` what the
/// numbers begin with for the other side.
pub fn solve<G: Graph<L>, L: Ledger>(
    graph: &G,
    side: Colour,
    tally: &mut Tally,
    notes: &mut Notes,
    lists: &mut Lists,
    preds: &mut Preds,
    steps: &mut Steps<L>,
)
    requires sound { G.sound graph.now }
    requires size { length tally.old.codes ≡ G.count graph.now }
    requires room { HasRoom (G.count graph.now) notes.old }
    ensures exact { IsExact (G.arena graph.now) side (G.count graph.now) tally.new.codes }
    ensures noted { AreNoted (G.arena graph.now) (G.count graph.now) (other_of side)
        (G.count graph.now) notes.new }
    ensures cost { steps.new ≤ steps.old + 2 * G.count graph.now }
    ensures later { steps.old ≤ steps.new }
{
    let last = begin_all(graph, side, tally, notes, lists, steps);
    passes(graph, side, last, tally, preds, steps);
}

/// Solves the game for `side`, in a tally of the game's size, from the notes of what the numbers
/// begin with for it.
pub fn solve_noted<G: Graph<L>, L: Ledger>(
    graph: &G,
    side: Colour,
    notes: &Notes,
    tally: &mut Tally,
    preds: &mut Preds,
    steps: &mut Steps<L>,
)
    requires sound { G.sound graph.now }
    requires size { length tally.old.codes ≡ G.count graph.now }
    requires noted { AreNoted (G.arena graph.now) (G.count graph.now) side (G.count graph.now)
        notes.now }
    ensures exact { IsExact (G.arena graph.now) side (G.count graph.now) tally.new.codes }
    ensures cost { steps.new ≤ steps.old + G.count graph.now }
    ensures later { steps.old ≤ steps.new }
{
    let last = begin_noted(graph, side, notes, tally);
    passes(graph, side, last, tally, preds, steps);
}
