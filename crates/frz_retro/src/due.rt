//! Numbers that settle by their exits alone, each in the pass of the plies that these exits give.

ghost use Rattle.std.specs.Prelude.{◌≡◌, ℕ, ◌+◌, ◌<◌, ◌≤◌, slice_index};
ghost use Rattle.frz_retro.specs.Tallies.{Grows, IsInPass, LooksAt};

use crate::graph::Graph;
use crate::kinds::is_kind;
use crate::tally::Tally;
use frz_board::Colour;
use std::sync::ledger::Ledger;

/// Settles an open number in pass `k` if its exits are due: the code that they give has `k` plies,
/// and it is of the deciding kind or the number waits for no further move.
pub fn settle_if_due<G: Graph<L>, L: Ledger>(
    graph: &G,
    side: Colour,
    k: u32,
    i: u32,
    tally: &mut Tally,
)
    requires sound { G.sound graph.now }
    requires inside { i < G.count graph.now }
    requires work { IsInPass (G.arena graph.now) (G.count graph.now) side k i tally.old }
    ensures kept { LooksAt (G.arena graph.now) (G.count graph.now) side k i (i + 1) tally.old
        tally.new }
    ensures queue { Grows tally.old tally.new }
{
    let code = tally.later(i);
    if tally.code(i) != 1 {
        return;
    }
    if code < 2 * k + 2 {
        return;
    }
    if code >= 2 * k + 4 {
        return;
    }
    let own = graph.mover(i).is_same(side);
    if is_kind(own, code) {
        tally.settle(i, code);
        return;
    }
    if tally.count(i) > 0 {
        return;
    }
    tally.settle(i, code);
}

/// Settles each number whose exits are due in pass `k`.
pub fn settle_due<G: Graph<L>, L: Ledger>(graph: &G, side: Colour, k: u32, tally: &mut Tally)
    requires sound { G.sound graph.now }
    requires work { IsInPass (G.arena graph.now) (G.count graph.now) side k 0 tally.old }
    ensures kept { LooksAt (G.arena graph.now) (G.count graph.now) side k 0 (G.count graph.now)
        tally.old tally.new }
    ensures queue { Grows tally.old tally.new }
{
    for i in 0..graph.size() {
        settle_if_due(graph, side, k, i, tally);
    }
}

/// As [`settle_due`], without the scan once all due passes are over.
pub fn settle_late<G: Graph<L>, L: Ledger>(
    graph: &G,
    side: Colour,
    k: u32,
    last: u32,
    tally: &mut Tally,
)
    requires sound { G.sound graph.now }
    requires last { (i : ℕ) → i < G.count graph.now → slice_index tally.old.later i ≤ last }
    requires work { IsInPass (G.arena graph.now) (G.count graph.now) side k 0 tally.old }
    ensures kept { LooksAt (G.arena graph.now) (G.count graph.now) side k 0 (G.count graph.now)
        tally.old tally.new }
    ensures queue { Grows tally.old tally.new }
{
    if last < 2 * k + 2 {
        return;
    }
    settle_due(graph, side, k, tally);
}
