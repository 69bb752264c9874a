//! The predecessors of a number that was settled in the pass before, and what it means for each.

ghost use Rattle.std.specs.Prelude.{◌≡◌, ℕ, Bool, ◌<◌, ◌≤◌, ◌||◌, ◌==◌, slice_index};
ghost use Rattle.frz_retro.specs.Graphs.{Arm};
ghost use Rattle.frz_retro.specs.Shape.{In, counts_for};
ghost use Rattle.frz_retro.specs.Tallies.{AreComing, Grows, InPass, IsMeeting};
ghost use Rattle.frz_retro.specs.Work.{Meets};

use crate::graph::Graph;
use crate::kinds::is_kind;
use crate::tally::Tally;
use frz_board::Colour;
use frz_unmove::Pred;
use std::sync::ledger::Ledger;

/// Whether the move of `pred` counts. Where the side that is solved moves (`own`) only a free move
/// counts, and where its opponent moves every legal move does.
pub fn is_counted<G: Graph<L>, L: Ledger>(graph: &G, own: bool, pred: &Pred) -> bool
    requires sound { G.sound graph.now }
    requires inside { pred.now.number < (G.count graph.now) }
    requires arm { (a : Arm) × In a ((G.arena graph.now).arms pred.now.number)
        × (a.mv ≡ pred.now.mv) }
    ensures { (a : Arm) → In a ((G.arena graph.now).arms pred.now.number) → a.mv ≡ pred.now.mv →
        result ≡ counts_for own a }
{
    if own {
        graph.free(pred.number, pred.mv)
    } else {
        true
    }
}

/// The predecessor `pred` meets its successor `q`, which was settled in the pass before. An open
/// predecessor settles one ply later than `q` if `q` decides it, or if `q` is the last successor
/// that it waits for and its exits take no longer.
pub fn visit_predecessor<G: Graph<L>, L: Ledger>(
    graph: &G,
    side: Colour,
    q: u32,
    pred: &Pred,
    tally: &mut Tally,
)
    requires sound { G.sound graph.now }
    requires meeting { (k mid : ℕ) × (done : ℕ → ℕ → Bool)
        × IsMeeting (G.arena graph.now) (G.count graph.now) side k mid done tally.old q pred.now }
    ensures kept { (k mid : ℕ) (done more : ℕ → ℕ → Bool) →
        IsMeeting (G.arena graph.now) (G.count graph.now) side k mid done tally.old q pred.now →
        Meets done more pred.now.number q →
        InPass (G.arena graph.now) (G.count graph.now) side k (G.count graph.now) mid more
        tally.new }
    ensures settled { (r : ℕ) → 2 ≤ slice_index tally.old.codes r →
        slice_index tally.new.codes r ≡ slice_index tally.old.codes r }
    ensures queue { Grows tally.old tally.new }
{
    let i = pred.number;
    if tally.code(i) != 1 {
        return;
    }
    let own = graph.mover(i).is_same(side);
    let counted = is_counted(graph, own, pred);
    if !counted {
        return;
    }
    let code = tally.code(q);
    if is_kind(own, code) {
        tally.settle(i, code + 2);
        return;
    }
    tally.count_down(i);
    if tally.count(i) > 0 {
        return;
    }
    if tally.later(i) > code + 2 {
        return;
    }
    tally.settle(i, code + 2);
}

/// Each predecessor of `q` meets `q`.
pub fn go_through<G: Graph<L>, L: Ledger>(
    graph: &G,
    side: Colour,
    q: u32,
    preds: &[Pred],
    tally: &mut Tally,
)
    requires sound { G.sound graph.now }
    requires coming { (k mid : ℕ) × (done : ℕ → ℕ → Bool)
        × AreComing (G.arena graph.now) (G.count graph.now) side k mid done tally.old q preds.now }
    ensures kept { (k mid : ℕ) (done more : ℕ → ℕ → Bool) →
        AreComing (G.arena graph.now) (G.count graph.now) side k mid done tally.old q preds.now →
        ((i r : ℕ) → more i r ≡ (done i r || (q == r))) →
        InPass (G.arena graph.now) (G.count graph.now) side k (G.count graph.now) mid more
        tally.new }
    ensures queue { Grows tally.old tally.new }
{
    for pred in preds {
        visit_predecessor(graph, side, q, pred, tally);
    }
}
