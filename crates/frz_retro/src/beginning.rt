//! Pass 0 of the solver: the entry, counter and due code that each number begins with.

ghost use Rattle.std.specs.Prelude.{◌≡◌, ◌⊎◌, ℕ, ◌+◌, ◌<◌, ◌≤◌, length, slice_index};
ghost use Rattle.frz_board.specs.Men.{other_of};
ghost use Rattle.frz_retro.specs.Notes.{AreNoted, HasRoom, IsNoteOf};
ghost use Rattle.frz_retro.specs.Tallies.{HasBegun, IsGreatest};

use crate::graph::Graph;
use crate::note::{Note, note_of};
use crate::notes::Notes;
use crate::tally::Tally;
use frz_board::Colour;
use frz_graph::Lists;
use frz_steps::Steps;
use std::sync::ledger::Ledger;

/// Enters number `i` into the tally as its note says. The answer is the greatest code that exits
/// alone give one of the numbers up to `i`, where `last` is that of the numbers before it.
fn begin<G: Graph<L>, L: Ledger>(
    _graph: &G,
    side: Colour,
    i: u32,
    note: Note,
    tally: &mut Tally,
    last: u32,
) -> u32
    requires inside { i < G.count _graph.now }
    requires noted { IsNoteOf side ((G.arena _graph.now).node i) ((G.arena _graph.now).arms i)
        note.count note.code }
    requires begun { HasBegun (G.arena _graph.now) (G.count _graph.now) side i tally.old }
    requires greatest { IsGreatest tally.old.later i last }
    ensures begun { HasBegun (G.arena _graph.now) (G.count _graph.now) side (i + 1) tally.new }
    ensures greatest { IsGreatest tally.new.later (i + 1) result }
{
    let later = note.later();
    tally.begin(i, note.entry(), note.count, later);
    u32::from(later).max(last)
}

/// The notes of a number for `side` and for the other side, from one listing of its moves.
fn notes_of<G: Graph<L>, L: Ledger>(
    graph: &G,
    side: Colour,
    i: u32,
    lists: &mut Lists,
    steps: &mut Steps<L>,
) -> (Note, Note)
    requires sound { G.sound graph.now }
    requires inside { i < G.count graph.now }
    ensures own { IsNoteOf side ((G.arena graph.now).node i) ((G.arena graph.now).arms i)
        result.0.count result.0.code }
    ensures other { IsNoteOf (other_of side) ((G.arena graph.now).node i)
        ((G.arena graph.now).arms i) result.1.count result.1.code }
    ensures cost { steps.new ≤ steps.old + 1 }
    ensures later { steps.old ≤ steps.new }
{
    let node = graph.nexts_by(i, lists, steps);
    let arms = lists.nexts.as_slice();
    (note_of(node, side, arms), note_of(node, side.other(), arms))
}

/// Begins all numbers for `side`, and writes into `notes` what they begin with for the other side.
/// The answer is the greatest code that exits alone give a number, at most 2004, or 0.
pub fn begin_all<G: Graph<L>, L: Ledger>(
    graph: &G,
    side: Colour,
    tally: &mut Tally,
    notes: &mut Notes,
    lists: &mut Lists,
    steps: &mut Steps<L>,
) -> u32
    requires sound { G.sound graph.now }
    requires size { length tally.old.codes ≡ G.count graph.now }
    requires room { HasRoom (G.count graph.now) notes.old }
    ensures begun { HasBegun (G.arena graph.now) (G.count graph.now) side (G.count graph.now)
        tally.new }
    ensures noted { AreNoted (G.arena graph.now) (G.count graph.now) (other_of side)
        (G.count graph.now) notes.new }
    ensures last { (i : ℕ) → i < G.count graph.now → slice_index tally.new.later i ≤ result }
    ensures reached { (result ≡ 0)
        ⊎ ((i : ℕ) × (i < G.count graph.now) × (slice_index tally.new.later i ≡ result)) }
    ensures short { result ≤ 2004 }
    ensures cost { steps.new ≤ steps.old + G.count graph.now }
    ensures later { steps.old ≤ steps.new }
{
    tally.reset();
    let mut last = 0;
    for i in 0..graph.size() {
        let (own, other) = notes_of(graph, side, i, lists, steps);
        last = begin(graph, side, i, own, tally, last);
        notes.write(i, other);
    }
    last
}

/// Begins all numbers for `side` from its notes, without listing moves. The answer is the greatest
/// code that exits alone give a number, at most 2004, or 0.
pub fn begin_noted<G: Graph<L>, L: Ledger>(
    graph: &G,
    side: Colour,
    notes: &Notes,
    tally: &mut Tally,
) -> u32
    requires sound { G.sound graph.now }
    requires size { length tally.old.codes ≡ G.count graph.now }
    requires noted { AreNoted (G.arena graph.now) (G.count graph.now) side (G.count graph.now)
        notes.now }
    ensures begun { HasBegun (G.arena graph.now) (G.count graph.now) side (G.count graph.now)
        tally.new }
    ensures last { (i : ℕ) → i < G.count graph.now → slice_index tally.new.later i ≤ result }
    ensures reached { (result ≡ 0)
        ⊎ ((i : ℕ) × (i < G.count graph.now) × (slice_index tally.new.later i ≡ result)) }
    ensures short { result ≤ 2004 }
{
    tally.reset();
    let mut last = 0;
    for i in 0..graph.size() {
        last = begin(graph, side, i, notes.at(i), tally, last);
    }
    last
}
