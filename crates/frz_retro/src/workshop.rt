//! A solver whose lists are allocated once and serve many runs.

ghost use Rattle.std.specs.Prelude.{◌≡◌, ◌+◌, ◌*◌, ◌≤◌, length, IfOk};
ghost use Rattle.frz_sets.specs.Sets.{size_of};
ghost use Rattle.frz_sets.specs.Sound.{IsSound};
ghost use Rattle.frz_arena.specs.Tables.{IsExact};
ghost use Rattle.frz_game.specs.Bounds.{IsTableOf};

use crate::both_sides::BothSides;
use crate::graph::Graph;
use frz_board::{Colour, NoMemory};
use frz_exits::ExitBook;
use frz_game::Game;
use frz_steps::Steps;
use std::alloc::Global;
use std::marker::Model;
use std::sync::ledger::Ledger;

/// A solver for games of one size, whose lists have one place for each number. One workshop serves
/// both sides in turn, and any game of its size.
pub struct Workshop {
    sides: BothSides,
}

impl Drop for Workshop {
    fn drop(self) {
        let Workshop { sides: _ } = self;
    }
}

impl Model for Workshop {
    ghost use Rattle.std.specs.Prelude.{List, ℕ};

    ghost Value = { List ℕ };

    ghost view = { λ w. w.sides.entries };
}

impl Workshop {
    /// Allocates a workshop for `size` numbers: 16 bytes for each number, and those of [`Preds`].
    /// It answers [`NoMemory`] if memory runs out.
    pub fn new(alloc: Global, size: u32) -> Result<Workshop, NoMemory>
        ensures { IfOk result (λ w. length w ≡ size) }
    {
        Ok(Workshop {
            sides: BothSides::new(alloc, size)?,
        })
    }

    /// Solves the game for `side`: each entry becomes the local code that the entries themselves
    /// give its number. A run takes at most two steps a number, allocates nothing, and depends on
    /// no earlier run.
    pub fn run<G: Graph<L>, L: Ledger>(&mut self, graph: &G, side: Colour, steps: &mut Steps<L>)
        requires sound { G.sound graph.now }
        requires size { length self.old ≡ G.count graph.now }
        ensures exact { IsExact (G.arena graph.now) side (G.count graph.now) self.new }
        ensures cost { steps.new ≤ steps.old + 2 * G.count graph.now }
        ensures later { steps.old ≤ steps.new }
    {
        self.sides.run(graph, side, steps);
    }

    /// Solves the game of sound rules for `side`: the entries become the codes of its bounds, and 0
    /// at broken numbers. A run takes at most two steps a number, allocates nothing, and depends on
    /// no earlier run.
    pub fn run_game<B: ExitBook, L: Ledger>(
        &mut self,
        game: &Game<'_, B>,
        side: Colour,
        steps: &mut Steps<L>,
    )
        requires sound { IsSound game.now.rules.now }
        requires size { length self.old ≡ size_of game.now.rules.now.groups }
        ensures table { IsTableOf game.now.rules.now (B.value_at game.now.book.now) side self.new }
        ensures cost { steps.new ≤ steps.old + 2 * size_of game.now.rules.now.groups }
        ensures later { steps.old ≤ steps.new }
    {
        self.sides.run_game(game, side, steps);
    }

    /// The entries, one for each number.
    pub fn entries(&self) -> &[u32]
        ensures { result.now ≡ self.now }
    {
        self.sides.entries()
    }
}
