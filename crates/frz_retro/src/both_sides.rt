//! The lists of a solver that solves a game for one side and then, from kept notes, for the other.

ghost use Rattle.std.specs.Prelude.{◌≡◌, ◌+◌, ◌*◌, ◌≤◌, length, IfOk};
ghost use Rattle.frz_arena.specs.Tables.{IsExact};
ghost use Rattle.frz_board.specs.Men.{other_of};
ghost use Rattle.frz_game.specs.Bounds.{IsTableOf};
ghost use Rattle.frz_game.specs.Games.{graph_by};
ghost use Rattle.frz_retro.specs.Notes.{AreNoted};
ghost use Rattle.frz_sets.specs.Sets.{size_of};
ghost use Rattle.frz_sets.specs.Sound.{IsSound};

use crate::game_graph::GameGraph;
use crate::graph::Graph;
use crate::notes::Notes;
use crate::passes::{solve, solve_noted};
use crate::tally::Tally;
use frz_board::{Colour, NoMemory};
use frz_exits::ExitBook;
use frz_game::Game;
use frz_game::laws::tables::tables;
use frz_graph::Lists;
use frz_steps::Steps;
use frz_unmove::Preds;
use std::alloc::Global;
use std::marker::Model;
use std::sync::ledger::Ledger;

/// The lists of a solver that serves both sides of a game, one after the other. They hold, for each
/// number, its entry for the side that is solved and a note of what it begins with for the other.
pub struct BothSides {
    tally: Tally,
    notes: Notes,
    lists: Lists,
    preds: Preds,
}

impl Drop for BothSides {
    fn drop(self) {
        let BothSides {
            tally: _,
            notes: _,
            lists: _,
            preds: _,
        } = self;
    }
}

impl Model for BothSides {
    ghost use Rattle.std.specs.Prelude.{◌≡◌, length};
    ghost use Rattle.frz_retro.specs.Notes.{HasRoom, Kept};

    ghost Value = { Kept };

    ghost view = { λ b. record { entries = b.tally.codes; notes = b.notes } };

    ghost invariant = { λ b. HasRoom (length b.tally.codes) b.notes };
}

impl BothSides {
    /// Allocates the lists for `size` numbers: 16 bytes for each number, and those of [`Preds`]. It
    /// answers [`NoMemory`] if memory runs out.
    pub fn new(alloc: Global, size: u32) -> Result<BothSides, NoMemory>
        ensures { IfOk result (λ b. length b.entries ≡ size) }
    {
        Ok(BothSides {
            tally: Tally::new(alloc, size)?,
            notes: Notes::new(alloc, size)?,
            lists: Lists::new(),
            preds: Preds::new(alloc)?,
        })
    }

    /// Solves the game for `side`, and keeps notes of what each number begins with for the other
    /// side, so that `run_second` can follow. It takes at most two steps a number.
    pub fn run<G: Graph<L>, L: Ledger>(&mut self, graph: &G, side: Colour, steps: &mut Steps<L>)
        requires sound { G.sound graph.now }
        requires size { length self.old.entries ≡ G.count graph.now }
        ensures exact { IsExact (G.arena graph.now) side (G.count graph.now) self.new.entries }
        ensures noted { AreNoted (G.arena graph.now) (G.count graph.now) (other_of side)
            (G.count graph.now) self.new.notes }
        ensures cost { steps.new ≤ steps.old + 2 * G.count graph.now }
        ensures later { steps.old ≤ steps.new }
    {
        solve(
            graph,
            side,
            &mut self.tally,
            &mut self.notes,
            &mut self.lists,
            &mut self.preds,
            steps,
        );
    }

    /// Solves the game for `side` from the notes that `run` kept for it, when it solved the game
    /// for the other side. It takes at most one step a number.
    pub fn run_second<G: Graph<L>, L: Ledger>(
        &mut self,
        graph: &G,
        side: Colour,
        steps: &mut Steps<L>,
    )
        requires sound { G.sound graph.now }
        requires size { length self.old.entries ≡ G.count graph.now }
        requires noted { AreNoted (G.arena graph.now) (G.count graph.now) side (G.count graph.now)
            self.old.notes }
        ensures exact { IsExact (G.arena graph.now) side (G.count graph.now) self.new.entries }
        ensures cost { steps.new ≤ steps.old + G.count graph.now }
        ensures later { steps.old ≤ steps.new }
    {
        solve_noted(
            graph,
            side,
            &self.notes,
            &mut self.tally,
            &mut self.preds,
            steps,
        );
    }

    /// Solves the game of sound rules for `side`, as `run` does: the entries become the codes of
    /// its bounds, and 0 at broken numbers.
    pub fn run_game<B: ExitBook, L: Ledger>(
        &mut self,
        game: &Game<'_, B>,
        side: Colour,
        steps: &mut Steps<L>,
    )
        requires sound { IsSound game.now.rules.now }
        requires size { length self.old.entries ≡ size_of game.now.rules.now.groups }
        ensures table { IsTableOf game.now.rules.now (B.value_at game.now.book.now) side
            self.new.entries }
        ensures noted { let size = size_of game.now.rules.now.groups in
            AreNoted (graph_by game.now.rules.now (B.value_at game.now.book.now)) size
            (other_of side) size self.new.notes }
        ensures cost { steps.new ≤ steps.old + 2 * size_of game.now.rules.now.groups }
        ensures later { steps.old ≤ steps.new }
    {
        tables();
        self.run(&GameGraph::new(game), side, steps);
    }

    /// Solves the game of sound rules for the side of which `run_game` kept the notes, as
    /// `run_second` does: the entries become the codes of its bounds, and 0 at broken numbers.
    pub fn run_game_second<B: ExitBook, L: Ledger>(
        &mut self,
        game: &Game<'_, B>,
        side: Colour,
        steps: &mut Steps<L>,
    )
        requires sound { IsSound game.now.rules.now }
        requires size { length self.old.entries ≡ size_of game.now.rules.now.groups }
        requires noted { let size = size_of game.now.rules.now.groups in
            AreNoted (graph_by game.now.rules.now (B.value_at game.now.book.now)) size side size
            self.old.notes }
        ensures table { IsTableOf game.now.rules.now (B.value_at game.now.book.now) side
            self.new.entries }
        ensures cost { steps.new ≤ steps.old + size_of game.now.rules.now.groups }
        ensures later { steps.old ≤ steps.new }
    {
        tables();
        self.run_second(&GameGraph::new(game), side, steps);
    }

    /// The entries, one for each number.
    pub fn entries(&self) -> &[u32]
        ensures { result.now ≡ self.now.entries }
    {
        self.tally.codes()
    }
}
