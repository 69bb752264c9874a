//! The game as solvers see it; that it is finite is the law `laws::numbers::numbered`.

ghost use Rattle.frz_sets.specs.Sets.{size_of};
ghost use Rattle.frz_graph.specs.Finite.{IsFinite};
ghost use Rattle.frz_game.specs.Games.{graph_by};

use crate::game::Game;
use frz_arena::Node;
use frz_graph::{ExitBook, Lists, NumberedGame};
use frz_steps::Steps;
use std::sync::ledger::Ledger;

impl<B: ExitBook, L: Ledger> NumberedGame<L> for Game<'_, B> {
    ghost arena = { λ game. graph_by game.rules.now (B.value_at game.book.now) };

    ghost count = { λ game. size_of game.rules.now.groups };

    ghost sound = { λ game. IsFinite (graph_by game.rules.now (B.value_at game.book.now))
        (size_of game.rules.now.groups) };

    ghost finite = { λ game sound. sound };

    fn size(&self) -> u32 {
        self.set.size()
    }

    fn nexts_by(&self, i: u32, lists: &mut Lists, steps: &mut Steps<L>) -> Node {
        Game::nexts_by(self, i, &mut lists.moves, &mut lists.nexts, steps)
    }
}
