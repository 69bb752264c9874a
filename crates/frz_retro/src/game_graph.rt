//! The restricted game of rules as a graph that the solver walks forward and backward.

ghost use Rattle.std.specs.Prelude.{◌≡◌};
ghost use Rattle.std.specs.List.{list_any};
ghost use Rattle.frz_board.specs.Men.{same_colour};
ghost use Rattle.frz_sets.specs.Sets.{size_of};
ghost use Rattle.frz_sets.specs.Sound.{IsSound};
ghost use Rattle.frz_game.specs.Games.{graph_by};
ghost use Rattle.frz_retro.specs.GameGraphs.{IsGameGraph};

use crate::graph::Graph;
use crate::moves::game_moves;
use frz_arena::Node;
use frz_board::{Colour, Move};
use frz_exits::{ExitBook, allowed};
use frz_game::Game;
use frz_game::laws::numbers::{different_arms, numbered};
use frz_graph::{Lists, NumberedGame};
use frz_sets::Rules;
use frz_steps::Steps;
use frz_unmove::{Preds, unmoves};
use std::sync::ledger::Ledger;

/// Whether the rules have a forbid line for `side`.
fn is_restricted(rules: &Rules, side: Colour) -> bool
    ensures { result ≡ list_any (λ line. same_colour line.colour side) rules.now.forbids }
{
    rules.forbids.iter().any(|line| line.colour == side)
}

/// The restricted game of rules as a [`Graph`]: its legal moves, and these moves taken back.
#[derive_where(Clone, Copy)]
pub struct GameGraph<'a, B: ExitBook> {
    pub game: &'a Game<'a, B>,
}

impl<'a, B: ExitBook> GameGraph<'a, B> {
    /// The graph of a game of sound rules.
    pub fn new(game: &'a Game<'a, B>) -> GameGraph<'a, B>
        requires { IsSound game.now.rules.now }
        ensures game { result.game.now ≡ game.now }
        ensures sound { IsGameGraph game.now.set.now game.now.rules.now
            (B.value_at game.now.book.now) }
    {
        numbered();
        different_arms();
        GameGraph { game }
    }
}

impl<B: ExitBook, L: Ledger> NumberedGame<L> for GameGraph<'_, B> {
    ghost arena = { λ graph.
        graph_by graph.game.now.rules.now (B.value_at graph.game.now.book.now) };

    ghost count = { λ graph. size_of graph.game.now.rules.now.groups };

    ghost sound = { λ graph. IsGameGraph graph.game.now.set.now graph.game.now.rules.now
        (B.value_at graph.game.now.book.now) };

    ghost finite = { λ graph sound. sound.finite };

    fn size(&self) -> u32 {
        self.game.set.size()
    }

    fn nexts_by(&self, i: u32, lists: &mut Lists, steps: &mut Steps<L>) -> Node {
        self.game
            .nexts_by(i, &mut lists.moves, &mut lists.nexts, steps)
    }
}

impl<B: ExitBook, L: Ledger> Graph<L> for GameGraph<'_, B> {
    ghost different = { λ graph sound. sound.different };

    fn preds(&self, q: u32, out: &mut Preds, steps: &mut Steps<L>) {
        game_moves();
        unmoves(self.game.set, q, out, steps);
    }

    fn mover(&self, i: u32) -> Colour {
        game_moves();
        self.game.set.mover(i)
    }

    fn free(&self, i: u32, mv: Move) -> bool {
        game_moves();
        let mover = self.game.set.mover(i);
        if !is_restricted(self.game.rules, mover) {
            return true;
        }
        match self.game.set.boards_at(i) {
            Some(p) => allowed(self.game.rules, p.turn(), p.as_position(), mv),
            None => unreachable!(),
        }
    }
}
