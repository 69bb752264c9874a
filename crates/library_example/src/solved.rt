//! The tables of a rules text in memory: solved once, and asked as often as one likes.

ghost use Rattle.std.specs.Prelude.{◌≡◌, ◌↔◌, Err, IsNone, IfOk, IfSome};
ghost use Rattle.frz_board.specs.declared.man.Colour.{Colour};
ghost use Rattle.frz_fide.specs.Valid.{IsValid};
ghost use Rattle.frz_sets.specs.Sound.{IsSound};
ghost use Rattle.frz_store.specs.Told.{sink_of};
ghost use Rattle.frz_rules.specs.Text.{Answers, rules_of};
ghost use Rattle.frz_index.specs.Members.{Member};
ghost use Rattle.frz_arena.specs.declared.bound.Bound.{Bound};
ghost use Rattle.frz_exits.specs.Books.{value_by};
ghost use Rattle.frz_graph.specs.EntryCodes.{of_side};
ghost use Rattle.frz_game.specs.Bounds.{IsBoundAt, IsTableOf};
ghost use Rattle.frz_game.specs.Meaning.{Means};
ghost use Rattle.frz_ways.specs.declared.end.LineFault.TheVariants.{Outside};
ghost use Rattle.frz_ways.specs.declared.session_end.PlayFault.TheVariants.{Line};
ghost use Rattle.library_example.specs.Lines.{PlaysLine};

use crate::laws::{HaltedInput, LeftInput, bounds_kept_in_lines};
use frz_arena::laws::sessions::sides_move_in_turn;
use frz_arena::laws::ways::ways_by_cases;
use frz_board::{Colour, Move, NoMemory, Position};
use frz_exits::RuleBook;
use frz_fide::laws::all_listed;
use frz_game::laws::meaning::bounds_mean;
use frz_game::laws::numbers::{different_arms, numbered};
use frz_game::laws::tables::tables;
use frz_game::{Bound, Entries, Game, Pair, bound_of};
use frz_index::Set;
use frz_retro::Workshop;
use frz_rules::{Rules, RulesError, Value, read_rules};
use frz_steps::Steps;
use frz_store::{Sink, SureSource};
use frz_ways::{Finish, LineFault, Opponent, PlayFault, Player, Reader, play_loaded};
use std::alloc::Global;
use std::marker::Model;
use std::sync::ledger::Ledger;

/// The rules of a text, with the code of each number for both sides. Contracts see only the rules.
#[derive(Drop)]
pub struct Solved {
    rules: Rules,
    set: Set,
    white: Workshop,
    black: Workshop,
}

impl Model for Solved {
    ghost use Rattle.frz_sets.specs.Views.{RuleLines};
    ghost use Rattle.library_example.specs.Solving.{IsSolved};

    ghost Value = { RuleLines };

    ghost view = { λ s. s.rules };

    ghost invariant = { λ s. IsSolved s.rules s.set s.white s.black };
}

/// The game of these rules over the numbers of their set, by their own book.
fn game_by<'a>(set: &'a Set, rules: &'a Rules, book: &'a RuleBook<'a>) -> Game<'a, RuleBook<'a>>
    requires { set.now ≡ rules.now.groups }
    ensures set { result.set.now ≡ set.now }
    ensures rules { result.rules.now ≡ rules.now }
    ensures book { result.book.now.rules.now ≡ book.now.rules.now }
{
    Game { set, rules, book }
}

impl Solved {
    /// Reads a rules text, and solves its game for both sides. A text that is refused gives its
    /// fault, the first. The answer is another only where memory ran out.
    pub fn new<L: Ledger>(
        alloc: Global,
        text: &[u8],
        steps: &mut Steps<L>,
    ) -> Result<Solved, RulesError>
        ensures { Answers result (rules_of text.now) }
    {
        let rules = read_rules(alloc, text)?;
        Solved::by_rules(alloc, rules, steps).map_err(|_| RulesError::NoMemory)
    }

    /// Solves the game of these rules for both sides.
    fn by_rules<L: Ledger>(
        alloc: Global,
        rules: Rules,
        steps: &mut Steps<L>,
    ) -> Result<Solved, NoMemory>
        requires { IsSound rules }
        ensures { IfOk result (λ solved. solved ≡ rules) }
    {
        let set = Set::new(alloc, &rules)?;
        let mut white = Workshop::new(alloc, set.size())?;
        let mut black = Workshop::new(alloc, set.size())?;
        let book = RuleBook::new(&rules);
        let game = game_by(&set, &rules, &book);
        white.run_game(&game, Colour::White, steps);
        black.run_game(&game, Colour::Black, steps);
        Ok(Solved {
            rules,
            set,
            white,
            black,
        })
    }

    /// The tables of both sides.
    fn codes(&self) -> Pair<'_>
        ensures { (side : Colour) → IsTableOf self.now (value_by self.now) side
            (of_side side result.white.now result.black.now) }
    {
        let (white, black) = (self.white.entries(), self.black.entries());
        Pair { white, black }
    }

    /// The bound of a side at a position. It is `None` exactly where the position is outside the
    /// set.
    pub fn bound(&self, side: Colour, p: &Position) -> Option<Bound>
        requires { IsValid p.now }
        ensures outside { IsNone result ↔ (Member self.now.groups p.now → ⊥) }
        ensures bound { IfSome result
            (λ bound. IsBoundAt self.now (value_by self.now) side p.now bound) }
        ensures chess { IfSome result (Means self.now (value_by self.now) side p.now) }
    {
        tables();
        bounds_mean();
        match self.set.number(p) {
            None => None,
            Some(number) => bound_of(self.codes().entry(side, number)),
        }
    }

    /// Plays the line from a position by the codes of a side, and writes it: the side's bound, the
    /// moves, and the end, one a line.
    pub fn line<O: Sink, L: Ledger>(
        &self,
        alloc: Global,
        side: Colour,
        p: &Position,
        out: &mut O,
        steps: &mut Steps<L>,
    ) -> Result<Finish, PlayFault>
        requires { IsValid p.now }
        ensures outside { (result ≡ Err (Line Outside)) ↔ (Member self.now.groups p.now → ⊥) }
        ensures untouched { result ≡ Err (Line Outside) → out.new ≡ out.old }
        ensures line { (bound : Bound) → Member self.now.groups p.now →
            IsBoundAt self.now (value_by self.now) side p.now bound →
            PlaysLine self.now side p.now bound result
            (sink_of O.Sink out.old) (sink_of O.Sink out.new) }
    {
        numbered();
        different_arms();
        all_listed();
        sides_move_in_turn::<Position, Move, Value>();
        bounds_kept_in_lines();
        ways_by_cases::<Move, (u32, u32), Value, LeftInput, HaltedInput>();
        let Some(start) = self.set.number(p) else {
            return Err(PlayFault::Line(LineFault::Outside));
        };
        let book = RuleBook::new(&self.rules);
        let game = game_by(&self.set, &self.rules, &book);
        let codes = self.codes();
        let opponent = Opponent::Codes;
        let player = Player { side, opponent };
        let reader = &mut Reader::new();
        let input = &mut SureSource::new(Vec::new(alloc));
        play_loaded(&game, &codes, player, start, reader, input, out, steps)
    }
}
