//! What the bounds of a side are in chess: by the exit lines that are believed, by the lines that
//! renounce moves, and by the values of the exits.
ghost use Rattle.std.specs.Prelude.{◌≡◌, ◌≤◌, ◌+◌, ◌++◌, ◌∷◌, [], List};
ghost use Rattle.frz_sets.specs.declared.exit.Value.{Value as ExitValue};
ghost use Rattle.frz_sets.specs.Sets.{size_of};
ghost use Rattle.frz_exits.specs.Values.{class_of};
ghost use Rattle.frz_game.specs.ExactTables as exactness;
ghost use Rattle.frz_premises.specs.Sides as words;
ghost use Rattle.frz_premises.specs.Sides.{exits_tell, is_bad, values_after, values_tell};

use frz_board::Colour;
use frz_exits::{Class, ExitBook, class};
use frz_game::{Arm, Game, Lists, Next};
use frz_sets::{Rules, Value};
use frz_steps::Steps;
use std::sync::ledger::Ledger;

/// What the values of the exits of a set are.
#[derive(Clone, Copy)]
pub struct ExitValues {
    /// Each says who wins, or that the game is drawn.
    pub decided: bool,
    /// Some is bad for White: it says neither that White wins nor that he holds.
    pub bad_for_white: bool,
    /// The same for Black.
    pub bad_for_black: bool,
}

/// What the bounds of a side are in chess.
#[derive(Clone, Copy, PartialEq, Eq)]
pub enum Strength {
    /// They rest on exit lines that are believed.
    Believed,
    /// They are lower bounds, since a line renounces moves of the side.
    Renounced,
    /// They are lower bounds, since the value of some exit does not decide the game.
    Undecided,
    /// The outcomes are those of chess; a win may be quicker than its plies.
    Outcomes,
    /// They are the value of chess, and the plies of a win are those of the quickest mate.
    Exact,
}

/// Does the value say who wins, or that the game is drawn?
fn is_decided(v: Value) -> bool
    ensures { result ≡ exactness.is_decided v }
{
    match v {
        Value::WhiteHolds | Value::BlackHolds | Value::Unknown => false,
        _ => true,
    }
}

/// Is the value bad for the side?
fn is_bad_for(v: Value, side: Colour) -> bool
    ensures { result ≡ is_bad (class_of v side) }
{
    match class(v, side) {
        Class::Bad => true,
        _ => false,
    }
}

impl ExitValues {
    /// Those of no exit.
    fn none() -> ExitValues
        ensures { result ≡ values_tell [] }
    {
        ExitValues {
            decided: true,
            bad_for_white: false,
            bad_for_black: false,
        }
    }

    /// The same with one more value.
    fn with(self, v: Value) -> ExitValues
        ensures { (values : List ExitValue) → self ≡ values_tell values →
            result ≡ values_tell (values ++ v ∷ []) }
    {
        ExitValues {
            decided: self.decided && is_decided(v),
            bad_for_white: self.bad_for_white || is_bad_for(v, Colour::White),
            bad_for_black: self.bad_for_black || is_bad_for(v, Colour::Black),
        }
    }

    /// The same with the value of this move, if it leads out of the set.
    fn with_arm(self, arm: Arm) -> ExitValues
        ensures { (values : List ExitValue) → self ≡ values_tell values →
            result ≡ values_tell (values ++ values_after (arm ∷ [])) }
    {
        match arm.next {
            Next::Inside(_) => self,
            Next::Outside(v) => self.with(v),
        }
    }

    /// The same with the values of those of these moves that lead out of the set.
    fn with_all(self, arms: &[Arm]) -> ExitValues
        ensures { (values : List ExitValue) → self ≡ values_tell values →
            result ≡ values_tell (values ++ values_after arms.now) }
    {
        let mut told = self;
        for arm in arms {
            told = told.with_arm(*arm);
        }
        told
    }

    /// Is some value bad for the side?
    pub fn bad_for(self, side: Colour) -> bool
        ensures { result ≡ words.bad_for self side }
    {
        match side {
            Colour::White => self.bad_for_white,
            Colour::Black => self.bad_for_black,
        }
    }
}

/// What the values of all exits are, by the book of the game. The moves of each number are listed
/// once.
pub fn exit_values<B: ExitBook, L: Ledger>(game: &Game<'_, B>, steps: &mut Steps<L>) -> ExitValues
    ensures told { result
        ≡ exits_tell game.now.rules.now (B.value_at game.now.book.now) }
    ensures steps { steps.new ≤ steps.old + size_of game.now.rules.now.groups }
    ensures later { steps.old ≤ steps.new }
{
    let mut lists = Lists::new();
    let mut told = ExitValues::none();
    for number in 0..game.set.size() {
        game.nexts_by(number, &mut lists.moves, &mut lists.nexts, steps);
        told = told.with_all(lists.nexts.as_slice());
    }
    told
}

/// Does some line forbid the side a move?
fn renounces(rules: &Rules, side: Colour) -> bool
    ensures { result ≡ words.renounces rules.now side }
{
    rules.forbids.iter().any(|line| line.colour == side)
}

/// What the bounds of a side are in chess, where so many exit lines are believed, of the rules and
/// of all tables behind them.
pub fn strength_of(rules: &Rules, believed: usize, values: ExitValues, side: Colour) -> Strength
    ensures { result ≡ words.strength_of rules.now believed values side }
{
    if 0 < believed {
        Strength::Believed
    } else if renounces(rules, side) {
        Strength::Renounced
    } else if !values.decided {
        Strength::Undecided
    } else if values.bad_for(side.other()) {
        Strength::Outcomes
    } else {
        Strength::Exact
    }
}
