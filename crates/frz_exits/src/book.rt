//! The values of positions outside the set: what a book is, and the book of a rules text.

ghost use Rattle.std.specs.Prelude.{◌≡◌, ◌≤◌};
ghost use Rattle.frz_board.specs.Boards.{Board};
ghost use Rattle.frz_fide.specs.Valid.{IsValid};
ghost use Rattle.frz_sets.specs.declared.exit.Value.{Value};
ghost use Rattle.frz_sets.specs.Sound.{IsSound};
ghost use Rattle.frz_exits.specs.Values.{lag_of};
ghost use Rattle.frz_exits.specs.Books.{value_by, first_value};

use crate::conditions::all_hold;
use frz_board::Position;
use frz_fide::Bitboards;
use frz_sets::{Exit, Rules, Value};

/// A book: a rule that gives each position outside the set its value.
pub trait ExitBook {
    /// The value of a valid position.
    ghost value_at: { Self → Board → Value };

    /// The value of the position.
    fn value(&self, q: &Position) -> Value
        requires { IsValid q.now }
        ensures { result ≡ value_at self.now q.now };

    /// The value of a position whose bitboards are at hand.
    fn value_on(&self, q: &Bitboards) -> Value
        requires { IsValid q.now }
        ensures { result ≡ value_at self.now q.now }
    {
        self.value(q.as_position())
    }

    /// No value names more than 1,000 plies.
    ghost small: { (book : Self) (q : Board) → IsValid q → lag_of (value_at book q) ≤ 1000 };
}

/// The book of a rules text: it gives the value of the first exit line whose conditions all hold,
/// and unknown where there is none.
#[derive(Clone, Copy)]
pub struct RuleBook<'a> {
    pub rules: &'a Rules,
    pub ghost small: { (q : Board) → IsValid q → lag_of (value_by rules.now q) ≤ 1000 },
}

impl<'a> RuleBook<'a> {
    /// The book of sound rules.
    pub fn new(rules: &'a Rules) -> RuleBook<'a>
        requires { IsSound rules.now }
        ensures { result.rules.now ≡ rules.now }
    {
        RuleBook { rules }
    }
}

impl ExitBook for RuleBook<'_> {
    ghost value_at = { λ book q. value_by book.rules.now q };

    ghost small = { λ book q valid. book.small q valid };

    fn value(&self, q: &Position) -> Value {
        let rules = self.rules;
        value_of(&rules.exits, &Bitboards::of(q))
    }

    fn value_on(&self, q: &Bitboards) -> Value {
        let rules = self.rules;
        value_of(&rules.exits, q)
    }
}

/// The value of the first line whose conditions all hold, or unknown.
fn value_of(lines: &[Exit], q: &Bitboards) -> Value
    requires { IsValid q.now }
    ensures { result ≡ first_value lines.now q.now }
{
    for line in lines {
        if all_hold(&line.conds, q) {
            return line.value;
        }
    }
    Value::Unknown
}
