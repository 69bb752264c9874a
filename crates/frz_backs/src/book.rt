//! The values of exits by exit lines, with several tables behind them.

ghost use Rattle.std.specs.Prelude.{◌≡◌, map};
ghost use Rattle.frz_exits.specs.Books.{first_value as line_value};
ghost use Rattle.frz_fide.specs.Valid.{IsValid};
ghost use Rattle.frz_chain.specs.SmallLags.{HasSmallLags};
ghost use Rattle.frz_sets.specs.Sound.{IsSound};
ghost use Rattle.frz_backs.specs.Behind.{lines_behind as lines_after};
ghost use Rattle.frz_backs.specs.Counts.{counts_of};
ghost use Rattle.frz_backs.specs.FileOn.{loaded_back};
ghost use Rattle.frz_backs.specs.Values as words;

use crate::behind::{lines_behind, value_of};
use crate::codes::codes_on;
use crate::counts::Counts;
use frz_board::Position;
use frz_chain::{BackTable, pair_value};
use frz_exits::{ExitBook, RuleBook};
use frz_fide::Bitboards;
use frz_sets::{Exit, Rules, Value};

/// A book, the rule that gives each exit its value: by the exit lines of the rules; where these say
/// nothing, by the first table whose set holds the position; where none holds it, by the lines
/// behind all tables. It keeps these lines and whose wins count. The ghost field `small` keeps that
/// no value gives more than 1,000 plies to mate.
#[derive(Clone, Copy)]
pub struct AtlasBook<'a> {
    pub rules: &'a Rules,
    pub backs: &'a [BackTable],
    pub counts: Counts,
    pub behind: &'a [Exit],
    pub ghost counted: { counts ≡ counts_of (map loaded_back backs.now) },
    pub ghost lines: { behind.now ≡ lines_after rules.now.exits },
    pub ghost small: { HasSmallLags (words.atlas_value rules.now (map loaded_back backs.now)) },
}

impl<'a> AtlasBook<'a> {
    /// The book of sound rules with these tables behind them, which are asked in their order.
    pub fn new(rules: &'a Rules, backs: &'a [BackTable]) -> AtlasBook<'a>
        requires { IsSound rules.now }
        ensures rules { result.rules.now ≡ rules.now }
        ensures backs { result.backs.now ≡ backs.now }
    {
        let counts = Counts::of(backs);
        let behind = lines_behind(&rules.exits);
        AtlasBook {
            rules,
            backs,
            counts,
            behind,
        }
    }
}

/// A win as it is told, with the plies of the winner's code where his wins count.
fn with_plies(counts: Counts, white: u32, black: u32, value: Value) -> Value
    ensures { result ≡ words.with_plies counts white black value }
{
    match value {
        Value::WhiteWins if counts.white => Value::WhiteWinsIn(white.saturating_sub(2) / 2),
        Value::BlackWins if counts.black => Value::BlackWinsIn(black.saturating_sub(2) / 2),
        _ => value,
    }
}

impl AtlasBook<'_> {
    /// What the first table whose set holds the position tells of it; where no set does, the value
    /// by the lines behind all tables.
    fn told(&self, q: &Bitboards) -> Value
        requires { IsValid q.now }
        ensures { result ≡ words.first_value self.now.counts
            (line_value self.now.behind.now q.now) (map loaded_back self.now.backs.now) q.now }
    {
        for back in self.backs {
            if let Some((white, black)) = codes_on(back, q) {
                return with_plies(self.counts, white, black, pair_value(white, black));
            }
        }
        value_of(self.behind, q)
    }
}

impl ExitBook for AtlasBook<'_> {
    ghost value_at = { λ book q.
        words.atlas_value book.rules.now (map loaded_back book.backs.now) q };

    ghost small = { λ book q valid. book.small q valid };

    fn value(&self, q: &Position) -> Value {
        self.value_on(&Bitboards::of(q))
    }

    fn value_on(&self, q: &Bitboards) -> Value {
        let rules = RuleBook { rules: self.rules };
        match rules.value_on(q) {
            Value::Unknown => self.told(q),
            value => value,
        }
    }
}
