//! The book that values an exit by the exit lines, and by a second table where these say nothing.

ghost use Rattle.std.specs.Prelude.{◌≡◌, length};
ghost use Rattle.frz_fide.specs.Valid.{IsValid};
ghost use Rattle.frz_game.specs.SmallLags.{HasSmallLags};
ghost use Rattle.frz_sets.specs.Sets.{size_of};
ghost use Rattle.frz_sets.specs.Sound.{IsSound};
ghost use Rattle.frz_chain.specs.Books.{back_value, back_with, chain_value};

use crate::pair::pair_value;
use frz_board::Position;
use frz_exits::{ExitBook, RuleBook};
use frz_fide::Bitboards;
use frz_index::Set;
use frz_sets::{Rules, Value};

/// The book of a chained table. It values an exit by the exit lines of the rules and, where these
/// say nothing, by the codes of a second table, the back table. Its type keeps that both lists have
/// a code for each number of the set of the back table, and that no value gives more than 1,000
/// plies to mate.
#[derive(Clone, Copy)]
pub struct ChainBook<'a> {
    pub rules: &'a Rules,
    pub back: &'a Set,
    pub white: &'a [u32],
    pub black: &'a [u32],
    pub ghost small: { HasSmallLags
        (chain_value rules.now (back_with back.now white.now black.now)) },
    pub ghost white_many: { length white.now ≡ size_of back.now },
    pub ghost black_many: { length black.now ≡ size_of back.now },
}

impl<'a> ChainBook<'a> {
    /// The book of sound rules with these codes behind their exit lines.
    pub fn new(rules: &'a Rules, back: &'a Set, white: &'a [u32], black: &'a [u32]) -> ChainBook<'a>
        requires sound { IsSound rules.now }
        requires white { length white.now ≡ size_of back.now }
        requires black { length black.now ≡ size_of back.now }
        ensures rules { result.rules.now ≡ rules.now }
        ensures back { back_with result.back.now result.white.now result.black.now
            ≡ back_with back.now white.now black.now }
    {
        ChainBook {
            rules,
            back,
            white,
            black,
        }
    }

    /// The value of the position by the back table: `Unknown` if its set does not hold the
    /// position.
    fn told(&self, q: &Bitboards) -> Value
        requires { IsValid q.now }
        ensures { result ≡ back_value
            (back_with self.now.back.now self.now.white.now self.now.black.now) q.now }
    {
        match self.back.number_on(q) {
            Some(i) => pair_value(self.white[i as usize], self.black[i as usize]),
            None => Value::Unknown,
        }
    }
}

impl ExitBook for ChainBook<'_> {
    ghost value_at = { λ book q.
        chain_value book.rules.now (back_with book.back.now book.white.now book.black.now) q };

    ghost small = { λ book q valid. book.small q valid };

    fn value(&self, q: &Position) -> Value {
        self.value_on(&Bitboards::of(q))
    }

    fn value_on(&self, q: &Bitboards) -> Value {
        let rules = RuleBook { rules: self.rules };
        match rules.value_on(q) {
            Value::Unknown => self.told(q),
            value => value,
        }
    }
}
