//! Which exit line or which table decided the value of a position outside a set.
ghost use Rattle.std.specs.Prelude.{◌≡◌, ◌<◌, length, map, IfSome};
ghost use Rattle.std.specs.List.{position_from};
ghost use Rattle.frz_fide.specs.Valid.{IsValid};
ghost use Rattle.frz_index.specs.Membership.{is_member};
ghost use Rattle.frz_sets.specs.Sound.{IsSound};
ghost use Rattle.frz_backs.specs.FileOn.{loaded_back};
ghost use Rattle.frz_backs.specs.Lines.{line_over};
ghost use Rattle.frz_commands_why.specs.Deciders as words;

use frz_backs::{BackTable, line_over};
use frz_bits::Bitboards;
use frz_exits::{ExitBook, RuleBook, is_unknown};
use frz_index::Set;
use frz_sets::Rules;

/// What decided the value of a position outside the set.
#[derive(Clone, Copy, PartialEq, Eq)]
pub enum Decider {
    /// The exit line with this number in its file; the first line has number 1.
    Line(u32),
    /// The table at this place behind the exit lines; the first has place 1.
    Behind(usize),
    /// No exit line fits, and no table's set holds the position.
    NoLine,
}

/// What decides the values of positions outside a set: exit lines, with their numbers in their
/// file, and the tables behind them.
#[derive(Clone, Copy)]
pub struct Deciding<'a> {
    pub leans: bool,
    pub rules: &'a Rules,
    pub numbers: &'a [u32],
    pub backs: &'a [BackTable],
}

/// Is the position in the set?
fn holds(set: &Set, q: &Bitboards) -> bool
    requires { IsValid q.now }
    ensures { result ≡ is_member set.now q.now }
{
    set.number_on(q).is_some()
}

/// The place of the first table whose set holds the position.
fn first_holding(backs: &[BackTable], q: &Bitboards) -> Option<usize>
    requires { IsValid q.now }
    ensures place { result
        ≡ position_from (λ back. is_member back.table.rules.groups q.now) 0 backs.now }
    ensures below { IfSome result (λ place. place < length backs.now) }
{
    backs.iter().position(|back| holds(back.table.set(), q))
}

/// The same place, by what these tables are behind exit lines.
fn holding_table(backs: &[BackTable], q: &Bitboards) -> Option<usize>
    requires { IsValid q.now }
    ensures place { result ≡ words.back_at (map loaded_back backs.now) q.now }
    ensures below { IfSome result (λ place. place < length backs.now) }
{
    first_holding(backs, q)
}

impl Deciding<'_> {
    /// The place of the table whose value counts: the exit lines say nothing of the position.
    fn asked_table(&self, q: &Bitboards) -> Option<usize>
        requires valid { IsValid q.now }
        requires sound { IsSound self.now.rules.now }
        ensures place { result
            ≡ words.asked_back self.now.leans self.now.rules.now
            (map loaded_back self.now.backs.now) q.now }
        ensures below { IfSome result (λ place. place < length self.now.backs.now) }
    {
        if self.leans && is_unknown(RuleBook::new(self.rules).value_on(q)) {
            holding_table(self.backs, q)
        } else {
            None
        }
    }

    /// The number in its file of the exit line that gives the value.
    fn fitting_number(&self, q: &Bitboards) -> Option<u32>
        requires valid { IsValid q.now }
        requires sound { IsSound self.now.rules.now }
        ensures { result ≡ words.number_at self.now.numbers.now
            (line_over self.now.leans self.now.rules.now (map loaded_back self.now.backs.now)
            q.now) }
    {
        let place = line_over(self.leans, self.rules, self.backs, q)?;
        self.numbers.get(place).copied()
    }

    /// What decided the value of the position: the exit line that fits first or, where the lines
    /// say nothing, the first table whose set holds the position; or a line behind all tables.
    #[tactic(auto, unfolding(crate::specs::Deciders::decider_of))]
    pub fn decider(&self, q: &Bitboards) -> Decider
        requires valid { IsValid q.now }
        requires sound { IsSound self.now.rules.now }
        ensures { result ≡ words.decider_of self.now.leans self.now.numbers.now self.now.rules.now
            (map loaded_back self.now.backs.now) q.now }
    {
        match (self.asked_table(q), self.fitting_number(q)) {
            (Some(place), _) => Decider::Behind(place + 1),
            (None, Some(number)) => Decider::Line(number),
            (None, None) => Decider::NoLine,
        }
    }
}
