//! What is known of an exit line by the exits that were looked at so far.
ghost use Rattle.std.specs.Prelude.{◌≡◌, ◌<◌, ◌&&◌, ◌++◌, ◌∷◌, [], ℕ, List, length, map, IfOk, slice_index_or, true, false};
ghost use Rattle.std.specs.List.{list_any, position_from};
ghost use Rattle.frz_board.specs.Boards.{Board};
ghost use Rattle.frz_fide.specs.Valid.{IsValid};
ghost use Rattle.frz_sets.specs.Views.{ExitLine};
ghost use Rattle.frz_backs.specs.Links.{Link};
ghost use Rattle.frz_backs.specs.BackTable.{BackTable as Table};
ghost use Rattle.frz_premises.specs.Bases as words;
ghost use Rattle.frz_premises.specs.Saying as saying;
ghost use Rattle.frz_backs.specs.Loaded.{link_loaded};

use crate::basis::Basis;
use crate::men::men_show;
use crate::saying::says_as_much;
use frz_backs::BackTable;
use frz_bits::Bitboards;
use frz_board::Position;
use frz_exits::is_unknown;
use frz_sets::Value;
use std::alloc::{AllocError, Global};

/// What is known of an exit line with this value so far: whether it decided an exit, and whether the
/// men did not show the value at one of them. Of these others, the first where no table says as
/// much, and for each table, as long as there is no such exit, whether it said as much at each.
#[derive(Drop)]
pub struct Trial {
    pub value: Value,
    pub has_exits: bool,
    pub is_asked: bool,
    pub need: Option<Position>,
    pub says: Vec<bool>,
}

/// Notes at one more exit which tables still said as much at each. Answers whether one of them says
/// as much at this exit.
fn hear(says: &mut [bool], value: Value, backs: &[BackTable], q: &Bitboards) -> bool
    requires valid { IsValid q.now }
    requires many { length says.old ≡ length backs.now }
    ensures said { result
        ≡ list_any (λ back. saying.says_as_much value (link_loaded back) q.now) backs.now }
    ensures heard { (k : ℕ) (back : Table) → k < length backs.now →
        slice_index_or says.new k false ≡ (slice_index_or says.old k false
        && saying.says_as_much value (link_loaded (slice_index_or backs.now k back)) q.now) }
{
    let mut said = false;
    for (k, back) in backs.iter().enumerate() {
        if says_as_much(value, back, q) {
            said = true;
        } else {
            says[k] = false;
        }
    }
    said
}

/// The first place of the list where it is true.
fn first_true(says: &[bool]) -> Option<usize>
    ensures { result ≡ position_from (λ said. said) 0 says.now }
{
    says.iter().position(|said| *said)
}

/// What the line rests on by the tables alone.
fn by_need(need: Option<Position>, place: Option<usize>) -> Basis
    ensures { result ≡ words.by_need need place }
{
    match (need, place) {
        (Some(q), _) => Basis::Believed(q),
        (None, Some(k)) => Basis::ByTable(k),
        (None, None) => Basis::ByTables,
    }
}

impl Trial {
    ghost use Rattle.frz_premises.specs.Trials.{IsHeard, IsTried};

    /// Of a line with this value that has decided no exit yet, with so many tables.
    pub fn new(alloc: Global, value: Value, tables: usize) -> Result<Trial, AllocError>
        ensures { IfOk result (λ trial. (links : List Link) (line : ExitLine) →
            line.value ≡ value → length links ≡ tables → IsTried links line [] trial) }
    {
        Ok(Trial {
            value,
            has_exits: false,
            is_asked: false,
            need: None,
            says: vec![in alloc; true; tables]?,
        })
    }

    /// Notes one more exit at which the men do not show the value.
    fn ask(&mut self, backs: &[BackTable], q: &Bitboards)
        requires valid { IsValid q.now }
        requires many { length self.old.says.items ≡ length backs.now }
        ensures value { self.new.value ≡ self.old.value }
        ensures has_exits { self.new.has_exits ≡ self.old.has_exits }
        ensures is_asked { self.new.is_asked ≡ true }
        ensures many { length self.new.says.items ≡ length backs.now }
        ensures heard { (line : ExitLine) (qs : List Board) → line.value ≡ self.old.value →
            IsHeard (map link_loaded backs.now) line qs self.old →
            IsHeard (map link_loaded backs.now) line (qs ++ q.now ∷ []) self.new }
    {
        self.is_asked = true;
        if self.need.is_none() {
            let said = hear(&mut self.says, self.value, backs, q);
            if !said {
                self.need = Some(*q.as_position());
            }
        }
    }

    /// Notes one more exit that the line decides.
    pub fn note(&mut self, backs: &[BackTable], q: &Bitboards)
        requires valid { IsValid q.now }
        requires many { length self.old.says.items ≡ length backs.now }
        ensures { (line : ExitLine) (qs : List Board) →
            IsTried (map link_loaded backs.now) line qs self.old →
            IsTried (map link_loaded backs.now) line (qs ++ q.now ∷ []) self.new }
    {
        self.has_exits = true;
        if !men_show(self.value, q) {
            self.ask(backs, q);
        }
    }

    /// What the line rests on by the exits so far.
    pub fn basis(&self) -> Basis
        ensures { (links : List Link) (line : ExitLine) (qs : List Board) →
            IsTried links line qs self.now → result ≡ words.basis_at links line.value qs }
    {
        if !self.has_exits || is_unknown(self.value) {
            return Basis::AsksNothing;
        }
        if !self.is_asked {
            return Basis::ByMen;
        }
        by_need(self.need, first_true(&self.says))
    }
}
