//! The open exits of a set, which no exit line values, counted by their classes.
ghost use Rattle.std.specs.Prelude.{◌≡◌, ◌≤◌, ◌<◌, ◌+◌, ◌^◌, ◌++◌, ◌∷◌, [], ℕ, List, All, length, true, OnOk};
ghost use Rattle.frz_board.specs.Boards.{Board};
ghost use Rattle.frz_fide.specs.Legal.{is_legal};
ghost use Rattle.frz_fide.specs.Valid.{IsValid};
ghost use Rattle.frz_report.specs.Census.{times as times_among};
ghost use Rattle.frz_report.specs.Exits.{class_of as class_of_board, classes_after, is_open as is_open_exit, positions_after};
ghost use Rattle.frz_report.specs.Walks.{Counts, IsFirsts, KeepsFirsts};

use crate::class::{Class, class_of};
use frz_bits::Bitboards;
use frz_board::{NoMemory, Position};
use frz_fide::after;
use frz_game::{Arm, Next};
use frz_sets::Value;
use indexmap::IndexMap;
use std::alloc::Global;

/// The limit of a census: it counts fewer exits than this, so that its counts fit in 64 bits.
pub const MOST_EXITS: u64 = 1 << 62;

/// How many open exits have each class, in the order in which the classes are first met, the first
/// position of each class, and how many exits there are in all.
pub struct Census {
    pub classes: IndexMap<Class, u64>,
    pub firsts: Vec<Position>,
    pub total: u64,
}

impl Drop for Census {
    fn drop(self) {
        let Census {
            classes: _,
            firsts: _,
            total: _,
        } = self;
    }
}

/// Does the move lead out of the set, to a position of no known value?
fn is_open(next: Next) -> bool
    ensures { result ≡ is_open_exit next }
{
    matches!(next, Next::Outside(Value::Unknown))
}

impl Census {
    /// A census in which no exit is counted yet.
    pub fn new(alloc: Global) -> Census
        ensures total { result.total ≡ 0 }
        ensures none { Counts result.classes.entries [] }
        ensures firsts { KeepsFirsts result.classes.entries result.firsts.items [] }
    {
        Census {
            classes: IndexMap::new(alloc),
            firsts: Vec::new(alloc),
            total: 0,
        }
    }

    /// How many open exits of this class were counted.
    pub fn times(&self, class: &Class) -> u64
        ensures { (exits : List (List ℕ)) → Counts self.now.classes.entries exits →
            result ≡ times_among exits class.now.bytes }
    {
        self.classes.get(class).copied().unwrap_or(0)
    }

    /// Keeps a position of this class, if it is the first.
    fn keep_first(&mut self, class: &Class, q: &Position) -> Result<(), NoMemory>
        requires valid { IsValid q.now }
        requires class { class.now.bytes ≡ class_of_board q.now }
        ensures classes { self.new.classes.entries ≡ self.old.classes.entries }
        ensures total { self.new.total ≡ self.old.total }
        ensures firsts { OnOk result ((exits : List Board)
            → KeepsFirsts self.old.classes.entries self.old.firsts.items exits
            → IsFirsts self.new.firsts.items (exits ++ q.now ∷ [])) }
    {
        if self.times(class) > 0 {
            return Ok(());
        }
        match self.firsts.push(*q) {
            Ok(()) => Ok(()),
            Err(_) => Err(NoMemory),
        }
    }

    /// Counts one more open exit, of this class.
    fn note(&mut self, class: Class) -> Result<(), NoMemory>
        requires { (exits : List (List ℕ)) × Counts self.old.classes.entries exits
            × (self.old.total ≡ length exits) × (length exits < MOST_EXITS) }
        ensures total { OnOk result (self.new.total ≡ self.old.total + 1) }
        ensures counts { OnOk result
            ((exits : List (List ℕ)) → Counts self.old.classes.entries exits →
            Counts self.new.classes.entries (exits ++ class.bytes ∷ [])) }
        ensures firsts { self.new.firsts.items ≡ self.old.firsts.items }
    {
        let before = self.times(&class);
        match self.classes.insert(class, before + 1) {
            Ok(_) => {
                self.total += 1;
                Ok(())
            }
            Err(_) => Err(NoMemory),
        }
    }

    /// Counts one more open exit, to this position.
    fn note_position(&mut self, q: &Position) -> Result<(), NoMemory>
        requires valid { IsValid q.now }
        requires counts { (exits : List (List ℕ)) × Counts self.old.classes.entries exits
            × (self.old.total ≡ length exits) × (length exits < MOST_EXITS) }
        ensures total { OnOk result (self.new.total ≡ self.old.total + 1) }
        ensures counts { OnOk result
            ((exits : List (List ℕ)) → Counts self.old.classes.entries exits →
            Counts self.new.classes.entries (exits ++ class_of_board q.now ∷ [])) }
        ensures firsts { OnOk result ((exits : List Board)
            → KeepsFirsts self.old.classes.entries self.old.firsts.items exits
            → KeepsFirsts self.new.classes.entries self.new.firsts.items
            (exits ++ q.now ∷ [])) }
    {
        let class = class_of(q);
        self.keep_first(&class, q)?;
        self.note(class)
    }

    /// Counts a move of a position, if it is an open exit.
    fn note_if_open(&mut self, p: &Bitboards, arm: Arm) -> Result<(), NoMemory>
        requires valid { IsValid p.now }
        requires legal { is_legal p.now arm.mv ≡ true }
        requires counts { (exits : List (List ℕ)) × Counts self.old.classes.entries exits
            × (self.old.total ≡ length exits) × (length exits < MOST_EXITS) }
        ensures total { OnOk result (self.new.total
            ≡ self.old.total + length (classes_after p.now (arm ∷ []))) }
        ensures counts { OnOk result
            ((exits : List (List ℕ)) → Counts self.old.classes.entries exits →
            Counts self.new.classes.entries (exits ++ classes_after p.now (arm ∷ []))) }
        ensures firsts { OnOk result ((exits : List Board)
            → KeepsFirsts self.old.classes.entries self.old.firsts.items exits
            → KeepsFirsts self.new.classes.entries self.new.firsts.items
            (exits ++ positions_after p.now (arm ∷ []))) }
    {
        if is_open(arm.next) {
            let q = after(p, arm.mv);
            self.note_position(q.as_position())
        } else {
            Ok(())
        }
    }

    /// Counts the open exits among the moves of a position.
    pub fn note_all(&mut self, p: &Bitboards, arms: &[Arm]) -> Result<(), NoMemory>
        requires valid { IsValid p.now }
        requires legal { All (λ a. is_legal p.now a.mv ≡ true) arms.now }
        requires counts { (exits : List (List ℕ)) × Counts self.old.classes.entries exits
            × (self.old.total ≡ length exits) × (length exits + length arms.now < MOST_EXITS) }
        ensures total { OnOk result
            (self.new.total ≡ self.old.total + length (classes_after p.now arms.now)) }
        ensures counts { OnOk result
            ((exits : List (List ℕ)) → Counts self.old.classes.entries exits →
            Counts self.new.classes.entries (exits ++ classes_after p.now arms.now)) }
        ensures firsts { OnOk result ((exits : List Board)
            → KeepsFirsts self.old.classes.entries self.old.firsts.items exits
            → KeepsFirsts self.new.classes.entries self.new.firsts.items
            (exits ++ positions_after p.now arms.now)) }
    {
        for arm in arms {
            self.note_if_open(p, *arm)?;
        }
        Ok(())
    }
}
