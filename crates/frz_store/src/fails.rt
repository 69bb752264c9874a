//! The planned failures of an object in memory: which of its calls are to fail.
ghost use Rattle.std.specs.Prelude.{◌≡◌};
ghost use Rattle.frz_store.specs.Outside.{IsNext};
ghost use Rattle.frz_store.specs.Fails.{counts, next_number, names, due_of, after, new_plan};

use crate::count::Count;
use std::marker::Model;

/// Which calls a `Fail` counts: all calls of the object (`Call`), or those of one function of a
/// store.
#[derive(Clone, Copy, Debug, PartialEq, Eq, Drop)]
pub enum FailOn {
    Call,
    Size,
    Read,
    Create,
    Append,
}

/// A planned failure: the `nth` of the calls that `on` counts, from 1, is to fail. A failing
/// `append` or `write` still keeps the first `keep` bytes of its piece.
#[derive(Clone, Copy, PartialEq, Eq, Drop)]
pub struct Fail {
    pub on: FailOn,
    pub nth: u64,
    pub keep: u64,
}

/// The planned failures of an object, and how many calls of each kind it has had.
#[derive(Drop)]
pub struct FailPlan {
    fails: Vec<Fail>,
    calls: Count,
    sizes: Count,
    reads: Count,
    creates: Count,
    appends: Count,
}

impl Model for FailPlan {
    ghost use Rattle.frz_store.specs.Outside.{IsNext};
    ghost use Rattle.frz_store.specs.Fails.{Plan};

    ghost Value = { Plan };

    ghost view = { λ plan. record {
      fails = plan.fails.items;
      calls = plan.calls;
      sizes = plan.sizes;
      reads = plan.reads;
      creates = plan.creates;
      appends = plan.appends;
    } };
}

impl FailPlan {
    /// A plan before the first call.
    pub fn new(fails: Vec<Fail>) -> FailPlan
        ensures { result ≡ new_plan fails.items }
    {
        FailPlan {
            fails,
            calls: Count::new(),
            sizes: Count::new(),
            reads: Count::new(),
            creates: Count::new(),
            appends: Count::new(),
        }
    }

    /// Counts a call. Answers how many bytes of its piece the call keeps if it is to fail, else
    /// `None`.
    pub fn next(&mut self, on: FailOn) -> Option<u64>
        ensures due { result ≡ due_of self.old on }
        ensures after { self.new ≡ after self.old on }
        ensures calls { IsNext self.old.calls self.new.calls }
    {
        let due = self.due(on);
        self.count(on);
        due
    }

    fn due(&self, on: FailOn) -> Option<u64>
        ensures { result ≡ due_of self.now on }
    {
        self.fails
            .iter()
            .find(|fail| self.names(on, fail))
            .map(|fail| fail.keep)
    }

    fn names(&self, on: FailOn, fail: &Fail) -> bool
        ensures { result ≡ names self.now on fail.now }
    {
        fail.on.counts(on) && fail.nth == self.next_number(fail.on)
    }

    fn next_number(&self, on: FailOn) -> u64
        ensures { result ≡ next_number self.now on }
    {
        match on {
            FailOn::Call => self.calls.next(),
            FailOn::Size => self.sizes.next(),
            FailOn::Read => self.reads.next(),
            FailOn::Create => self.creates.next(),
            FailOn::Append => self.appends.next(),
        }
    }

    fn count(&mut self, on: FailOn)
        ensures after { self.new ≡ after self.old on }
        ensures calls { IsNext self.old.calls self.new.calls }
    {
        self.calls.add(1);
        match on {
            FailOn::Call => {}
            FailOn::Size => self.sizes.add(1),
            FailOn::Read => self.reads.add(1),
            FailOn::Create => self.creates.add(1),
            FailOn::Append => self.appends.add(1),
        }
    }
}

impl FailOn {
    /// Whether an entry on `self` counts the calls of the kind `name`.
    fn counts(self, name: FailOn) -> bool
        ensures { result ≡ counts self name }
    {
        self == FailOn::Call || self == name
    }
}
