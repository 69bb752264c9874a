//! A source in memory with planned failures.
ghost use Rattle.std.specs.Prelude.{◌≡◌, ◌<◌, ◌≤◌, min, ℕ, List, Some, is_err, IfOk, OnErr, length};
ghost use Rattle.frz_store.specs.Fails.{new_plan};
ghost use Rattle.frz_store.specs.MemSource.{left, faults, plan, fails_next, called, without_front};
ghost use Rattle.frz_store.specs.Outside.{Took, HasCause};

use crate::count::Count;
use crate::fails::{Fail, FailOn, FailPlan};
use crate::remaining::Remaining;
use crate::{Failed, Source};

/// A source over bytes in memory. A read fails if an entry of its list on `Call` names it.
#[derive(Drop)]
pub struct MemSource {
    remaining: Remaining,
    plan: FailPlan,
    faults: Count,
}

impl MemSource {
    /// A source of these bytes. The reads that `fails` names on `Call` will fail.
    pub fn new(bytes: Vec<u8>, fails: Vec<Fail>) -> MemSource
        ensures left { ⟦<MemSource as Source>⟧.left result ≡ Some bytes.items }
        ensures faults { ⟦<MemSource as Source>⟧.faults result ≡ 0 }
        ensures plan { plan result ≡ new_plan fails.items }
    {
        MemSource {
            remaining: Remaining::new(bytes),
            plan: FailPlan::new(fails),
            faults: Count::new(),
        }
    }

    /// The bytes that no read has taken.
    pub fn left(&self) -> &[u8]
        ensures { ⟦<MemSource as Source>⟧.left self.now ≡ Some result.now }
    {
        self.remaining.as_slice()
    }
}

impl Source for MemSource {
    ghost left = { λ source. Some source.remaining };

    ghost faults = { λ source. source.faults };

    fn read(&mut self, into: &mut [u8]) -> Result<usize, Failed>
        requires { 0 < length into.old }
        ensures failed { is_err result ≡ fails_next self.old }
        ensures count { IfOk result (λ n. n ≡ min (length into.old) (length (left self.old))) }
        ensures took { IfOk result (λ n. Took into.new n (left self.old)) }
        ensures source { IfOk result (λ n. self.new ≡ without_front (called self.old) n) }
        ensures source_at_failure { OnErr result (self.new ≡ called self.old) }
        ensures cause { HasCause (faults self.old) (faults self.new) result }
    {
        if self.plan.next(FailOn::Call).is_some() {
            self.faults.add(1);
            return Err(Failed);
        }
        Ok(self.remaining.take_into(into))
    }
}
