//! A sink in memory with planned failures.
ghost use Rattle.std.specs.Prelude.{◌≡◌, ◌+◌, ◌-◌, ◌≤◌, ◌++◌, ℕ, List, [], length, take, Some, is_err, IfOk, OnOk};
ghost use Rattle.std.specs.Result.{IsErrOf};
ghost use Rattle.frz_store.specs.Fails.{new_plan, after};
ghost use Rattle.frz_store.specs.MemSink.{taken, room_left, faults, plan, refuses, taken_of, faults_after};
ghost use Rattle.frz_store.specs.Outside.{HasCause};

use crate::count::Count;
use crate::fails::{Fail, FailOn, FailPlan};
use crate::reserved::{Reserved, front};
use crate::{Failed, Sink, StoreFault};
use std::alloc::Global;

/// A sink that keeps what it takes, in room that is reserved when it is made. A write fails if an
/// entry of its list on `Call` names it, or if its piece does not fit in the room that is left.
#[derive(Drop)]
pub struct MemSink {
    held: Reserved,
    plan: FailPlan,
    faults: Count,
}

impl MemSink {
    /// An empty sink with room for `room` bytes, or `NoMemory` if that room cannot be reserved. The
    /// writes that `fails` names will fail.
    pub fn new(alloc: Global, room: usize, fails: Vec<Fail>) -> Result<MemSink, StoreFault>
        ensures taken { IfOk result (λ sink. ⟦<MemSink as Sink>⟧.taken sink ≡ Some []) }
        ensures faults { IfOk result (λ sink. ⟦<MemSink as Sink>⟧.faults sink ≡ 0) }
        ensures room { IfOk result (λ sink. room_left sink ≡ room) }
        ensures plan { IfOk result (λ sink. plan sink ≡ new_plan fails.items) }
        ensures never_failed { IsErrOf result StoreFault.Failed → ⊥ }
    {
        match Reserved::with_room(alloc, room) {
            Ok(held) => Ok(MemSink {
                held,
                plan: FailPlan::new(fails),
                faults: Count::new(),
            }),
            Err(_) => Err(StoreFault::NoMemory),
        }
    }

    /// The bytes taken so far.
    pub fn taken(&self) -> &[u8]
        ensures { ⟦<MemSink as Sink>⟧.taken self.now ≡ Some result.now }
    {
        &self.held.bytes
    }
}

impl Sink for MemSink {
    ghost taken = { λ sink. Some sink.held.bytes.items };

    ghost faults = { λ sink. sink.faults };

    fn write(&mut self, piece: &[u8]) -> Result<(), Failed>
        ensures failed { is_err result ≡ refuses self.old piece.now }
        ensures taken { taken self.new ≡ taken self.old ++ taken_of self.old piece.now }
        ensures whole { OnOk result (taken_of self.old piece.now ≡ piece.now) }
        ensures prefix { (k : ℕ) × (taken_of self.old piece.now ≡ take k piece.now) }
        ensures room { room_left self.new ≡ room_left self.old - length
            (taken_of self.old piece.now) }
        ensures plan { plan self.new ≡ after (plan self.old) FailOn.Call }
        ensures faults { faults self.new ≡ faults_after self.old piece.now }
        ensures cause { HasCause (faults self.old) (faults self.new) result }
    {
        let due = self.plan.next(FailOn::Call);
        let kept = match due {
            Some(keep) => front(piece, keep),
            None => piece,
        };
        let fitting = front(kept, self.held.room as u64);
        self.held.append(fitting);
        if due.is_none() && fitting.len() == piece.len() {
            return Ok(());
        }
        self.faults.add(1);
        Err(Failed)
    }
}
