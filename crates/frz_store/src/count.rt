//! A count that never falls.
ghost use Rattle.std.specs.Prelude.{◌≡◌, ◌+◌, ◌-◌, ◌^◌, ◌≤◌, min, Ok, is_ok, IfOk, IfErr};
ghost use Rattle.frz_store.specs.Outside.{HasCause};

use std::marker::Model;

/// A counter of 64 bits that stops at 2^64 - 1.
#[derive(Drop)]
pub struct Count {
    value: u64,
}

impl Model for Count {
    ghost use Rattle.std.specs.Prelude.{ℕ, ◌<◌, ◌^◌};

    ghost Value = { ℕ };

    ghost view = { λ count. count.value };

    ghost invariant = { λ count. count.value < 2 ^ 64 };
}

impl Count {
    /// A count of 0.
    pub fn new() -> Count
        ensures { result ≡ 0 }
    {
        Count { value: 0 }
    }

    /// The count.
    pub fn get(&self) -> u64
        ensures { result ≡ self.now }
    {
        self.value
    }

    /// The count plus one, at most 2^64 - 1. The count itself does not change.
    pub fn next(&self) -> u64
        ensures { result ≡ min (self.now + 1) (2 ^ 64 - 1) }
    {
        self.value.saturating_add(1)
    }

    /// Adds to the count, which stops at 2^64 - 1.
    pub fn add(&mut self, amount: u64)
        ensures sum { self.new ≡ min (self.old + amount) (2 ^ 64 - 1) }
        ensures grows { self.old ≤ self.new }
    {
        self.value = self.value.saturating_add(amount);
    }

    /// Passes `done` on. An error adds one to the count and is answered as `fault`.
    pub fn or_fault<T: Drop, E: Drop, F: Drop>(
        &mut self,
        done: Result<T, E>,
        fault: F,
    ) -> Result<T, F>
        ensures ok { IfOk result (λ value. done ≡ Ok value) }
        ensures err { IfErr result (λ e. e ≡ fault) }
        ensures same { is_ok result ≡ is_ok done }
        ensures cause { HasCause self.old self.new result }
    {
        match done {
            Ok(value) => Ok(value),
            Err(_) => {
                self.add(1);
                Err(fault)
            }
        }
    }
}
