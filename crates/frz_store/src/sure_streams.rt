//! A source and a sink in memory that never fail.
ghost use Rattle.std.specs.Prelude.{◌≡◌, ℕ, List, Some, None};

use crate::remaining::Remaining;
use crate::{Failed, Sink, Source};

/// A source over bytes in memory that never fails.
#[derive(Drop)]
pub struct SureSource {
    remaining: Remaining,
}

impl SureSource {
    /// A source of these bytes.
    pub fn new(bytes: Vec<u8>) -> SureSource
        ensures { ⟦<SureSource as Source>⟧.left result ≡ Some bytes.items }
    {
        SureSource {
            remaining: Remaining::new(bytes),
        }
    }

    /// The bytes that no read has taken.
    pub fn left(&self) -> &[u8]
        ensures { ⟦<SureSource as Source>⟧.left self.now ≡ Some result.now }
    {
        self.remaining.as_slice()
    }
}

impl Source for SureSource {
    ghost left = { λ source. Some source.remaining };

    ghost faults = { λ _. 0 };

    fn read(&mut self, into: &mut [u8]) -> Result<usize, Failed> {
        Ok(self.remaining.take_into(into))
    }
}

/// A sink that never fails, discards what it takes and does not tell it.
#[derive(Drop)]
pub struct SureSink;

impl SureSink {
    /// A sink that has taken nothing yet.
    pub fn new() -> SureSink
        ensures { ⟦<SureSink as Sink>⟧.taken result ≡ None }
    {
        SureSink
    }
}

impl Sink for SureSink {
    ghost taken = { λ _. None };

    ghost faults = { λ _. 0 };

    fn write(&mut self, _piece: &[u8]) -> Result<(), Failed> {
        Ok(())
    }
}
