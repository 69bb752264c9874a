//! Bytes in memory that are taken from the front.
ghost use Rattle.std.specs.Prelude.{◌≡◌, ◌<◌, length, drop, min};
ghost use Rattle.frz_store.specs.Outside.{Took};

use std::marker::Model;

/// Bytes, and the place of the first one that is left.
#[derive(Drop)]
pub struct Remaining {
    bytes: Vec<u8>,
    at: usize,
}

impl Model for Remaining {
    ghost use Rattle.std.specs.Prelude.{ℕ, List, ◌≤◌, length, drop};

    ghost Value = { List ℕ };

    ghost view = { λ remaining. drop remaining.at remaining.bytes.items };

    ghost invariant = { λ remaining. remaining.at ≤ length remaining.bytes.items };
}

impl Remaining {
    /// These bytes, of which none is taken.
    pub fn new(bytes: Vec<u8>) -> Remaining
        ensures { result ≡ bytes.items }
    {
        Remaining { bytes, at: 0 }
    }

    /// The bytes that are left.
    pub fn as_slice(&self) -> &[u8]
        ensures { result.now ≡ self.now }
    {
        &self.bytes[self.at..]
    }

    /// Moves as many bytes as are left and as fit into the front of the slice, and answers how
    /// many.
    pub fn take_into(&mut self, into: &mut [u8]) -> usize
        requires { 0 < length into.old }
        ensures count { result ≡ min (length into.old) (length self.old) }
        ensures took { Took into.new result self.old }
        ensures rest { self.new ≡ drop result self.old }
    {
        let count = into.len().min(self.bytes.len() - self.at);
        into[..count].copy_from_slice(&self.bytes[self.at..self.at + count]);
        self.at += count;
        count
    }
}
