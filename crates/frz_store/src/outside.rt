//! The traits of the three objects outside the program: store, source and sink.
//! Each object has a count of faults that never falls. What an object holds, has left or has taken
//! is optional in its contracts: it is `None` if the object does not tell, as the real ones do not.
ghost use Rattle.std.specs.Prelude.{◌≡◌, ◌⊎◌, ℕ, ◌+◌, ◌-◌, ◌^◌, ◌≤◌, ◌<◌, min, List, [], length, take, drop, Option, Some, IfOk, OnOk, OnErr, IfSome, OnSome};
ghost use Rattle.std.specs.Option.{option_map};
ghost use Rattle.std.specs.Result.{IsErrOf};
ghost use Rattle.std.specs.Io.KnownBytes.{append_known};
ghost use Rattle.frz_store.specs.Bytes.{HoldsBytes};
ghost use Rattle.frz_store.specs.Files.{Files, put, grown, Covers};
ghost use Rattle.frz_store.specs.Outside.{StoreCauses, FreeCauses, HasCause, Took, IsNext};

/// The call failed, and the count of faults of its object rose.
#[derive(Clone, Copy, Debug, PartialEq, Eq, Drop)]
pub struct Failed;

/// Why a call of a store that may need memory did not succeed.
#[derive(Clone, Copy, Debug, PartialEq, Eq, Drop)]
pub enum StoreFault {
    /// The store failed, and its count of faults rose.
    Failed,
    /// The call needed memory and got none.
    NoMemory,
}

impl From<Failed> for StoreFault {
    ghost use Rattle.frz_store.specs.declared.outside.StoreFault.{StoreFault};

    ghost from_gives = { λ failed fault. fault ≡ StoreFault.Failed };

    fn from(_: Failed) -> StoreFault {
        StoreFault::Failed
    }
}

/// Named files, read at any place and written from front to back, one file at a time. A call that
/// succeeds does not change the counts of faults and wants.
pub trait Store {
    /// The bytes that each name holds, or `None` if the store does not tell.
    ghost files: { Self → Option Files };

    /// The name of the file that was created last.
    ghost last: { Self → Option (List ℕ) };

    /// A count that each call that answers `Failed` raises, up to 2^64 - 1.
    ghost faults: { Self → ℕ };

    /// How often `size` or `read` needed memory for the store itself and got none.
    ghost wants: { Self → ℕ };

    /// How many bytes all reads together asked for, at most 2^64 - 1.
    ghost asked: { Self → ℕ };

    /// How often the store was called, at most 2^64 - 1.
    ghost calls: { Self → ℕ };

    /// How many bytes may still be appended to the file that was created last.
    ghost room: { Self → ℕ };

    /// The length of the file in bytes, or `None` exactly if no file has this name.
    fn size(&mut self, name: &str) -> Result<Option<u64>, StoreFault>
        ensures size { IfOk result (λ size. IfSome (files self.old)
            (λ m. size ≡ option_map length (m name.now))) }
        ensures files { files self.new ≡ files self.old }
        ensures last { last self.new ≡ last self.old }
        ensures room { room self.new ≡ room self.old }
        ensures asked { asked self.new ≡ asked self.old }
        ensures calls { IsNext (calls self.old) (calls self.new) }
        ensures causes { StoreCauses (faults self.old) (faults self.new)
            (wants self.old) (wants self.new) result };

    /// Fills the slice with the bytes of the file from byte `at` on. The file must be there and
    /// reach that far, if the store tells. After an error the slice may hold anything.
    fn read(&mut self, name: &str, at: u64, into: &mut [u8]) -> Result<(), StoreFault>
        requires { IfSome (files self.old) (Covers at (length into.old) name.now) }
        ensures bytes { OnOk result (IfSome (files self.old) (λ m. IfSome (m name.now)
            (λ bytes. into.new ≡ take (length into.old) (drop at bytes)))) }
        ensures files { files self.new ≡ files self.old }
        ensures last { last self.new ≡ last self.old }
        ensures room { room self.new ≡ room self.old }
        ensures asked { asked self.new ≡ min (asked self.old + length into.old) (2 ^ 64 - 1) }
        ensures asked_grows { asked self.old ≤ asked self.new }
        ensures calls { IsNext (calls self.old) (calls self.new) }
        ensures causes { StoreCauses (faults self.old) (faults self.new)
            (wants self.old) (wants self.new) result };

    /// Creates an empty file of this name, or empties the one that is there, with room for `due`
    /// bytes to come.
    fn create(&mut self, name: &str, due: u64) -> Result<(), StoreFault>
        ensures files { OnOk result (files self.new
            ≡ option_map (λ m. put m name.now []) (files self.old)) }
        ensures last { OnOk result (OnSome (files self.old) (last self.new ≡ Some name.now)) }
        ensures room { OnOk result (room self.new ≡ due) }
        ensures err_last { OnErr result (last self.new ≡ last self.old) }
        ensures asked { asked self.new ≡ asked self.old }
        ensures calls { IsNext (calls self.old) (calls self.new) }
        ensures causes { FreeCauses (faults self.old) (faults self.new)
            (wants self.old) (wants self.new) result }

        // After `Failed` the file is as it was or holds no bytes, and nothing may be appended.
        ensures failed_files { IsErrOf result StoreFault.Failed
            → (files self.new ≡ files self.old)
            ⊎ (files self.new ≡ option_map (λ m. put m name.now []) (files self.old)) }
        ensures failed_room { IsErrOf result StoreFault.Failed → room self.new ≡ 0 }

        // After `NoMemory` nothing has changed but the count of calls.
        ensures no_memory_files { IsErrOf result StoreFault.NoMemory
            → files self.new ≡ files self.old }
        ensures no_memory_room { IsErrOf result StoreFault.NoMemory
            → room self.new ≡ room self.old }
        ensures no_memory_faults { IsErrOf result StoreFault.NoMemory
            → faults self.new ≡ faults self.old }
        ensures no_memory_wants { IsErrOf result StoreFault.NoMemory
            → wants self.new ≡ wants self.old };

    /// Appends the piece, which must fit in the room, to the file that was created last. A call
    /// that fails may have appended the front of the piece. The whole piece is taken off the room
    /// in both cases.
    fn append(&mut self, piece: &[u8]) -> Result<(), Failed>
        requires { length piece.now ≤ room self.old }
        ensures files { OnOk result (files self.new
            ≡ option_map (grown (last self.old) piece.now) (files self.old)) }
        ensures failed_files { OnErr result ((k : ℕ) × (files self.new
            ≡ option_map (grown (last self.old) (take k piece.now)) (files self.old))) }
        ensures empty { length piece.now ≡ 0 → files self.new ≡ files self.old }
        ensures last { last self.new ≡ last self.old }
        ensures room { room self.new ≡ room self.old - length piece.now }
        ensures asked { asked self.new ≡ asked self.old }
        ensures calls { IsNext (calls self.old) (calls self.new) }
        ensures wants { wants self.new ≡ wants self.old }
        ensures cause { HasCause (faults self.old) (faults self.new) result };

    /// Each file that the store tells of holds bytes: numbers below 256.
    ghost holds_bytes: { (store : Self) → IfSome (files store) HoldsBytes };
}

/// A stream of bytes to read.
pub trait Source {
    /// The bytes that no read has taken, or `None` if the source does not tell.
    ghost left: { Self → Option (List ℕ) };

    /// A count that each failed read raises, up to 2^64 - 1.
    ghost faults: { Self → ℕ };

    /// Reads bytes into the front of the slice, which must not be empty, and answers how many; 0 is
    /// the end. Behind these bytes, and after a failure, the slice may hold anything.
    fn read(&mut self, into: &mut [u8]) -> Result<usize, Failed>
        requires { 0 < length into.old }
        ensures count { IfOk result (λ n. n ≤ length into.new) }
        ensures took { IfOk result (λ n. IfSome (left self.old) (Took into.new n)) }
        ensures rest { IfOk result (λ n. left self.new ≡ option_map (drop n) (left self.old)) }
        ensures failed { OnErr result (left self.new ≡ left self.old) }
        ensures cause { HasCause (faults self.old) (faults self.new) result };
}

/// A stream to write bytes to.
pub trait Sink {
    /// The bytes taken so far, or `None` if the sink does not tell.
    ghost taken: { Self → Option (List ℕ) };

    /// A count that each failed write raises, up to 2^64 - 1.
    ghost faults: { Self → ℕ };

    /// Takes the whole piece, or fails and takes a prefix of it, which may be empty.
    fn write(&mut self, piece: &[u8]) -> Result<(), Failed>
        ensures ok { OnOk result (taken self.new ≡ append_known (taken self.old) piece.now) }
        ensures failed { OnErr result ((k : ℕ)
            × (taken self.new ≡ append_known (taken self.old) (take k piece.now))) }
        ensures cause { HasCause (faults self.old) (faults self.new) result };
}
