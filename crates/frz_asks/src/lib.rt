//! Calculations that ask a store as they go, and what is known where one was run.
#![tactic(auto)]

ghost use Rattle.std.specs.Prelude.{length, OnOk, IfErr, IfSome};
ghost use Rattle.frz_store.specs.Files.{Covers};
ghost use Rattle.frz_store.specs.Outside.{IsNext, StoreCauses};
ghost use Rattle.frz_store.specs.Told.{store_of};
ghost use Rattle.frz_asks.specs.Runs.{Run, came, end_by, halted};
ghost use Rattle.frz_asks.specs.Trees.{ask_bytes, ask_size};

pub mod laws;

use frz_store::{Store, StoreFault};

/// The length of a file in bytes, or `None` if no file has this name.
pub fn size_of<S: Store>(store: &mut S, name: &str) -> Result<Option<u64>, StoreFault>
    ensures { Run (ask_size name.now) (end_by (λ n. n) result)
        (store_of S.Store store.old) (store_of S.Store store.new) }
{
    store.size(name)
}

/// Fills the slice with the bytes of the file from byte `at` on.
pub fn read_at<S: Store>(
    store: &mut S,
    name: &str,
    at: u64,
    into: &mut [u8],
) -> Result<(), StoreFault>
    requires { IfSome (S.files store.old) (Covers at (length into.old) name.now) }
    ensures came { OnOk result (Run (ask_bytes name.now at (length into.old)) (came into.new)
        (store_of S.Store store.old) (store_of S.Store store.new)) }
    ensures halted { IfErr result (λ h. Run (ask_bytes name.now at (length into.old)) (halted h)
        (store_of S.Store store.old) (store_of S.Store store.new)) }
    ensures calls { IsNext (S.calls store.old) (S.calls store.new) }
    ensures causes { StoreCauses (S.faults store.old) (S.faults store.new)
        (S.wants store.old) (S.wants store.new) result }
{
    store.read(name, at, into)
}
