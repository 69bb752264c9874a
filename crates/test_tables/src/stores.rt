//! Stores in memory that hold files.
ghost use Rattle.std.specs.Prelude.{◌≡◌, fold, Some, IfOk};
ghost use Rattle.frz_store.specs.Fails.{new_plan};
ghost use Rattle.frz_store.specs.Files.{no_files, put};
ghost use Rattle.frz_store.specs.MemStore.{plan};

use frz_store::{Fail as Failing, MemStore, Store};
use std::alloc::Global;
use std::test::Fail;

/// A store in memory that holds these files, each a name and its bytes, and in which the calls that
/// `fails` names will fail.
pub fn store_with(
    alloc: Global,
    fails: Vec<Failing>,
    files: &[(&str, &[u8])],
) -> Result<MemStore, Fail>
    ensures files { IfOk result (λ store. ⟦<MemStore as Store>⟧.files store
        ≡ Some (fold (λ held file. put held file.0.now file.1.now) no_files files.now)) }
    ensures room { IfOk result (λ store. ⟦<MemStore as Store>⟧.room store ≡ 0) }
    ensures plan { IfOk result (λ store. plan store ≡ new_plan fails.items) }
{
    let mut store = MemStore::new(alloc, fails);
    for (name, bytes) in files {
        store.put(name, bytes)?;
    }
    Ok(store)
}
