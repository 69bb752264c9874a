//! A store in memory whose only error is want of memory.
ghost use Rattle.std.specs.Prelude.{◌≡◌, ◌+◌, ◌≤◌, ℕ, List, [], length, take, drop, Some, None, IfSome, OnOk, OnErr};
ghost use Rattle.std.specs.Option.{option_copied, option_map};
ghost use Rattle.std.specs.Result.{IsErrOf};
ghost use Rattle.frz_store.specs.Files.{no_files, put};
ghost use Rattle.frz_store.specs.Told.{store_of, IsPut};
ghost use Rattle.frz_store.specs.Shelf.{files_of, last_of, room_of};
ghost use Rattle.frz_store.specs.ShelfBytes.{shelf_bytes};

use crate::count::Count;
use crate::shelf::Shelf;
use crate::{Failed, Store, StoreFault};
use std::alloc::Global;

/// A store in memory that never fails, except that `create` and `put` may find no memory.
#[derive(Drop)]
pub struct SureStore {
    alloc: Global,
    shelf: Shelf,
    asked: Count,
    calls: Count,
}

impl SureStore {
    /// A store without files.
    pub fn new(alloc: Global) -> SureStore
        ensures files { ⟦<SureStore as Store>⟧.files result ≡ Some no_files }
        ensures last { ⟦<SureStore as Store>⟧.last result ≡ None }
        ensures faults { ⟦<SureStore as Store>⟧.faults result ≡ 0 }
        ensures wants { ⟦<SureStore as Store>⟧.wants result ≡ 0 }
        ensures asked { ⟦<SureStore as Store>⟧.asked result ≡ 0 }
        ensures calls { ⟦<SureStore as Store>⟧.calls result ≡ 0 }
        ensures room { ⟦<SureStore as Store>⟧.room result ≡ 0 }
    {
        SureStore {
            alloc,
            shelf: Shelf::new(alloc),
            asked: Count::new(),
            calls: Count::new(),
        }
    }

    /// The bytes of the file, or `None` exactly if no file has this name.
    pub fn file(&self, name: &str) -> Option<&[u8]>
        ensures { IfSome (⟦<SureStore as Store>⟧.files self.now)
            (λ m. option_copied result ≡ m name.now) }
    {
        self.shelf.file(name)
    }

    /// How many bytes all reads together asked for, at most 2^64 - 1.
    pub fn asked(&self) -> u64
        ensures { result ≡ ⟦<SureStore as Store>⟧.asked self.now }
    {
        self.asked.get()
    }

    /// Makes the name hold these bytes, or answers `NoMemory` and changes nothing. No room to
    /// append may be left. It is not a call of the trait, so it is not counted as one.
    pub fn put(&mut self, name: &str, bytes: &[u8]) -> Result<(), StoreFault>
        requires { ⟦<SureStore as Store>⟧.room self.old ≡ 0 }
        ensures put { IsPut name.now bytes.now result
            (store_of ⟦<SureStore as Store>⟧ self.old) (store_of ⟦<SureStore as Store>⟧ self.new) }
    {
        match self.shelf.put(self.alloc, name, bytes) {
            Ok(()) => Ok(()),
            Err(_) => Err(StoreFault::NoMemory),
        }
    }
}

impl Store for SureStore {
    ghost files = { λ store. Some (files_of store.shelf) };

    ghost last = { λ store. last_of store.shelf };

    ghost faults = { λ _. 0 };

    ghost wants = { λ _. 0 };

    ghost asked = { λ store. store.asked };

    ghost calls = { λ store. store.calls };

    ghost room = { λ store. room_of store.shelf };

    ghost holds_bytes = { λ store. shelf_bytes store.shelf };

    fn size(&mut self, name: &str) -> Result<Option<u64>, StoreFault> {
        self.calls.add(1);
        Ok(self.shelf.size(name))
    }

    fn read(&mut self, name: &str, at: u64, into: &mut [u8]) -> Result<(), StoreFault> {
        self.calls.add(1);
        self.asked.add(into.len() as u64);
        self.shelf.read(name, at, into);
        Ok(())
    }

    fn create(&mut self, name: &str, due: u64) -> Result<(), StoreFault> {
        self.calls.add(1);
        match self.shelf.create(self.alloc, name, due) {
            Ok(()) => Ok(()),
            Err(_) => Err(StoreFault::NoMemory),
        }
    }

    fn append(&mut self, piece: &[u8]) -> Result<(), Failed> {
        self.calls.add(1);
        self.shelf.append(piece);
        Ok(())
    }
}
