//! A store in memory with planned failures.
ghost use Rattle.std.specs.Prelude.{◌≡◌, ◌+◌, ◌-◌, ◌≤◌, ◌↔◌, ℕ, List, [], length, take, drop, Some, None, Ok, Err, is_err, if◌then◌else◌, IfSome, IsTrue, IsErr, OnOk, OnErr};
ghost use Rattle.std.specs.Option.{option_copied, option_map};
ghost use Rattle.std.specs.Result.{IsErrOf};
ghost use Rattle.frz_store.specs.Fails.{new_plan, kept};
ghost use Rattle.frz_store.specs.Files.{no_files, put, grown, Covers};
ghost use Rattle.frz_store.specs.MemStore.{files, last, room, asked, calls, faults, plan, due, fails_next, called, asked_for, IsCalled};
ghost use Rattle.frz_store.specs.Outside.{StoreCauses, FreeCauses, HasCause, IsNext};
ghost use Rattle.frz_store.specs.Told.{store_of, IsPut};
ghost use Rattle.frz_store.specs.Shelf.{files_of, last_of, room_of};
ghost use Rattle.frz_store.specs.ShelfBytes.{shelf_bytes};

use crate::count::Count;
use crate::fails::{Fail, FailOn, FailPlan};
use crate::shelf::Shelf;
use crate::{Failed, Store, StoreFault};
use std::alloc::Global;

/// A store in memory. The calls that its list of failures names fail. Where two entries name one
/// call, the first entry counts.
#[derive(Drop)]
pub struct MemStore {
    alloc: Global,
    shelf: Shelf,
    plan: FailPlan,
    faults: Count,
    asked: Count,
}

impl MemStore {
    /// A store without files. The calls that `fails` names will fail.
    pub fn new(alloc: Global, fails: Vec<Fail>) -> MemStore
        ensures files { ⟦<MemStore as Store>⟧.files result ≡ Some no_files }
        ensures last { ⟦<MemStore as Store>⟧.last result ≡ None }
        ensures faults { ⟦<MemStore as Store>⟧.faults result ≡ 0 }
        ensures wants { ⟦<MemStore as Store>⟧.wants result ≡ 0 }
        ensures asked { ⟦<MemStore as Store>⟧.asked result ≡ 0 }
        ensures calls { ⟦<MemStore as Store>⟧.calls result ≡ 0 }
        ensures room { ⟦<MemStore as Store>⟧.room result ≡ 0 }
        ensures plan { plan result ≡ new_plan fails.items }
    {
        MemStore {
            alloc,
            shelf: Shelf::new(alloc),
            plan: FailPlan::new(fails),
            faults: Count::new(),
            asked: Count::new(),
        }
    }

    /// The bytes of the file, or `None` exactly if no file has this name.
    pub fn file(&self, name: &str) -> Option<&[u8]>
        ensures { IfSome (⟦<MemStore as Store>⟧.files self.now)
            (λ m. option_copied result ≡ m name.now) }
    {
        self.shelf.file(name)
    }

    /// How many bytes all reads together asked for, at most 2^64 - 1.
    pub fn asked(&self) -> u64
        ensures { result ≡ ⟦<MemStore as Store>⟧.asked self.now }
    {
        self.asked.get()
    }

    /// Makes the name hold these bytes, or answers `NoMemory` and changes nothing. No room to
    /// append may be left. It is not a call of the trait, so it is not counted as one.
    pub fn put(&mut self, name: &str, bytes: &[u8]) -> Result<(), StoreFault>
        requires { ⟦<MemStore as Store>⟧.room self.old ≡ 0 }
        ensures put { IsPut name.now bytes.now result
            (store_of ⟦<MemStore as Store>⟧ self.old) (store_of ⟦<MemStore as Store>⟧ self.new) }
        ensures plan { plan self.new ≡ plan self.old }
    {
        match self.shelf.put(self.alloc, name, bytes) {
            Ok(()) => Ok(()),
            Err(_) => Err(StoreFault::NoMemory),
        }
    }
}

impl Store for MemStore {
    ghost files = { λ store. Some (files_of store.shelf) };

    ghost last = { λ store. last_of store.shelf };

    ghost faults = { λ store. store.faults };

    ghost wants = { λ _. 0 };

    ghost asked = { λ store. store.asked };

    ghost calls = { λ store. store.plan.calls };

    ghost room = { λ store. room_of store.shelf };

    ghost holds_bytes = { λ store. shelf_bytes store.shelf };

    fn size(&mut self, name: &str) -> Result<Option<u64>, StoreFault>
        ensures result { result ≡ if fails_next self.old FailOn.Size then Err StoreFault.Failed
            else Ok (option_map length (files self.old name.now)) }
        ensures store { self.new ≡ called self.old FailOn.Size }
        ensures calls { IsNext (calls self.old) (calls self.new) }
        ensures causes { StoreCauses (faults self.old) (faults self.new) 0 0 result }
    {
        if self.plan.next(FailOn::Size).is_some() {
            self.faults.add(1);
            return Err(StoreFault::Failed);
        }
        Ok(self.shelf.size(name))
    }

    fn read(&mut self, name: &str, at: u64, into: &mut [u8]) -> Result<(), StoreFault>
        requires { Covers at (length into.old) name.now (files self.old) }
        ensures result { result ≡ if fails_next self.old FailOn.Read then Err StoreFault.Failed
            else Ok tt }
        ensures bytes { OnOk result (IfSome (files self.old name.now)
            (λ bytes. into.new ≡ take (length into.old) (drop at bytes))) }
        ensures store { self.new ≡ asked_for (called self.old FailOn.Read) (length into.old) }
        ensures asked_grows { asked self.old ≤ asked self.new }
        ensures calls { IsNext (calls self.old) (calls self.new) }
        ensures causes { StoreCauses (faults self.old) (faults self.new) 0 0 result }
    {
        self.asked.add(into.len() as u64);
        if self.plan.next(FailOn::Read).is_some() {
            self.faults.add(1);
            return Err(StoreFault::Failed);
        }
        self.shelf.read(name, at, into);
        Ok(())
    }

    fn create(&mut self, name: &str, due: u64) -> Result<(), StoreFault>
        ensures failed { IsErrOf result StoreFault.Failed
            ↔ IsTrue (fails_next self.old FailOn.Create) }
        ensures files { OnOk result (files self.new ≡ put (files self.old) name.now []) }
        ensures last { OnOk result (last self.new ≡ Some name.now) }
        ensures room { OnOk result (room self.new ≡ due) }
        ensures err_files { OnErr result (files self.new ≡ files self.old) }
        ensures err_last { OnErr result (last self.new ≡ last self.old) }
        ensures failed_room { IsErrOf result StoreFault.Failed → room self.new ≡ 0 }
        ensures no_memory_room { IsErrOf result StoreFault.NoMemory
            → room self.new ≡ room self.old }
        ensures store { IsCalled self.old FailOn.Create self.new }
        ensures calls { IsNext (calls self.old) (calls self.new) }
        ensures causes { FreeCauses (faults self.old) (faults self.new) 0 0 result }
    {
        if self.plan.next(FailOn::Create).is_some() {
            self.faults.add(1);
            self.shelf.close();
            return Err(StoreFault::Failed);
        }
        match self.shelf.create(self.alloc, name, due) {
            Ok(()) => Ok(()),
            Err(_) => Err(StoreFault::NoMemory),
        }
    }

    fn append(&mut self, piece: &[u8]) -> Result<(), Failed>
        requires { length piece.now ≤ room self.old }
        ensures failed { is_err result ≡ fails_next self.old FailOn.Append }
        ensures files { files self.new
            ≡ grown (last self.old) (kept (due self.old FailOn.Append) piece.now) (files self.old) }
        ensures empty { length piece.now ≡ 0 → files self.new ≡ files self.old }
        ensures last { last self.new ≡ last self.old }
        ensures room { room self.new ≡ room self.old - length piece.now }
        ensures store { IsCalled self.old FailOn.Append self.new }
        ensures calls { IsNext (calls self.old) (calls self.new) }
        ensures cause { HasCause (faults self.old) (faults self.new) result }
    {
        if let Some(keep) = self.plan.next(FailOn::Append) {
            self.faults.add(1);
            self.shelf.append_front(piece, keep);
            return Err(Failed);
        }
        self.shelf.append(piece);
        Ok(())
    }
}
