ghost use Rattle.map_store.specs.Files.{HasFailed};
ghost use Rattle.map_store.specs.Fuse.{FuseParts, fuse_code, HasBurned};
ghost use Rattle.map_store.specs.Stored.{files_of};

use crate::map_store::MapStore;
use crate::memory_store::MemoryStore;
use crate::store_log::{StoreCall, StoreLog};
use refusals::StoreFault;
use std::alloc::Global;
use std::marker::Model;

/// Files in memory, of which one call fails.
#[derive(Drop)]
pub struct FuseStore {
    store: MemoryStore,
    // The calls up to the one that fails, and 0 where none will.
    left: u64,
    failures: u64,
    log: StoreLog,
}

impl Model for FuseStore {
    ghost Value = { FuseParts };

    ghost coded = { fuse_code };

    ghost view = { λ s. record { files = files_of s.store.files; failures = s.failures; left = s.left; asked = s.log.asked } };
}

impl FuseStore {
    ghost use Rattle.std.specs.Prelude.{◌≡◌, ◌-◌, ◌^◌, ◌<◌, ◌≤◌, ◌⊎◌, ◌↔◌, IsTrue, []};

    /// The files of a store. Of the calls of `load` and `store`, the one with this number, counted from 1, will fail with
    /// `Device` and change no file. Number 0 stands for none.
    pub fn new(store: MemoryStore, number: u64) -> FuseStore
        ensures { result ≡ record { files = (⟦<MemoryStore as MapStore>⟧.stored store).files; failures = 0; left = number; asked = [] } }
    {
        FuseStore {
            store,
            left: number,
            failures: 0,
            log: StoreLog::new(),
        }
    }

    /// The files as they are now.
    pub fn into_inner(self) -> MemoryStore
        ensures { (⟦<MemoryStore as MapStore>⟧.stored result).files ≡ self.files }
    {
        self.store
    }

    /// Counts a call, and says whether it is the one that fails, which it counts as a failure.
    fn burns(&mut self) -> bool
        ensures answer { IsTrue result ↔ (self.old.left ≡ 1) }
        ensures files { self.new.files ≡ self.old.files }
        ensures burned { HasBurned self.old self.new }
        ensures raised { IsTrue result → (self.old.failures < self.new.failures) ⊎ (self.old.failures ≡ 2 ^ 64 - 1) }
        ensures count { self.old.failures ≤ self.new.failures }
        ensures asked { self.new.asked ≡ self.old.asked }
    {
        if self.left == 0 {
            return false;
        }
        self.left -= 1;
        if self.left > 0 {
            return false;
        }
        self.failures = self.failures.saturating_add(1);
        true
    }
}

impl MapStore for FuseStore {
    ghost use Rattle.std.specs.Prelude.{◌≡◌, ◌≤◌, ◌↔◌, ◌∷◌, [], IsErrOf, OnOk, Some, true};
    ghost use Rattle.std.specs.FinMap.{get};
    ghost use Rattle.map_store.specs.Asking.{loading, storing};
    ghost use Rattle.map_store.specs.Storing.{IsOldOrNew, Loads, Stores};

    ghost stored = { λ s. record { files = s.files; failures = s.failures; honest = true } };

    ghost asked = { λ s. s.asked };

    ghost calls = { λ s. [] };

    ghost keeps = { λ s name bytes. get s.files name ≡ Some bytes };

    ghost loses_nothing = { λ old new name bytes. IsOldOrNew name bytes old.files new.files };

    fn load(&mut self, alloc: Global, name: &str) -> Result<Vec<u8>, StoreFault>
        ensures fails { IsErrOf result StoreFault.Device ↔ (self.old.left ≡ 1) }
        ensures burned { HasBurned self.old self.new }

        // The clauses of the trait.
        ensures loads { Loads name.now self.old.files result self.new.files }
        ensures device { IsErrOf result StoreFault.Device
            → HasFailed (⟦<FuseStore as MapStore>⟧.stored self.old) (⟦<FuseStore as MapStore>⟧.stored self.new) }
        ensures count { self.old.failures ≤ self.new.failures }
        ensures asked { self.new.asked ≡ loading name.now ∷ self.old.asked }
    {
        self.log.note(&StoreCall::Load(name));
        if self.burns() {
            return Err(StoreFault::Device);
        }
        self.store.load(alloc, name)
    }

    fn store(&mut self, alloc: Global, name: &str, bytes: &[u8]) -> Result<(), StoreFault>
        ensures fails { IsErrOf result StoreFault.Device ↔ (self.old.left ≡ 1) }
        ensures burned { HasBurned self.old self.new }

        // The clauses of the trait.
        ensures stores { Stores name.now bytes.now self.old.files result self.new.files }
        ensures found { IsErrOf result StoreFault.Missing → ⊥ }
        ensures device { IsErrOf result StoreFault.Device
            → HasFailed (⟦<FuseStore as MapStore>⟧.stored self.old) (⟦<FuseStore as MapStore>⟧.stored self.new) }
        ensures count { self.old.failures ≤ self.new.failures }
        ensures asked { self.new.asked ≡ storing name.now ∷ self.old.asked }
        ensures kept { OnOk result (get self.new.files name.now ≡ Some bytes.now) }
        ensures safe { IsOldOrNew name.now bytes.now self.old.files self.new.files }
    {
        self.log.note(&StoreCall::Store(name));
        if self.burns() {
            return Err(StoreFault::Device);
        }
        self.store.store(alloc, name, bytes)
    }
}
