use crate::map_store::MapStore;
use crate::store_log::{StoreCall, StoreLog};
use refusals::StoreFault;
use std::alloc::Global;
use std::collections::BTreeMap;

/// Files in memory. No call fails but where memory runs out, or where there is no file to load.
#[derive(Drop)]
pub struct MemoryStore {
    files: BTreeMap<String, Vec<u8>>,
    log: StoreLog,
}

impl MemoryStore {
    ghost use Rattle.std.specs.Prelude.{◌≡◌, true, slice_get, []};
    ghost use Rattle.std.specs.Option.{option_copied};
    ghost use Rattle.std.specs.FinMap.{contains_key, empty, get, keys, len, remove};
    ghost use Rattle.map_store.specs.Stored.{files_of};

    /// No files.
    pub fn new(alloc: Global) -> MemoryStore
        ensures stored { ⟦<MemoryStore as MapStore>⟧.stored result ≡ record { files = empty; failures = 0; honest = true } }
        ensures asked { ⟦<MemoryStore as MapStore>⟧.asked result ≡ [] }
    {
        MemoryStore {
            files: BTreeMap::new(alloc),
            log: StoreLog::new(),
        }
    }

    /// The bytes of a file, and `None` where there is none of that name.
    pub fn file(&self, name: &str) -> Option<&[u8]>
        ensures { option_copied result ≡ get (files_of self.now.files) name.now }
    {
        match self.files.get(name) {
            Some(bytes) => Some(bytes.as_slice()),
            None => None,
        }
    }

    /// Takes a file out, and says whether there was one of that name.
    pub fn remove(&mut self, name: &str) -> bool
        ensures found { result ≡ contains_key (files_of self.old.files) name.now }
        ensures removed { files_of self.new.files ≡ remove (files_of self.old.files) name.now }
        ensures asked { ⟦<MemoryStore as MapStore>⟧.asked self.new ≡ ⟦<MemoryStore as MapStore>⟧.asked self.old }
    {
        self.files.remove(name).is_some()
    }

    /// How many files there are.
    pub fn count(&self) -> usize
        ensures { result ≡ len (files_of self.now.files) }
    {
        self.files.len()
    }

    /// The name of the file with this number in the order of names, where the first has 0, and `None` past the last one.
    pub fn name(&self, at: usize) -> Option<&str>
        ensures { option_copied result ≡ slice_get (keys (files_of self.now.files)) at }
    {
        match self.files.keys().nth(at) {
            Some(name) => Some(name.as_str()),
            None => None,
        }
    }
}

impl MapStore for MemoryStore {
    ghost use Rattle.std.specs.Prelude.{◌≡◌, [], Some, true};
    ghost use Rattle.std.specs.FinMap.{get};
    ghost use Rattle.map_store.specs.Stored.{files_of};
    ghost use Rattle.map_store.specs.Storing.{IsOldOrNew};

    ghost stored = { λ s. record { files = files_of s.files; failures = 0; honest = true } };

    ghost asked = { λ s. s.log.asked };

    ghost calls = { λ s. [] };

    ghost keeps = { λ s name bytes. get (files_of s.files) name ≡ Some bytes };

    ghost loses_nothing = { λ old new name bytes. IsOldOrNew name bytes (files_of old.files) (files_of new.files) };

    fn load(&mut self, alloc: Global, name: &str) -> Result<Vec<u8>, StoreFault> {
        self.log.note(&StoreCall::Load(name));
        match self.files.get(name) {
            None => Err(StoreFault::Missing),
            Some(bytes) => match Vec::from_slice(alloc, bytes.as_slice()) {
                Ok(copy) => Ok(copy),
                Err(_) => Err(StoreFault::Memory),
            },
        }
    }

    fn store(&mut self, alloc: Global, name: &str, bytes: &[u8]) -> Result<(), StoreFault> {
        self.log.note(&StoreCall::Store(name));
        let Ok(copy) = Vec::from_slice(alloc, bytes) else {
            return Err(StoreFault::Memory);
        };
        let Ok(key) = String::from_str(alloc, name) else {
            return Err(StoreFault::Memory);
        };
        match self.files.insert(key, copy) {
            Ok(_) => Ok(()),
            Err(_) => Err(StoreFault::Memory),
        }
    }
}
