use crate::asked::Asked;
use crate::numbers::number_of;
use crate::request::Request;
use crate::save_folder::SaveFolder;
use std::alloc::{AllocError, Global};
use std::collections::BTreeMap;
use std::io;
use std::io::ErrorKind;

/// A folder in memory, which stops after some calls: each call after them is refused and changes nothing.
#[derive(Drop)]
pub struct MemoryFolder {
    state: State,
    asked: Asked,
}

#[derive(Drop)]
struct State {
    alloc: Global,
    files: BTreeMap<String, Vec<u8>>,
    // The path of the file that was opened last, if it is one that was made.
    open: Option<String>,
    // Whether all that was written to that file is synced.
    is_synced: bool,
    // The calls until it stops.
    left: u64,
}

impl MemoryFolder {
    /// A folder with no files, which stops after so many calls.
    pub fn new(alloc: Global, calls: u64) -> MemoryFolder {
        let state = State {
            alloc,
            files: BTreeMap::new(alloc),
            open: None,
            is_synced: true,
            left: calls,
        };
        MemoryFolder {
            state,
            asked: Asked::new(),
        }
    }

    /// Puts a file under a path, before any call.
    pub fn put(&mut self, path: &str, bytes: &[u8]) -> Result<(), AllocError> {
        let path = String::from_str(self.state.alloc, path)?;
        let bytes = Vec::from_slice(self.state.alloc, bytes)?;
        self.state.files.insert(path, bytes)?;
        Ok(())
    }

    /// What stands under a path.
    pub fn file(&self, path: &str) -> Option<&[u8]> {
        match self.state.files.get(path) {
            Some(bytes) => Some(bytes.as_slice()),
            None => None,
        }
    }

    /// How many files there are.
    pub fn count(&self) -> usize {
        self.state.files.len()
    }

    /// Takes away what a stop of the machine may: the bytes of a file that is not synced.
    pub fn tear(&mut self) {
        if self.state.is_synced {
            return;
        }
        if let Some(path) = &self.state.open {
            if let Some(bytes) = self.state.files.get_mut(path.as_str()) {
                bytes.clear();
            }
        }
    }
}

impl State {
    // Counts a call, and says whether it is made.
    fn goes(&mut self) -> io::Result<()> {
        if self.left == 0 {
            return Err(ErrorKind::Other.into());
        }
        self.left -= 1;
        Ok(())
    }

    // Any file has the access bits 0.
    fn look(&mut self, path: &str) -> io::Result<Option<u32>> {
        self.goes()?;
        Ok(if self.files.contains_key(path) {
            Some(0)
        } else {
            None
        })
    }

    fn numbers(&mut self, alloc: Global, front: &str) -> io::Result<Vec<u64>> {
        self.goes()?;
        let mut numbers = Vec::new(alloc);
        for path in self.files.keys() {
            if let Some(number) = number_of(path.as_bytes(), front.as_bytes()) {
                numbers.push(number)?;
            }
        }
        Ok(numbers)
    }

    fn has(&mut self, path: &str) -> bool {
        self.open = None;
        self.goes().is_ok() && self.files.contains_key(path)
    }

    fn holds(&mut self, path: &str, bytes: &[u8]) -> bool {
        self.open = None;
        if self.goes().is_err() {
            return false;
        }
        match self.files.get(path) {
            Some(there) => there.as_slice() == bytes,
            None => false,
        }
    }

    fn take_away(&mut self, path: &str) -> io::Result<()> {
        self.goes()?;
        match self.files.remove(path) {
            Some(_) => Ok(()),
            None => Err(ErrorKind::NotFound.into()),
        }
    }

    fn make(&mut self, path: &str) -> io::Result<()> {
        self.goes()?;
        if self.files.contains_key(path) {
            return Err(ErrorKind::AlreadyExists.into());
        }
        let open = String::from_str(self.alloc, path)?;
        let path = String::from_str(self.alloc, path)?;
        self.files.insert(path, Vec::new(self.alloc))?;
        self.open = Some(open);
        self.is_synced = false;
        Ok(())
    }

    fn append(&mut self, more: &[u8]) -> io::Result<()> {
        self.goes()?;
        self.is_synced = false;
        if let Some(path) = &self.open {
            if let Some(bytes) = self.files.get_mut(path.as_str()) {
                bytes.extend_from_slice(more)?;
                return Ok(());
            }
        }
        Err(ErrorKind::NotFound.into())
    }

    fn keep(&mut self) -> io::Result<()> {
        self.goes()?;
        self.is_synced = true;
        Ok(())
    }

    fn move_to(&mut self, from: &str, to: &str) -> io::Result<()> {
        self.goes()?;
        let to = String::from_str(self.alloc, to)?;
        let Some(bytes) = self.files.remove(from) else {
            return Err(ErrorKind::NotFound.into());
        };
        self.files.insert(to, bytes)?;
        Ok(())
    }
}

impl SaveFolder for MemoryFolder {
    ghost log = { λ f. f.asked.log.calls };

    fn lock_name(&mut self, path: &str) -> bool {
        let answer = self.state.goes().is_ok() && self.state.files.contains_key(path);
        self.asked.note(&Request::LockName(path), answer);
        answer
    }

    fn access(&mut self, path: &str) -> io::Result<Option<u32>> {
        let answer = self.state.look(path);
        self.asked.note(&Request::Access(path), answer.is_ok());
        answer
    }

    fn open_folder(&mut self) -> io::Result<()> {
        let answer = self.state.goes();
        self.asked.note(&Request::OpenFolder, answer.is_ok());
        answer
    }

    fn left_overs(&mut self, alloc: Global, front: &str) -> io::Result<Vec<u64>> {
        let answer = self.state.numbers(alloc, front);
        self.asked.note(&Request::LeftOvers, answer.is_ok());
        answer
    }

    fn seize(&mut self, path: &str) -> bool {
        let answer = self.state.has(path);
        self.asked.note(&Request::Seize(path), answer);
        answer
    }

    fn claim(&mut self, path: &str) -> io::Result<()> {
        let answer = self.state.goes();
        self.asked.note(&Request::Claim(path), answer.is_ok());
        answer
    }

    fn compare(&mut self, path: &str, bytes: &[u8]) -> bool {
        let answer = !self.asked.has_failed() && self.state.holds(path, bytes);
        self.asked.note(&Request::Compare(path, bytes), answer);
        answer
    }

    fn remove(&mut self, path: &str) -> io::Result<()> {
        let answer = self.state.take_away(path);
        self.asked.note(&Request::Remove(path), answer.is_ok());
        answer
    }

    fn create(&mut self, path: &str, _access: Option<u32>) -> io::Result<()> {
        let answer = self.state.make(path);
        self.asked.note(&Request::Create(path), answer.is_ok());
        answer
    }

    fn set_access(&mut self, _access: Option<u32>) -> io::Result<()> {
        let answer = self.state.goes();
        self.asked.note(&Request::SetAccess, answer.is_ok());
        answer
    }

    fn write(&mut self, bytes: &[u8]) -> io::Result<()> {
        let answer = self.state.append(bytes);
        self.asked.note(&Request::Write(bytes), answer.is_ok());
        answer
    }

    fn sync(&mut self) -> io::Result<()> {
        let answer = self.state.keep();
        self.asked.note(&Request::Sync, answer.is_ok());
        answer
    }

    fn close(&mut self) {}

    fn rename(&mut self, from: &str, to: &str) -> io::Result<()> {
        let answer = self.state.move_to(from, to);
        self.asked.note(&Request::Rename(from, to), answer.is_ok());
        answer
    }

    fn sync_folder(&mut self) -> io::Result<()> {
        let answer = self.state.goes();
        self.asked.note(&Request::SyncFolder, answer.is_ok());
        answer
    }
}
