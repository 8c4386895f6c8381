ghost use Rattle.std.specs.Prelude.{◌≡◌, ℕ, List, ◌+◌, ◌-◌, ◌^◌, ◌<◌, ◌≤◌, ◌⊎◌, ◌∷◌, IfOk, IfSome, IfNone, IsErrOf, IsTrue, true, false, OnOk, [], vec_len, length, take, slice_range, string_bytes};
ghost use Rattle.std.specs.Io.KnownBytes.{Consumes, IsAtEnd};
ghost use Rattle.atomic_save.specs.Saving.{IsBeside, IsKept, LosesNothing};
ghost use Rattle.atomic_save.specs.TwoRuns.{IsPut, StaysCareful};
ghost use Rattle.map_store.specs.Asking.{loading};
ghost use Rattle.map_store.specs.Answers.{IsAnswered};
ghost use Rattle.map_store.specs.Files.{HasFailed};
ghost use Rattle.map_store.specs.Paths.{path_to, front_of, is_of_new_file, IsName};
ghost use Rattle.map_store.specs.Storing.{Loads};

use crate::map_store::MapStore;
use crate::reason::Reason;
use crate::store_log::{StoreCall, StoreLog};
use atomic_save::{LockFile, SaveError, SaveFolder, SystemFolder, save};
use refusals::StoreFault;
use std::alloc::{AllocError, Global};
use std::fmt::Display;
use std::fs;
use std::io::{ErrorKind, Read};
use std::rt::{Clock, Files};
use thiserror::Error;

/// The bytes of the longest file that is loaded.
const LONGEST: usize = 67_108_864;

/// The room that is made where a file turns out to be longer than was known.
const MORE_ROOM: usize = 65_536;

/// The calls of `read` that a load makes at most.
const MAX_CALLS: u64 = 4_294_967_296;

/// The files of a folder of the system. Nothing is claimed of them, since other programs reach them too.
///
/// A file's path is the folder's, a slash and its name. The name has no slash and no dot at its front. Nothing is told of a file
/// that can't be loaded or saved, but by a store that is `telling`.
#[derive(Drop)]
pub struct FolderStore<'a, R: Files> {
    rt: &'a R,
    // What stands before each reason on standard error, if anything is told.
    program: Option<&'a str>,
    folder: &'a str,
    saves: SystemFolder<'a, R>,
    failures: u64,
    log: StoreLog,
}

// Why a file could not be loaded.
#[derive(Debug, Drop, Error)]
enum LoadError {
    #[error("{0}")]
    Open(Reason),
    #[error("{0}")]
    Read(Reason),
    #[error("not a file")]
    NotAFile,
    #[error("longer than 67,108,864 bytes")]
    TooLong,
    #[error("out of memory")]
    Memory,
}

impl LoadError {
    // What the store answers: a file that is too long, as one that is no file, is a fault of the device.
    fn fault(&self) -> StoreFault
        ensures { IsAnswered self.now result }
    {
        match self {
            LoadError::Open(reason) => match reason.kind() {
                ErrorKind::NotFound => StoreFault::Missing,
                _ => StoreFault::Device,
            },
            LoadError::Memory => StoreFault::Memory,
            LoadError::Read(_) | LoadError::NotAFile | LoadError::TooLong => StoreFault::Device,
        }
    }
}

// Makes room behind an offset, up to one byte more than the longest file has.
fn make_room(bytes: &mut Vec<u8>, offset: usize) -> Result<(), LoadError>
    requires within { offset ≤ vec_len bytes.old }
    requires limit { vec_len bytes.old ≤ LONGEST + 1 }
    ensures room { OnOk result (offset < vec_len bytes.new) }
    ensures limit { OnOk result (vec_len bytes.new ≤ LONGEST + 1) }
    ensures prefix { OnOk result (take offset bytes.new.items ≡ take offset bytes.old.items) }
{
    let len = bytes.len();
    if offset < len {
        return Ok(());
    }
    if len > LONGEST {
        return Err(LoadError::TooLong);
    }
    let longer = if len < MORE_ROOM {
        MORE_ROOM
    } else if len > LONGEST / 2 {
        LONGEST + 1
    } else {
        2 * len
    };
    if bytes.reserve_exact(longer - len).is_err() || bytes.resize(longer, 0).is_err() {
        return Err(LoadError::Memory);
    }
    Ok(())
}

// Calls `read` once for what lies behind an offset, and gives where the bytes end then. A call that was interrupted gives
// the same offset, and one at the file's end none.
fn read_behind<F: Read>(
    file: &mut F,
    bytes: &mut [u8],
    offset: usize,
) -> Result<Option<usize>, LoadError>
    requires { offset < length bytes.old }
    ensures within { IfOk result (λ end. IfSome end (λ n. n ≤ length bytes.old)) }
    ensures prefix { take offset bytes.new ≡ take offset bytes.old }
    ensures read { IfOk result (λ end. IfSome end (λ n. (offset ≤ n) × Consumes (F.remaining file.old) (F.remaining file.new)
        (slice_range bytes.new offset n))) }
    ensures ended { IfOk result (λ end. IfNone end (Consumes (F.remaining file.old) (F.remaining file.new) []
        × IsAtEnd (F.remaining file.new))) }
{
    match file.read(&mut bytes[offset..]) {
        Ok(0) => Ok(None),
        Ok(count) => Ok(Some(offset + count)),
        Err(error) if error.kind() == ErrorKind::Interrupted => Ok(Some(offset)),
        Err(error) => Err(LoadError::Read(Reason::of(error))),
    }
}

// Reads to the end. If the file has the size that is expected, room is taken once.
fn read_whole<F: Read>(alloc: Global, file: &mut F, size: usize) -> Result<Vec<u8>, LoadError>
    requires { size ≤ LONGEST }
    ensures whole { IfOk result (λ bytes. Consumes (F.remaining file.old) (F.remaining file.new) bytes.items
        × IsAtEnd (F.remaining file.new)) }
    ensures short { IfOk result (λ bytes. vec_len bytes ≤ LONGEST) }
{
    let Ok(mut bytes) = vec![in alloc; 0; size + 1] else {
        return Err(LoadError::Memory);
    };
    let mut end = 0;
    for _ in 0..MAX_CALLS {
        make_room(&mut bytes, end)?;
        match read_behind(file, &mut bytes, end)? {
            Some(offset) => end = offset,
            None => {
                bytes.truncate(end);
                return Ok(bytes);
            }
        }
    }
    Err(LoadError::Read(Reason::of(ErrorKind::Interrupted.into())))
}

/// No new file that stands beside a file, while that is stored, has the path of a file of the store. By its path it is told from those.
pub fn new_files_are_apart()
    ensures apart { (folder name other : List ℕ) → IsName other → IsBeside (front_of folder name) (path_to folder other) → ⊥ }
    ensures told { (folder name at : List ℕ) → IsBeside (front_of folder name) at → is_of_new_file folder at ≡ true }
    ensures others { (folder name : List ℕ) → IsName name → is_of_new_file folder (path_to folder name) ≡ false }
{}

impl<'a, R: Files + Clock + Eprint> FolderStore<'a, R>
where
    R::File: LockFile,
{
    ghost use Rattle.std.specs.Prelude.{false};
    ghost use Rattle.std.specs.FinMap.{empty};

    /// The files of a folder, which is not looked at yet. Nothing is told on standard error.
    pub fn new(rt: &'a R, folder: &'a str) -> FolderStore<'a, R>
        requires { 0 < length folder.now }
        ensures stored { ⟦<FolderStore<'a, R> as MapStore>⟧.stored result ≡ record { files = empty; failures = 0; honest = false } }
        ensures asked { ⟦<FolderStore<'a, R> as MapStore>⟧.asked result ≡ [] }
        ensures calls { ⟦<FolderStore<'a, R> as MapStore>⟧.calls result ≡ [] }
    {
        FolderStore {
            rt,
            program: None,
            folder,
            saves: SystemFolder::new(rt, folder),
            failures: 0,
            log: StoreLog::new(),
        }
    }

    /// The store that tells, where a file can't be loaded or saved, why: by a line on standard error with the program's name,
    /// the path and the system's reason.
    pub fn telling(mut self, program: &'a str) -> FolderStore<'a, R>
        ensures stored { ⟦<FolderStore<'a, R> as MapStore>⟧.stored result ≡ ⟦<FolderStore<'a, R> as MapStore>⟧.stored self.entry }
        ensures asked { ⟦<FolderStore<'a, R> as MapStore>⟧.asked result ≡ ⟦<FolderStore<'a, R> as MapStore>⟧.asked self.entry }
        ensures calls { ⟦<FolderStore<'a, R> as MapStore>⟧.calls result ≡ ⟦<FolderStore<'a, R> as MapStore>⟧.calls self.entry }
    {
        self.program = Some(program);
        self
    }

    fn path_of(&self, alloc: Global, name: &str) -> Result<String, AllocError>
        ensures { IfOk result (λ path. string_bytes path ≡ path_to self.now.folder.now name.now) }
    {
        let folder = self.folder;
        format!(in alloc; "{folder}/{name}")
    }

    // What the paths of the new files begin with, by which a save replaces a file. Their names begin with a dot, so they are
    // no files of the store.
    fn front(&self, alloc: Global, name: &str) -> Result<String, AllocError>
        ensures { IfOk result (λ front. string_bytes front ≡ front_of self.now.folder.now name.now) }
    {
        let folder = self.folder;
        format!(in alloc; "{folder}/.{name}.")
    }

    // Says on standard error what went wrong with a file, if anything is told.
    fn report(&self, path: &str, reason: impl Display + Drop) {
        if let Some(program) = self.program {
            let _ = eprintln!(self.rt; "{program}: {path}: {reason}");
        }
    }

    fn read_file(&self, alloc: Global, path: &str) -> Result<Vec<u8>, LoadError>
        ensures { IfOk result (λ bytes. vec_len bytes ≤ LONGEST) }
    {
        // To open a pipe would wait for its other end, so what is no file is not opened.
        let metadata = fs::metadata(self.rt, path).map_err(|error| LoadError::Open(Reason::of(
            error,
        )))?;
        let size = metadata.len();
        if !metadata.is_file() {
            return Err(LoadError::NotAFile);
        }
        if size > LONGEST as u64 {
            return Err(LoadError::TooLong);
        }
        let mut file = fs::open(self.rt, path).map_err(|error| LoadError::Open(Reason::of(error)))?;
        read_whole(alloc, &mut file, size as usize)
    }

    // Counts a fault of the device.
    fn counted(&mut self, fault: StoreFault) -> StoreFault
        ensures value { result ≡ fault }
        ensures raised { result ≡ StoreFault.Device → (self.old.failures < self.new.failures) ⊎ (self.old.failures ≡ 2 ^ 64 - 1) }
        ensures count { self.old.failures ≤ self.new.failures }
        ensures asked { self.new.log.asked ≡ self.old.log.asked }
        ensures folder { self.new.folder ≡ self.old.folder }
        ensures saves { self.new.saves ≡ self.old.saves }
    {
        if fault == StoreFault::Device {
            self.failures = self.failures.saturating_add(1);
        }
        fault
    }
}

impl<'a, R: Files + Clock + Eprint> MapStore for FolderStore<'a, R>
where
    R::File: LockFile,
{
    ghost use Rattle.std.specs.Prelude.{false};
    ghost use Rattle.std.specs.FinMap.{empty};

    ghost stored = { λ s. record { files = empty; failures = s.failures; honest = false } };

    ghost asked = { λ s. s.log.asked };

    ghost calls = { λ s. ⟦<SystemFolder<'a, R> as SaveFolder>⟧.log s.saves };

    ghost keeps = { λ s name bytes. IsKept (path_to s.folder.now name) bytes (⟦<SystemFolder<'a, R> as SaveFolder>⟧.log s.saves)
        × IsPut (path_to s.folder.now name) bytes (⟦<SystemFolder<'a, R> as SaveFolder>⟧.log s.saves) };

    ghost loses_nothing = { λ old new name bytes. LosesNothing (IsBeside (front_of old.folder.now name)) (path_to old.folder.now name) bytes
        (⟦<SystemFolder<'a, R> as SaveFolder>⟧.log old.saves) (⟦<SystemFolder<'a, R> as SaveFolder>⟧.log new.saves)
        × StaysCareful (IsBeside (front_of old.folder.now name)) (path_to old.folder.now name)
        (⟦<SystemFolder<'a, R> as SaveFolder>⟧.log old.saves) (⟦<SystemFolder<'a, R> as SaveFolder>⟧.log new.saves) };

    /// A file of more than 67,108,864 bytes is a fault of the device.
    fn load(&mut self, alloc: Global, name: &str) -> Result<Vec<u8>, StoreFault>
        ensures short { IfOk result (λ bytes. vec_len bytes ≤ LONGEST) }

        // The clauses of the trait.
        ensures honest { IsTrue (⟦<FolderStore<'a, R> as MapStore>⟧.stored self.old).honest
            → IsTrue (⟦<FolderStore<'a, R> as MapStore>⟧.stored self.new).honest }
        ensures loads { IsTrue (⟦<FolderStore<'a, R> as MapStore>⟧.stored self.old).honest
            → Loads name.now (⟦<FolderStore<'a, R> as MapStore>⟧.stored self.old).files result
            (⟦<FolderStore<'a, R> as MapStore>⟧.stored self.new).files }
        ensures device { IsErrOf result StoreFault.Device
            → HasFailed (⟦<FolderStore<'a, R> as MapStore>⟧.stored self.old) (⟦<FolderStore<'a, R> as MapStore>⟧.stored self.new) }
        ensures count { (⟦<FolderStore<'a, R> as MapStore>⟧.stored self.old).failures
            ≤ (⟦<FolderStore<'a, R> as MapStore>⟧.stored self.new).failures }
        ensures asked { ⟦<FolderStore<'a, R> as MapStore>⟧.asked self.new
            ≡ loading name.now ∷ ⟦<FolderStore<'a, R> as MapStore>⟧.asked self.old }
        ensures calls { ⟦<FolderStore<'a, R> as MapStore>⟧.calls self.new ≡ ⟦<FolderStore<'a, R> as MapStore>⟧.calls self.old }

        // What is kept stays so.
        ensures kept { (other bytes : List ℕ) → ⟦<FolderStore<'a, R> as MapStore>⟧.keeps self.old other bytes
            → ⟦<FolderStore<'a, R> as MapStore>⟧.keeps self.new other bytes }
    {
        self.log.note(&StoreCall::Load(name));
        let Ok(path) = self.path_of(alloc, name) else {
            return Err(StoreFault::Memory);
        };
        match self.read_file(alloc, path.as_str()) {
            Ok(bytes) => Ok(bytes),
            Err(error) => {
                let fault = error.fault();
                self.report(path.as_str(), error);
                Err(self.counted(fault))
            }
        }
    }

    #[tactic(auto, using(crate::proofs::Names::path_apart))]
    fn store(&mut self, alloc: Global, name: &str, bytes: &[u8]) -> Result<(), StoreFault> {
        self.log.note(&StoreCall::Store(name));
        let (Ok(path), Ok(front)) = (self.path_of(alloc, name), self.front(alloc, name)) else {
            return Err(StoreFault::Memory);
        };
        match save(alloc, &mut self.saves, path.as_str(), front.as_str(), bytes) {
            Ok(()) => Ok(()),
            Err(SaveError::Memory(_)) => Err(StoreFault::Memory),
            Err(SaveError::Refused(error)) => {
                self.report(path.as_str(), Reason::of(error));
                Err(self.counted(StoreFault::Device))
            }
        }
    }
}
