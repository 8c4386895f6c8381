ghost use Rattle.std.specs.Prelude.{◌≡◌, ◌<◌, [], length};

use crate::asked::Asked;
use crate::left_overs::numbers_in;
use crate::lock_file::LockFile;
use crate::request::Request;
use crate::same_bytes::has_bytes;
use crate::save_folder::SaveFolder;
use std::alloc::Global;
use std::fs::{OpenFile, OpenOptions, Permissions};
use std::io::{ErrorKind, Write};
use std::os::unix::fs::{MetadataExt, OpenOptionsExt, PermissionsExt};
use std::rt::{Clock, Files};
use std::time::Duration;
use std::{fs, io, thread};

/// The bits of a file's mode that say who may read, write and run it.
const ACCESS_BITS: u32 = 0o777;

/// The mode that a new file is asked for where it replaces none. The system takes away what the process's mask says.
const NEW_FILE_MODE: u32 = 0o666;

/// How often a save looks whether another one still has its name locked, and how many milliseconds lie between: 10 seconds in all.
const LOOKS: u32 = 1000;

const PAUSE: u64 = 10;

/// A folder of the system. Each method makes the calls that it notes, and no other that changes a file. No proof shows that, so
/// they have to be read.
#[derive(Drop)]
pub struct SystemFolder<'a, R: Files> {
    rt: &'a R,
    path: &'a str,
    // The folder, while a save goes on.
    folder: Option<R::File>,
    // The file that has its name locked, while a save goes on.
    locked: Option<R::File>,
    // The file that was opened last.
    file: Option<R::File>,
    asked: Asked,
}

impl<'a, R: Files> SystemFolder<'a, R> {
    /// A folder of which nothing was asked yet.
    pub fn new(rt: &'a R, path: &'a str) -> SystemFolder<'a, R>
        requires { 0 < length path.now }
        ensures { result.asked.log.calls ≡ [] }
    {
        SystemFolder {
            rt,
            path,
            folder: None,
            locked: None,
            file: None,
            asked: Asked::new(),
        }
    }
}

// The access bits of the file at a path. There are none if nothing is there, or a link. What else is no file is not replaced.
fn access_of<R: Files>(rt: &R, path: &str) -> io::Result<Option<u32>> {
    match fs::symlink_metadata(rt, path) {
        Ok(metadata) if metadata.is_file() => Ok(Some(metadata.mode() & ACCESS_BITS)),
        Ok(metadata) if metadata.file_type().is_symlink() => Ok(None),
        Ok(_) => Err(ErrorKind::InvalidInput.into()),
        Err(error) if error.kind() == ErrorKind::NotFound => Ok(None),
        Err(error) => Err(error),
    }
}

// Opens a file that is there, if it is a regular one and no link. To open a pipe would wait for its other end.
fn open_regular<R: Files>(rt: &R, path: &str) -> io::Result<R::File> {
    if fs::symlink_metadata(rt, path)?.is_file() {
        fs::open(rt, path)
    } else {
        Err(ErrorKind::InvalidInput.into())
    }
}

// Whether a path leads to an open file, and by no link.
fn leads_to<R: Files>(rt: &R, path: &str, file: &R::File) -> io::Result<bool> {
    let there = match fs::symlink_metadata(rt, path) {
        Ok(there) => there,
        Err(error) if error.kind() == ErrorKind::NotFound => return Ok(false),
        Err(error) => return Err(error),
    };
    let open = file.metadata()?;
    Ok(there.dev() == open.dev() && there.ino() == open.ino())
}

// The file under a path, locked, where that is a regular one that can be read and locked. It waits while another program has it
// locked; if that takes too long there is none.
fn locked_name<R: Files + Clock>(rt: &R, path: &str) -> io::Result<Option<R::File>>
where
    R::File: LockFile,
{
    for _ in 0..LOOKS {
        let file = open_regular(rt, path)?;
        if !file.lock_now()? {
            thread::sleep(rt, Duration::from_millis(PAUSE));
        } else if leads_to(rt, path, &file)? {
            return Ok(Some(file));
        }
    }
    Ok(None)
}

// A file that was left, locked, if nobody else has it locked and its path still leads to it.
fn seized<R: Files>(rt: &R, path: &str) -> io::Result<Option<R::File>>
where
    R::File: LockFile,
{
    let file = open_regular(rt, path)?;
    let is_left = file.lock_now()? && leads_to(rt, path, &file)?;
    Ok(if is_left { Some(file) } else { None })
}

// Locks a new file. Where files can't be locked, nobody takes another's file away.
fn claim_of<R: Files>(rt: &R, path: &str, file: &Option<R::File>) -> io::Result<()>
where
    R::File: LockFile,
{
    let Some(file) = file else {
        return Err(ErrorKind::NotFound.into());
    };
    if file.lock_now().unwrap_or(true) && leads_to(rt, path, file)? {
        Ok(())
    } else {
        Err(ErrorKind::AlreadyExists.into())
    }
}

// A file that has these bytes and no others. One of another length is not opened.
fn opened_same<R: Files>(rt: &R, path: &str, bytes: &[u8]) -> io::Result<Option<R::File>> {
    let there = fs::symlink_metadata(rt, path)?;
    if !there.is_file() || there.len() != bytes.len() as u64 {
        return Ok(None);
    }
    let mut file = fs::open(rt, path)?;
    let is_same = has_bytes(&mut file, bytes)? && leads_to(rt, path, &file)?;
    Ok(if is_same { Some(file) } else { None })
}

// Makes a file that is not there yet, with these access bits or those of any new file, or fewer.
fn create_new<R: Files>(rt: &R, path: &str, access: Option<u32>) -> io::Result<R::File> {
    OpenOptions::new()
        .write(true)
        .create_new(true)
        .mode(access.unwrap_or(NEW_FILE_MODE))
        .open(rt, path)
}

// Gives a file the access bits that the process's mask may have taken away. Where it has them nothing is set, since not every
// file system can.
fn set_access_of<F: OpenFile>(file: &Option<F>, access: Option<u32>) -> io::Result<()> {
    let Some(access) = access else {
        return Ok(());
    };
    let Some(file) = file else {
        return Err(ErrorKind::NotFound.into());
    };
    if file.metadata()?.mode() & ACCESS_BITS == access {
        return Ok(());
    }
    file.set_permissions(Permissions::from_mode(access))
}

fn write_to<F: Write>(file: &mut Option<F>, bytes: &[u8]) -> io::Result<()> {
    match file {
        Some(file) => file.write_all(bytes),
        None => Err(ErrorKind::NotFound.into()),
    }
}

fn sync_of<F: OpenFile>(file: &Option<F>) -> io::Result<()> {
    match file {
        Some(file) => file.sync_all(),
        None => Err(ErrorKind::NotFound.into()),
    }
}

// Syncs a folder. `EINVAL` says that the file system has no such call, so that there is nothing more to do.
fn sync_names_of<F: OpenFile>(folder: &Option<F>) -> io::Result<()> {
    match sync_of(folder) {
        Err(error) if error.kind() == ErrorKind::InvalidInput => Ok(()),
        answer => answer,
    }
}

impl<'a, R: Files + Clock> SaveFolder for SystemFolder<'a, R>
where
    R::File: LockFile,
{
    ghost log = { λ f. f.asked.log.calls };

    fn lock_name(&mut self, path: &str) -> bool {
        self.locked = locked_name(self.rt, path).unwrap_or(None);
        let answer = self.locked.is_some();
        self.asked.note(&Request::LockName(path), answer);
        answer
    }

    fn access(&mut self, path: &str) -> io::Result<Option<u32>> {
        let answer = access_of(self.rt, path);
        self.asked.note(&Request::Access(path), answer.is_ok());
        answer
    }

    fn open_folder(&mut self) -> io::Result<()> {
        let answer = fs::open(self.rt, self.path);
        self.asked.note(&Request::OpenFolder, answer.is_ok());
        self.folder = Some(answer?);
        Ok(())
    }

    fn left_overs(&mut self, alloc: Global, front: &str) -> io::Result<Vec<u64>> {
        let answer = numbers_in(self.rt, alloc, front);
        self.asked.note(&Request::LeftOvers, answer.is_ok());
        answer
    }

    fn seize(&mut self, path: &str) -> bool {
        self.file = seized(self.rt, path).unwrap_or(None);
        let answer = self.file.is_some();
        self.asked.note(&Request::Seize(path), answer);
        answer
    }

    fn claim(&mut self, path: &str) -> io::Result<()> {
        let answer = claim_of(self.rt, path, &self.file);
        self.asked.note(&Request::Claim(path), answer.is_ok());
        answer
    }

    fn compare(&mut self, path: &str, bytes: &[u8]) -> bool {
        self.file = if self.asked.has_failed() {
            None
        } else {
            opened_same(self.rt, path, bytes).unwrap_or(None)
        };
        let answer = self.file.is_some();
        self.asked.note(&Request::Compare(path, bytes), answer);
        answer
    }

    fn remove(&mut self, path: &str) -> io::Result<()> {
        let answer = fs::remove_file(self.rt, path);
        self.asked.note(&Request::Remove(path), answer.is_ok());
        answer
    }

    fn create(&mut self, path: &str, access: Option<u32>) -> io::Result<()> {
        let answer = create_new(self.rt, path, access);
        self.asked.note(&Request::Create(path), answer.is_ok());
        self.file = None;
        self.file = Some(answer?);
        Ok(())
    }

    fn set_access(&mut self, access: Option<u32>) -> io::Result<()> {
        let answer = set_access_of(&self.file, access);
        self.asked.note(&Request::SetAccess, answer.is_ok());
        answer
    }

    fn write(&mut self, bytes: &[u8]) -> io::Result<()> {
        let answer = write_to(&mut self.file, bytes);
        self.asked.note(&Request::Write(bytes), answer.is_ok());
        answer
    }

    fn sync(&mut self) -> io::Result<()> {
        let answer = sync_of(&self.file);
        self.asked.note(&Request::Sync, answer.is_ok());
        answer
    }

    fn close(&mut self) {
        self.file = None;
        self.locked = None;
        self.folder = None;
    }

    fn rename(&mut self, from: &str, to: &str) -> io::Result<()> {
        let answer = fs::rename(self.rt, from, to);
        self.asked.note(&Request::Rename(from, to), answer.is_ok());
        answer
    }

    fn sync_folder(&mut self) -> io::Result<()> {
        let answer = sync_names_of(&self.folder);
        self.asked.note(&Request::SyncFolder, answer.is_ok());
        answer
    }
}
