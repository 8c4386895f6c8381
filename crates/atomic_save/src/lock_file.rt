use std::fs::{File, TryLockError};
use std::io;

/// An open file that can be locked.
pub trait LockFile {
    /// Locks the whole file, and says whether that was done: not while another handle has it locked. An error if it can't be
    /// locked at all. The lock ends with the handle.
    fn lock_now(&self) -> io::Result<bool>;
}

impl LockFile for File {
    fn lock_now(&self) -> io::Result<bool> {
        match self.try_lock() {
            Ok(()) => Ok(true),
            Err(TryLockError::WouldBlock) => Ok(false),
            Err(TryLockError::Error(error)) => Err(error),
        }
    }
}
