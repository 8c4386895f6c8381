ghost use Rattle.std.specs.Prelude.{◌≡◌, ◌∷◌, List, IsTrue, is_ok, true};
ghost use Rattle.atomic_save.specs.Crash.{Call, name_locked, looked, folder_opened, listed, seized, claimed, compared, removed, made, access_set, wrote, synced, renamed, folder_synced, none_refused};

use std::alloc::Global;
use std::io;

/// A folder as a save uses it, by what was asked of it.
pub trait SaveFolder {
    /// The calls so far, each with whether it was answered that it is done, the newest first.
    ghost log: { Self → List Call };

    /// Locks the file at a path for a save, and says whether that was done. It waits while another save has it locked, 10 seconds
    /// at most. The lock ends with `close`.
    fn lock_name(&mut self, path: &str) -> bool
        ensures { log self.new ≡ name_locked path.now result ∷ log self.old };

    /// The access bits of the file at a path. There are none if nothing is there, or a link. An error if what is there is no file, as
    /// a folder or a pipe.
    fn access(&mut self, path: &str) -> io::Result<Option<u32>>
        ensures { log self.new ≡ looked path.now (is_ok result) ∷ log self.old };

    /// Opens the folder, so that its names can be synced.
    fn open_folder(&mut self) -> io::Result<()>
        ensures { log self.new ≡ folder_opened (is_ok result) ∷ log self.old };

    /// The numbers of the files in the folder whose paths begin with `front` and end with a number and `.new`.
    fn left_overs(&mut self, alloc: Global, front: &str) -> io::Result<Vec<u64>>
        ensures { log self.new ≡ listed (is_ok result) ∷ log self.old };

    /// Opens and locks a file, and says whether it may be taken away: it is a regular one, nobody else has it locked, and it
    /// still has this path. The lock is held until another file is opened.
    fn seize(&mut self, path: &str) -> bool
        ensures { log self.new ≡ seized path.now result ∷ log self.old };

    /// Locks the file that was made last, so that no other run takes it away. `AlreadyExists` if one was quicker: it locked
    /// the file, or took its path away.
    fn claim(&mut self, path: &str) -> io::Result<()>
        ensures { log self.new ≡ claimed path.now (is_ok result) ∷ log self.old };

    /// Opens a file, and says whether it is a regular one, and no link, that has these bytes and no others. Where that can't be
    /// seen, or once a write or a sync was refused, the answer is no.
    fn compare(&mut self, path: &str, bytes: &[u8]) -> bool
        ensures noted { log self.new ≡ compared path.now bytes.now result ∷ log self.old }
        ensures sure { IsTrue result → none_refused (log self.old) ≡ true };

    /// Takes a file away.
    fn remove(&mut self, path: &str) -> io::Result<()>
        ensures { log self.new ≡ removed path.now (is_ok result) ∷ log self.old };

    /// Makes a file where there is none, and opens it. It has no wider access bits than these, or than any new file.
    fn create(&mut self, path: &str, access: Option<u32>) -> io::Result<()>
        ensures { log self.new ≡ made path.now (is_ok result) ∷ log self.old };

    /// Gives the file that was opened last these access bits, where there are some. Where no call made that file, nothing is sure of
    /// any file any more.
    fn set_access(&mut self, access: Option<u32>) -> io::Result<()>
        ensures { log self.new ≡ access_set (is_ok result) ∷ log self.old };

    /// Writes to the end of the file that was opened last. Where no call made that file, nothing is sure of any file any more.
    fn write(&mut self, bytes: &[u8]) -> io::Result<()>
        ensures { log self.new ≡ wrote bytes.now (is_ok result) ∷ log self.old };

    /// Has the system keep what the file that was opened last holds.
    fn sync(&mut self) -> io::Result<()>
        ensures { log self.new ≡ synced (is_ok result) ∷ log self.old };

    /// Closes the file that was opened last, where it is open.
    fn close(&mut self)
        ensures { log self.new ≡ log self.old };

    /// Puts a file in the place of another or of none.
    fn rename(&mut self, from: &str, to: &str) -> io::Result<()>
        ensures { log self.new ≡ renamed from.now to.now (is_ok result) ∷ log self.old };

    /// Has the system keep what was done to the names in the folder.
    fn sync_folder(&mut self) -> io::Result<()>
        ensures { log self.new ≡ folder_synced (is_ok result) ∷ log self.old };
}
