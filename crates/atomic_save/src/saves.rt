ghost use Rattle.std.specs.Prelude.{◌≡◌, ◌≢◌, ◌<◌, ℕ, List, IfErr, IfOk, OnErr, OnOk, IsTrue, string_bytes};
ghost use Rattle.atomic_save.specs.Crash.{refusals};
ghost use Rattle.atomic_save.specs.Saving.{LosesNothing, IsKept, IsInPlace, IsMade, IsBeside, IsReason, Only, NoPath};
ghost use Rattle.atomic_save.specs.declared.saves.SaveError.TheVariants.{Refused, Memory};
ghost use Rattle.atomic_save.specs.TwoRuns.{IsPut, IsRenamed, StaysCareful};

use crate::save_folder::SaveFolder;
use std::alloc::{AllocError, Global};
use std::io;
use std::io::ErrorKind;
use thiserror::Error;

/// The names that are tried for a new file.
const MOST_NAMES: u64 = 1000;

/// Why bytes could not be saved.
#[derive(Debug, Drop, Error)]
pub enum SaveError {
    #[error("{0}")]
    Refused(io::Error),
    #[error("out of memory")]
    Memory(AllocError),
}

impl From<io::Error> for SaveError {
    ghost from_gives = { λ error e. e ≡ Refused error };

    fn from(error: io::Error) -> SaveError {
        SaveError::Refused(error)
    }
}

impl From<AllocError> for SaveError {
    ghost from_gives = { λ error e. e ≡ Memory error };

    fn from(error: AllocError) -> SaveError {
        SaveError::Memory(error)
    }
}

// The path of the new file with this number.
fn path_beside(alloc: Global, front: &str, number: u64) -> Result<String, AllocError>
    ensures { IfOk result (λ beside. IsBeside front.now (string_bytes beside)) }
{
    format!(in alloc; "{front}{number}.new")
}

// Takes away a file that a killed run left.
fn clear_one<F: SaveFolder>(alloc: Global, folder: &mut F, front: &str, number: u64)
    ensures safe { (path bytes : List ℕ) → (IsBeside front.now path → ⊥)
        → LosesNothing (IsBeside front.now) path bytes (F.log folder.old) (F.log folder.new) }
    ensures careful { (path : List ℕ) → StaysCareful (IsBeside front.now) path (F.log folder.old) (F.log folder.new) }
{
    let Ok(beside) = path_beside(alloc, front, number) else {
        return;
    };
    let beside = beside.as_str();
    if !folder.seize(beside) {
        return;
    }
    let _ = folder.remove(beside);
}

// Takes away what killed runs left, as far as nobody else has it locked.
fn clear<F: SaveFolder>(alloc: Global, folder: &mut F, front: &str)
    ensures safe { (path bytes : List ℕ) → (IsBeside front.now path → ⊥)
        → LosesNothing (IsBeside front.now) path bytes (F.log folder.old) (F.log folder.new) }
    ensures careful { (path : List ℕ) → StaysCareful (IsBeside front.now) path (F.log folder.old) (F.log folder.new) }
{
    let Ok(numbers) = folder.left_overs(alloc, front) else {
        return;
    };
    for number in numbers.as_slice() {
        clear_one(alloc, folder, front, *number);
    }
}

// Whether a file is under the path, and has these bytes already, and the system keeps it so.
fn is_unchanged<F: SaveFolder>(
    folder: &mut F,
    path: &str,
    access: Option<u32>,
    bytes: &[u8],
) -> bool
    ensures safe { LosesNothing NoPath path.now bytes.now (F.log folder.old) (F.log folder.new) }
    ensures careful { StaysCareful NoPath path.now (F.log folder.old) (F.log folder.new) }
    ensures kept { IsTrue result → IsKept path.now bytes.now (F.log folder.new) }
    ensures put { IsTrue result → IsPut path.now bytes.now (F.log folder.new) }
{
    if access.is_none() {
        return false;
    }
    if !folder.compare(path, bytes) {
        return false;
    }
    if folder.sync().is_err() {
        return false;
    }
    folder.sync_folder().is_ok()
}

// Claims and fills the new file, and puts it in the old one's place.
fn fill<F: SaveFolder>(
    folder: &mut F,
    beside: &str,
    path: &str,
    access: Option<u32>,
    bytes: &[u8],
) -> io::Result<()>
    requires apart { beside.now ≢ path.now }
    requires made { IsMade beside.now (F.log folder.old) }
    ensures safe { LosesNothing (Only beside.now) path.now bytes.now (F.log folder.old) (F.log folder.new) }
    ensures careful { StaysCareful (Only beside.now) path.now (F.log folder.old) (F.log folder.new) }
    ensures placed { OnOk result (IsInPlace path.now bytes.now (F.log folder.new)) }
    ensures put { OnOk result (IsRenamed path.now bytes.now (F.log folder.new)) }
    ensures reason { OnErr result (refusals (F.log folder.old) < refusals (F.log folder.new)) }
{
    folder.claim(beside)?;
    folder.set_access(access)?;
    folder.write(bytes)?;
    folder.sync()?;
    folder.rename(beside, path)
}

// Takes a new file away that could not be put in place, if its path still leads to it.
fn take_back<F: SaveFolder>(folder: &mut F, beside: &str)
    ensures safe { (path bytes : List ℕ) → beside.now ≢ path
        → LosesNothing (Only beside.now) path bytes (F.log folder.old) (F.log folder.new) }
    ensures careful { (path : List ℕ) → StaysCareful (Only beside.now) path (F.log folder.old) (F.log folder.new) }
{
    if folder.claim(beside).is_err() {
        return;
    }
    let _ = folder.remove(beside);
}

// Saves by way of a new file of this path. `AlreadyExists` if another run has the path.
fn save_beside<F: SaveFolder>(
    folder: &mut F,
    beside: &str,
    path: &str,
    access: Option<u32>,
    bytes: &[u8],
) -> io::Result<()>
    requires { beside.now ≢ path.now }
    ensures safe { LosesNothing (Only beside.now) path.now bytes.now (F.log folder.old) (F.log folder.new) }
    ensures careful { StaysCareful (Only beside.now) path.now (F.log folder.old) (F.log folder.new) }
    ensures kept { OnOk result (IsKept path.now bytes.now (F.log folder.new)) }
    ensures put { OnOk result (IsPut path.now bytes.now (F.log folder.new)) }
    ensures reason { OnErr result (refusals (F.log folder.old) < refusals (F.log folder.new)) }
{
    folder.create(beside, access)?;
    if let Err(error) = fill(folder, beside, path, access, bytes) {
        take_back(folder, beside);
        return Err(error);
    }
    folder.sync_folder()
}

// Saves by way of the first new file whose name no other run has.
fn replace<F: SaveFolder>(
    alloc: Global,
    folder: &mut F,
    path: &str,
    front: &str,
    access: Option<u32>,
    bytes: &[u8],
) -> Result<(), SaveError>
    requires { IsBeside front.now path.now → ⊥ }
    ensures safe { LosesNothing (IsBeside front.now) path.now bytes.now (F.log folder.old) (F.log folder.new) }
    ensures careful { StaysCareful (IsBeside front.now) path.now (F.log folder.old) (F.log folder.new) }
    ensures kept { OnOk result (IsKept path.now bytes.now (F.log folder.new)) }
    ensures put { OnOk result (IsPut path.now bytes.now (F.log folder.new)) }
    ensures reason { IfErr result (λ error. IsReason error (F.log folder.old) (F.log folder.new)) }
{
    for number in 0..MOST_NAMES {
        let beside = path_beside(alloc, front, number)?;
        match save_beside(folder, beside.as_str(), path, access, bytes) {
            Ok(()) => return Ok(()),
            Err(error) if error.kind() == ErrorKind::AlreadyExists => {}
            Err(error) => return Err(SaveError::Refused(error)),
        }
    }
    Err(SaveError::Refused(ErrorKind::AlreadyExists.into()))
}

// Saves, and leaves files open.
fn save_open<F: SaveFolder>(
    alloc: Global,
    folder: &mut F,
    path: &str,
    front: &str,
    bytes: &[u8],
) -> Result<(), SaveError>
    requires { IsBeside front.now path.now → ⊥ }
    ensures safe { LosesNothing (IsBeside front.now) path.now bytes.now (F.log folder.old) (F.log folder.new) }
    ensures careful { StaysCareful (IsBeside front.now) path.now (F.log folder.old) (F.log folder.new) }
    ensures kept { OnOk result (IsKept path.now bytes.now (F.log folder.new)) }
    ensures put { OnOk result (IsPut path.now bytes.now (F.log folder.new)) }
    ensures reason { IfErr result (λ error. IsReason error (F.log folder.old) (F.log folder.new)) }
{
    let access = folder.access(path)?;
    folder.open_folder()?;
    clear(alloc, folder, front);
    if is_unchanged(folder, path, access, bytes) {
        return Ok(());
    }
    replace(alloc, folder, path, front, access, bytes)
}

/// Puts bytes under a path, by way of a new file beside it, whose path begins with `front`.
///
/// Wherever the machine stops meanwhile, the path has its old file or the new one, whole. At `Ok` it has the new one, wherever
/// the machine stops from then on. At an error it has the old one, but for one of the folder's sync, which comes last. A file
/// that has these bytes already is left alone, and only synced.
///
/// Of several saves of a path one waits for another, 10 seconds at most. A run takes away, writes to and renames no file that
/// another has locked, so of two that save at once each keeps what the other has put in place whole. What stands there and is no
/// file, as a folder or a pipe, is not replaced.
///
/// New files that killed runs left are taken away, but for those that another run has locked. `Memory` only if there was no
/// room for a name, before anything was written.
pub fn save<F: SaveFolder>(
    alloc: Global,
    folder: &mut F,
    path: &str,
    front: &str,
    bytes: &[u8],
) -> Result<(), SaveError>
    requires { IsBeside front.now path.now → ⊥ }
    ensures safe { LosesNothing (IsBeside front.now) path.now bytes.now (F.log folder.old) (F.log folder.new) }
    ensures careful { StaysCareful (IsBeside front.now) path.now (F.log folder.old) (F.log folder.new) }
    ensures kept { OnOk result (IsKept path.now bytes.now (F.log folder.new)) }
    ensures put { OnOk result (IsPut path.now bytes.now (F.log folder.new)) }
    ensures reason { IfErr result (λ error. IsReason error (F.log folder.old) (F.log folder.new)) }
{
    let _ = folder.lock_name(path);
    let result = save_open(alloc, folder, path, front, bytes);
    folder.close();
    result
}
