use atomic_save::{MemoryFolder, save};
use std::alloc::Global;
use std::test::Fail;

const PATH: &str = "maps/m.tmj";

const FRONT: &str = "maps/.m.tmj.";

/// A file that a killed run left.
const LEFT: &str = "maps/.m.tmj.7.new";

const OTHER: &str = "maps/n.tmj";

const OLD: &[u8] = b"old";

const NEW: &[u8] = b"new and longer";

/// The calls of a save that nothing stops: it locks the name, looks at the old file, opens the folder, reads its names, seizes and removes what
/// is left, compares, makes, claims, gives access, writes, syncs, renames, and syncs the folder.
const CALLS: u64 = 14;

/// Of those, the ones up to the rename.
const RENAMES: u64 = 13;

/// The calls of a save that changes nothing: the first seven, and the syncs of the file and the folder.
const CALLS_UNCHANGED: u64 = 9;

fn folder(alloc: Global, calls: u64) -> Result<MemoryFolder, Fail> {
    let mut folder = MemoryFolder::new(alloc, calls);
    folder.put(PATH, OLD)?;
    folder.put(OTHER, OLD)?;
    folder.put(LEFT, OLD)?;
    Ok(folder)
}

#[test]
fn a_save_goes_through(rt: HostRuntime) -> Result<(), Fail> {
    let mut folder = folder(rt.alloc(), CALLS)?;
    let result = save(rt.alloc(), &mut folder, PATH, FRONT, NEW);
    assert!(rt; result.is_ok());
    assert!(rt; folder.file(PATH) == Some(NEW));
    assert!(rt; folder.file(OTHER) == Some(OLD));
    assert_eq!(rt; folder.count(), 2);
    Ok(())
}

#[test]
fn a_save_of_the_same_bytes_only_syncs(rt: HostRuntime) -> Result<(), Fail> {
    let mut folder = folder(rt.alloc(), CALLS_UNCHANGED)?;
    let result = save(rt.alloc(), &mut folder, PATH, FRONT, OLD);
    assert!(rt; result.is_ok());
    assert!(rt; folder.file(PATH) == Some(OLD));
    assert_eq!(rt; folder.count(), 2);
    Ok(())
}

#[test]
fn a_save_that_stops_leaves_the_old_file_or_the_new(rt: HostRuntime) -> Result<(), Fail> {
    for calls in 0..CALLS {
        let mut folder = folder(rt.alloc(), calls)?;
        let result = save(rt.alloc(), &mut folder, PATH, FRONT, NEW);
        assert!(rt; result.is_err());
        folder.tear();
        let is_renamed = calls >= RENAMES;
        assert!(rt; folder.file(PATH) == Some(if is_renamed { NEW } else { OLD }));
        assert!(rt; folder.file(OTHER) == Some(OLD));
    }
    Ok(())
}
