use crate::numbers::number_of;
use std::alloc::{AllocError, Global};
use std::io;
use std::io::{ErrorKind, Read};
use std::rt::Files;

/// Room for names. One has 255 bytes at most.
const ROOM: usize = 4096;

/// The calls that read names at most.
const MAX_CALLS: u64 = 4_294_967_296;

// Adds the numbers of the new files among names that end with a zero byte.
fn add_numbers(numbers: &mut Vec<u64>, names: &[u8], start: &[u8]) -> Result<(), AllocError> {
    for name in names.split(|byte| *byte == 0) {
        if let Some(number) = number_of(name, start) {
            numbers.push(number)?;
        }
    }
    Ok(())
}

/// The numbers of the new files in a folder whose paths begin so.
pub(crate) fn numbers_in<R: Files>(rt: &R, alloc: Global, front: &str) -> io::Result<Vec<u64>> {
    // With its slash, the folder's path leads to the folder where it is a link.
    let start = match front.rsplit_once('/') {
        Some((_, start)) => start,
        None => front,
    };
    let Some(folder) = front.strip_suffix(start) else {
        return Err(ErrorKind::InvalidInput.into());
    };
    let mut folder = rt.open_dir(folder)?;
    let mut names = [0; ROOM];
    let mut numbers = Vec::new(alloc);
    for _ in 0..MAX_CALLS {
        let end = folder.read(&mut names)?;
        if end == 0 {
            return Ok(numbers);
        }
        add_numbers(&mut numbers, &names[..end], start.as_bytes())?;
    }
    Ok(numbers)
}
