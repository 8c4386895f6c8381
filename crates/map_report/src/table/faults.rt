// What is told of a text that is refused as a map.
use map_faults::{Output, map_fault};
use std::alloc::Global;
use std::io::Write;

/// Writes what is told of the fault of a text, or that it is read.
pub fn write_fault<W: Write>(alloc: Global, text: &[u8], out: &mut Output<'_, W>) {
    out.text(" => ");
    match map_fault(alloc, text) {
        Ok(Some(fault)) => out.bytes(fault.text.as_slice()),
        Ok(None) => out.text("read"),
        Err(_) => out.lose(),
    }
}
