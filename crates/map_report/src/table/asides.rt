// What a text becomes that is set aside, or put back.
use map_faults::Output;
use std::alloc::Global;
use std::io::Write;
use tiled_maps::{Fault, put_back, set_aside};

fn write_text<W: Write>(text: Result<Option<Vec<u8>>, Fault>, out: &mut Output<'_, W>) {
    out.text(" => ");
    match text {
        Ok(Some(text)) => out.bytes(&text),
        Ok(None) => out.text("as it is"),
        Err(fault) => out.text(fault.words()),
    }
}

/// Writes the text as it is set aside, or why there is none.
pub fn write_set_aside<W: Write>(alloc: Global, bytes: &[u8], out: &mut Output<'_, W>) {
    write_text(set_aside(alloc, bytes), out);
}

/// Writes the text in which what was set aside is put back, or why there is none.
pub fn write_put_back<W: Write>(alloc: Global, bytes: &[u8], out: &mut Output<'_, W>) {
    write_text(put_back(alloc, bytes), out);
}
