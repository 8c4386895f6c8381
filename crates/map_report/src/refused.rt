// Why a map is refused: the code, its words, and the place of the fault.
use crate::fraction_places::{Fractions, Owner, find_fractions, write_owner};
use crate::json_lines::Refused;
use map_faults::{LineColumn, Output, Place, TOO_LONG, place_of_fault, why_refused};
use map_json::{MapFault, read_map_along};
use refusals::{MapRefusal, Refusal, StoreFault};
use serde_json::{Error, Value};
use std::alloc::Global;
use std::io::Write;
use tiled_files::{LONGEST, is_xml, json_in};
use tiled_maps::{Fault, set_aside};

fn write_line_column<W: Write>(place: LineColumn, out: &mut Output<'_, W>) {
    out.value(": line ", &place.line);
    out.value(", column ", &place.column);
}

// Writes where a text ceases to be JSON, where there is memory to know it.
fn write_line<W: Write>(alloc: Global, bytes: &[u8], error: &Error, out: &mut Output<'_, W>) {
    if error.is_memory() {
        return;
    }
    if let Ok(place) = place_of_fault(alloc, bytes, error) {
        write_line_column(place, out);
    }
}

// Writes why a layer is not unpacked, where there is memory to know it.
fn write_why<W: Write>(
    alloc: Global,
    file: &[u8],
    refusal: MapRefusal,
    place: &Place,
    out: &mut Output<'_, W>,
) {
    let Ok(root) = Value::from_slice(alloc, file) else {
        return;
    };
    if let Ok(Some(why)) = why_refused(alloc, &root, refusal, place) {
        out.text("\n  ");
        out.text(why);
    }
}

// The tree of a file, if a place in it is shown there: that of the data of a packed layer, since others stand for them where they are
// unpacked.
fn packed_tree(
    alloc: Global,
    file: &[u8],
    refusal: MapRefusal,
    place: &Place,
) -> Result<Option<Value>, Error> {
    let given = Value::from_slice(alloc, file)?;
    if place.steps_in(&given) < place.steps().len() {
        return Ok(None);
    }
    match why_refused(alloc, &given, refusal, place) {
        Ok(Some(_)) => Ok(Some(given)),
        _ => Ok(None),
    }
}

/// The tree in which a place is shown: of what was read, or of the file, if it is in a packed layer.
pub fn shown_tree(
    alloc: Global,
    file: &[u8],
    text: &[u8],
    refusal: MapRefusal,
    place: &Place,
) -> Result<Value, Error> {
    if refusal == MapRefusal::BadData {
        if let Some(given) = packed_tree(alloc, file, refusal, place)? {
            return Ok(given);
        }
    }
    Value::from_slice(alloc, text)
}

// Writes the code of a refusal, its words, and the place of the fault, where there is memory for the tree.
fn write_refused<W: Write>(
    alloc: Global,
    file: &[u8],
    text: &[u8],
    refusal: MapRefusal,
    place: &Place,
    out: &mut Output<'_, W>,
) {
    out.text("no ");
    out.text(refusal.words());
    match shown_tree(alloc, file, text, refusal, place) {
        Ok(root) => {
            out.text(": ");
            place.write(&root, out);
        }
        Err(error) => write_line(alloc, file, &error, out),
    }
}

// Writes what the editor answers with `--all-maps` to a map that is set aside, where there is memory to know it.
fn write_aside<W: Write>(alloc: Global, file: &[u8], text: &[u8], out: &mut Output<'_, W>) {
    let mut place = Place::new(alloc);
    match read_map_along(alloc, text, &mut place) {
        Ok(_) => out.text("\n  with --all-maps the editor opens this map"),
        Err(MapFault::Refused(refusal)) if !place.is_lost() => {
            out.text("\n  with --all-maps: ");
            write_refused(alloc, file, text, refusal, &place, out);
            write_why(alloc, file, refusal, &place, out);
        }
        Err(_) => {}
    }
}

// Writes why a map is not set aside, or is no XML, and where it ceases to be.
fn write_why_not<W: Write>(why: &str, place: Option<LineColumn>, out: &mut Output<'_, W>) {
    out.text(why);
    if let Some(place) = place {
        write_line_column(place, out);
    }
}

// Writes why the editor does not open a map with `--all-maps`.
fn write_not_set_aside<W: Write>(why: &str, place: Option<LineColumn>, out: &mut Output<'_, W>) {
    out.text("\n  with --all-maps: ");
    write_why_not(why, place, out);
}

// Writes what the editor answers with `--all-maps` to the JSON that a file says.
fn write_json_with_all_maps<W: Write>(alloc: Global, json: &[u8], out: &mut Output<'_, W>) {
    match set_aside(alloc, json) {
        Ok(Some(text)) if text.len() > LONGEST => write_not_set_aside(TOO_LONG, None, out),
        Ok(Some(text)) => write_aside(alloc, json, &text, out),
        Ok(None) => write_aside(alloc, json, json, out),
        Err(Fault::Memory) => {}
        Err(fault) => write_not_set_aside(fault.words(), None, out),
    }
}

// Writes what the editor answers with `--all-maps` to a map with fractions, a packed or an infinite one, or to XML.
fn write_with_all_maps<W: Write>(alloc: Global, bytes: &[u8], out: &mut Output<'_, W>) {
    match json_in(alloc, bytes) {
        Ok(Some(json)) => write_json_with_all_maps(alloc, &json, out),
        Ok(None) => write_json_with_all_maps(alloc, bytes, out),
        Err(fault) if fault.is_memory() => {}
        Err(fault) => write_not_set_aside(fault.words(), fault.place_in(bytes), out),
    }
}

// A line for each fraction.
impl<'a, W: Write> Fractions for Output<'a, W> {
    fn take(&mut self, root: &Value, owner: Owner<'_>, place: &Place) {
        self.text("\n  ");
        write_owner(place.alloc(), owner, self);
        place.write(root, self);
    }

    fn lose_place(&mut self) {
        self.lose();
    }
}

// Writes all fractions of a map that is refused for one, and whether `--all-maps` opens it.
fn write_all_fractions<W: Write>(alloc: Global, bytes: &[u8], out: &mut Output<'_, W>) {
    let Ok(root) = Value::from_slice(alloc, bytes) else {
        return;
    };
    let count = find_fractions(alloc, &root, out);
    drop(root);
    out.value("\n  fractions: ", &count);
    write_with_all_maps(alloc, bytes, out);
}

/// Writes the line of a map that can't be set aside, or is no XML behind a place.
pub fn write_not_aside<W: Write>(why: &str, place: Option<LineColumn>, out: &mut Output<'_, W>) {
    out.text("no ");
    out.text(StoreFault::Device.words());
    out.text(": ");
    write_why_not(why, place, out);
    out.text("\n");
}

// Writes what follows a refusal: a line for each fraction, and what the editor answers with `--all-maps`; or with that, why a layer is
// not unpacked.
fn write_more<W: Write>(
    alloc: Global,
    refused: Refused<'_>,
    refusal: MapRefusal,
    out: &mut Output<'_, W>,
) {
    if refused.opens_all_maps {
        return write_why(alloc, refused.file, refusal, refused.place, out);
    }
    match refusal {
        MapRefusal::Fraction => write_all_fractions(alloc, refused.file, out),
        MapRefusal::Infinite | MapRefusal::Compressed => write_with_all_maps(
            alloc,
            refused.file,
            out,
        ),
        MapRefusal::NotJson if is_xml(refused.file) => {
            write_with_all_maps(alloc, refused.file, out)
        }
        _ => {}
    }
}

/// Writes the line of a map that is refused, with the place at which the reader stopped. Where that is lost, there was no
/// memory. If the map is refused for a fraction, a line for each of them follows. If it is refused for a fraction, as packed or as
/// infinite, or is XML, what the editor answers with `--all-maps` follows.
pub fn write_refusal<W: Write>(alloc: Global, refused: Refused<'_>, out: &mut Output<'_, W>) {
    let place = refused.place;
    match refused.fault {
        MapFault::Refused(refusal) if !place.is_lost() => {
            write_refused(alloc, refused.file, refused.text, refusal, place, out);
            write_more(alloc, refused, refusal, out);
        }
        MapFault::Refused(_) | MapFault::Memory => {
            out.text("no ");
            out.text(Refusal::NoMemory.words());
        }
    }
    out.text("\n");
}
