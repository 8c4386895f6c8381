// Why a file is refused, as an object of JSON: the code, its words, and the places of the fault.
use crate::fraction_places::{Fractions, Owner, find_fractions, write_owner};
use crate::json_lines::Refused;
use crate::refused::shown_tree;
use map_faults::{LineColumn, Members, Output, Place, TOO_LONG, place_of_fault, why_refused};
use map_json::{MapFault, read_map_along};
use refusals::{MapRefusal, Refusal, StoreFault};
use serde_json::{Error, Value};
use std::alloc::{AllocError, Global};
use std::io::{self, ErrorKind};
use tiled_files::{LONGEST, is_xml, json_in};
use tiled_maps::{Fault, set_aside};

// ---- places

// What a place is called in words, behind what it stands in.
fn place_text(root: &Value, owner: Owner<'_>, place: &Place) -> io::Result<Vec<u8>> {
    let mut text = Vec::new(place.alloc());
    let mut words = Output::new(&mut text);
    write_owner(place.alloc(), owner, &mut words);
    place.write(root, &mut words);
    words.end()?;
    Ok(text)
}

// Puts the id of a layer or an object, where it has one.
fn put_owner(out: &mut Members, kind: &str, owner: &Value) {
    if let Some(id) = owner.get("id").and_then(Value::as_u64) {
        out.key(kind);
        out.u64(id);
    }
}

// Puts a place in the tree of a file.
fn put_place(root: &Value, owner: Owner<'_>, place: &Place, out: &mut Members) {
    out.begin_object();
    out.key("path");
    place.put_path(out);
    match owner {
        Owner::Map => {}
        Owner::Layer(layer) => put_owner(out, "layer", layer),
        Owner::Object(object) => put_owner(out, "object", object),
    }
    match place_text(root, owner, place) {
        Ok(text) => out.text("text", str::from_utf8(&text).unwrap_or("")),
        Err(_) => out.lose(),
    }
    out.end_object();
}

// The place of each fraction.
impl Fractions for Members {
    fn take(&mut self, root: &Value, owner: Owner<'_>, place: &Place) {
        put_place(root, owner, place, self);
    }

    fn lose_place(&mut self) {
        self.lose();
    }
}

fn line_text(alloc: Global, place: LineColumn) -> Result<String, AllocError> {
    let LineColumn { line, column } = place;
    format!(in alloc; "line {line}, column {column}")
}

fn put_line_column(alloc: Global, place: LineColumn, out: &mut Members) {
    out.begin_object();
    out.count("line", place.line);
    out.count("column", place.column);
    match line_text(alloc, place) {
        Ok(text) => out.text("text", text.as_str()),
        Err(_) => out.lose(),
    }
    out.end_object();
}

// Puts where a text ceases to be JSON.
fn put_line(alloc: Global, bytes: &[u8], error: &Error, out: &mut Members) {
    if error.is_memory() {
        return out.lose();
    }
    match place_of_fault(alloc, bytes, error) {
        Ok(place) => put_line_column(alloc, place, out),
        Err(_) => out.lose(),
    }
}

// Puts the places of a fault in a tree: that at which the reader stopped, or all fractions.
fn put_places_in(
    alloc: Global,
    root: &Value,
    refusal: MapRefusal,
    place: &Place,
    out: &mut Members,
) {
    if refusal == MapRefusal::Fraction {
        find_fractions(alloc, root, out);
    } else {
        put_place(root, Owner::Map, place, out);
    }
}

// Puts the places of a fault.
fn put_places(
    alloc: Global,
    file: &[u8],
    text: &[u8],
    refusal: MapRefusal,
    place: &Place,
    out: &mut Members,
) {
    match shown_tree(alloc, file, text, refusal, place) {
        Ok(root) => put_places_in(alloc, &root, refusal, place, out),
        Err(error) => put_line(alloc, text, &error, out),
    }
}

// Puts the code, the words and the places of a refusal.
fn put_refused(
    alloc: Global,
    file: &[u8],
    text: &[u8],
    refusal: MapRefusal,
    place: &Place,
    out: &mut Members,
) {
    out.code(refusal.words());
    out.begin_list("places");
    put_places(alloc, file, text, refusal, place, out);
    out.end_array();
}

// Puts why a layer is not unpacked.
fn put_why(alloc: Global, file: &[u8], refusal: MapRefusal, place: &Place, out: &mut Members) {
    match Value::from_slice(alloc, file) {
        Ok(root) => match why_refused(alloc, &root, refusal, place) {
            Ok(Some(why)) => out.text("reason", why),
            Ok(None) => {}
            Err(_) => out.lose(),
        },
        Err(error) => if error.is_memory() {
            out.lose();
        },
    }
}

// Puts a refusal that has no place, and why, where there is a reason in words.
fn put_placeless(out: &mut Members, told: &str, reason: Option<&str>) {
    out.begin_object();
    out.code(told);
    out.begin_list("places");
    out.end_array();
    if let Some(reason) = reason {
        out.text("reason", reason);
    }
    out.end_object();
}

// ---- with --all-maps

// Puts that the editor does not open a map, since it can't be set aside, or ceases to be XML at a place.
fn put_not_set_aside(alloc: Global, why: &str, place: Option<LineColumn>, out: &mut Members) {
    out.truth("opens", false);
    out.key("refused");
    put_not_aside(alloc, why, place, out);
}

// Puts why the editor does not open a map that is set aside.
fn put_not_opened(
    alloc: Global,
    file: &[u8],
    text: &[u8],
    refusal: MapRefusal,
    place: &Place,
    out: &mut Members,
) {
    out.truth("opens", false);
    out.key("refused");
    out.begin_object();
    put_refused(alloc, file, text, refusal, place, out);
    put_why(alloc, file, refusal, place, out);
    out.end_object();
}

// Puts what the editor answers with `--all-maps` to a map that is set aside.
fn put_aside(alloc: Global, file: &[u8], text: &[u8], out: &mut Members) {
    let mut place = Place::new(alloc);
    match read_map_along(alloc, text, &mut place) {
        Ok(_) => out.truth("opens", true),
        Err(MapFault::Refused(refusal)) if !place.is_lost() => {
            put_not_opened(alloc, file, text, refusal, &place, out);
        }
        Err(_) => out.lose(),
    }
}

// Puts what the editor answers with `--all-maps` to the JSON that a file says.
fn put_json_with_all_maps(alloc: Global, json: &[u8], out: &mut Members) {
    match set_aside(alloc, json) {
        Ok(Some(text)) if text.len() > LONGEST => put_not_set_aside(alloc, TOO_LONG, None, out),
        Ok(Some(text)) => put_aside(alloc, json, &text, out),
        Ok(None) => put_aside(alloc, json, json, out),
        Err(Fault::Memory) => out.lose(),
        Err(fault) => put_not_set_aside(alloc, fault.words(), None, out),
    }
}

// Puts what the editor answers with `--all-maps` to a map with fractions, a packed or an infinite one, or to XML.
fn put_with_all_maps(alloc: Global, bytes: &[u8], out: &mut Members) {
    out.key("allmaps");
    out.begin_object();
    match json_in(alloc, bytes) {
        Ok(Some(json)) => put_json_with_all_maps(alloc, &json, out),
        Ok(None) => put_json_with_all_maps(alloc, bytes, out),
        Err(fault) if fault.is_memory() => out.lose(),
        Err(fault) => put_not_set_aside(alloc, fault.words(), fault.place_in(bytes), out),
    }
    out.end_object();
}

// ---- files

/// Puts why a map is refused, with the place at which the reader stopped. All is lost where there is no memory, and also where
/// there was none for the map or for the place.
pub fn put_refusal(alloc: Global, refused: Refused<'_>, out: &mut Members) {
    let place = refused.place;
    let refusal = match refused.fault {
        MapFault::Refused(refusal) if !place.is_lost() => refusal,
        MapFault::Refused(_) | MapFault::Memory => return out.lose(),
    };
    out.begin_object();
    put_refused(alloc, refused.file, refused.text, refusal, place, out);
    if refused.opens_all_maps {
        put_why(alloc, refused.file, refusal, place, out);
    } else {
        match refusal {
            MapRefusal::Fraction | MapRefusal::Infinite | MapRefusal::Compressed => {
                put_with_all_maps(alloc, refused.file, out)
            }
            MapRefusal::NotJson if is_xml(refused.file) => {
                put_with_all_maps(alloc, refused.file, out)
            }
            _ => {}
        }
    }
    out.end_object();
}

/// Puts why a map can't be set aside, or is no XML behind a place.
pub fn put_not_aside(alloc: Global, why: &str, place: Option<LineColumn>, out: &mut Members) {
    out.begin_object();
    out.code(StoreFault::Device.words());
    out.begin_list("places");
    if let Some(place) = place {
        put_line_column(alloc, place, out);
    }
    out.end_array();
    out.text("reason", why);
    out.end_object();
}

/// Puts why a file could not be read.
pub fn put_unread(alloc: Global, error: &io::Error, out: &mut Members) {
    let told = match error.kind() {
        ErrorKind::NotFound => StoreFault::Missing.words(),
        ErrorKind::OutOfMemory => Refusal::NoMemory.words(),
        _ => StoreFault::Device.words(),
    };
    match format!(in alloc; "{error}") {
        Ok(reason) => put_placeless(out, told, Some(reason.as_str())),
        Err(_) => out.lose(),
    }
}

/// Puts that there was no memory.
pub fn put_no_memory(out: &mut Members) {
    put_placeless(out, Refusal::NoMemory.words(), None);
}
