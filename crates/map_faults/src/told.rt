// What is told of a fault: an object of JSON.
use crate::json_fault::place_of_fault;
use crate::members::Members;
use crate::offsets::offset_of_steps;
use crate::output::Output;
use crate::place::{Place, write_value};
use refusals::{MapRefusal, StoreFault};
use serde_json::{Error, Value};
use std::alloc::{AllocError, Global};
use std::io;
use tiled_files::{LineColumn, json_in};
use tiled_maps::why_damaged;

/// Why a map can't be set aside, if its text would be longer than `LONGEST`.
pub const TOO_LONG: &str = "set aside, it would be longer than 67,108,864 bytes";

/// Why a map is refused whose layers are packed otherwise than by zlib or gzip, and the cure.
const OTHER_COMPRESSION: &str =
    "only zlib and gzip are unpacked: choose another Tile Layer Format in Map > Map Properties";

// The text in JSON that says what a file says.
#[derive(Clone, Copy)]
struct JsonOf<'a> {
    json: &'a [u8],
    /// Whether it is that of the file, which is not in XML.
    is_own: bool,
}

// The place in a file where the reader has stopped, if it has read the file or what was set aside of it.
#[derive(Clone, Copy)]
struct InFile {
    /// So many steps of the reader's place lead there.
    steps: usize,
    /// Whether the fault is there, and not somewhere in what stands there.
    is_exact: bool,
}

// Whether a place is the width or the height of an infinite map, which are its own, and not those that the reader has read.
fn is_size_of_infinite(place: &Place, root: &Value) -> bool {
    let is_infinite = match root.get("infinite") {
        Some(Value::Bool(infinite)) => *infinite,
        _ => false,
    };
    is_infinite && (place.is_member_of_root("width") || place.is_member_of_root("height"))
}

// Whether the member to which a place leads is absent for the reader, and for the file too.
fn lacks(refusal: MapRefusal, holder: Option<&Value>) -> bool {
    let is_absent = refusal == MapRefusal::MemberMissing || refusal == MapRefusal::NotAMap;
    match holder {
        Some(Value::Object(_)) => is_absent,
        _ => false,
    }
}

// The place in a file whose tree this is. What the reader has read was set aside of it, or it was the file itself.
fn in_file(place: &Place, root: &Value, refusal: MapRefusal, is_set_aside: bool) -> InFile {
    let all = place.steps().len();
    let there = place.steps_in(root);
    if is_set_aside && is_size_of_infinite(place, root) {
        return InFile {
            steps: 0,
            is_exact: false,
        };
    }
    let is_absent = there.saturating_add(1) == all
        && lacks(refusal, place.value_behind(there, root));
    if there == all || is_absent || !is_set_aside {
        return InFile {
            steps: all,
            is_exact: true,
        };
    }
    InFile {
        steps: there,
        is_exact: false,
    }
}

// The place in words.
fn words_of(place: &Place, root: &Value, found: InFile) -> io::Result<Vec<u8>> {
    let mut text = Vec::new(place.alloc());
    let mut words = Output::new(&mut text);
    if found.is_exact {
        place.write(root, &mut words);
    } else {
        words.text("in ");
        place.write_steps(found.steps, &mut words);
    }
    words.end()?;
    Ok(text)
}

// What stands there.
fn shown_at(place: &Place, root: &Value, found: InFile) -> io::Result<Vec<u8>> {
    let mut text = Vec::new(place.alloc());
    let mut words = Output::new(&mut text);
    let value = place.value_behind(found.steps, root);
    write_value(place.alloc(), value, &mut words);
    words.end()?;
    Ok(text)
}

// Whether a layer has a compression that `--all-maps` takes.
fn is_taken(compression: Option<&Value>) -> bool {
    match compression {
        Some(Value::String(name)) => name.as_str() == "zlib" || name.as_str() == "gzip",
        _ => false,
    }
}

/// Why a map is refused that stays packed, or is packed and damaged, in words: by the tree of its file, and the place at which the
/// reader of what was set aside of it has stopped. `None` of any other fault.
pub fn why_refused(
    alloc: Global,
    root: &Value,
    refusal: MapRefusal,
    place: &Place,
) -> Result<Option<&'static str>, AllocError> {
    let steps = place.steps().len();
    match refusal {
        MapRefusal::Compressed if !is_taken(place.value_behind(steps, root)) => {
            Ok(Some(OTHER_COMPRESSION))
        }
        MapRefusal::BadData => match place.value_behind(steps.saturating_sub(1), root) {
            Some(layer) => why_damaged(alloc, root, layer),
            None => Ok(None),
        },
        _ => Ok(None),
    }
}

fn put_why(why: Option<&str>, out: &mut Members) {
    match why {
        Some(why) => out.text("why", why),
        None => out.nothing("why"),
    }
}

// Puts a text that was written, if there was memory for it.
fn put_written(name: &str, written: io::Result<Vec<u8>>, out: &mut Members) {
    match written {
        Ok(text) => out.text(name, str::from_utf8(&text).unwrap_or("")),
        Err(_) => out.lose(),
    }
}

fn put_line_column(bytes: &[u8], offset: Result<usize, AllocError>, out: &mut Members) {
    match offset {
        Ok(offset) => {
            let LineColumn { line, column } = LineColumn::of_byte(bytes, offset);
            out.count("line", line);
            out.count("column", column);
        }
        Err(_) => out.lose(),
    }
}

fn put_no_line(out: &mut Members) {
    out.nothing("line");
    out.nothing("column");
}

// Puts the place of a fault in the tree of a file.
fn put_in_tree(file: JsonOf<'_>, root: &Value, place: &Place, found: InFile, out: &mut Members) {
    let alloc = place.alloc();
    out.key("path");
    place.put_steps(found.steps, out);
    out.truth("exact", found.is_exact);
    put_written("shown", shown_at(place, root, found), out);
    put_written("text", words_of(place, root, found), out);
    if !file.is_own {
        return put_no_line(out);
    }
    let steps = place.front(found.steps);
    put_line_column(file.json, offset_of_steps(alloc, file.json, steps), out);
}

fn line_text(alloc: Global, place: LineColumn) -> Result<String, AllocError> {
    let LineColumn { line, column } = place;
    format!(in alloc; "line {line}, column {column}")
}

// Puts the place at which a file ceases to be JSON, which no path leads to.
fn put_in_bytes(alloc: Global, place: LineColumn, out: &mut Members) {
    out.nothing("path");
    out.truth("exact", true);
    out.nothing("shown");
    match line_text(alloc, place) {
        Ok(text) => out.text("text", text.as_str()),
        Err(_) => out.lose(),
    }
    out.count("line", place.line);
    out.count("column", place.column);
}

fn put_no_json(alloc: Global, bytes: &[u8], error: &Error, out: &mut Members) {
    if error.is_memory() {
        return out.lose();
    }
    match place_of_fault(alloc, bytes, error) {
        Ok(place) => put_in_bytes(alloc, place, out),
        Err(_) => out.lose(),
    }
}

// Begins what is told.
fn begun(alloc: Global, told: &str) -> Members {
    let mut out = Members::new(alloc);
    out.begin_object();
    out.code(told);
    out
}

fn told_in(
    alloc: Global,
    file: JsonOf<'_>,
    refusal: MapRefusal,
    place: &Place,
    is_set_aside: bool,
) -> Result<Vec<u8>, AllocError> {
    let mut out = begun(alloc, refusal.words());
    match Value::from_slice(alloc, file.json) {
        Ok(root) => {
            put_why(why_refused(alloc, &root, refusal, place)?, &mut out);
            let found = in_file(place, &root, refusal, is_set_aside);
            put_in_tree(file, &root, place, found, &mut out);
        }
        Err(error) => {
            out.nothing("why");
            put_no_json(alloc, file.json, &error, &mut out);
        }
    }
    out.end_object();
    out.into_line()
}

/// What is told of a file that the reader refuses, with the place at which it stopped. It has read what was set aside of the file, or
/// the file itself.
pub fn told_of_refusal(
    alloc: Global,
    bytes: &[u8],
    refusal: MapRefusal,
    place: &Place,
    is_set_aside: bool,
) -> Result<Vec<u8>, AllocError> {
    if place.is_lost() {
        return Err(AllocError);
    }
    let Ok(made) = json_in(alloc, bytes) else {
        return Err(AllocError);
    };
    let file = match &made {
        Some(json) => JsonOf {
            json,
            is_own: false,
        },
        None => JsonOf {
            json: bytes,
            is_own: true,
        },
    };
    told_in(alloc, file, refusal, place, is_set_aside)
}

/// What is told of a file that is not set aside, and why. It has no place, or that of the byte at which it ceases to be XML.
pub fn told_of_not_aside(
    alloc: Global,
    why: &str,
    place: Option<LineColumn>,
) -> Result<Vec<u8>, AllocError> {
    let mut out = begun(alloc, StoreFault::Device.words());
    out.text("why", why);
    match place {
        Some(place) => put_in_bytes(alloc, place, &mut out),
        None => {
            out.nothing("path");
            out.truth("exact", false);
            out.nothing("shown");
            out.nothing("text");
            put_no_line(&mut out);
        }
    }
    out.end_object();
    out.into_line()
}
