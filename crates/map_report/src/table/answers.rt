// What is read of a text: what is written for its map, or why there is none.
use crate::table::texts::Texts;
use map_faults::Output;
use map_json::{MapFault, read_map, write_map};
use map_model::Map;
use refusals::MapRefusal;
use std::alloc::{AllocError, Global};
use std::io::Write;

/// Why there is no map, in words.
pub fn answer_of(fault: MapFault) -> &'static str {
    match fault {
        MapFault::Memory => "no memory",
        MapFault::Refused(refusal) => refusal.words(),
    }
}

/// The text of a map, or why there is no map.
type Written = Result<Result<Vec<u8>, MapFault>, AllocError>;

fn written(alloc: Global, map: &Map) -> Written {
    Ok(Ok(write_map(alloc, map)?))
}

/// The text that is written for the map that some bytes are read as, or why there is no map.
pub fn read_back(alloc: Global, bytes: &[u8]) -> Written {
    match read_map(alloc, bytes) {
        Ok(map) => written(alloc, &map),
        Err(fault) => Ok(Err(fault)),
    }
}

// Writes the text that is written for a map, or that text's name where it has one.
fn write_written<W: Write>(texts: &Texts, written: &[u8], out: &mut Output<'_, W>) {
    match texts.name_of(written) {
        Some(name) => out.text(name),
        None => out.bytes(written),
    }
}

// Writes what some bytes are read as.
fn write_read<W: Write>(alloc: Global, texts: &Texts, bytes: &[u8], out: &mut Output<'_, W>) {
    match read_back(alloc, bytes) {
        Ok(Ok(written)) => write_written(texts, &written, out),
        Ok(Err(fault)) => out.text(answer_of(fault)),
        Err(_) => out.text("no memory"),
    }
}

// The text with its first part `FROM` changed into `TO`, as the change `FROM -> TO` says; none where it has no such
// part.
fn changed(alloc: Global, bytes: &[u8], change: &str) -> Result<Option<String>, AllocError> {
    let (Ok(text), Some((from, to))) = (str::from_utf8(bytes), change.split_once(" -> ")) else {
        return Ok(None);
    };
    let Some((before, rest)) = text.split_once(from) else {
        return Ok(None);
    };
    Ok(Some(format!(in alloc; "{before}{to}{rest}")?))
}

// Writes what a text with a change is read as.
fn write_changed<W: Write>(
    alloc: Global,
    texts: &Texts,
    bytes: &[u8],
    change: &str,
    out: &mut Output<'_, W>,
) {
    match changed(alloc, bytes, change) {
        Ok(Some(text)) => write_read(alloc, texts, text.as_bytes(), out),
        Ok(None) => out.text("no such part"),
        Err(_) => out.lose(),
    }
}

/// Writes what a text is read as, or the text with a change, where there is one.
pub fn write_answer<W: Write>(
    alloc: Global,
    texts: &Texts,
    name: &str,
    change: &str,
    out: &mut Output<'_, W>,
) {
    out.text(" => ");
    let bytes = texts.get(name);
    if change.is_empty() {
        write_read(alloc, texts, bytes, out);
    } else {
        write_changed(alloc, texts, bytes, change, out);
    }
}

fn is_not_json(alloc: Global, bytes: &[u8]) -> bool {
    match read_map(alloc, bytes) {
        Ok(_) => false,
        Err(fault) => fault == MapFault::Refused(MapRefusal::NotJson),
    }
}

/// Writes whether no proper prefix of a text is JSON.
pub fn write_prefixes<W: Write>(alloc: Global, bytes: &[u8], out: &mut Output<'_, W>) {
    for end in 0..bytes.len() {
        if !is_not_json(alloc, &bytes[..end]) {
            out.value(" => not so the first ", &end);
            return out.text(" bytes");
        }
    }
    out.text(" => each is 60 not JSON");
}
