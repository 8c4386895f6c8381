//! The parts of an array or object in a JSON text, found by a look at its bytes.
use crate::scan::{Scan, Step};
use memchr::memchr;
use serde_json::Value;
use std::alloc::{AllocError, Global};

/// How many bytes are looked at in one go for the commas in them.
const BLOCK: usize = 4096;

/// How many bytes a cell mostly takes at most, with what stands around it.
const CELL: usize = 8;

/// Where an item of an array stands, or a member of an object with its name.
#[derive(Clone, Copy, Debug, PartialEq, Eq)]
pub struct Part {
    pub start: usize,
    pub end: usize,
}

/// A member of an object, and where it stands.
#[derive(Drop)]
pub struct Member {
    pub name: String,
    pub start: usize,
    /// Where its value starts.
    pub value: usize,
    /// Behind its colon.
    pub colon: usize,
    pub end: usize,
}

/// The bytes from one place to another; none if there are no such places.
pub fn between(text: &[u8], start: usize, end: usize) -> &[u8] {
    match text.get(start..end) {
        Some(bytes) => bytes,
        None => &[],
    }
}

fn is_space(byte: u8) -> bool {
    byte == b' ' || byte == b'\t' || byte == b'\n' || byte == b'\r'
}

/// Where the value of a text stands, without the spaces around it.
pub fn whole(text: &[u8]) -> Part {
    let start = text.iter().position(|byte| !is_space(*byte));
    let last = text.iter().rposition(|byte| !is_space(*byte));
    match (start, last) {
        (Some(start), Some(last)) => Part {
            start,
            end: last.saturating_add(1),
        },
        _ => Part { start: 0, end: 0 },
    }
}

// The first place from another on that has no space.
fn spaces_end(text: &[u8], from: usize) -> usize {
    let mut at = from;
    while at < text.len() && is_space(text[at]) {
        at += 1;
    }
    at
}

// The first place from another on that has no digit.
fn digits_end(text: &[u8], from: usize) -> usize {
    let mut at = from;
    while at < text.len() && text[at].is_ascii_digit() {
        at += 1;
    }
    at
}

// The part that starts at a place, and the place of the edge behind it: a comma, or the bracket that closes what it is in.
fn part_at(text: &[u8], start: usize) -> (Part, usize) {
    let mut depth: u32 = 0;
    let mut end = start;
    let mut at = start;
    while at < text.len() {
        let byte = text[at];
        if depth == 0 && (byte == b',' || byte == b']' || byte == b'}') {
            return (Part { start, end }, at);
        }
        let step = Step::of(&text[at..]);
        if step == Step::Byte {
            depth = match byte {
                b'[' | b'{' => depth.saturating_add(1),
                b']' | b'}' => depth.saturating_sub(1),
                _ => depth,
            };
        }
        at = at.saturating_add(step.len());
        if !is_space(byte) {
            end = at;
        }
    }
    (Part { start, end }, text.len())
}

/// The next part of an array or object, behind the bracket or the comma that stands in front of it, and the place of the edge
/// behind it.
#[inline(always)]
pub fn next_part(text: &[u8], from: usize) -> (Part, usize) {
    let start = spaces_end(text, from);
    // Most parts are cells.
    let end = digits_end(text, start);
    if start < end && text.get(end) == Some(&b',') {
        return (Part { start, end }, end);
    }
    part_at(text, start)
}

/// How many commas stand in a text.
pub fn commas_in(text: &[u8]) -> usize {
    let mut count: usize = 0;
    for byte in text {
        count = count.wrapping_add((*byte == b',') as usize);
    }
    count
}

/// For how many cells there is to be room at the start of an array that has many bytes; 0 for others.
pub fn room_for_cells(text: &[u8]) -> usize {
    match text.first() {
        Some(byte) if byte.is_ascii_digit() => match memchr(b']', text) {
            Some(len) if len > BLOCK => len / CELL,
            _ => 0,
        },
        _ => 0,
    }
}

// The place behind so many commas from another on. Blocks with fewer are passed at once.
fn behind_commas(text: &[u8], from: usize, count: usize) -> usize {
    let mut left = count;
    let mut at = from;
    for block in between(text, from, text.len()).chunks(BLOCK) {
        let commas = commas_in(block);
        if commas >= left {
            break;
        }
        left = left.saturating_sub(commas);
        at = at.saturating_add(block.len());
    }
    for byte in between(text, at, text.len()) {
        if left == 0 {
            break;
        }
        if *byte == b',' {
            left = left.saturating_sub(1);
        }
        at = at.saturating_add(1);
    }
    at
}

/// The place behind so many parts of an array, each with its comma, from another on. A flat one has no other commas.
pub fn behind_parts(text: &[u8], from: usize, count: usize, is_flat: bool) -> usize {
    if is_flat {
        return behind_commas(text, from, count);
    }
    let mut at = from;
    for _part in 0..count {
        let (_, edge) = next_part(text, at);
        at = edge.saturating_add(1);
    }
    at
}

/// The parts of an array or object, which is all of the text.
pub fn parts_of(alloc: Global, text: &[u8]) -> Result<Vec<Part>, AllocError> {
    let mut parts = Vec::new(alloc);
    let mut at: usize = 1;
    while at < text.len() {
        let (part, edge) = next_part(text, at);
        if part.start < part.end {
            parts.push(part)?;
        }
        at = edge.max(at).saturating_add(1);
    }
    Ok(parts)
}

// Where the colon of a member is, and where its value starts, from the member's start on.
fn colon_of(member: &[u8]) -> Option<(usize, usize)> {
    let mut scan = Scan::new();
    let mut colon = None;
    for (at, byte) in member.iter().enumerate() {
        match colon {
            Some(colon) => if !is_space(*byte) {
                return Some((colon, at));
            },
            None => if *byte == b':' && !scan.is_in_text {
                colon = Some(at);
            },
        }
        scan.pass(*byte);
    }
    None
}

// The text that a name is.
fn name_of(alloc: Global, name: &[u8]) -> Result<Option<String>, AllocError> {
    match Value::from_slice(alloc, name) {
        Ok(Value::String(name)) => Ok(Some(name)),
        Ok(_) => Ok(None),
        Err(error) => if error.is_memory() {
            Err(AllocError)
        } else {
            Ok(None)
        },
    }
}

/// The members of an object, which is all of the text.
pub fn members_of(alloc: Global, text: &[u8]) -> Result<Vec<Member>, AllocError> {
    let mut members = Vec::new(alloc);
    let parts = parts_of(alloc, text)?;
    for part in &parts {
        let member = between(text, part.start, part.end);
        if let Some((colon, value)) = colon_of(member) {
            if let Some(name) = name_of(alloc, between(member, 0, colon))? {
                members.push(Member {
                    name,
                    start: part.start,
                    colon: part.start.saturating_add(colon).saturating_add(1),
                    value: part.start.saturating_add(value),
                    end: part.end,
                })?;
            }
        }
    }
    Ok(members)
}

/// Whether members stand by their names.
pub fn are_sorted(members: &[Member]) -> bool {
    let mut before: Option<&Member> = None;
    for member in members {
        if let Some(before) = before {
            if before.name.as_str() >= member.name.as_str() {
                return false;
            }
        }
        before = Some(member);
    }
    true
}
