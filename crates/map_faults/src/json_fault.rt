// Where bytes cease to be JSON. Places are offsets, which count from 0.
use crate::scan::{Scan, is_blank};
use serde_json::{Error, Value};
use std::alloc::{AllocError, Global};
use tiled_files::LineColumn;

// The offset of a line and a column. Column 0, which is the end behind a newline, gives that newline.
fn offset_of(bytes: &[u8], line: usize, column: usize) -> usize {
    let mut line_start = 0;
    let mut lines = 1;
    for (at, byte) in bytes.iter().enumerate() {
        if *byte == b'\n' && lines < line {
            lines += 1;
            line_start = at + 1;
        }
    }
    line_start.saturating_add(column).saturating_sub(1)
}

/// The bytes between two offsets.
pub fn part(bytes: &[u8], from: usize, to: usize) -> &[u8] {
    let end = to.min(bytes.len());
    &bytes[from.min(end)..end]
}

// Whether a number that has no other fault is too great for a float, which the reader of JSON alone knows.
fn is_too_great(alloc: Global, number: &[u8]) -> Result<bool, AllocError> {
    match Value::from_slice(alloc, number) {
        Ok(_) => Ok(false),
        Err(error) if error.is_memory() => Err(AllocError),
        Err(_) => Ok(true),
    }
}

// Whether a number may be so great: it has an exponent, or very many digits.
fn may_be_great(number: &[u8]) -> bool {
    number.len() > 300 || number.iter().any(|byte| *byte == b'e' || *byte == b'E')
}

// Whether the number between two offsets is too great.
fn is_great_between(
    alloc: Global,
    bytes: &[u8],
    from: usize,
    to: usize,
) -> Result<bool, AllocError> {
    let number = part(bytes, from, to);
    if may_be_great(number) {
        is_too_great(alloc, number)
    } else {
        Ok(false)
    }
}

// The number that ends before an offset, if it is too great.
fn great_number(
    alloc: Global,
    bytes: &[u8],
    scan: &Scan,
    to: usize,
) -> Result<Option<usize>, AllocError> {
    let Some(from) = scan.whole_number() else {
        return Ok(None);
    };
    Ok(if is_great_between(alloc, bytes, from, to)? {
        Some(from)
    } else {
        None
    })
}

fn may_end_number(byte: u8) -> bool {
    is_blank(byte) || byte == b',' || byte == b']' || byte == b'}'
}

// The offset of the first byte that no JSON could have there, or of the first number that is too great; the end, if the bytes
// are a part of some JSON; none if they are JSON.
fn first_fault(alloc: Global, bytes: &[u8]) -> Result<Option<usize>, AllocError> {
    let mut scan = Scan::new(alloc);
    for (at, byte) in bytes.iter().enumerate() {
        if may_end_number(*byte) {
            if let Some(from) = great_number(alloc, bytes, &scan, at)? {
                return Ok(Some(from));
            }
        }
        if !scan.step(*byte)? {
            return Ok(Some(at));
        }
    }
    if let Some(from) = great_number(alloc, bytes, &scan, bytes.len())? {
        return Ok(Some(from));
    }
    Ok(if scan.may_end() {
        None
    } else {
        Some(bytes.len())
    })
}

/// Where bytes that are no JSON have their fault, by the error of the reader of JSON.
///
/// Bytes that are not UTF-8 come first: then it is the place that the reader names. Else it is that of the first byte that no JSON
/// could have there, of the last byte where the bytes end too early, or of the first byte of a number that is too great.
pub fn place_of_fault(
    alloc: Global,
    bytes: &[u8],
    error: &Error,
) -> Result<LineColumn, AllocError> {
    let named = offset_of(bytes, error.line(), error.column());
    let fault = match str::from_utf8(bytes) {
        Ok(_) => first_fault(alloc, bytes)?.unwrap_or(named),
        Err(_) => named,
    };
    Ok(LineColumn::of_byte(bytes, fault))
}
