// Where a value stands in a text of JSON.
use crate::json_fault::part;
use crate::place::OwnSegment;
use crate::scan::Scan;
use serde_json::Value;
use std::alloc::{AllocError, Global};

// Whether a name, with its quotes, is spelled by bytes, which may have escapes.
fn spells(alloc: Global, bytes: &[u8], name: &str) -> Result<bool, AllocError> {
    if !bytes.contains(&b'\\') {
        let end = bytes.len().saturating_sub(1);
        return Ok(part(bytes, 1, end) == name.as_bytes());
    }
    match Value::from_slice(alloc, bytes) {
        Ok(value) => Ok(value.as_str() == Some(name)),
        Err(error) if error.is_memory() => Err(AllocError),
        Err(_) => Ok(false),
    }
}

// Whether the value that begins next is behind a step.
fn is_behind(
    alloc: Global,
    bytes: &[u8],
    scan: &Scan,
    step: &OwnSegment,
) -> Result<bool, AllocError> {
    match (step, scan.index()) {
        (OwnSegment::Element(at), Some(index)) => Ok(*at == index),
        (OwnSegment::Member(name), None) => {
            let (from, to) = scan.name();
            spells(alloc, part(bytes, from, to), name.as_str())
        }
        _ => Ok(false),
    }
}

/// How far some steps from the root of a text of JSON were gone.
#[derive(Drop)]
struct Way<'a> {
    steps: &'a [OwnSegment],
    /// How many of the arrays and objects that are open stand on the way, from the root.
    open: usize,
    /// Where the last value begins that was found on the way.
    offset: usize,
}

impl<'a> Way<'a> {
    // Whether a value that begins next stands on the way.
    fn leads_on(&self, alloc: Global, bytes: &[u8], scan: &Scan) -> Result<bool, AllocError> {
        let depth = scan.depth();
        if depth == 0 {
            return Ok(true);
        }
        match self.steps.get(depth - 1) {
            Some(step) if self.open == depth => is_behind(alloc, bytes, scan, step),
            _ => Ok(false),
        }
    }
}

/// Where the value begins to which some steps lead from the root of a text of JSON; or the last one on the way that is there. Of
/// members with the same name the last one counts, as the reader has it.
pub fn offset_of_steps(
    alloc: Global,
    bytes: &[u8],
    steps: &[OwnSegment],
) -> Result<usize, AllocError> {
    let mut scan = Scan::new(alloc);
    let mut way = Way {
        steps,
        open: 0,
        offset: 0,
    };
    for (at, byte) in bytes.iter().enumerate() {
        let depth = scan.depth();
        let is_on = scan.begins_value(*byte) && way.leads_on(alloc, bytes, &scan)?;
        if is_on {
            way.offset = at;
        }
        if !scan.step(*byte)? {
            return Ok(way.offset);
        }
        way.open = way.open.min(scan.depth());
        if is_on && scan.depth() > depth {
            way.open = scan.depth();
        }
    }
    Ok(way.offset)
}
