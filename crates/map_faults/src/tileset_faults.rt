// Why a file is refused as a tileset, and where.
ghost use Rattle.std.specs.Prelude.{IfOk};
ghost use Rattle.map_faults.specs.Tilesets.{TellsTilesetFault};

use crate::json_fault::place_of_fault;
use crate::members::Members;
use serde_json::Value;
use std::alloc::{AllocError, Global};
use tiled_files::{FileFault, LineColumn, tileset_text};
use tiled_maps::Fault;

// A file without a place, or with that of a byte.
fn told(alloc: Global, why: &str, place: Option<LineColumn>) -> Result<Vec<u8>, AllocError> {
    let mut out = Members::new(alloc);
    out.begin_object();
    out.text("why", why);
    match place {
        Some(place) => {
            out.count("line", place.line);
            out.count("column", place.column);
        }
        None => {
            out.nothing("line");
            out.nothing("column");
        }
    }
    out.end_object();
    out.into_line()
}

// What is told of bytes that are neither XML nor an object of JSON.
fn told_of_no_object(alloc: Global, bytes: &[u8]) -> Result<Vec<u8>, AllocError> {
    match Value::from_slice(alloc, bytes) {
        Ok(_) => told(alloc, "its root is no object", None),
        Err(error) if error.is_memory() => Err(AllocError),
        Err(error) => {
            let place = place_of_fault(alloc, bytes, &error)?;
            told(alloc, "no JSON in UTF-8", Some(place))
        }
    }
}

// What is told of a fault that is not that memory ran out.
fn told_of_fault(alloc: Global, bytes: &[u8], fault: FileFault) -> Result<Vec<u8>, AllocError> {
    match fault {
        FileFault::Aside(Fault::NotJson) => told_of_no_object(alloc, bytes),
        _ => told(alloc, fault.words(), fault.place_in(bytes)),
    }
}

/// Why the bytes of a file are refused as a tileset, or `None` where they are read: where `tiled_files::tileset_text` gives its text.
///
/// What is told is an object of JSON, in UTF-8, with these members:
///
/// - `why`: the reason in words.
/// - `line`, `column`: where it is, from 1 and in bytes: where the bytes are neither XML nor JSON the first byte that no JSON could have
///   there; where they cease to be XML, that byte; else `null`.
///
/// The only error is out of memory.
pub fn tileset_fault(alloc: Global, bytes: &[u8]) -> Result<Option<Vec<u8>>, AllocError>
    ensures { IfOk result (TellsTilesetFault bytes.now) }
{
    match tileset_text(alloc, bytes) {
        Ok(_) => Ok(None),
        Err(fault) => {
            if fault.is_memory() {
                return Err(AllocError);
            }
            let text = told_of_fault(alloc, bytes, fault)?;
            Ok(Some(text))
        }
    }
}
