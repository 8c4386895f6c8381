// Why a packed layer does not unpack, in words.
ghost use Rattle.std.specs.Prelude.{◌≤◌};

use crate::unpacking::{cells_of, decoded, frame_in, is_packed};
use deflate::{UnpackError, unpack};
use json_members::found;
use serde_json::{Map, Value};
use std::alloc::{AllocError, Global};

fn words_of(error: UnpackError) -> &'static str {
    match error {
        UnpackError::Memory => "out of memory",
        UnpackError::CutOff => "its packed data are cut off",
        UnpackError::BadHeader => "its packed data begin neither as zlib's do nor as gzip's",
        UnpackError::WrongSum => "its packed data have another checksum",
        UnpackError::Behind => "bytes stand behind its packed data",
        UnpackError::Longer => "its data unpack to more than 4 bytes a cell",
        UnpackError::Shorter => "its data unpack to fewer than 4 bytes a cell",
        UnpackError::BadBlock
        | UnpackError::BadLengths
        | UnpackError::BadCode
        | UnpackError::TooFar => "its packed data are damaged",
    }
}

// The same of a layer or a chunk that has so many cells.
fn why_own(
    alloc: Global,
    cells: usize,
    members: &Map<String, Value>,
) -> Result<Option<&'static str>, AllocError>
    requires { cells ≤ 1048576 }
{
    let text = match found(members, "data") {
        Some(Value::String(text)) => text,
        _ => return Ok(None),
    };
    let Some(packed) = decoded(alloc, text.as_str())? else {
        return Ok(Some("its packed data are no base64"));
    };
    match unpack(alloc, frame_in(&packed), &packed, 4 * cells) {
        Ok(_) => Ok(None),
        Err(UnpackError::Memory) => Err(AllocError),
        Err(error) => Ok(Some(words_of(error))),
    }
}

// The same of the chunks of a layer.
fn why_chunks(
    alloc: Global,
    layer: &Map<String, Value>,
) -> Result<Option<&'static str>, AllocError> {
    let chunks = match found(layer, "chunks") {
        Some(Value::Array(chunks)) => chunks,
        _ => return Ok(None),
    };
    for chunk in chunks {
        if let Value::Object(members) = chunk {
            if let Some(why) = why_own(alloc, cells_of(members), members)? {
                return Ok(Some(why));
            }
        }
    }
    Ok(None)
}

/// Why the data of a packed layer of a map, or those of its chunks, do not unpack to four bytes a cell, in words: what is wrong with
/// the first of them. `None` where they do, and of a layer that is not packed.
pub fn why_damaged(
    alloc: Global,
    map: &Value,
    layer: &Value,
) -> Result<Option<&'static str>, AllocError> {
    match (map, layer) {
        (Value::Object(map), Value::Object(layer)) if is_packed(layer) => {
            match why_own(alloc, cells_of(map), layer)? {
                Some(why) => Ok(Some(why)),
                None => why_chunks(alloc, layer),
            }
        }
        _ => Ok(None),
    }
}
