// The cells of a layer: read from an array or from base64, and written in base64.
ghost use Rattle.std.specs.Prelude.{◌≡◌, ◌*◌, ◌≤◌, Ok, IfOk, IfErr, length};
ghost use Rattle.std.specs.Option.{ok_or};
ghost use Rattle.base64.specs.Engines.{standard};
ghost use Rattle.base64.specs.GeneralPurpose.{decode_of, encode_of, IsDecodeFailure, IsBytes};
ghost use Rattle.serde_json.specs.Data.{string};
ghost use Rattle.serde_json.specs.View.{view as data_of, items_view};
ghost use Rattle.map_model.specs.declared.limits.TheConstants.{MAX_CELLS};
ghost use Rattle.map_values.specs.Presence.{Gives, GivesBy};
ghost use Rattle.map_values.specs.Cells.{is_blank, cell_of, cells_of, array_cells_at, base64_cells_at, packed, words_of, bytes_of};
ghost use Rattle.refusals.specs.declared.map_refusal.MapRefusal.TheVariants.{BadData};

use crate::fault::MapFault;
use crate::trail::{Segment, Trail};
use base64::engine::general_purpose::STANDARD;
use base64::{DecodeAllocError, encoded_len};
use map_model::Cells;
use refusals::MapRefusal;
use serde_json::Value;
use std::alloc::{AllocError, Global};
use tile_id::Gid;

// The value of a cell that a number is.
#[tactic(auto, unfolding(crate::specs::Cells::cell_of))]
fn cell(value: &Value) -> Option<Gid>
    ensures { result ≡ cell_of (data_of value.now) }
{
    let whole = value.as_number()?.as_u64()?;
    if whole < 0x1_0000_0000 {
        Some(Gid(whole as u32))
    } else {
        None
    }
}

// The cells of an array. Only one at fault is gone to.
fn cells<T: Trail>(alloc: Global, values: &Vec<Value>, trail: &mut T) -> Result<Vec<Gid>, MapFault>
    ensures { GivesBy (λ found. found.items) result
        (ok_or (cells_of (items_view values.now.items)) BadData) }
{
    let mut found = Vec::with_capacity(alloc, values.len())?;
    for (at, value) in values.iter().enumerate() {
        let Some(cell) = cell(value) else {
            trail.enter(Segment::Element(at));
            return Err(MapFault::Refused(MapRefusal::BadData));
        };
        found.push(cell)?;
    }
    Ok(found)
}

/// The cells that an array of numbers spells.
#[tactic(auto, unfolding(crate::specs::Cells::array_cells_at))]
pub fn array_cells<T: Trail>(
    alloc: Global,
    value: &Value,
    count: usize,
    trail: &mut T,
) -> Result<Cells, MapFault>
    ensures { Gives result (array_cells_at count (data_of value.now)) }
{
    let values = value.as_array().ok_or(MapRefusal::MemberOfAnotherKind)?;
    let found = cells(alloc, values, trail)?;
    if found.len() != count {
        return Err(MapFault::Refused(MapRefusal::BadData));
    }
    Ok(Cells::new(found))
}

fn is_blank(byte: u8) -> bool
    ensures { result ≡ is_blank byte }
{
    byte == b' ' || byte == b'\t' || byte == b'\r' || byte == b'\n'
}

// The bytes but the blanks. They are pushed, and not collected, since `collect` asks again where it is refused memory.
fn packed(alloc: Global, text: &[u8]) -> Result<Vec<u8>, AllocError>
    ensures { IfOk result (λ bytes. bytes.items ≡ packed text.now) }
{
    let mut packed = Vec::with_capacity(alloc, text.len())?;
    for byte in text.iter().copied().filter(|byte| !is_blank(*byte)) {
        packed.push(byte)?;
    }
    Ok(packed)
}

fn words(alloc: Global, bytes: &[u8], count: usize) -> Result<Vec<Gid>, AllocError>
    requires { length bytes.now ≡ 4 * count }
    ensures { IfOk result (λ words. words.items ≡ words_of bytes.now) }
{
    let mut found = Vec::with_capacity(alloc, count)?;
    for i in 0..count {
        let at = 4 * i;
        let word = [bytes[at], bytes[at + 1], bytes[at + 2], bytes[at + 3]];
        found.push(Gid(u32::from_le_bytes(word)))?;
    }
    Ok(found)
}

// The bytes that a text of base64 spells; its blanks are skipped. Few texts have any, so it is decoded as it stands first.
fn decoded(alloc: Global, text: &[u8]) -> Result<Vec<u8>, DecodeAllocError>
    ensures ok { IfOk result (λ bytes. decode_of standard (packed text.now) ≡ Ok bytes.items) }
    ensures err { IfErr result (λ error. IsDecodeFailure standard (packed text.now) error) }
    ensures bytes { IfOk result (λ bytes. IsBytes bytes.items) }
{
    match STANDARD.decode(alloc, text) {
        Ok(bytes) => Ok(bytes),
        Err(DecodeAllocError::OutOfMemory) => Err(DecodeAllocError::OutOfMemory),
        Err(DecodeAllocError::DecodeError(_)) => {
            let packed = packed(alloc, text).map_err(|_| DecodeAllocError::OutOfMemory)?;
            STANDARD.decode(alloc, &packed)
        }
    }
}

/// The cells that a text of base64 spells.
#[tactic(auto, using(crate::proofs::Words::base64_read), unfolding(crate::specs::Cells::base64_cells_at))]
pub fn base64_cells(alloc: Global, value: &Value, count: usize) -> Result<Cells, MapFault>
    requires { count ≤ MAX_CELLS }
    ensures { Gives result (base64_cells_at count (data_of value.now)) }
{
    let text = value.as_str().ok_or(MapRefusal::MemberOfAnotherKind)?;
    let bytes = match decoded(alloc, text.as_bytes()) {
        Ok(bytes) => bytes,
        Err(DecodeAllocError::OutOfMemory) => return Err(MapFault::Memory),
        Err(DecodeAllocError::DecodeError(_)) => {
            return Err(MapFault::Refused(MapRefusal::BadData));
        }
    };
    if bytes.len() != 4 * count {
        return Err(MapFault::Refused(MapRefusal::BadData));
    }
    Ok(Cells::new(words(alloc, &bytes, count)?))
}

fn bytes_of(alloc: Global, cells: &[Gid]) -> Result<Vec<u8>, AllocError>
    ensures { IfOk result (λ bytes. bytes.items ≡ bytes_of cells.now) }
{
    let mut bytes = Vec::with_capacity(alloc, cells.len().saturating_mul(4))?;
    for cell in cells {
        bytes.extend_from_slice(&cell.0.to_le_bytes())?;
    }
    Ok(bytes)
}

/// The text of base64 that cells are written as.
pub fn base64_tree(alloc: Global, cells: &[Gid]) -> Result<Value, AllocError>
    ensures { IfOk result (λ value. data_of value ≡ string (encode_of standard (bytes_of cells.now))) }
{
    let bytes = bytes_of(alloc, cells)?;
    let len = encoded_len(bytes.len(), true).unwrap_or(0);
    let mut text = String::with_capacity(alloc, len)?;
    STANDARD.encode_string(&bytes, &mut text)?;
    Ok(Value::from(text))
}

/// The bytes that this text takes.
pub fn base64_room(cells: &[Gid]) -> usize {
    encoded_len(cells.len().saturating_mul(4), true).unwrap_or(0)
}
