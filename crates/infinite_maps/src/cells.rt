// The cells of a layer or chunk, as an array of numbers or in base64.
ghost use Rattle.std.specs.Prelude.{◌≡◌, ◌+◌, ◌*◌, ◌<◌, ◌++◌, [], ◌∷◌, map, IfOk, OnOk, option_map, length, slice_index};
ghost use Rattle.std.specs.Result.{result_ok};
ghost use Rattle.base64.specs.Engines.{standard};
ghost use Rattle.base64.specs.GeneralPurpose.{decode_of, encode_of};
ghost use Rattle.serde_json.specs.Data.{string, array, number, unsigned};
ghost use Rattle.serde_json.specs.View.{view as data_of, items_of, items_view};
ghost use Rattle.infinite_maps.specs.Cells.{whole, wholes, words_of, bytes_of, is_text, cells_of, cells_data, cut};

use crate::rectangle::Rectangle;
use base64::DecodeAllocError;
use base64::engine::general_purpose::STANDARD;
use serde_json::Value;
use std::alloc::{AllocError, Global};

/// A whole number; 0 where there is none.
pub fn whole(value: &Value) -> u64
    ensures { result ≡ whole (data_of value.now) }
{
    value.as_u64().unwrap_or(0)
}

fn wholes(alloc: Global, values: &Vec<Value>) -> Result<Vec<u64>, AllocError>
    ensures { IfOk result (λ found. found.items ≡ wholes (items_view values.now.items)) }
{
    let mut found = Vec::with_capacity(alloc, values.len())?;
    for value in values {
        found.push(whole(value))?;
    }
    Ok(found)
}

fn word(bytes: &[u8], at: usize) -> u64
    requires { at + 3 < length bytes.now }
    ensures { result ≡ slice_index bytes.now at + 256 * slice_index bytes.now (at + 1)
        + 65536 * slice_index bytes.now (at + 2) + 16777216 * slice_index bytes.now (at + 3) }
{
    bytes[at] as u64
        + 256 * bytes[at + 1] as u64
        + 65_536 * bytes[at + 2] as u64
        + 16_777_216 * bytes[at + 3] as u64
}

fn words(alloc: Global, bytes: &[u8]) -> Result<Vec<u64>, AllocError>
    ensures { IfOk result (λ words. words.items ≡ words_of bytes.now) }
{
    let count = bytes.len() / 4;
    let mut found = Vec::with_capacity(alloc, count)?;
    for i in 0..count {
        found.push(word(bytes, 4 * i))?;
    }
    Ok(found)
}

fn decoded(alloc: Global, text: &str) -> Result<Option<Vec<u64>>, AllocError>
    ensures { IfOk result (λ cells. option_map (λ cells. cells.items) cells
        ≡ option_map words_of (result_ok (decode_of standard text.now))) }
{
    match STANDARD.decode(alloc, text.as_bytes()) {
        Ok(bytes) => Ok(Some(words(alloc, &bytes)?)),
        Err(DecodeAllocError::OutOfMemory) => Err(AllocError),
        Err(DecodeAllocError::DecodeError(_)) => Ok(None),
    }
}

/// The cells that data spell, if they do.
pub fn cells_of(alloc: Global, value: &Value) -> Result<Option<Vec<u64>>, AllocError>
    ensures { IfOk result (λ cells. option_map (λ cells. cells.items) cells
        ≡ cells_of (data_of value.now)) }
{
    match value {
        Value::Array(values) => Ok(Some(wholes(alloc, values)?)),
        Value::String(text) => decoded(alloc, text.as_str()),
        _ => Ok(None),
    }
}

fn push_bytes(bytes: &mut Vec<u8>, cell: u64) -> Result<(), AllocError>
    ensures { OnOk result (bytes.new.items ≡ bytes.old.items ++ bytes_of (cell ∷ [])) }
{
    bytes.push((cell % 256) as u8)?;
    bytes.push((cell / 256 % 256) as u8)?;
    bytes.push((cell / 65_536 % 256) as u8)?;
    bytes.push((cell / 16_777_216 % 256) as u8)?;
    Ok(())
}

fn bytes_of(alloc: Global, cells: &[u64]) -> Result<Vec<u8>, AllocError>
    ensures { IfOk result (λ bytes. bytes.items ≡ bytes_of cells.now) }
{
    let mut bytes = Vec::new(alloc);
    for cell in cells {
        push_bytes(&mut bytes, *cell)?;
    }
    Ok(bytes)
}

fn array_of(alloc: Global, cells: &[u64]) -> Result<Value, AllocError>
    ensures { IfOk result (λ value. data_of value
        ≡ array (items_of (map (λ n. number (unsigned n)) cells.now))) }
{
    let mut values = Vec::with_capacity(alloc, cells.len())?;
    for cell in cells {
        values.push(Value::from(*cell))?;
    }
    Ok(Value::from(values))
}

fn text_of(alloc: Global, cells: &[u64]) -> Result<Value, AllocError>
    ensures { IfOk result (λ value. data_of value
        ≡ string (encode_of standard (bytes_of cells.now))) }
{
    let bytes = bytes_of(alloc, cells)?;
    Ok(Value::from(STANDARD.encode(alloc, &bytes)?))
}

/// Cells as a text of base64, or as an array.
#[tactic(auto, unfolding(crate::specs::Cells::cells_data))]
pub fn cells_data(alloc: Global, text: bool, cells: &[u64]) -> Result<Value, AllocError>
    ensures { IfOk result (λ value. data_of value ≡ cells_data text cells.now) }
{
    if text {
        text_of(alloc, cells)
    } else {
        array_of(alloc, cells)
    }
}

/// The cells of a layer of so many columns in a rectangle.
#[tactic(auto, unfolding(crate::specs::Cells::cut))]
pub fn cut(
    alloc: Global,
    columns: u16,
    cells: &[u64],
    rectangle: Rectangle,
) -> Result<Vec<u64>, AllocError>
    ensures { IfOk result (λ found. found.items ≡ cut columns cells.now rectangle) }
{
    let area = rectangle.area();
    let mut found = Vec::with_capacity(alloc, area)?;
    for k in 0..area {
        found.push(cell_at(cells, rectangle.place(columns, k)))?;
    }
    Ok(found)
}

/// The cell at a place; 0 past the end.
pub fn cell_at(cells: &[u64], at: usize) -> u64
    ensures { result ≡ slice_index cells.now at }
{
    cells.get(at).copied().unwrap_or(0)
}
