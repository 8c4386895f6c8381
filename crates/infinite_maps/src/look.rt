// Which chunks can be read.
ghost use Rattle.std.specs.Prelude.{◌≡◌, false, codes, option_map, None, IfOk, IfSome};
ghost use Rattle.serde_json.specs.Find.{get};
ghost use Rattle.serde_json.specs.View.{view as data_of, items_view, members_view};
ghost use Rattle.infinite_maps.specs.Pasted.{chunk_cells};
ghost use Rattle.infinite_maps.specs.Sound.{is_near, is_place, is_some_length, is_length, is_placed, are_numbers, is_of_kind, are_so_many, is_filled, area_of, is_base64, is_compressed};

use crate::cells::cells_of;
use crate::notes::natural;
use json_members::found;
use serde_json::{Map, Value};
use std::alloc::{AllocError, Global};

fn is_near(place: Option<i64>) -> bool
    ensures { result ≡ is_near place }
{
    match place {
        Some(place) => place.unsigned_abs() <= 2_147_483_648,
        None => false,
    }
}

fn is_place(value: Option<&Value>) -> bool
    ensures { result ≡ is_place (option_map (λ value. data_of value.now) value.entry) }
{
    match value {
        Some(value) => is_near(value.as_i64()),
        None => false,
    }
}

fn is_some_length(length: Option<u64>) -> bool
    ensures { result ≡ is_some_length length }
{
    match length {
        Some(length) => 0 < length && length <= 2_147_483_648,
        None => false,
    }
}

fn is_length(value: Option<&Value>) -> bool
    ensures { result ≡ is_length (option_map (λ value. data_of value.now) value.entry) }
{
    match value {
        Some(value) => is_some_length(value.as_u64()),
        None => false,
    }
}

/// Whether a chunk has a place and a size.
pub fn is_placed(chunk: &Value) -> bool
    ensures { result ≡ is_placed (data_of chunk.now) }
{
    let stands = is_place(chunk.get("x")) && is_place(chunk.get("y"));
    let reaches = is_length(chunk.get("width")) && is_length(chunk.get("height"));
    stands && reaches
}

fn are_numbers(values: &Vec<Value>) -> bool
    ensures { result ≡ are_numbers (items_view values.now.items) }
{
    for value in values {
        if value.as_u64().is_none() {
            return false;
        }
    }
    true
}

fn is_of_kind(text: bool, value: &Value) -> bool
    ensures { result ≡ is_of_kind text (data_of value.now) }
{
    if text {
        return value.is_string();
    }
    match value.as_array() {
        Some(values) => are_numbers(values),
        None => false,
    }
}

fn are_so_many(count: u128, cells: &Option<Vec<u64>>) -> bool
    ensures { result ≡ are_so_many count (option_map (λ cells. cells.items) cells.now) }
{
    match cells {
        Some(cells) => cells.len() as u128 == count,
        None => false,
    }
}

#[tactic(auto, using(crate::proofs::Sizes::long_areas))]
fn area_of(chunk: &Value) -> u128
    ensures { result ≡ area_of (data_of chunk.now) }
{
    natural(chunk.get("width")) as u128 * natural(chunk.get("height")) as u128
}

/// The cells of a chunk, if there is one for each of its places.
pub fn sound_cells(alloc: Global, text: bool, chunk: &Value) -> Result<Option<Vec<u64>>, AllocError>
    ensures cells { IfOk result (λ cells. IfSome cells (λ cells. cells.items ≡ chunk_cells (data_of chunk.now))) }
    ensures none { IfOk result (λ cells. cells ≡ None → is_filled text (area_of (data_of chunk.now)) (get (codes "data") (data_of chunk.now)) ≡ false) }
{
    match chunk.get("data") {
        Some(value) => if is_of_kind(text, value) {
            let cells = cells_of(alloc, value)?;
            if are_so_many(area_of(chunk), &cells) {
                Ok(cells)
            } else {
                Ok(None)
            }
        } else {
            Ok(None)
        },
        None => Ok(None),
    }
}

/// Whether chunks in base64 are those of a layer.
pub fn is_base64(members: &Map<String, Value>) -> bool
    ensures { result ≡ is_base64 (members_view members.now.entries) }
{
    match found(members, "encoding") {
        Some(encoding) => match encoding.as_str() {
            Some(text) => text == "base64",
            None => false,
        },
        None => false,
    }
}

/// Whether the data of a layer are compressed.
pub fn is_compressed(members: &Map<String, Value>) -> bool
    ensures { result ≡ is_compressed (members_view members.now.entries) }
{
    match found(members, "compression") {
        Some(compression) => match compression.as_str() {
            Some(text) => text != "",
            None => true,
        },
        None => false,
    }
}
