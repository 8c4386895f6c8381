// How the cells of a tile layer are written, and a layer that is an array written as another one is.
ghost use Rattle.std.specs.Prelude.{◌≡◌, ◌++◌, [], ◌∷◌, false, None, IfOk, OnOk, codes, option_map, string_bytes};
ghost use Rattle.base64.specs.Engines.{standard};
ghost use Rattle.base64.specs.GeneralPurpose.{encode_of};
ghost use Rattle.serde_json.specs.View.{view as data_of, items_view, members_view};
ghost use Rattle.infinite_maps.specs.Cells.{wholes, bytes_of};
ghost use Rattle.tiled_maps.specs.Sources.{object_with, array_with, items_with, member_with};
ghost use Rattle.tiled_maps.specs.Packed.{object_or};
ghost use Rattle.tiled_maps.specs.Formats.{has_member, is_tiles, first_in, first_tiles, is_cell, are_cells, is_list, has_array, have_arrays, is_array};
ghost use Rattle.tiled_maps.specs.Formats.{data_encoded, own_encoded, layer_encoded, is_base64, compression_name, compressed_as, encoded_as, written_as};

use crate::sources::{has_text, layers_in};
use crate::unpacking::{COMPRESSION, NOTE, is_packed};
use base64::engine::general_purpose::STANDARD;
use json_members::{found, remove, take};
use serde_json::{Map, Value};
use std::alloc::{AllocError, Global};

fn has_member(members: &Map<String, Value>, name: &str) -> bool
    ensures { result ≡ has_member name.now (members_view members.now.entries) }
{
    found(members, name).is_some()
}

/// Whether a layer is a tile layer that has its cells, or chunks of them.
pub fn is_tiles(members: &Map<String, Value>) -> bool
    ensures { result ≡ is_tiles (members_view members.now.entries) }
{
    has_text(members, "type", "tilelayer")
        && (has_member(members, "data") || has_member(members, "chunks"))
}

/// The first such layer in a map, a group or a layer, those in groups too, as they stand in the file.
#[cycle(first)]
#[tactic(auto, unfolding(crate::specs::Formats::first_tiles))]
pub fn first_tiles(tiers: u8, members: &Map<String, Value>) -> Option<&Map<String, Value>>
    ensures { option_map (λ m. members_view m.now.entries) result ≡ first_tiles tiers (members_view members.now.entries) }
{
    if tiers == 0 {
        return None;
    }
    if is_tiles(members) {
        return Some(members);
    }
    match layers_in(members) {
        Some(layers) => first_in(tiers - 1, layers),
        None => None,
    }
}

#[cycle(first)]
fn first_in(tiers: u8, layers: &Vec<Value>) -> Option<&Map<String, Value>>
    ensures { option_map (λ m. members_view m.now.entries) result ≡ first_in (λ own. first_tiles tiers own) (items_view layers.now.items) }
{
    for layer in layers {
        if let Some(members) = first_at(tiers, layer) {
            return Some(members);
        }
    }
    None
}

#[cycle(first)]
fn first_at(tiers: u8, layer: &Value) -> Option<&Map<String, Value>>
    ensures { option_map (λ m. members_view m.now.entries) result ≡ object_or (λ own. first_tiles tiers own) None (data_of layer.now) }
{
    match layer {
        Value::Object(members) => first_tiles(tiers, members),
        _ => None,
    }
}

// Whether a value is a whole number of 32 bits.
fn is_cell(value: &Value) -> bool
    ensures { result ≡ is_cell (data_of value.now) }
{
    match value.as_u64() {
        Some(cell) => cell < 4_294_967_296,
        None => false,
    }
}

fn are_cells(values: &Vec<Value>) -> bool
    ensures { result ≡ are_cells (items_view values.now.items) }
{
    for value in values {
        if !is_cell(value) {
            return false;
        }
    }
    true
}

// Whether the data of a layer or a chunk are an array of cells, if it has any.
fn has_array(members: &Map<String, Value>) -> bool
    ensures { result ≡ has_array (members_view members.now.entries) }
{
    match found(members, "data") {
        Some(data) => match data.as_array() {
            Some(values) => are_cells(values),
            None => false,
        },
        None => true,
    }
}

fn chunk_has_array(chunk: &Value) -> bool
    ensures { result ≡ object_or has_array false (data_of chunk.now) }
{
    match chunk {
        Value::Object(members) => has_array(members),
        _ => false,
    }
}

fn have_arrays(chunks: &Vec<Value>) -> bool
    ensures { result ≡ have_arrays (items_view chunks.now.items) }
{
    for chunk in chunks {
        if !chunk_has_array(chunk) {
            return false;
        }
    }
    true
}

fn chunks_have_arrays(members: &Map<String, Value>) -> bool
    ensures { result ≡ is_list have_arrays (codes "chunks") (members_view members.now.entries) }
{
    match found(members, "chunks") {
        Some(chunks) => match chunks.as_array() {
            Some(chunks) => have_arrays(chunks),
            None => false,
        },
        None => true,
    }
}

// Whether a layer is a tile layer whose data, and those of its chunks, are arrays of cells.
fn is_array(members: &Map<String, Value>) -> bool
    ensures { result ≡ is_array (members_view members.now.entries) }
{
    is_tiles(members) && has_array(members) && chunks_have_arrays(members)
}

fn push_bytes(bytes: &mut Vec<u8>, cell: u64) -> Result<(), AllocError>
    ensures { OnOk result (bytes.new.items ≡ bytes.old.items ++ bytes_of (cell ∷ [])) }
{
    bytes.push((cell % 256) as u8)?;
    bytes.push((cell / 256 % 256) as u8)?;
    bytes.push((cell / 65_536 % 256) as u8)?;
    bytes.push((cell / 16_777_216 % 256) as u8)?;
    Ok(())
}

// The bytes of cells, four each.
fn bytes_of(alloc: Global, cells: &Vec<Value>) -> Result<Vec<u8>, AllocError>
    ensures { IfOk result (λ bytes. bytes.items ≡ bytes_of (wholes (items_view cells.now.items))) }
{
    let mut bytes = Vec::new(alloc);
    for cell in cells {
        push_bytes(&mut bytes, cell.as_u64().unwrap_or(0))?;
    }
    Ok(bytes)
}

fn text_of(alloc: Global, cells: &Vec<Value>) -> Result<String, AllocError>
    ensures { IfOk result (λ t. string_bytes t ≡ encode_of standard (bytes_of (wholes (items_view cells.now.items)))) }
{
    let bytes = bytes_of(alloc, cells)?;
    STANDARD.encode(alloc, &bytes)
}

fn data_encoded(alloc: Global, value: Value) -> Result<Value, AllocError>
    ensures { IfOk result (λ v. data_of v ≡ data_encoded (data_of value)) }
{
    match value {
        Value::Array(cells) => Ok(Value::String(text_of(alloc, &cells)?)),
        other => Ok(other),
    }
}

// Puts the data of a layer or a chunk into base64.
fn encode_data(alloc: Global, members: &mut Map<String, Value>) -> Result<(), AllocError>
    ensures { OnOk result (members_view members.new.entries ≡ own_encoded (members_view members.old.entries)) }
{
    match take(members, "data") {
        Some(value) => {
            let value = data_encoded(alloc, value)?;
            serde_json::put(members, alloc, "data", value)
        }
        None => Ok(()),
    }
}

fn chunk_encoded(alloc: Global, chunk: Value) -> Result<Value, AllocError>
    ensures { IfOk result (λ v. data_of v ≡ object_with own_encoded (data_of chunk)) }
{
    match chunk {
        Value::Object(mut members) => {
            encode_data(alloc, &mut members)?;
            Ok(Value::Object(members))
        }
        other => Ok(other),
    }
}

fn chunks_encoded(alloc: Global, chunks: Vec<Value>) -> Result<Vec<Value>, AllocError>
    ensures { IfOk result (λ v. items_view v.items ≡ items_with (object_with own_encoded) (items_view chunks.items)) }
{
    let mut all = Vec::with_capacity(alloc, chunks.len())?;
    for chunk in chunks {
        all.push(chunk_encoded(alloc, chunk)?)?;
    }
    Ok(all)
}

fn array_encoded(alloc: Global, chunks: Value) -> Result<Value, AllocError>
    ensures { IfOk result (λ v. data_of v ≡ array_with (object_with own_encoded) (data_of chunks)) }
{
    match chunks {
        Value::Array(items) => Ok(Value::Array(chunks_encoded(alloc, items)?)),
        other => Ok(other),
    }
}

fn encode_chunks(alloc: Global, members: &mut Map<String, Value>) -> Result<(), AllocError>
    ensures { OnOk result (members_view members.new.entries
        ≡ member_with (codes "chunks") (array_with (object_with own_encoded)) (members_view members.old.entries)) }
{
    match take(members, "chunks") {
        Some(chunks) => {
            let chunks = array_encoded(alloc, chunks)?;
            serde_json::put(members, alloc, "chunks", chunks)
        }
        None => Ok(()),
    }
}

// Whether a layer is in base64, packed by zlib or gzip, or by nothing.
fn is_base64(members: &Map<String, Value>) -> bool
    ensures { result ≡ is_base64 (members_view members.now.entries) }
{
    is_packed(members)
        || (has_text(members, "encoding", "base64")
            && (!has_member(members, COMPRESSION) || has_text(members, COMPRESSION, "")))
}

// The name of the member that says a layer's compression, or notes it if the layer is packed.
fn compression_name(layer: &Map<String, Value>) -> &'static str
    ensures { result.now ≡ compression_name (members_view layer.now.entries) }
{
    if is_packed(layer) { NOTE } else { COMPRESSION }
}

// Gives a layer the compression of another, as a note if that is packed.
fn put_compression(
    alloc: Global,
    other: &Map<String, Value>,
    members: &mut Map<String, Value>,
) -> Result<(), AllocError>
    ensures { OnOk result (members_view members.new.entries
        ≡ compressed_as (members_view other.now.entries) (members_view members.old.entries)) }
{
    let name = compression_name(other);
    remove(members, COMPRESSION);
    match found(other, COMPRESSION) {
        Some(compression) => serde_json::put(members, alloc, name, compression.clone()?),
        None => Ok(()),
    }
}

// Puts a layer that is an array into base64, as another one is.
fn encode(
    alloc: Global,
    other: &Map<String, Value>,
    members: &mut Map<String, Value>,
) -> Result<(), AllocError>
    ensures { OnOk result (members_view members.new.entries
        ≡ encoded_as (members_view other.now.entries) (members_view members.old.entries)) }
{
    encode_data(alloc, members)?;
    encode_chunks(alloc, members)?;
    let base64 = Value::String(String::from_str(alloc, "base64")?);
    serde_json::put(members, alloc, "encoding", base64)?;
    put_compression(alloc, other, members)
}

/// Puts a layer that is an array into base64, if another one is. It notes how it is to be packed, if that one is packed.
pub fn write_as(
    alloc: Global,
    other: Option<&Map<String, Value>>,
    members: &mut Map<String, Value>,
) -> Result<(), AllocError>
    ensures { OnOk result (members_view members.new.entries
        ≡ written_as (option_map (λ m. members_view m.now.entries) other.entry) (members_view members.old.entries)) }
{
    match other {
        Some(other) if is_base64(other) && is_array(members) => encode(alloc, other, members),
        _ => Ok(()),
    }
}
