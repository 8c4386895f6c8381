// A map in which the packed layers are unpacked.
ghost use Rattle.std.specs.Prelude.{◌≡◌, ◌*◌, ◌≤◌, IfOk, OnOk, codes, option_map, string_bytes};
ghost use Rattle.std.specs.Result.{result_ok};
ghost use Rattle.base64.specs.Engines.{standard};
ghost use Rattle.base64.specs.GeneralPurpose.{decode_of, encode_of};
ghost use Rattle.serde_json.specs.View.{view as data_of, items_view, members_view};
ghost use Rattle.tiled_maps.specs.Sources.{member_with, object_with, array_with, items_with};
ghost use Rattle.tiled_maps.specs.Packed.{frame_named, frame_at, frame_of, is_packed, whole_at, cells_of, is_blank, without_blanks, decoded, frame_in, unpacked_bytes, bytes_in};
ghost use Rattle.tiled_maps.specs.Packed.{unpacked_data, data_unpacked, chunk_unpacked, is_void, any_void, has_void, void_checked, renamed, layer_unpacked};
ghost use Rattle.tiled_maps.specs.Packed.{layers_unpacked, item_unpacked, map_unpacked, unpacked_layers};

use crate::packed_layers::has_packed;
use crate::sources::{TIERS, has_text};
use base64::DecodeAllocError;
use base64::engine::general_purpose::STANDARD;
use deflate::{Frame, UnpackError, unpack};
use json_members::{found, remove, take};
use serde_json::{Map, Value};
use std::alloc::{AllocError, Global};

/// The member of a layer that says how its cells are packed.
pub const COMPRESSION: &str = "compression";
/// The member of a layer that notes how its cells were packed, while they are unpacked.
pub const NOTE: &str = "roskevad_packed";

/// How many cells a map may have.
const MOST_CELLS: u64 = 1_048_576;

fn frame_named(name: &str) -> Option<Frame>
    ensures { result ≡ frame_named name.now }
{
    if name == "zlib" {
        Some(Frame::Zlib)
    } else if name == "gzip" {
        Some(Frame::Gzip)
    } else {
        None
    }
}

/// The frame that a member names.
pub fn frame_at(members: &Map<String, Value>, name: &str) -> Option<Frame>
    ensures { result ≡ frame_at name.now (members_view members.now.entries) }
{
    match found(members, name) {
        Some(value) => match value.as_str() {
            Some(text) => frame_named(text),
            None => None,
        },
        None => None,
    }
}

/// How a layer is packed, if it is.
pub fn frame_of(members: &Map<String, Value>) -> Option<Frame>
    ensures { result ≡ frame_of (members_view members.now.entries) }
{
    if has_text(members, "encoding", "base64") {
        frame_at(members, COMPRESSION)
    } else {
        None
    }
}

/// Whether a layer is packed.
pub fn is_packed(members: &Map<String, Value>) -> bool
    ensures { result ≡ is_packed (members_view members.now.entries) }
{
    frame_of(members).is_some()
}

fn whole_at(members: &Map<String, Value>, name: &str) -> u64
    ensures { result ≡ whole_at name.now (members_view members.now.entries) }
{
    match found(members, name) {
        Some(value) => value.as_u64().unwrap_or(0),
        None => 0,
    }
}

/// How many cells a map or a chunk has, if no more than a map may have.
pub fn cells_of(members: &Map<String, Value>) -> usize
    ensures value { result ≡ cells_of (members_view members.now.entries) }
    ensures few { result ≤ 1048576 }
{
    let width = whole_at(members, "width");
    let height = whole_at(members, "height");
    match width.checked_mul(height) {
        Some(cells) if cells <= MOST_CELLS => cells as usize,
        _ => 0,
    }
}

fn is_blank(byte: u8) -> bool
    ensures { result ≡ is_blank byte }
{
    byte == b' ' || byte == b'\t' || byte == b'\n' || byte == b'\r'
}

fn without_blanks(alloc: Global, text: &str) -> Result<Vec<u8>, AllocError>
    ensures { IfOk result (λ plain. plain.items ≡ without_blanks text.now) }
{
    let mut plain = Vec::from_slice(alloc, text.as_bytes())?;
    plain.retain(|byte| !is_blank(*byte));
    Ok(plain)
}

// The bytes of a text in base64 without blanks.
fn decoded_strictly(alloc: Global, text: &[u8]) -> Result<Option<Vec<u8>>, AllocError>
    ensures { IfOk result (λ bytes. option_map (λ v. v.items) bytes ≡ result_ok (decode_of standard text.now)) }
{
    match STANDARD.decode(alloc, text) {
        Ok(bytes) => Ok(Some(bytes)),
        Err(DecodeAllocError::OutOfMemory) => Err(AllocError),
        Err(DecodeAllocError::DecodeError(_)) => Ok(None),
    }
}

/// The bytes of a text in base64, in which blanks may stand.
pub fn decoded(alloc: Global, text: &str) -> Result<Option<Vec<u8>>, AllocError>
    ensures { IfOk result (λ bytes. option_map (λ v. v.items) bytes ≡ decoded text.now) }
{
    if let Some(bytes) = decoded_strictly(alloc, text.as_bytes())? {
        return Ok(Some(bytes));
    }
    let plain = without_blanks(alloc, text)?;
    decoded_strictly(alloc, &plain)
}

/// The frame of a stream, as Tiled tells it.
pub fn frame_in(bytes: &[u8]) -> Frame
    ensures { result ≡ frame_in bytes.now }
{
    if bytes.len() > 1 && bytes[0] == 31 && bytes[1] == 139 {
        Frame::Gzip
    } else {
        Frame::Zlib
    }
}

// The bytes, so many, to which a text unpacks.
fn unpacked_bytes(alloc: Global, size: usize, text: &str) -> Result<Option<Vec<u8>>, AllocError>
    ensures { IfOk result (λ bytes. option_map (λ v. v.items) bytes ≡ unpacked_bytes size text.now) }
{
    let Some(packed) = decoded(alloc, text)? else {
        return Ok(None);
    };
    match unpack(alloc, frame_in(&packed), &packed, size) {
        Ok(bytes) => Ok(Some(bytes)),
        Err(UnpackError::Memory) => Err(AllocError),
        Err(_) => Ok(None),
    }
}

fn unpacked_text(alloc: Global, cells: usize, text: &str) -> Result<String, AllocError>
    requires { cells ≤ 1048576 }
    ensures { IfOk result (λ t. string_bytes t ≡ encode_of standard (bytes_in cells text.now)) }
{
    match unpacked_bytes(alloc, 4 * cells, text)? {
        Some(bytes) => STANDARD.encode(alloc, &bytes),
        None => STANDARD.encode(alloc, b""),
    }
}

fn unpacked_data(alloc: Global, cells: usize, value: Value) -> Result<Value, AllocError>
    requires { cells ≤ 1048576 }
    ensures { IfOk result (λ v. data_of v ≡ unpacked_data cells (data_of value)) }
{
    match value {
        Value::String(text) => Ok(Value::String(unpacked_text(alloc, cells, text.as_str())?)),
        other => Ok(other),
    }
}

// The data of a layer or a chunk.
fn unpack_data(
    alloc: Global,
    cells: usize,
    members: &mut Map<String, Value>,
) -> Result<(), AllocError>
    requires { cells ≤ 1048576 }
    ensures { OnOk result (members_view members.new.entries ≡ data_unpacked cells (members_view members.old.entries)) }
{
    match take(members, "data") {
        Some(value) => {
            let value = unpacked_data(alloc, cells, value)?;
            serde_json::put(members, alloc, "data", value)
        }
        None => Ok(()),
    }
}

fn chunk_unpacked(alloc: Global, chunk: Value) -> Result<Value, AllocError>
    ensures { IfOk result (λ v. data_of v ≡ chunk_unpacked (data_of chunk)) }
{
    match chunk {
        Value::Object(mut members) => {
            let cells = cells_of(&members);
            unpack_data(alloc, cells, &mut members)?;
            Ok(Value::Object(members))
        }
        other => Ok(other),
    }
}

fn chunks_unpacked(alloc: Global, items: Vec<Value>) -> Result<Vec<Value>, AllocError>
    ensures { IfOk result (λ v. items_view v.items ≡ items_with chunk_unpacked (items_view items.items)) }
{
    let mut all = Vec::with_capacity(alloc, items.len())?;
    for item in items {
        all.push(chunk_unpacked(alloc, item)?)?;
    }
    Ok(all)
}

fn array_unpacked(alloc: Global, chunks: Value) -> Result<Value, AllocError>
    ensures { IfOk result (λ v. data_of v ≡ array_with chunk_unpacked (data_of chunks)) }
{
    match chunks {
        Value::Array(items) => Ok(Value::Array(chunks_unpacked(alloc, items)?)),
        other => Ok(other),
    }
}

fn unpack_chunks(alloc: Global, members: &mut Map<String, Value>) -> Result<(), AllocError>
    ensures { OnOk result (members_view members.new.entries
        ≡ member_with (codes "chunks") (array_with chunk_unpacked) (members_view members.old.entries)) }
{
    match take(members, "chunks") {
        Some(chunks) => {
            let chunks = array_unpacked(alloc, chunks)?;
            serde_json::put(members, alloc, "chunks", chunks)
        }
        None => Ok(()),
    }
}

// Whether a chunk has a text of nothing as its data.
fn is_void(chunk: &Value) -> bool
    ensures { result ≡ is_void (data_of chunk.now) }
{
    match chunk {
        Value::Object(members) => has_text(members, "data", ""),
        _ => false,
    }
}

fn any_void(chunks: &Vec<Value>) -> bool
    ensures { result ≡ any_void (items_view chunks.now.items) }
{
    for chunk in chunks {
        if is_void(chunk) {
            return true;
        }
    }
    false
}

fn has_void(members: &Map<String, Value>) -> bool
    ensures { result ≡ has_void (members_view members.now.entries) }
{
    match found(members, "chunks") {
        Some(chunks) => match chunks.as_array() {
            Some(chunks) => any_void(chunks),
            None => false,
        },
        None => false,
    }
}

// Puts a text of nothing in the place of chunks of which one did not unpack.
fn check_void(alloc: Global, members: &mut Map<String, Value>) -> Result<(), AllocError>
    ensures { OnOk result (members_view members.new.entries ≡ void_checked (members_view members.old.entries)) }
{
    if !has_void(members) {
        return Ok(());
    }
    remove(members, "chunks");
    serde_json::put(members, alloc, "data", Value::String(String::new(alloc)))
}

/// Gives a member another name.
pub fn rename(
    alloc: Global,
    members: &mut Map<String, Value>,
    old: &str,
    new: &str,
) -> Result<(), AllocError>
    ensures { OnOk result (members_view members.new.entries ≡ renamed old.now new.now (members_view members.old.entries)) }
{
    match take(members, old) {
        Some(value) => serde_json::put(members, alloc, new, value),
        None => Ok(()),
    }
}

// A layer's own data, and those of its chunks.
fn unpack_layer(
    alloc: Global,
    cells: usize,
    members: &mut Map<String, Value>,
) -> Result<(), AllocError>
    requires { cells ≤ 1048576 }
    ensures { OnOk result (members_view members.new.entries ≡ layer_unpacked cells (members_view members.old.entries)) }
{
    if !is_packed(members) {
        return Ok(());
    }
    unpack_data(alloc, cells, members)?;
    unpack_chunks(alloc, members)?;
    check_void(alloc, members)?;
    rename(alloc, members, COMPRESSION, NOTE)?;
    Ok(())
}

// The layers of a map, a group or a layer, and then its own data.
#[cycle(unpacking)]
#[tactic(auto, unfolding(crate::specs::Packed::layers_unpacked))]
fn unpack_tiers(
    tiers: u8,
    alloc: Global,
    cells: usize,
    members: &mut Map<String, Value>,
) -> Result<(), AllocError>
    requires { cells ≤ 1048576 }
    ensures { OnOk result (members_view members.new.entries ≡ layers_unpacked tiers cells (members_view members.old.entries)) }
{
    if tiers == 0 {
        return Ok(());
    }
    unpack_below(tiers - 1, alloc, cells, members)?;
    unpack_layer(alloc, cells, members)?;
    Ok(())
}

#[cycle(unpacking)]
fn unpack_below(
    tiers: u8,
    alloc: Global,
    cells: usize,
    members: &mut Map<String, Value>,
) -> Result<(), AllocError>
    requires { cells ≤ 1048576 }
    ensures { OnOk result (members_view members.new.entries
        ≡ member_with (codes "layers") (array_with (item_unpacked tiers cells)) (members_view members.old.entries)) }
{
    match take(members, "layers") {
        Some(layers) => {
            let layers = layers_below(tiers, alloc, cells, layers)?;
            serde_json::put(members, alloc, "layers", layers)
        }
        None => Ok(()),
    }
}

#[cycle(unpacking)]
fn layers_below(tiers: u8, alloc: Global, cells: usize, layers: Value) -> Result<Value, AllocError>
    requires { cells ≤ 1048576 }
    ensures { IfOk result (λ v. data_of v ≡ array_with (item_unpacked tiers cells) (data_of layers)) }
{
    match layers {
        Value::Array(items) => Ok(Value::Array(items_unpacked(tiers, alloc, cells, items)?)),
        other => Ok(other),
    }
}

#[cycle(unpacking)]
fn items_unpacked(
    tiers: u8,
    alloc: Global,
    cells: usize,
    items: Vec<Value>,
) -> Result<Vec<Value>, AllocError>
    requires { cells ≤ 1048576 }
    ensures { IfOk result (λ v. items_view v.items ≡ items_with (item_unpacked tiers cells) (items_view items.items)) }
{
    let mut all = Vec::with_capacity(alloc, items.len())?;
    for item in items {
        all.push(item_unpacked(tiers, alloc, cells, item)?)?;
    }
    Ok(all)
}

#[cycle(unpacking)]
fn item_unpacked(tiers: u8, alloc: Global, cells: usize, layer: Value) -> Result<Value, AllocError>
    requires { cells ≤ 1048576 }
    ensures { IfOk result (λ v. data_of v ≡ item_unpacked tiers cells (data_of layer)) }
{
    match layer {
        Value::Object(mut members) => {
            unpack_tiers(tiers, alloc, cells, &mut members)?;
            Ok(Value::Object(members))
        }
        other => Ok(other),
    }
}

fn map_unpacked(alloc: Global, map: Value) -> Result<Value, AllocError>
    ensures { IfOk result (λ v. data_of v ≡ object_with map_unpacked (data_of map)) }
{
    match map {
        Value::Object(mut members) => {
            let cells = cells_of(&members);
            unpack_tiers(TIERS, alloc, cells, &mut members)?;
            Ok(Value::Object(members))
        }
        other => Ok(other),
    }
}

/// The map with its packed layers unpacked, those in groups too. Data that do not unpack to four bytes a cell become a text of
/// nothing, and so do all chunks of a layer where one does not, so that a reader refuses them.
pub fn unpacked(alloc: Global, map: Value) -> Result<Value, AllocError>
    ensures { IfOk result (λ v. data_of v ≡ unpacked_layers (data_of map)) }
{
    if has_packed(&map) {
        map_unpacked(alloc, map)
    } else {
        Ok(map)
    }
}
