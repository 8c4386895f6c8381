// A map in which the layers that were unpacked are packed again.
ghost use Rattle.std.specs.Prelude.{◌≡◌, ◌≤◌, IfOk, OnOk, IfSome, option_map, codes, string_bytes, Some};
ghost use Rattle.serde_json.specs.Data.{depth};
ghost use Rattle.serde_json.specs.Read.{max_depth};
ghost use Rattle.serde_json.specs.View.{view as data_of, items_view, members_view};
ghost use Rattle.json_trees.specs.Names.{has_name};
ghost use Rattle.tiled_maps.specs.Packed.{note_name, frame_at, decoded, unpacked_layers};
ghost use Rattle.tiled_maps.specs.Packing.{ItemsRelated, ArrayRelated, ObjectRelated, MemberRelated, Packs, TextPacked, DataPacked, OwnPacked, ChunksPacked};
ghost use Rattle.tiled_maps.specs.Packing.{LayerPacked, LayersPacked, ItemPacked, MapPacked, IsPackedAs, IsFound, IsKept};

use crate::packed_layers::packed_cells;
use crate::shape::{has_name, is_within};
use crate::sources::{TIERS, layer_like};
use crate::tree::MAX_DEPTH;
use crate::unpacking::{COMPRESSION, NOTE, decoded, frame_at, frame_of, rename, unpacked};
use base64::engine::general_purpose::STANDARD;
use deflate::{Frame, UnpackError, pack, unpack};
use json_members::{found, take};
use json_trees::is_same;
use serde_json::{Map, Value};
use std::alloc::{AllocError, Global};

/// How many cells the packed layers of a map may have in all.
pub const MOST_PACKED: u64 = 16_777_216;

// An old text, if it unpacks to these bytes.
fn kept_text(
    alloc: Global,
    frame: Frame,
    old: Option<&str>,
    bytes: &[u8],
) -> Result<Option<String>, AllocError>
    ensures { IfOk result (λ kept. IfSome kept (λ t. Packs frame bytes.now (string_bytes t))) }
{
    let Some(old) = old else {
        return Ok(None);
    };
    let Some(packed) = decoded(alloc, old)? else {
        return Ok(None);
    };
    match unpack(alloc, frame, &packed, bytes.len()) {
        Ok(out) if out.as_slice() == bytes => Ok(Some(String::from_str(alloc, old)?)),
        Err(UnpackError::Memory) => Err(AllocError),
        _ => Ok(None),
    }
}

fn new_text(alloc: Global, frame: Frame, bytes: &[u8]) -> Result<String, AllocError>
    ensures { IfOk result (λ t. Packs frame bytes.now (string_bytes t)) }
{
    let packed = pack(alloc, frame, bytes)?;
    STANDARD.encode(alloc, &packed)
}

// The text of packed cells: the old one, if it unpacks to them.
fn packed_text(
    alloc: Global,
    frame: Frame,
    old: Option<&str>,
    text: String,
) -> Result<String, AllocError>
    ensures { IfOk result (λ t. TextPacked frame (decoded (string_bytes text)) (string_bytes text) (string_bytes t)) }
{
    let Some(bytes) = decoded(alloc, text.as_str())? else {
        return Ok(text);
    };
    match kept_text(alloc, frame, old, &bytes)? {
        Some(kept) => Ok(kept),
        None => new_text(alloc, frame, &bytes),
    }
}

fn packed_data(
    alloc: Global,
    frame: Frame,
    old: Option<&str>,
    value: Value,
) -> Result<Value, AllocError>
    ensures { IfOk result (λ v. DataPacked frame (data_of value) (data_of v)) }
{
    match value {
        Value::String(text) => Ok(Value::String(packed_text(alloc, frame, old, text)?)),
        other => Ok(other),
    }
}

// The text of the data that a layer or a chunk has.
fn text_in(olds: Option<&Map<String, Value>>) -> Option<&str> {
    let Some(olds) = olds else {
        return None;
    };
    match found(olds, "data") {
        Some(value) => value.as_str(),
        None => None,
    }
}

fn pack_data(
    alloc: Global,
    frame: Frame,
    olds: Option<&Map<String, Value>>,
    members: &mut Map<String, Value>,
) -> Result<(), AllocError>
    ensures { OnOk result (OwnPacked frame (members_view members.old.entries) (members_view members.new.entries)) }
{
    match take(members, "data") {
        Some(value) => {
            let value = packed_data(alloc, frame, text_in(olds), value)?;
            serde_json::put(members, alloc, "data", value)?;
            Ok(())
        }
        None => Ok(()),
    }
}

// The members of the chunk at a place in the list of a layer.
fn chunk_at(olds: Option<&Map<String, Value>>, index: usize) -> Option<&Map<String, Value>> {
    let Some(olds) = olds else {
        return None;
    };
    let Some(chunks) = found(olds, "chunks") else {
        return None;
    };
    let Some(chunks) = chunks.as_array() else {
        return None;
    };
    match chunks.get(index) {
        Some(chunk) => chunk.as_object(),
        None => None,
    }
}

fn chunk_packed(
    alloc: Global,
    frame: Frame,
    olds: Option<&Map<String, Value>>,
    chunk: Value,
) -> Result<Value, AllocError>
    ensures { IfOk result (λ v. ObjectRelated (OwnPacked frame) (data_of chunk) (data_of v)) }
{
    match chunk {
        Value::Object(mut members) => {
            pack_data(alloc, frame, olds, &mut members)?;
            Ok(Value::Object(members))
        }
        other => Ok(other),
    }
}

fn chunks_packed(
    alloc: Global,
    frame: Frame,
    olds: Option<&Map<String, Value>>,
    chunks: Vec<Value>,
) -> Result<Vec<Value>, AllocError>
    ensures { IfOk result (λ v. ItemsRelated (ObjectRelated (OwnPacked frame)) (items_view chunks.items) (items_view v.items)) }
{
    let mut all = Vec::with_capacity(alloc, chunks.len())?;
    for chunk in chunks {
        let old = chunk_at(olds, all.len());
        all.push(chunk_packed(alloc, frame, old, chunk)?)?;
    }
    Ok(all)
}

fn array_packed(
    alloc: Global,
    frame: Frame,
    olds: Option<&Map<String, Value>>,
    chunks: Value,
) -> Result<Value, AllocError>
    ensures { IfOk result (λ v. ArrayRelated (ObjectRelated (OwnPacked frame)) (data_of chunks) (data_of v)) }
{
    match chunks {
        Value::Array(items) => Ok(Value::Array(chunks_packed(alloc, frame, olds, items)?)),
        other => Ok(other),
    }
}

fn pack_chunks(
    alloc: Global,
    frame: Frame,
    olds: Option<&Map<String, Value>>,
    members: &mut Map<String, Value>,
) -> Result<(), AllocError>
    ensures { OnOk result (ChunksPacked frame (members_view members.old.entries) (members_view members.new.entries)) }
{
    match take(members, "chunks") {
        Some(chunks) => {
            let chunks = array_packed(alloc, frame, olds, chunks)?;
            serde_json::put(members, alloc, "chunks", chunks)?;
            Ok(())
        }
        None => Ok(()),
    }
}

// A layer of the source, if it is packed in the same way.
fn packed_alike(frame: Frame, olds: Option<&Map<String, Value>>) -> Option<&Map<String, Value>> {
    match olds {
        Some(olds) if frame_of(olds) == Some(frame) => Some(olds),
        _ => None,
    }
}

fn pack_layer(
    alloc: Global,
    olds: Option<&Map<String, Value>>,
    members: &mut Map<String, Value>,
) -> Result<(), AllocError>
    ensures { OnOk result (LayerPacked (frame_at note_name (members_view members.old.entries)) (members_view members.old.entries) (members_view members.new.entries)) }
{
    let Some(frame) = frame_at(members, NOTE) else {
        return Ok(());
    };
    let alike = packed_alike(frame, olds);
    pack_data(alloc, frame, alike, members)?;
    pack_chunks(alloc, frame, alike, members)?;
    rename(alloc, members, NOTE, COMPRESSION)?;
    Ok(())
}

// The layers of a map, a group or a layer, and then its own data.
#[cycle(packing)]
fn pack_tiers(
    tiers: u8,
    alloc: Global,
    olds: Option<&Map<String, Value>>,
    members: &mut Map<String, Value>,
) -> Result<(), AllocError>
    ensures { OnOk result (LayersPacked tiers (members_view members.old.entries) (members_view members.new.entries)) }
{
    if tiers == 0 {
        return Ok(());
    }
    pack_below(tiers - 1, alloc, olds, members)?;
    pack_layer(alloc, olds, members)?;
    Ok(())
}

#[cycle(packing)]
fn pack_below(
    tiers: u8,
    alloc: Global,
    olds: Option<&Map<String, Value>>,
    members: &mut Map<String, Value>,
) -> Result<(), AllocError>
    ensures { OnOk result (MemberRelated (codes "layers") (ArrayRelated (ItemPacked tiers)) (members_view members.old.entries) (members_view members.new.entries)) }
{
    match take(members, "layers") {
        Some(layers) => {
            let layers = layers_packed(tiers, alloc, olds, layers)?;
            serde_json::put(members, alloc, "layers", layers)?;
            Ok(())
        }
        None => Ok(()),
    }
}

#[cycle(packing)]
fn layers_packed(
    tiers: u8,
    alloc: Global,
    olds: Option<&Map<String, Value>>,
    layers: Value,
) -> Result<Value, AllocError>
    ensures { IfOk result (λ v. ArrayRelated (ItemPacked tiers) (data_of layers) (data_of v)) }
{
    match layers {
        Value::Array(items) => Ok(Value::Array(items_packed(tiers, alloc, olds, items)?)),
        other => Ok(other),
    }
}

#[cycle(packing)]
fn items_packed(
    tiers: u8,
    alloc: Global,
    olds: Option<&Map<String, Value>>,
    items: Vec<Value>,
) -> Result<Vec<Value>, AllocError>
    ensures { IfOk result (λ v. ItemsRelated (ItemPacked tiers) (items_view items.items) (items_view v.items)) }
{
    let mut all = Vec::with_capacity(alloc, items.len())?;
    for item in items {
        all.push(item_packed(tiers, alloc, olds, item)?)?;
    }
    Ok(all)
}

#[cycle(packing)]
fn item_packed(
    tiers: u8,
    alloc: Global,
    olds: Option<&Map<String, Value>>,
    layer: Value,
) -> Result<Value, AllocError>
    ensures { IfOk result (λ v. ItemPacked tiers (data_of layer) (data_of v)) }
{
    match layer {
        Value::Object(mut members) => {
            let old = layer_like(olds, &members);
            pack_tiers(tiers, alloc, old, &mut members)?;
            Ok(Value::Object(members))
        }
        other => Ok(other),
    }
}

// The map with its layers packed, where they note how; layers of the source are at hand.
fn packed_anew(alloc: Global, source: Option<&Value>, map: Value) -> Result<Value, AllocError>
    ensures { IfOk result (λ p. ItemPacked 17 (data_of map) (data_of p)) }
{
    let olds = match source {
        Some(source) => source.as_object(),
        None => None,
    };
    match map {
        Value::Object(mut members) => {
            pack_tiers(TIERS, alloc, olds, &mut members)?;
            Ok(Value::Object(members))
        }
        other => Ok(other),
    }
}

// The source, if it unpacks to the map.
fn source_of(
    alloc: Global,
    source: Option<&Value>,
    map: &Value,
) -> Result<Option<Value>, AllocError>
    ensures same { IfOk result (λ found. IfSome found (λ p. (option_map (λ s. data_of s.now) source.entry ≡ Some (data_of p))
        × (unpacked_layers (data_of p) ≡ data_of map.now))) }
    ensures kept { IfOk result (λ found. IsFound (option_map (λ s. data_of s.now) source.entry) (data_of map.now) (option_map data_of found)) }
    ensures within { IfOk result (λ found. IfSome found (λ p. depth (data_of p) ≤ max_depth)) }
{
    let Some(source) = source else {
        return Ok(None);
    };
    if packed_cells(source) > MOST_PACKED || !is_within(MAX_DEPTH, source) {
        return Ok(None);
    }
    let plain = unpacked(alloc, source.clone()?)?;
    if !is_same(&plain, map) {
        return Ok(None);
    }
    drop(plain);
    Ok(Some(source.clone()?))
}

/// The map with those layers packed that note how they were. Where the source unpacks to the map it is the source. Else where the
/// cells of a layer are as the source's, they have its text. It is the map itself if no layer notes anything.
pub fn packed(alloc: Global, source: Option<&Value>, map: Value) -> Result<Value, AllocError>
    ensures packed { IfOk result (λ p. IsPackedAs (option_map (λ s. data_of s.now) source.entry) (data_of map) (data_of p)) }
    ensures kept { IfOk result (λ p. IsKept (option_map (λ s. data_of s.now) source.entry) (data_of map) (data_of p)) }
    ensures within { IfOk result (λ p. depth (data_of map) ≤ max_depth → depth (data_of p) ≤ max_depth) }
{
    if !has_name(NOTE, &map) {
        return Ok(map);
    }
    match source_of(alloc, source, &map)? {
        Some(same) => Ok(same),
        None => {
            let anew = packed_anew(alloc, source, map)?;
            Ok(anew)
        }
    }
}
