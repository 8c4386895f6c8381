// A map as its source has it, in what the editor's format sets or leaves out: its version, empty compressions, and how layers are written.
ghost use Rattle.std.specs.Prelude.{◌≡◌, IfOk, OnOk, codes, option_map};
ghost use Rattle.serde_json.specs.View.{view as data_of, items_view, members_view};
ghost use Rattle.tiled_maps.specs.Sources.{is_map, id_of, layer_with, layer_among, layers_in, layer_like, or_else, has_text, object_with, member_with, array_with, items_with};
ghost use Rattle.tiled_maps.specs.Alike.{lacks_compression, compression_by, layers_like, layer_as, is_small, first_if, with_version, members_like, as_in};

use crate::formats::{first_tiles, write_as};
use crate::packed_layers::tile_cells;
use json_members::{found, remove, take};
use serde_json::{Map, Value};
use std::alloc::{AllocError, Global};

/// How deep groups are looked into.
pub const TIERS: u8 = 17;

/// The most cells of a map's tile layers with which new ones become base64.
const MOST_ENCODED: u64 = 8_388_608;

/// Whether a tree is that of a map: an object with layers.
pub fn is_map(value: &Value) -> bool
    ensures { result ≡ is_map (data_of value.now) }
{
    match value.get("layers") {
        Some(layers) => layers.is_array(),
        None => false,
    }
}

fn id_of(members: &Map<String, Value>) -> Option<u64>
    ensures { result ≡ id_of (members_view members.now.entries) }
{
    match found(members, "id") {
        Some(id) => id.as_u64(),
        None => None,
    }
}

// The members of a layer, if it has this id.
fn layer_with(id: u64, layer: &Value) -> Option<&Map<String, Value>>
    ensures { option_map (λ m. members_view m.now.entries) result ≡ layer_with id (data_of layer.now) }
{
    match layer {
        Value::Object(members) => match id_of(members) {
            Some(own) if own == id => Some(members),
            _ => None,
        },
        _ => None,
    }
}

// Those of the first layer that has it.
fn layer_among(id: u64, layers: &Vec<Value>) -> Option<&Map<String, Value>>
    ensures { option_map (λ m. members_view m.now.entries) result ≡ layer_among id (items_view layers.now.items) }
{
    for layer in layers {
        if let Some(members) = layer_with(id, layer) {
            return Some(members);
        }
    }
    None
}

/// The layers of a map or a group.
pub fn layers_in(members: &Map<String, Value>) -> Option<&Vec<Value>>
    ensures { option_map (λ v. items_view v.now.items) result ≡ layers_in (members_view members.now.entries) }
{
    match found(members, "layers") {
        Some(layers) => layers.as_array(),
        None => None,
    }
}

/// The layer with the id of another, in a map or a group of the source.
pub fn layer_like<'a>(
    olds: Option<&'a Map<String, Value>>,
    members: &Map<String, Value>,
) -> Option<&'a Map<String, Value>>
    ensures { option_map (λ m. members_view m.now.entries) result
        ≡ layer_like (option_map (λ m. members_view m.now.entries) olds.entry) (members_view members.now.entries) }
{
    let Some(id) = id_of(members) else {
        return None;
    };
    let Some(olds) = olds else {
        return None;
    };
    match layers_in(olds) {
        Some(layers) => layer_among(id, layers),
        None => None,
    }
}

/// Whether a member is this text.
pub fn has_text(members: &Map<String, Value>, name: &str, text: &str) -> bool
    ensures { result ≡ has_text name.now text.now (members_view members.now.entries) }
{
    match found(members, name) {
        Some(value) => match value.as_str() {
            Some(own) => own == text,
            None => false,
        },
        None => false,
    }
}

// Whether a layer of the source has an empty compression, and this one none, though its data are base64.
fn lacks_compression(olds: &Map<String, Value>, members: &Map<String, Value>) -> bool
    ensures { result ≡ lacks_compression (members_view olds.now.entries) (members_view members.now.entries) }
{
    has_text(olds, "compression", "")
        && has_text(members, "encoding", "base64")
        && found(members, "compression").is_none()
}

fn put_compression(
    alloc: Global,
    olds: Option<&Map<String, Value>>,
    members: &mut Map<String, Value>,
) -> Result<(), AllocError>
    ensures { OnOk result (members_view members.new.entries
        ≡ compression_by (option_map (λ m. members_view m.now.entries) olds.entry) (members_view members.old.entries)) }
{
    match olds {
        Some(olds) if lacks_compression(olds, members) => {
            let empty = Value::String(String::new(alloc));
            serde_json::put(members, alloc, "compression", empty)
        }
        _ => Ok(()),
    }
}

// The layer of the source with the id of another or, if there is none, the first one.
fn or_first<'a>(
    olds: Option<&'a Map<String, Value>>,
    first: Option<&'a Map<String, Value>>,
) -> Option<&'a Map<String, Value>>
    ensures { option_map (λ m. members_view m.now.entries) result
        ≡ or_else (option_map (λ m. members_view m.now.entries) olds.entry) (option_map (λ m. members_view m.now.entries) first.entry) }
{
    match olds {
        Some(olds) => Some(olds),
        None => first,
    }
}

// Writes a map, a group or a layer, and its layers, as the source does: with its empty compressions, and arrays in its format.
#[cycle(tiers)]
#[tactic(auto, unfolding(crate::specs::Alike::layers_like))]
fn put_likeness(
    tiers: u8,
    alloc: Global,
    first: Option<&Map<String, Value>>,
    olds: Option<&Map<String, Value>>,
    members: &mut Map<String, Value>,
) -> Result<(), AllocError>
    ensures { OnOk result (members_view members.new.entries
        ≡ layers_like tiers (option_map (λ m. members_view m.now.entries) first.entry) (option_map (λ m. members_view m.now.entries) olds.entry) (members_view members.old.entries)) }
{
    if tiers == 0 {
        return Ok(());
    }
    put_layers(tiers - 1, alloc, first, olds, members)?;
    put_compression(alloc, olds, members)?;
    write_as(alloc, or_first(olds, first), members)?;
    Ok(())
}

// The same of the layers of a map or a group.
#[cycle(tiers)]
fn put_layers(
    tiers: u8,
    alloc: Global,
    first: Option<&Map<String, Value>>,
    olds: Option<&Map<String, Value>>,
    members: &mut Map<String, Value>,
) -> Result<(), AllocError>
    ensures { OnOk result (members_view members.new.entries ≡ member_with (codes "layers")
        (array_with (layer_as tiers (option_map (λ m. members_view m.now.entries) first.entry) (option_map (λ m. members_view m.now.entries) olds.entry))) (members_view members.old.entries)) }
{
    match take(members, "layers") {
        Some(layers) => {
            let layers = array_like(tiers, alloc, first, olds, layers)?;
            serde_json::put(members, alloc, "layers", layers)
        }
        None => Ok(()),
    }
}

#[cycle(tiers)]
fn array_like(
    tiers: u8,
    alloc: Global,
    first: Option<&Map<String, Value>>,
    olds: Option<&Map<String, Value>>,
    layers: Value,
) -> Result<Value, AllocError>
    ensures { IfOk result (λ v. data_of v
        ≡ array_with (layer_as tiers (option_map (λ m. members_view m.now.entries) first.entry) (option_map (λ m. members_view m.now.entries) olds.entry)) (data_of layers)) }
{
    match layers {
        Value::Array(items) => Ok(Value::Array(items_like(tiers, alloc, first, olds, items)?)),
        other => Ok(other),
    }
}

#[cycle(tiers)]
fn items_like(
    tiers: u8,
    alloc: Global,
    first: Option<&Map<String, Value>>,
    olds: Option<&Map<String, Value>>,
    items: Vec<Value>,
) -> Result<Vec<Value>, AllocError>
    ensures { IfOk result (λ v. items_view v.items
        ≡ items_with (layer_as tiers (option_map (λ m. members_view m.now.entries) first.entry) (option_map (λ m. members_view m.now.entries) olds.entry)) (items_view items.items)) }
{
    let mut all = Vec::with_capacity(alloc, items.len())?;
    for item in items {
        all.push(layer_as(tiers, alloc, first, olds, item)?)?;
    }
    Ok(all)
}

#[cycle(tiers)]
fn layer_as(
    tiers: u8,
    alloc: Global,
    first: Option<&Map<String, Value>>,
    olds: Option<&Map<String, Value>>,
    layer: Value,
) -> Result<Value, AllocError>
    ensures { IfOk result (λ v. data_of v ≡ layer_as tiers (option_map (λ m. members_view m.now.entries) first.entry) (option_map (λ m. members_view m.now.entries) olds.entry) (data_of layer)) }
{
    match layer {
        Value::Object(mut members) => {
            let old = layer_like(olds, &members);
            put_likeness(tiers, alloc, first, old, &mut members)?;
            Ok(Value::Object(members))
        }
        other => Ok(other),
    }
}

// Puts the version that the source has; none, if it has none.
fn put_version(
    alloc: Global,
    source: &Value,
    members: &mut Map<String, Value>,
) -> Result<(), AllocError>
    ensures { OnOk result (members_view members.new.entries
        ≡ with_version (data_of source.now) (members_view members.old.entries)) }
{
    remove(members, "version");
    match source.get("version") {
        Some(version) => serde_json::put(members, alloc, "version", version.clone()?),
        None => Ok(()),
    }
}

fn is_small(map: &Value) -> bool
    ensures { result ≡ is_small (data_of map.now) }
{
    tile_cells(map) <= MOST_ENCODED
}

// The tile layer of the source as which new ones are written, the first, if they are.
fn first_if(small: bool, source: &Value) -> Option<&Map<String, Value>>
    ensures { option_map (λ m. members_view m.now.entries) result ≡ first_if small (data_of source.now) }
{
    if !small {
        return None;
    }
    match source.as_object() {
        Some(members) => first_tiles(TIERS, members),
        None => None,
    }
}

// Writes the members of a map as the source has them.
fn put_all(
    small: bool,
    alloc: Global,
    source: &Value,
    members: &mut Map<String, Value>,
) -> Result<(), AllocError>
    ensures { OnOk result (members_view members.new.entries ≡ members_like small (data_of source.now) (members_view members.old.entries)) }
{
    let first = first_if(small, source);
    put_likeness(TIERS, alloc, first, source.as_object(), members)?;
    put_version(alloc, source, members)?;
    Ok(())
}

fn map_like(small: bool, alloc: Global, source: &Value, map: Value) -> Result<Value, AllocError>
    ensures { IfOk result (λ v. data_of v ≡ object_with (members_like small (data_of source.now)) (data_of map)) }
{
    match map {
        Value::Object(mut members) => {
            put_all(small, alloc, source, &mut members)?;
            Ok(Value::Object(members))
        }
        other => Ok(other),
    }
}

/// The map as its source has it: with its version, its empty compressions, and its layers written as they are there, new ones as the
/// first tile layer is. Without a source it stays as it is.
pub fn as_in(alloc: Global, source: Option<&Value>, map: Value) -> Result<Value, AllocError>
    ensures { IfOk result (λ v. data_of v ≡ as_in (option_map (λ s. data_of s.now) source.entry) (data_of map)) }
{
    let Some(source) = source else {
        return Ok(map);
    };
    let small = is_small(&map);
    map_like(small, alloc, source, map)
}
