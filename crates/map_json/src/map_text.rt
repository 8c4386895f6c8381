// The text of a map, or of its outline. It goes out a member and a layer at a time, so that no more than one layer's tree
// stands in memory. Of a group that tree is its members but its layers.
ghost use Rattle.std.specs.Prelude.{◌≡◌, ◌++◌, ◌*◌, ◌∷◌, [], ◌≤◌, false, Ok, IfOk, OnOk};
ghost use Rattle.json.specs.Print.{quoted};
ghost use Rattle.serde_json.specs.Data.{object, depth, members_depth};
ghost use Rattle.serde_json.specs.Read.{max_depth};
ghost use Rattle.serde_json.specs.View.{view as data_of};
ghost use Rattle.serde_json.specs.Written.{comma_if, has_float, members_have_float};
ghost use Rattle.map_model.specs.declared.names.TheConstants.{DATA, LAYERS};
ghost use Rattle.map_model.specs.Lists.{Each};
ghost use Rattle.map_model.specs.WellFormed.{IsTileValue, IsWellFormed};
ghost use Rattle.map_values.specs.Texts.{Appends};
ghost use Rattle.map_json.specs.Appending.{AreWritten, instead, replaced};
ghost use Rattle.map_json.specs.Details.{layer_in, layers_in, map_in};
ghost use Rattle.map_json.specs.Maps.{IsTreeOf, map_of};
ghost use Rattle.map_json.specs.Outlines.{outline_text};
ghost use Rattle.map_json.specs.RoundTrip.{SavedIsOpened, WrittenIsRead};
ghost use Rattle.map_values.specs.Arrays.{array_by, whole_tree};
ghost use Rattle.map_json.specs.Trees.{text_of, tree_of};

use crate::detail::{Detail, Writing};
use crate::size::Size;
use crate::writing::{frame_in, frame_of, numbers_in, text_tree, values_room};
use link_chain::Chain;
use map_model::limits::MAX_GROUPS;
use map_model::{Layer, Map, names};
use map_values::{JsonObject, push_numbers};
use serde_json::Value;
use std::alloc::{AllocError, Global};
use tile_id::Gid;

// About the bytes of a layer's members but its values, and of a map's but its layers.
const LAYER_ROOM: usize = 256;

const MAP_ROOM: usize = 1024;

// Puts the text of a value behind what is there.
fn push_value(alloc: Global, text: &mut Vec<u8>, value: &Value) -> Result<(), AllocError>
    requires whole { has_float (data_of value.now) ≡ false }
    requires shallow { depth (data_of value.now) ≤ max_depth }
    ensures { OnOk result (Appends (data_of value.now) text.old.items text.new.items) }
{
    let piece = value.to_vec(alloc)?;
    text.extend_from_slice(&piece)?;
    Ok(())
}

// Puts a comma, where something stands before.
fn push_comma(text: &mut Vec<u8>, later: bool) -> Result<(), AllocError>
    ensures { OnOk result (text.new.items ≡ text.old.items ++ comma_if later) }
{
    if later {
        text.push(b',')?;
    }
    Ok(())
}

// Puts a member's name, and what stands around it.
fn push_name(alloc: Global, text: &mut Vec<u8>, later: bool, name: &str) -> Result<(), AllocError>
    ensures { OnOk result (text.new.items ≡ text.old.items ++ (comma_if later ++ (quoted name.now ++ 58 ∷ []))) }
{
    push_comma(text, later)?;
    push_value(alloc, text, &text_tree(alloc, name)?)?;
    text.push(b':')?;
    Ok(())
}

// Puts the value of a tile layer's member: the numbers, or what stands there.
fn push_numbered_member(
    alloc: Global,
    text: &mut Vec<u8>,
    numbers: &[Gid],
    name: &str,
    value: &Value,
) -> Result<(), AllocError>
    requires numbers { Each IsTileValue numbers.now }
    requires whole { has_float (data_of value.now) ≡ false }
    requires shallow { depth (data_of value.now) ≤ max_depth }
    ensures { OnOk result (Appends (instead DATA.now (array_by whole_tree numbers.now) name.now (data_of value.now))
        text.old.items text.new.items) }
{
    if name == names::DATA {
        return push_numbers(text, numbers);
    }
    push_value(alloc, text, value)
}

// Puts the object of a tile layer: the members of its frame, and its numbers in the place of its values.
fn push_numbered(
    alloc: Global,
    text: &mut Vec<u8>,
    numbers: &[Gid],
    frame: &JsonObject,
) -> Result<(), AllocError>
    requires numbers { Each IsTileValue numbers.now }
    requires whole { members_have_float frame.now ≡ false }
    requires shallow { members_depth frame.now ≤ max_depth }
    ensures { OnOk result (Appends (object (replaced DATA.now (array_by whole_tree numbers.now) frame.now))
        text.old.items text.new.items) }
{
    text.push(b'{')?;
    let mut later = false;
    for (name, value) in frame.members().iter() {
        push_name(alloc, text, later, name.as_str())?;
        push_numbered_member(alloc, text, numbers, name.as_str(), value)?;
        later = true;
    }
    text.push(b'}')?;
    Ok(())
}

// Puts the array of layers, in which layers may stand in so many groups.
#[cycle(pushes)]
fn push_layers(
    alloc: Global,
    text: &mut Vec<u8>,
    writing: Writing,
    groups: usize,
    layers: &Chain<Layer>,
) -> Result<(), AllocError>
    requires { AreWritten groups (writing.size.width * writing.size.height) layers.now }
    ensures { OnOk result (Appends (layers_in writing.detail groups writing.size.width writing.size.height layers.now) text.old.items text.new.items) }
{
    text.push(b'[')?;
    let mut later = false;
    for layer in layers.iter() {
        push_comma(text, later)?;
        push_layer(alloc, text, writing, groups, layer)?;
        later = true;
    }
    text.push(b']')?;
    Ok(())
}

// Puts a layer: as a whole, or a group's members with its layers in their place.
#[cycle(pushes)]
fn push_layer(
    alloc: Global,
    text: &mut Vec<u8>,
    writing: Writing,
    groups: usize,
    layer: &Layer,
) -> Result<(), AllocError>
    requires { AreWritten groups (writing.size.width * writing.size.height) (layer.now ∷ []) }
    ensures { OnOk result (Appends (layer_in writing.detail groups writing.size.width writing.size.height layer.now) text.old.items text.new.items) }
{
    let frame = frame_in(alloc, writing, layer)?;
    if groups > 0 {
        if let Some(inside) = layer.body.layers() {
            return push_framed(alloc, text, writing, groups - 1, inside, &frame);
        }
    }
    if let Some(numbers) = numbers_in(writing.detail, &layer.body) {
        return push_numbered(alloc, text, numbers, &frame);
    }
    push_value(alloc, text, &frame.into_value())
}

// Puts the value of a member: the layers, or what stands there.
#[cycle(pushes)]
fn push_member(
    alloc: Global,
    text: &mut Vec<u8>,
    writing: Writing,
    groups: usize,
    layers: &Chain<Layer>,
    name: &str,
    value: &Value,
) -> Result<(), AllocError>
    requires layers { AreWritten groups (writing.size.width * writing.size.height) layers.now }
    requires whole { has_float (data_of value.now) ≡ false }
    requires shallow { depth (data_of value.now) ≤ max_depth }
    ensures { OnOk result (Appends (instead LAYERS.now (layers_in writing.detail groups writing.size.width writing.size.height layers.now) name.now (data_of value.now))
        text.old.items text.new.items) }
{
    if name == names::LAYERS {
        return push_layers(alloc, text, writing, groups, layers);
    }
    push_value(alloc, text, value)
}

// Puts the object of a map or a group: the members of its frame, and its layers in their place.
#[cycle(pushes)]
fn push_framed(
    alloc: Global,
    text: &mut Vec<u8>,
    writing: Writing,
    groups: usize,
    layers: &Chain<Layer>,
    frame: &JsonObject,
) -> Result<(), AllocError>
    requires layers { AreWritten groups (writing.size.width * writing.size.height) layers.now }
    requires whole { members_have_float frame.now ≡ false }
    requires shallow { members_depth frame.now ≤ max_depth }
    ensures { OnOk result (Appends (object (replaced LAYERS.now (layers_in writing.detail groups writing.size.width writing.size.height layers.now) frame.now))
        text.old.items text.new.items) }
{
    text.push(b'{')?;
    let mut later = false;
    for (name, value) in frame.members().iter() {
        push_name(alloc, text, later, name.as_str())?;
        push_member(alloc, text, writing, groups, layers, name.as_str(), value)?;
        later = true;
    }
    text.push(b'}')?;
    Ok(())
}

// About the bytes that the text of layers takes, in which layers may stand in so many groups.
fn layers_room(detail: Detail, groups: usize, layers: &Chain<Layer>) -> usize {
    let mut bytes: usize = 0;
    for layer in layers.iter() {
        bytes = bytes.saturating_add(LAYER_ROOM);
        bytes = bytes.saturating_add(values_room(detail, &layer.body));
        if let Some(inside) = layer.body.layers() {
            if groups > 0 {
                bytes = bytes.saturating_add(layers_room(detail, groups - 1, inside));
            }
        }
    }
    bytes
}

// The text of a map in this detail. Its room is taken at once, since a text that grows is copied.
fn write_in(alloc: Global, map: &Map, detail: Detail) -> Result<Vec<u8>, AllocError>
    ensures text { IfOk result (λ bytes. Appends (map_in detail map.now) [] bytes.items) }
    ensures well_formed { IsWellFormed map.now }
{
    let parts = map.parts();
    let frame = frame_of(alloc, parts)?;
    let groups = layers_room(detail, MAX_GROUPS, &parts.layers).saturating_add(MAP_ROOM);
    let mut text = Vec::with_capacity(alloc, groups)?;
    let size = Size::of_map(parts);
    let writing = Writing { size, detail };
    push_framed(alloc, &mut text, writing, MAX_GROUPS, &parts.layers, &frame)?;
    Ok(text)
}

/// The text of a map: compact JSON, with the members of each object in the order of their names.
pub fn write_map(alloc: Global, map: &Map) -> Result<Vec<u8>, AllocError>
    ensures text { IfOk result (λ bytes. bytes.items ≡ text_of map.now) }
    ensures read_back { IfOk result (λ bytes. IsTreeOf bytes.items (tree_of map.now)) }
    ensures read_again { map_of (tree_of map.now) ≡ Ok map.now }
{
    write_in(alloc, map, Detail::Whole)
}

/// The outline of a map: its text without the member `data` of tile layers. No cell is looked at.
pub fn write_outline(alloc: Global, map: &Map) -> Result<Vec<u8>, AllocError>
    ensures { IfOk result (λ bytes. bytes.items ≡ outline_text map.now) }
{
    write_in(alloc, map, Detail::Outline)
}

/// What was written is read: bytes that have the tree of a map give that map, unless memory runs out.
pub fn written_is_read(map: &Map)
    ensures { WrittenIsRead map.now }
{
    let _parts = map.parts();
}

/// What is saved, then opened, is the same map: its text has its tree, and gives that map, unless memory runs out.
pub fn saved_is_opened(map: &Map)
    ensures tree { IsTreeOf (text_of map.now) (tree_of map.now) }
    ensures opened { SavedIsOpened map.now }
{
    let _parts = map.parts();
}
