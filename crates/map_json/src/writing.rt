// What is written for each part of a map, as a tree.
ghost use Rattle.std.specs.Prelude.{◌≡◌, ◌++◌, IfOk, OnOk};
ghost use Rattle.std.specs.Option.{option_map};
ghost use Rattle.serde_json.specs.Data.{Data, array, boolean, no_items, number, string};
ghost use Rattle.serde_json.specs.View.{view as data_of};
ghost use Rattle.serde_json.specs.Find.{of_integer};
ghost use Rattle.map_json.specs.Members.{with_own};
ghost use Rattle.map_model.specs.declared.parts.Body.TheVariants.{Tiles};
ghost use Rattle.map_values.specs.Arrays.{array_by, whole_tree};
ghost use Rattle.map_json.specs.Trees.{common_own, plain_own, lists_own, said_own, value_tree, property_own, property_tree, properties_member, object_tree, tileset_tree, cells_tree, encoding_member, body_own, type_word};
ghost use Rattle.map_json.specs.Appending.{frame_of, framed_body, framed_cells, layer_frame};
ghost use Rattle.map_json.specs.Details.{frame_in, numbers_in, numbers_of, outline_frame, shape_own};

use crate::detail::{Detail, Writing};
use crate::size::Size;
use link_chain::Chain;
use link_tree::LinkTree;
use map_model::{
    Body, Encoding, Layer, MapParts, MapText, Object, PropValue, Property, Tileset, names,
};
use map_values::{JsonObject, base64_room, base64_tree, room_for};
use serde_json::Value;
use std::alloc::{AllocError, Global};
use tile_id::Gid;

/// What an array of a file has as its elements.
pub trait Tree {
    ghost use Rattle.map_json.specs.declared.size.Size.{Size};

    ghost tree: { Size → Self → Data };

    fn tree(&self, alloc: Global, size: Size) -> Result<Value, AllocError>
        ensures { IfOk result (λ value. data_of value ≡ tree size self.now) };
}

/// The array of these elements.
pub fn array_by<T: Tree + Drop>(
    alloc: Global,
    size: Size,
    elements: &Chain<T>,
) -> Result<Value, AllocError>
    ensures { IfOk result (λ value. data_of value ≡ array_by (T.tree size) elements.now) }
{
    let mut values = Vec::with_capacity(alloc, elements.len())?;
    for element in elements.iter() {
        values.push(element.tree(alloc, size)?)?;
    }
    Ok(Value::from(values))
}

pub fn text_tree(alloc: Global, text: &str) -> Result<Value, AllocError>
    ensures { IfOk result (λ value. data_of value ≡ string text.now) }
{
    Value::try_from_str(alloc, text)
}

fn value_tree(alloc: Global, value: &PropValue) -> Result<Value, AllocError>
    ensures { IfOk result (λ tree. data_of tree ≡ value_tree value.now) }
{
    match value {
        PropValue::Text(text) => Value::try_from_str(alloc, text.as_str()),
        PropValue::Whole(whole) => Ok(Value::from(*whole)),
        PropValue::Truth(truth) => Ok(Value::from(*truth)),
        PropValue::Other(other) => other.value().clone(),
    }
}

fn put_property(
    alloc: Global,
    property: &Property,
    members: &mut JsonObject,
) -> Result<(), AllocError>
    ensures { OnOk result (members.new ≡ with_own (property_own property.now) members.old) }
{
    members.put(alloc, names::VALUE, value_tree(alloc, &property.value)?)?;
    members.put(
        alloc,
        names::TYPE,
        text_tree(alloc, property.kind.as_str())?,
    )?;
    members.put(
        alloc,
        names::NAME,
        text_tree(alloc, property.name.as_str())?,
    )
}

impl Tree for Property {
    ghost tree = { λ _. property_tree };

    #[tactic(auto, unfolding(crate::specs::Trees::property_tree))]
    fn tree(&self, alloc: Global, _size: Size) -> Result<Value, AllocError> {
        let mut members = JsonObject::from_kept(alloc, &self.kept)?;
        put_property(alloc, self, &mut members)?;
        Ok(members.into_value())
    }
}

fn properties_member(
    alloc: Global,
    size: Size,
    properties: &Chain<Property>,
) -> Result<Option<Value>, AllocError>
    ensures { IfOk result (λ member. option_map data_of member ≡ properties_member properties.now) }
{
    if properties.len() == 0 {
        return Ok(None);
    }
    Ok(Some(array_by(alloc, size, properties)?))
}

pub fn optional_text_tree(
    alloc: Global,
    text: &Option<MapText>,
) -> Result<Option<Value>, AllocError>
    ensures { IfOk result (λ member. option_map data_of member ≡ option_map string text.now) }
{
    match text {
        Some(text) => Ok(Some(text_tree(alloc, text.as_str())?)),
        None => Ok(None),
    }
}

pub fn optional_pixels_tree(pixels: Option<i32>) -> Option<Value>
    ensures { option_map data_of result ≡ option_map (λ z. number (of_integer z)) pixels }
{
    match pixels {
        Some(pixels) => Some(Value::from(pixels)),
        None => None,
    }
}

pub fn optional_truth_tree(truth: Option<bool>) -> Option<Value>
    ensures { option_map data_of result ≡ option_map boolean truth }
{
    match truth {
        Some(truth) => Some(Value::from(truth)),
        None => None,
    }
}

pub fn optional_gid_tree(value: Option<Gid>) -> Option<Value>
    ensures { option_map data_of result ≡ option_map whole_tree value }
{
    match value {
        Some(gid) => Some(Value::from(gid.0)),
        None => None,
    }
}

impl Tree for Object {
    ghost tree = { λ _. object_tree };

    #[tactic(auto, unfolding(crate::specs::Trees::object_tree))]
    fn tree(&self, alloc: Global, size: Size) -> Result<Value, AllocError> {
        let mut members = JsonObject::from_kept(alloc, &self.kept)?;
        let properties = properties_member(alloc, size, &self.properties)?;
        members.put_some(alloc, names::PROPERTIES, properties)?;
        members.put_some(alloc, names::GID, optional_gid_tree(self.gid))?;
        members.put_some(alloc, names::VISIBLE, optional_truth_tree(self.visible))?;
        members.put_some(alloc, names::NAME, optional_text_tree(alloc, &self.name)?)?;
        members.put_some(
            alloc,
            names::HEIGHT,
            optional_pixels_tree(self.placing.height),
        )?;
        members.put_some(
            alloc,
            names::WIDTH,
            optional_pixels_tree(self.placing.width),
        )?;
        members.put_some(alloc, names::Y, optional_pixels_tree(self.placing.y))?;
        members.put_some(alloc, names::X, optional_pixels_tree(self.placing.x))?;
        members.put(alloc, names::ID, Value::from(self.id))?;
        Ok(members.into_value())
    }
}

impl Tree for Tileset {
    ghost tree = { λ _. tileset_tree };

    #[tactic(auto, unfolding(crate::specs::Trees::tileset_tree))]
    fn tree(&self, alloc: Global, _size: Size) -> Result<Value, AllocError> {
        let mut members = JsonObject::from_kept(alloc, &self.kept)?;
        members.put_some(
            alloc,
            names::SOURCE,
            optional_text_tree(alloc, &self.source)?,
        )?;
        members.put(alloc, names::FIRST_ID, Value::from(self.first_id))?;
        Ok(members.into_value())
    }
}

// The values of a tile layer, with an empty array for numbers.
fn cells_tree(alloc: Global, encoding: Encoding, cells: &[Gid]) -> Result<Value, AllocError>
    ensures { IfOk result (λ value. data_of value ≡ cells_tree encoding (framed_cells encoding cells.now)) }
{
    match encoding {
        Encoding::Array => Ok(Value::from(Vec::new(alloc))),
        Encoding::Base64 => base64_tree(alloc, cells),
    }
}

fn encoding_member(alloc: Global, encoding: Encoding) -> Result<Option<Value>, AllocError>
    ensures { IfOk result (λ member. option_map data_of member ≡ encoding_member encoding) }
{
    match encoding {
        Encoding::Array => Ok(None),
        Encoding::Base64 => Ok(Some(text_tree(alloc, "base64")?)),
    }
}

// Puts the members of a tile layer but its values.
fn put_shape(
    alloc: Global,
    size: Size,
    encoding: Encoding,
    members: &mut JsonObject,
) -> Result<(), AllocError>
    ensures { OnOk result
        (members.new ≡ with_own (shape_own size.width size.height encoding) members.old) }
{
    members.put(alloc, names::HEIGHT, Value::from(size.height))?;
    members.put(alloc, names::WIDTH, Value::from(size.width))?;
    let encoding = encoding_member(alloc, encoding)?;
    members.put_some(alloc, names::ENCODING, encoding)
}

// Puts the members of a tile layer, with an empty array for numbers.
fn put_tiles(
    alloc: Global,
    size: Size,
    encoding: Encoding,
    cells: &[Gid],
    members: &mut JsonObject,
) -> Result<(), AllocError>
    ensures { OnOk result
        (members.new ≡ with_own (body_own size.width size.height (array no_items) (Tiles encoding (framed_cells encoding cells.now))) members.old) }
{
    let data = cells_tree(alloc, encoding, cells)?;
    members.put(alloc, names::DATA, data)?;
    put_shape(alloc, size, encoding, members)
}

fn array_of_objects(
    alloc: Global,
    size: Size,
    objects: &LinkTree<Object>,
) -> Result<Value, AllocError>
    ensures { IfOk result (λ value. data_of value ≡ array_by object_tree objects.now) }
{
    let mut values = Vec::with_capacity(alloc, objects.len())?;
    for object in objects.iter() {
        values.push(object.tree(alloc, size)?)?;
    }
    Ok(Value::from(values))
}

// Puts the members of a layer's kind, with an empty array for numbers and for the layers of a group.
fn put_body(
    alloc: Global,
    size: Size,
    body: &Body,
    members: &mut JsonObject,
) -> Result<(), AllocError>
    ensures { OnOk result
        (members.new ≡ with_own (body_own size.width size.height (array no_items) (framed_body body.now)) members.old) }
{
    match body {
        Body::Tiles(encoding, cells) => {
            put_tiles(alloc, size, *encoding, cells.as_slice(), members)
        }
        Body::Objects(objects) => members.put(
            alloc,
            names::OBJECTS,
            array_of_objects(alloc, size, objects)?,
        ),
        Body::Other => Ok(()),
        Body::Group(_) => members.put(alloc, names::LAYERS, Value::from(Vec::new(alloc))),
    }
}

fn type_word(body: &Body) -> &'static str
    ensures { result.now ≡ type_word body.now }
{
    match body {
        Body::Tiles(_, _) => "tilelayer",
        Body::Objects(_) => "objectgroup",
        Body::Other => "imagelayer",
        Body::Group(_) => "group",
    }
}

// Puts the members that a layer of any kind has.
fn put_common(
    alloc: Global,
    size: Size,
    layer: &Layer,
    members: &mut JsonObject,
) -> Result<(), AllocError>
    ensures { OnOk result (members.new ≡ with_own (common_own layer.now) members.old) }
{
    let properties = properties_member(alloc, size, &layer.properties)?;
    members.put_some(alloc, names::PROPERTIES, properties)?;
    members.put(alloc, names::VISIBLE, Value::from(layer.visible))?;
    members.put(alloc, names::NAME, text_tree(alloc, layer.name.as_str())?)?;
    members.put(alloc, names::ID, Value::from(layer.id))?;
    members.put(
        alloc,
        names::TYPE,
        text_tree(alloc, type_word(&layer.body))?,
    )
}

// The members of a layer, with an empty array for numbers and for the layers of a group.
fn layer_frame(alloc: Global, size: Size, layer: &Layer) -> Result<JsonObject, AllocError>
    ensures { IfOk result (λ frame. frame ≡ layer_frame size.width size.height layer.now) }
{
    let mut members = JsonObject::from_kept(alloc, &layer.kept)?;
    put_body(alloc, size, &layer.body, &mut members)?;
    put_common(alloc, size, layer, &mut members)?;
    Ok(members)
}

// The members of a tile layer but its values.
fn tiles_outline(
    alloc: Global,
    size: Size,
    encoding: Encoding,
    layer: &Layer,
) -> Result<JsonObject, AllocError>
    ensures { IfOk result (λ frame.
        frame ≡ with_own (common_own layer.now ++ shape_own size.width size.height encoding) layer.now.kept) }
{
    let mut members = JsonObject::from_kept(alloc, &layer.kept)?;
    put_shape(alloc, size, encoding, &mut members)?;
    put_common(alloc, size, layer, &mut members)?;
    Ok(members)
}

// The members of a layer but the values of its cells, with an empty array for the layers of a group.
fn outline_frame(alloc: Global, size: Size, layer: &Layer) -> Result<JsonObject, AllocError>
    ensures { IfOk result (λ frame. frame ≡ outline_frame size.width size.height layer.now) }
{
    match &layer.body {
        Body::Tiles(encoding, _) => tiles_outline(alloc, size, *encoding, layer),
        Body::Objects(_) => layer_frame(alloc, size, layer),
        Body::Other => layer_frame(alloc, size, layer),
        Body::Group(_) => layer_frame(alloc, size, layer),
    }
}

/// The members of a layer but those of its kind: its cells, its objects or its layers, and what tells how they are written.
pub fn layer_head(alloc: Global, size: Size, layer: &Layer) -> Result<JsonObject, AllocError>
    ensures { IfOk result (λ frame. frame ≡ with_own (common_own layer.now) layer.now.kept) }
{
    let mut members = JsonObject::from_kept(alloc, &layer.kept)?;
    put_common(alloc, size, layer, &mut members)?;
    Ok(members)
}

/// The members of a layer, as far as they are written, with an empty array for numbers and for the layers of a group.
pub fn frame_in(alloc: Global, writing: Writing, layer: &Layer) -> Result<JsonObject, AllocError>
    ensures { IfOk result (λ frame.
        frame ≡ frame_in writing.detail writing.size.width writing.size.height layer.now) }
{
    match writing.detail {
        Detail::Whole => layer_frame(alloc, writing.size, layer),
        Detail::Outline => outline_frame(alloc, writing.size, layer),
    }
}

// The numbers that a layer's values are.
fn numbers_of(body: &Body) -> Option<&[Gid]>
    ensures { option_map (λ numbers. numbers.now) result ≡ numbers_of body.now }
{
    match body {
        Body::Tiles(Encoding::Array, cells) => Some(cells.as_slice()),
        Body::Tiles(Encoding::Base64, _) => None,
        Body::Objects(_) => None,
        Body::Other => None,
        Body::Group(_) => None,
    }
}

/// The numbers that a layer's values are, where they are written.
pub fn numbers_in(detail: Detail, body: &Body) -> Option<&[Gid]>
    ensures { option_map (λ numbers. numbers.now) result ≡ numbers_in detail body.now }
{
    match detail {
        Detail::Whole => numbers_of(body),
        Detail::Outline => None,
    }
}

/// About the bytes that a layer's values take, where they are written.
pub fn values_room(detail: Detail, body: &Body) -> usize {
    if let Some(numbers) = numbers_in(detail, body) {
        return room_for(numbers);
    }
    match (detail, body) {
        (Detail::Whole, Body::Tiles(Encoding::Base64, cells)) => base64_room(cells.as_slice()),
        _ => 0,
    }
}

// Puts the members of a map that are no lists.
fn put_plain(alloc: Global, map: &MapParts, members: &mut JsonObject) -> Result<(), AllocError>
    ensures { OnOk result (members.new ≡ with_own (plain_own map.now) members.old) }
{
    members.put(
        alloc,
        names::NEXT_OBJECT_ID,
        Value::from(map.next_object_id),
    )?;
    members.put(alloc, names::NEXT_LAYER_ID, Value::from(map.next_layer_id))?;
    members.put(alloc, names::INFINITE, Value::from(false))?;
    members.put(alloc, names::TILE_HEIGHT, Value::from(map.tile_height))?;
    members.put(alloc, names::TILE_WIDTH, Value::from(map.tile_width))?;
    members.put(alloc, names::HEIGHT, Value::from(map.height))?;
    members.put(alloc, names::WIDTH, Value::from(map.width))?;
    Ok(())
}

// Puts the properties of a map, and what says that it is one.
fn put_said(alloc: Global, map: &MapParts, members: &mut JsonObject) -> Result<(), AllocError>
    ensures { OnOk result (members.new ≡ with_own (said_own map.now) members.old) }
{
    members.put(alloc, names::VERSION, text_tree(alloc, "1.10")?)?;
    members.put(alloc, names::TYPE, text_tree(alloc, "map")?)?;
    let properties = properties_member(alloc, Size::of_map(map), &map.properties)?;
    members.put_some(alloc, names::PROPERTIES, properties)
}

// Puts the lists of a map, an empty array for its layers, and what says that it is a map.
fn put_lists(alloc: Global, map: &MapParts, members: &mut JsonObject) -> Result<(), AllocError>
    ensures { OnOk result (members.new ≡ with_own (lists_own (array no_items) map.now) members.old) }
{
    put_said(alloc, map, members)?;
    let tilesets = array_by(alloc, Size::of_map(map), &map.tilesets)?;
    members.put(alloc, names::TILESETS, tilesets)?;
    members.put(alloc, names::LAYERS, Value::from(Vec::new(alloc)))
}

/// The members of a map but its layers and its tilesets.
pub fn map_head(alloc: Global, map: &MapParts) -> Result<JsonObject, AllocError>
    ensures { IfOk result (λ frame. frame ≡ with_own (plain_own map.now ++ said_own map.now) map.now.kept) }
{
    let mut members = JsonObject::from_kept(alloc, &map.kept)?;
    put_said(alloc, map, &mut members)?;
    put_plain(alloc, map, &mut members)?;
    Ok(members)
}

/// The members of a map, with an empty array for its layers.
pub fn frame_of(alloc: Global, map: &MapParts) -> Result<JsonObject, AllocError>
    ensures { IfOk result (λ frame. frame ≡ frame_of map.now) }
{
    let mut members = JsonObject::from_kept(alloc, &map.kept)?;
    put_lists(alloc, map, &mut members)?;
    put_plain(alloc, map, &mut members)?;
    Ok(members)
}
