// A whole thing that a JSON text of a line says, as a file has it.
ghost use Rattle.std.specs.Prelude.{◌≡◌, ◌≤◌, ◌+◌, ℕ, false, is_some, IfOk, OnOk, string_bytes};
ghost use Rattle.serde_json.specs.Data.{depth};
ghost use Rattle.serde_json.specs.Find.{get_member};
ghost use Rattle.serde_json.specs.View.{view as data_of};
ghost use Rattle.serde_json.specs.Written.{has_float};
ghost use Rattle.map_model.specs.declared.limits.TheConstants.{MAX_NEXT_ID};
ghost use Rattle.map_model.specs.declared.names.TheConstants.{ID};
ghost use Rattle.map_model.specs.Keeping.{deepest_tier, object_tier, property_tier};
ghost use Rattle.map_model.specs.NewLayers.{IsNewLayer, own_layer_ids, own_object_ids};
ghost use Rattle.map_model.specs.Readable.{IsReadable};
ghost use Rattle.map_model.specs.WellFormed.{IsId, IsObject, IsProperty, IsTileset};
ghost use Rattle.map_values.specs.Presence.{Gives, GivesBy};
ghost use Rattle.map_json.specs.Given.{given_layer_at, given_object_at, given_property_at, given_text_at, given_tileset_at, layer_said, layer_tree_at, new_layer_at, with_id};
ghost use Rattle.map_json.specs.declared.word.TheConstants.{MAX_WORD_DEPTH};

use crate::doubles::{Ids, are_new_ids, ids_of, layer_names_are_distinct, names_are_distinct};
use crate::elements::{Element, ElementList};
use crate::layer::lone_layer;
use crate::moved::moved_in;
use crate::size::Size;
use crate::word::{json_word, members_said};
use fractions::{Fractions, Place, UNMOVED, moved_aside};
use link_chain::Chain;
use map_model::limits::MAX_GROUPS;
use map_model::{Layer, Map, Object, Property, Tileset, names};
use map_values::{JsonObject, MapFault, NoTrail};
use refusals::MapRefusal;
use serde_json::Value;
use std::alloc::{AllocError, Global};

// The size of a map does not decide what any of these says.
const ANY_SIZE: Size = Size {
    width: 1,
    height: 1,
};

/// An object that a JSON text of a line says.
#[derive(Drop)]
pub struct GivenObject {
    pub object: Object,
    /// Whether the text says its id. Where it says none, the id is 1.
    pub has_id: bool,
}

// Puts the id 1 in where the members say none, and tells whether they say one.
fn put_id(alloc: Global, members: &mut JsonObject) -> Result<bool, AllocError>
    ensures told { IfOk result (λ has_id. has_id ≡ is_some (get_member ID.now members.old)) }
    ensures members { OnOk result (members.new ≡ with_id members.old) }
{
    if members.get(names::ID).is_some() {
        return Ok(true);
    }
    members.put(alloc, names::ID, Value::from(1_u32))?;
    Ok(false)
}

/// The object that a JSON text of a line says of a map, with or without its id, or why it says none. Any object layer can hold it.
///
/// It is read as an object of a file. Then no name may stand twice among its properties.
#[tactic(auto, unfolding(crate::specs::Given::given_object_at))]
pub fn given_object(
    alloc: Global,
    fractions: Fractions,
    map: &Map,
    text: &str,
) -> Result<GivenObject, MapFault>
    ensures value { Gives result (given_object_at fractions map.now text.now) }
    ensures id { IfOk result (λ given. IsId MAX_NEXT_ID given.object.id) }
    ensures sound { (tier : ℕ) → tier ≤ deepest_tier → IfOk result (λ given. IsObject (object_tier tier) given.object) }
{
    let mut members = members_said(
        alloc,
        fractions,
        Place::Object,
        moved_in(fractions, map),
        text,
    )?;
    let has_id = put_id(alloc, &mut members)?;
    let object = Object::read(alloc, ANY_SIZE, members.into_value(), &mut NoTrail)?;
    if !names_are_distinct(alloc, &object.properties, &mut NoTrail)? {
        return Err(MapFault::Refused(MapRefusal::IdUsedTwice));
    }
    Ok(GivenObject { object, has_id })
}

/// A layer that a JSON text of a line says, with those that stand in it.
#[derive(Drop)]
pub struct GivenLayer {
    pub layer: Layer,
    /// The ids of all these layers and of their objects.
    pub ids: Ids,
}

// A layer that a line says of a map, as the map has it.
fn layer_said(
    alloc: Global,
    fractions: Fractions,
    map: &Map,
    value: Value,
) -> Result<Value, AllocError>
    ensures { IfOk result (λ tree. data_of tree ≡ layer_said fractions map.now (data_of value)) }
{
    match fractions {
        Fractions::Refused => Ok(value),
        Fractions::SetAside => {
            moved_aside(alloc, moved_in(fractions, map), Place::Layer, &value)
        }
    }
}

// The tree of the layer that a JSON text of a line says of a map, as the map has it.
fn layer_tree(alloc: Global, fractions: Fractions, map: &Map, text: &str) -> Result<Value, MapFault>
    ensures value { GivesBy data_of result (layer_tree_at fractions map.now text.now) }
    ensures readable { IfOk result (λ tree. IsReadable (data_of tree)) }
    ensures whole { IfOk result (λ tree. has_float (data_of tree) ≡ false) }
    ensures shallow { IfOk result (λ tree. depth (data_of tree) ≤ MAX_WORD_DEPTH + 3) }
{
    let value = json_word(alloc, fractions, Place::Layer, text)?;
    if !value.is_object() {
        return Err(MapFault::Refused(MapRefusal::MemberOfAnotherKind));
    }
    let tree = layer_said(alloc, fractions, map, value)?;
    Ok(tree)
}

// A layer with its ids, if none of them stands twice in it and in the map, nor a name within one owner in it.
fn new_layer(alloc: Global, map: &Map, layer: Layer) -> Result<GivenLayer, MapFault>
    ensures layer { GivesBy (λ given. given.layer) result (new_layer_at map.now layer) }
    ensures layers { IfOk result (λ given. given.ids.layers.items ≡ own_layer_ids layer) }
    ensures objects { IfOk result (λ given. given.ids.objects.items ≡ own_object_ids layer) }
{
    let mut alone = Chain::new(alloc);
    alone.add(alloc, layer)?;
    let ids = ids_of(alloc, &alone)?;
    if !are_new_ids(alloc, &ids, map.parts())?
        || !layer_names_are_distinct(alloc, &alone, MAX_GROUPS, &mut NoTrail)?
    {
        return Err(MapFault::Refused(MapRefusal::IdUsedTwice));
    }
    Ok(GivenLayer {
        layer: alone.take(0).into_item(),
        ids,
    })
}

/// The layer that a JSON text of a line says of a map, with those that stand in it, or why it says none.
///
/// It is read as the only layer of a file, where each tile layer may lack its values: it is empty then, unless it has chunks. Then no
/// id may stand twice in it and in the map, nor a name within one owner in it.
#[tactic(auto, unfolding(crate::specs::Given::given_layer_at))]
pub fn given_layer(
    alloc: Global,
    fractions: Fractions,
    map: &Map,
    text: &str,
) -> Result<GivenLayer, MapFault>
    ensures value { GivesBy (λ given. given.layer) result (given_layer_at fractions map.now text.now) }
    ensures layers { IfOk result (λ given. given.ids.layers.items ≡ own_layer_ids given.layer) }
    ensures objects { IfOk result (λ given. given.ids.objects.items ≡ own_object_ids given.layer) }
    ensures sound { IfOk result (λ given. IsNewLayer map.now given.layer) }
{
    let tree = layer_tree(alloc, fractions, map, text)?;
    let layer = lone_layer(alloc, Size::of_map(map.parts()), tree)?;
    new_layer(alloc, map, layer)
}

/// The tileset that a JSON text of a line says, or why it says none.
#[tactic(auto, unfolding(crate::specs::Given::given_tileset_at))]
pub fn given_tileset(alloc: Global, fractions: Fractions, text: &str) -> Result<Tileset, MapFault>
    ensures value { Gives result (given_tileset_at fractions text.now) }
    ensures sound { IfOk result IsTileset }
{
    let members = members_said(alloc, fractions, Place::Elsewhere, UNMOVED, text)?;
    Tileset::read(alloc, ANY_SIZE, members.into_value(), &mut NoTrail)
}

/// The property that a JSON text of a line says, or why it says none. Any owner can have it.
#[tactic(auto, unfolding(crate::specs::Given::given_property_at))]
pub fn given_property(alloc: Global, fractions: Fractions, text: &str) -> Result<Property, MapFault>
    ensures value { Gives result (given_property_at fractions text.now) }
    ensures sound { (tier : ℕ) → tier ≤ object_tier deepest_tier → IfOk result (IsProperty (property_tier tier)) }
{
    let members = members_said(alloc, fractions, Place::Elsewhere, UNMOVED, text)?;
    Property::read(alloc, ANY_SIZE, members.into_value(), &mut NoTrail)
}

/// The text that a JSON text of a line says, or why it says none.
#[tactic(auto, unfolding(crate::specs::Given::given_text_at))]
pub fn given_text(alloc: Global, fractions: Fractions, text: &str) -> Result<String, MapFault>
    ensures { GivesBy string_bytes result (given_text_at fractions text.now) }
{
    match json_word(alloc, fractions, Place::Elsewhere, text)? {
        Value::String(said) => Ok(said),
        _ => Err(MapFault::Refused(MapRefusal::MemberOfAnotherKind)),
    }
}
