// What an object in the tree of a map is, as far as it matters for what it may leave out.
ghost use Rattle.std.specs.Prelude.{◌≡◌, map};
ghost use Rattle.serde_json.specs.View.{view as data_of, members_view};
ghost use Rattle.tmx_tree.specs.Texts.{is_one_of};
ghost use Rattle.tmx_maps.specs.SameMap.{text_of, text_in, has, map_place, property_place, layer_place, own_place, place_of, value_place, inner_place};

use json_members::found;
use serde_json::{Map, Value};

/// What an object in the tree of a map is.
#[derive(Clone, Copy, PartialEq, Eq)]
pub enum Place {
    /// Any other thing: an object, a layer, a tileset.
    Thing,
    /// A map that is neither staggered nor hexagonal.
    Straight,
    /// A staggered map.
    Staggered,
    /// A layer with chunks.
    Chunked,
    Image,
    /// An object of a template.
    Instance,
    Property,
    /// A property that is a color.
    Color,
    /// A property that is a color, and empty.
    NoColor,
    /// The text of an object.
    Words,
    /// The value of a property, or something in it.
    Value,
}

/// Whether a text is one of these.
pub fn is_one_of(names: &[&str], text: &str) -> bool
    ensures { result ≡ is_one_of (map (λ name. name.now) names.now) text.now }
{
    for name in names {
        if text == *name {
            return true;
        }
    }
    false
}

/// A text; of anything else none.
pub fn text_of(value: &Value) -> &str
    ensures { result.now ≡ text_of (data_of value.now) }
{
    match value.as_str() {
        Some(text) => text,
        None => "",
    }
}

fn text_in<'a>(name: &str, members: &'a Map<String, Value>) -> &'a str
    ensures { result.now ≡ text_in name.now (members_view members.now.entries) }
{
    match found(members, name) {
        Some(value) => text_of(value),
        None => "",
    }
}

fn has(name: &str, members: &Map<String, Value>) -> bool
    ensures { result ≡ has name.now (members_view members.now.entries) }
{
    match found(members, name) {
        Some(_) => true,
        None => false,
    }
}

fn map_place(members: &Map<String, Value>) -> Place
    ensures { result ≡ map_place (members_view members.now.entries) }
{
    let orientation = text_in("orientation", members);
    if orientation == "hexagonal" {
        Place::Thing
    } else if orientation == "staggered" {
        Place::Staggered
    } else {
        Place::Straight
    }
}

fn property_place(members: &Map<String, Value>) -> Place
    ensures { result ≡ property_place (members_view members.now.entries) }
{
    if text_in("type", members) != "color" {
        Place::Property
    } else if text_in("value", members).is_empty() {
        Place::NoColor
    } else {
        Place::Color
    }
}

fn layer_place(members: &Map<String, Value>) -> Place
    ensures { result ≡ layer_place (members_view members.now.entries) }
{
    let kind = text_in("type", members);
    if kind == "map" {
        map_place(members)
    } else if kind == "imagelayer" {
        Place::Image
    } else if has("chunks", members) {
        Place::Chunked
    } else {
        Place::Thing
    }
}

fn own_place(members: &Map<String, Value>) -> Place
    ensures { result ≡ own_place (members_view members.now.entries) }
{
    if has("value", members) {
        property_place(members)
    } else if has("template", members) {
        Place::Instance
    } else {
        layer_place(members)
    }
}

/// What an object is that stands at a place, by its members.
pub fn place_of(place: Place, members: &Map<String, Value>) -> Place
    ensures { result ≡ place_of place (members_view members.now.entries) }
{
    match place {
        Place::Words => Place::Words,
        Place::Value | Place::Color => Place::Value,
        _ => own_place(members),
    }
}

fn value_place(place: Place) -> Place
    ensures { result ≡ value_place place }
{
    if place == Place::Color {
        Place::Color
    } else {
        Place::Value
    }
}

/// Where a member of this name stands, in an object that is this.
pub fn inner_place(place: Place, name: &str) -> Place
    ensures { result ≡ inner_place place name.now }
{
    match place {
        Place::Value => Place::Value,
        Place::Property | Place::Color | Place::NoColor => if name == "value" {
            value_place(place)
        } else {
            Place::Thing
        },
        _ => if name == "text" {
            Place::Words
        } else {
            Place::Thing
        },
    }
}
