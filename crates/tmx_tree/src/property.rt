// Properties: their types and values, and what JSON does not say of them.
ghost use Rattle.std.specs.Prelude.{◌≡◌, map, option_map, string_bytes, IfOk, OnOk};
ghost use Rattle.serde_json.specs.View.{view as data_of, members_view};
ghost use Rattle.serde_json.specs.Data.{no_members, put, string};
ghost use Rattle.json_members.specs.Members.{put_some};
ghost use Rattle.xml_text.specs.Xml.{attribute_view, node_view, view, children_of};
ghost use Rattle.tmx_tree.specs.Answers.{Gives, GivesBy, Leaves};
ghost use Rattle.tmx_tree.specs.Elements.{attributes_of, kids_of};
ghost use Rattle.tmx_tree.specs.Properties.{is_blank, are_none, unless_empty, value_text, value_of, class_in, class_of, class_members, class_member};
ghost use Rattle.tmx_tree.specs.Properties.{class_view, property_view, typed_of, named_value, with_note, note_of_member, put_note_of, with_class_member};
ghost use Rattle.tmx_tree.specs.Properties.{property_of, other_type};

use crate::element::{attributes, children, text_in};
use crate::fault::Fault;
use crate::plain_value::{Typed, plain_value, text_at};
use crate::row::put_some;
use serde_json::{Map, Value};
use std::alloc::{AllocError, Global};
use xml_text::{Attribute, Element, Node};

/// The name under which stands what JSON can't say.
pub const NOTE_NAME: &str = "roskevad_tmx";

/// A property but for its name.
#[derive(Drop)]
pub struct Property {
    pub typed: Typed,
    /// What is noted of its members, if it is a class.
    pub notes: Map<String, Value>,
}

/// The members of a class.
#[derive(Drop)]
pub struct Class {
    pub values: Map<String, Value>,
    pub notes: Map<String, Value>,
}

/// Whether a text has nothing but blanks.
pub fn is_blank(text: &str) -> bool
    ensures { result ≡ is_blank text.now }
{
    text.trim().is_empty()
}

/// A text as a value, unless it is empty.
pub fn unless_empty(alloc: Global, text: &str) -> Result<Option<Value>, AllocError>
    ensures { IfOk result (λ o. option_map data_of o ≡ unless_empty text.now) }
{
    if text.is_empty() {
        return Ok(None);
    }
    Ok(Some(Value::String(String::from_str(alloc, text)?)))
}

// The text of a property's value: of the attribute, else of the element if that is not blank.
fn value_text(alloc: Global, element: &Element) -> Result<String, AllocError>
    ensures { IfOk result (λ text. string_bytes text
        ≡ value_text (attributes_of (view element.now)) (kids_of (view element.now))) }
{
    let value = text_at(attributes(element), "value");
    let inner = text_in(alloc, children(element))?;
    if !value.is_empty() {
        return String::from_str(alloc, value);
    }
    if is_blank(inner.as_str()) {
        Ok(String::new(alloc))
    } else {
        Ok(inner)
    }
}

/// Puts a text among the members of an object, unless it is empty.
pub fn put_unless_empty(
    alloc: Global,
    members: &mut Map<String, Value>,
    name: &str,
    text: &str,
) -> Result<(), AllocError>
    ensures { OnOk result (members_view members.new.entries
        ≡ put_some name.now (unless_empty text.now) (members_view members.old.entries)) }
{
    let value = unless_empty(alloc, text)?;
    put_some(alloc, members, name, value)
}

/// Puts a text among the members of an object.
pub fn put_text(
    alloc: Global,
    members: &mut Map<String, Value>,
    name: &str,
    text: &str,
) -> Result<(), AllocError>
    ensures { OnOk result (members_view members.new.entries
        ≡ put name.now (string text.now) (members_view members.old.entries)) }
{
    let value = Value::String(String::from_str(alloc, text)?);
    serde_json::put(members, alloc, name, value)
}

fn named_value(
    alloc: Global,
    attributes: &Vec<Attribute>,
    typed: Typed,
) -> Result<Map<String, Value>, AllocError>
    ensures { IfOk result (λ m. members_view m.entries
        ≡ named_value (map attribute_view attributes.now.items) (typed_of typed)) }
{
    let Typed { kind, value } = typed;
    let mut members = Map::new(alloc);
    serde_json::put(&mut members, alloc, "value", value)?;
    put_unless_empty(
        alloc,
        &mut members,
        "propertytype",
        text_at(attributes, "propertytype"),
    )?;
    put_text(alloc, &mut members, "type", kind)?;
    put_text(alloc, &mut members, "name", text_at(attributes, "name"))?;
    Ok(members)
}

/// Whether there are no members.
pub fn are_none(members: &Map<String, Value>) -> bool
    ensures { result ≡ are_none (members_view members.now.entries) }
{
    members.len() == 0
}

/// Puts notes under their name among the members, if there are any.
pub fn put_notes(
    alloc: Global,
    members: &mut Map<String, Value>,
    notes: Map<String, Value>,
) -> Result<(), AllocError>
    ensures { OnOk result (members_view members.new.entries
        ≡ with_note (members_view notes.entries) (members_view members.old.entries)) }
{
    if are_none(&notes) {
        return Ok(());
    }
    serde_json::put(members, alloc, NOTE_NAME, Value::from(notes))
}

fn put_note_of(
    alloc: Global,
    notes: &mut Map<String, Value>,
    name: &str,
    own: Map<String, Value>,
) -> Result<(), AllocError>
    ensures { OnOk result (members_view notes.new.entries
        ≡ put_note_of name.now (members_view own.entries) (members_view notes.old.entries)) }
{
    if are_none(&own) {
        return Ok(());
    }
    serde_json::put(notes, alloc, name, Value::from(own))
}

// A property's type as a value, unless it is that of a text.
fn other_type(alloc: Global, kind: &str) -> Result<Option<Value>, AllocError>
    ensures { IfOk result (λ o. option_map data_of o ≡ other_type kind.now) }
{
    if kind == "string" {
        return Ok(None);
    }
    Ok(Some(Value::String(String::from_str(alloc, kind)?)))
}

// What is noted of a member of a class.
fn note_of_member(
    alloc: Global,
    attributes: &Vec<Attribute>,
    kind: &str,
    notes: Map<String, Value>,
) -> Result<Map<String, Value>, AllocError>
    ensures { IfOk result (λ m. members_view m.entries
        ≡ note_of_member (map attribute_view attributes.now.items) kind.now (members_view notes.entries)) }
{
    let mut own = Map::new(alloc);
    put_unless_empty(
        alloc,
        &mut own,
        "propertytype",
        text_at(attributes, "propertytype"),
    )?;
    let kind = other_type(alloc, kind)?;
    put_some(alloc, &mut own, "type", kind)?;
    put_notes(alloc, &mut own, notes)?;
    Ok(own)
}

// Puts a member among those of a class.
fn put_member(
    alloc: Global,
    attributes: &Vec<Attribute>,
    member: Property,
    found: &mut Class,
) -> Result<(), AllocError>
    ensures { OnOk result (class_view found.new
        ≡ with_class_member (map attribute_view attributes.now.items) (property_view member) (class_view found.old)) }
{
    let Property { typed, notes } = member;
    let Typed { kind, value } = typed;
    let name = text_at(attributes, "name");
    let own = note_of_member(alloc, attributes, kind, notes)?;
    put_note_of(alloc, &mut found.notes, name, own)?;
    serde_json::put(&mut found.values, alloc, name, value)
}

fn no_class(alloc: Global) -> Class
    ensures { class_view result ≡ (no_members, no_members) }
{
    Class {
        values: Map::new(alloc),
        notes: Map::new(alloc),
    }
}

/// The type and the value of a property, and what is noted of its members.
#[cycle(classes)]
pub fn value_of(alloc: Global, element: &Element) -> Result<Property, Fault>
    ensures { GivesBy property_view result (value_of (view element.now)) }
{
    let kind = text_at(attributes(element), "type");
    if kind == "class" {
        let mut found = no_class(alloc);
        class_in(alloc, element, &mut found)?;
        let Class { values, notes } = found;
        return Ok(Property {
            typed: Typed {
                kind: "class",
                value: Value::from(values),
            },
            notes,
        });
    }
    let text = value_text(alloc, element)?;
    Ok(Property {
        typed: plain_value(alloc, kind, text.as_str())?,
        notes: Map::new(alloc),
    })
}

#[cycle(classes)]
fn class_in(alloc: Global, element: &Element, found: &mut Class) -> Result<(), Fault>
    ensures { Leaves result (class_view found.new)
        (class_in (kids_of (view element.now)) (class_view found.old)) }
{
    for node in &element.children {
        class_of(alloc, node, found)?;
    }
    Ok(())
}

#[cycle(classes)]
fn class_of(alloc: Global, node: &Node, found: &mut Class) -> Result<(), Fault>
    ensures { Leaves result (class_view found.new)
        (class_of (node_view node.now) (class_view found.old)) }
{
    match node {
        Node::Element(element) => if element.name.as_str() == "properties" {
            class_members(alloc, element, found)
        } else {
            Ok(())
        },
        Node::Text(_) => Ok(()),
    }
}

#[cycle(classes)]
fn class_members(alloc: Global, element: &Element, found: &mut Class) -> Result<(), Fault>
    ensures { Leaves result (class_view found.new)
        (class_members (kids_of (view element.now)) (class_view found.old)) }
{
    for node in &element.children {
        class_member(alloc, node, found)?;
    }
    Ok(())
}

#[cycle(classes)]
fn class_member(alloc: Global, node: &Node, found: &mut Class) -> Result<(), Fault>
    ensures { Leaves result (class_view found.new)
        (class_member (node_view node.now) (class_view found.old)) }
{
    match node {
        Node::Element(element) => if element.name.as_str() == "property" {
            let member = value_of(alloc, element)?;
            put_member(alloc, attributes(element), member, found)?;
            Ok(())
        } else {
            Ok(())
        },
        Node::Text(_) => Ok(()),
    }
}

/// A property, as an object.
#[tactic(auto, unfolding(crate::specs::Properties::property_of))]
pub fn property_of(alloc: Global, element: &Element) -> Result<Value, Fault>
    ensures { GivesBy data_of result (property_of (view element.now)) }
{
    let Property { typed, notes } = value_of(alloc, element)?;
    let mut members = named_value(alloc, attributes(element), typed)?;
    put_notes(alloc, &mut members, notes)?;
    Ok(Value::from(members))
}
