// A map's tree with its fractions set aside.
ghost use Rattle.std.specs.Prelude.{◌≡◌, IfOk, OnOk};
ghost use Rattle.serde_json.specs.View.{view as data_of, number_view, items_view, members_view};
ghost use Rattle.json_members.specs.Members.{put_some};
ghost use Rattle.fractions.specs.Aside.{aside, members_aside, fraction_aside, number_aside, with_notes};
ghost use Rattle.fractions.specs.Lines.{further_note, items_moved, members_moved, moved_aside, moved_notes};

use crate::fraction::{fraction_at, further, stand_in, to_float, whole_part};
use crate::lines::{Moved, UNMOVED};
use crate::place::Place;
use json_members::found;
use json_trees::RESERVED_NAME;
use serde_json::{Map, Number, Value};
use std::alloc::{AllocError, Global};

// What a fraction becomes: the whole part of a coordinate, the stand-in of any other.
fn fraction_aside(alloc: Global, place: Place, number: &Number) -> Result<Value, AllocError>
    ensures { IfOk result (λ value. data_of value ≡ fraction_aside place (number_view number.now)) }
{
    match place {
        Place::Coordinate => Ok(Value::from(whole_part(to_float(number)))),
        Place::Version => Ok(Value::Number(*number)),
        Place::Map | Place::Layer | Place::Object | Place::Elsewhere => {
            stand_in(alloc, to_float(number))
        }
    }
}

fn number_aside(alloc: Global, place: Place, number: &Number) -> Result<Value, AllocError>
    ensures { IfOk result (λ value. data_of value ≡ number_aside place (number_view number.now)) }
{
    if number.is_f64() {
        fraction_aside(alloc, place, number)
    } else {
        Ok(Value::Number(*number))
    }
}

// Puts the note of a coordinate, which is saved so many pixels further, among the notes, if it is a fraction.
fn put_note(
    alloc: Global,
    notes: &mut Map<String, Value>,
    name: &str,
    pixels: i64,
    members: &Map<String, Value>,
) -> Result<(), AllocError>
    ensures { OnOk result (members_view notes.new.entries
        ≡ put_some name.now (further_note pixels name.now (members_view members.now.entries)) (members_view notes.old.entries)) }
{
    if let Some(value) = found(members, name) {
        if let Some(number) = fraction_at(value) {
            let x = further(pixels, to_float(&number));
            serde_json::put(notes, alloc, name, stand_in(alloc, x)?)?;
        }
    }
    Ok(())
}

/// The notes of an object's coordinates, where it is saved.
pub fn moved_notes(
    alloc: Global,
    moved: Moved,
    place: Place,
    members: &Map<String, Value>,
) -> Result<Map<String, Value>, AllocError>
    ensures { IfOk result (λ notes. members_view notes.entries
        ≡ moved_notes moved place (members_view members.now.entries)) }
{
    let mut notes = Map::new(alloc);
    match place {
        Place::Object => {
            put_note(alloc, &mut notes, "height", 0, members)?;
            put_note(alloc, &mut notes, "width", 0, members)?;
            put_note(alloc, &mut notes, "y", moved.y, members)?;
            put_note(alloc, &mut notes, "x", moved.x, members)?;
        }
        Place::Map | Place::Layer | Place::Coordinate | Place::Version | Place::Elsewhere => {}
    }
    Ok(notes)
}

/// Puts notes among the members, if there are any.
pub fn put_notes(
    alloc: Global,
    members: &mut Map<String, Value>,
    notes: Map<String, Value>,
) -> Result<(), AllocError>
    ensures { OnOk result (members_view members.new.entries
        ≡ with_notes (members_view notes.entries) (members_view members.old.entries)) }
{
    if !notes.is_empty() {
        serde_json::put(members, alloc, RESERVED_NAME, Value::from(notes))?;
    }
    Ok(())
}

/// A value that stands at a place, with its fractions set aside, and with the notes of the objects in it where they are saved: so many
/// pixels further.
#[cycle(asides)]
pub fn moved_aside(
    alloc: Global,
    moved: Moved,
    place: Place,
    value: &Value,
) -> Result<Value, AllocError>
    ensures { IfOk result (λ v. data_of v ≡ moved_aside moved place (data_of value.now)) }
{
    match value {
        Value::Null | Value::Bool(_) | Value::String(_) => value.clone(),
        Value::Number(number) => number_aside(alloc, place, number),
        Value::Array(items) => Ok(Value::Array(items_moved(alloc, moved, place.inside(), items)?)),
        Value::Object(members) => {
            let notes = moved_notes(alloc, moved, place, members)?;
            let mut all = members_moved(alloc, moved, place, members)?;
            put_notes(alloc, &mut all, notes)?;
            Ok(Value::Object(all))
        }
    }
}

#[cycle(asides)]
fn items_moved(
    alloc: Global,
    moved: Moved,
    place: Place,
    items: &Vec<Value>,
) -> Result<Vec<Value>, AllocError>
    ensures { IfOk result (λ v. items_view v.items
        ≡ items_moved moved place (items_view items.now.items)) }
{
    let mut all = Vec::with_capacity(alloc, items.len())?;
    for item in items {
        all.push(moved_aside(alloc, moved, place, item)?)?;
    }
    Ok(all)
}

#[cycle(asides)]
fn members_moved(
    alloc: Global,
    moved: Moved,
    place: Place,
    members: &Map<String, Value>,
) -> Result<Map<String, Value>, AllocError>
    ensures { IfOk result (λ m. members_view m.entries
        ≡ members_moved moved place (members_view members.now.entries)) }
{
    let mut all = Map::new(alloc);
    for (key, member) in members.iter() {
        let value = moved_aside(alloc, moved, place.below(key.as_str()), member)?;
        serde_json::put(&mut all, alloc, key.as_str(), value)?;
    }
    Ok(all)
}

/// A value that stands at a place, with its fractions set aside.
#[tactic(auto, using(crate::proofs::Unmoved::aside_unmoved))]
pub fn aside(alloc: Global, place: Place, value: &Value) -> Result<Value, AllocError>
    ensures { IfOk result (λ v. data_of v ≡ aside place (data_of value.now)) }
{
    moved_aside(alloc, UNMOVED, place, value)
}

/// The members of an object that stands at a place, with their fractions set aside, and with its notes where it is saved.
#[tactic(auto, using(crate::proofs::Unmoved::members_unmoved))]
pub fn object_aside(
    alloc: Global,
    moved: Moved,
    place: Place,
    members: &Map<String, Value>,
) -> Result<Map<String, Value>, AllocError>
    ensures { IfOk result (λ m. members_view m.entries
        ≡ with_notes (moved_notes moved place (members_view members.now.entries)) (members_aside place (members_view members.now.entries))) }
{
    let notes = moved_notes(alloc, moved, place, members)?;
    let mut all = members_moved(alloc, UNMOVED, place, members)?;
    put_notes(alloc, &mut all, notes)?;
    Ok(all)
}
