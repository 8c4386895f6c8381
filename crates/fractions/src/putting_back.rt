// A tree in which what was set aside is put back.
ghost use Rattle.std.specs.Prelude.{◌≡◌, IfOk, option_map, option_and_then};
ghost use Rattle.serde_json.specs.Find.{get_member};
ghost use Rattle.serde_json.specs.View.{view as data_of, number_view, items_view, members_view};
ghost use Rattle.fractions.specs.Aside.{fraction_at};
ghost use Rattle.fractions.specs.Back.{back, items_back, members_back, joined, restored, members_restored, number_in, notes_in, by_notes};

use crate::fraction::{fraction_at, number_of_halves, still_is, to_float};
use crate::members::is_alone;
use json_members::{found, remove};
use json_trees::RESERVED_NAME;
use serde_json::{Map, Number, Value};
use std::alloc::{AllocError, Global};

// The number that a note keeps.
fn note_at(notes: &Map<String, Value>, name: &str) -> Option<Number>
    ensures { option_map number_view result
        ≡ option_and_then fraction_at (get_member name.now (members_view notes.now.entries)) }
{
    match found(notes, name) {
        Some(value) => fraction_at(value),
        None => None,
    }
}

// The exact number, if there is one and the value still is its whole part.
fn restored(exact: Option<Number>, value: &Value) -> Result<Value, AllocError>
    ensures { IfOk result (λ v. data_of v
        ≡ restored (option_map number_view exact) (data_of value.now)) }
{
    match exact {
        Some(number) => if still_is(to_float(&number), value) {
            Ok(Value::Number(number))
        } else {
            value.clone()
        },
        None => value.clone(),
    }
}

fn members_restored(
    alloc: Global,
    notes: &Map<String, Value>,
    members: &Map<String, Value>,
) -> Result<Map<String, Value>, AllocError>
    ensures { IfOk result (λ m. members_view m.entries
        ≡ members_restored (members_view notes.now.entries) (members_view members.now.entries)) }
{
    let mut all = Map::new(alloc);
    for (key, member) in members.iter() {
        let value = restored(note_at(notes, key.as_str()), member)?;
        serde_json::put(&mut all, alloc, key.as_str(), value)?;
    }
    Ok(all)
}

/// The number that an object stands for, if it is a stand-in.
pub fn number_in(members: &Map<String, Value>) -> Option<Number>
    ensures { option_map number_view result ≡ number_in (members_view members.now.entries) }
{
    if !is_alone(members) {
        return None;
    }
    match found(members, RESERVED_NAME) {
        Some(halves) => number_of_halves(halves),
        None => None,
    }
}

fn notes_in<'a>(members: &'a Map<String, Value>) -> Option<&'a Map<String, Value>>
    ensures { option_map (λ notes. members_view notes.now.entries) result
        ≡ notes_in (members_view members.now.entries) }
{
    match found(members, RESERVED_NAME) {
        Some(notes) => notes.as_object(),
        None => None,
    }
}

// The object restored by its notes and without them, if it has notes.
fn by_notes(alloc: Global, members: &Map<String, Value>) -> Result<Option<Value>, AllocError>
    ensures { IfOk result (λ o. option_map data_of o ≡ by_notes (members_view members.now.entries)) }
{
    match notes_in(members) {
        Some(notes) => {
            let mut all = members_restored(alloc, notes, members)?;
            remove(&mut all, RESERVED_NAME);
            Ok(Some(Value::Object(all)))
        }
        None => Ok(None),
    }
}

// What an object stands for whose members are put back.
fn joined(alloc: Global, members: Map<String, Value>) -> Result<Value, AllocError>
    ensures { IfOk result (λ v. data_of v ≡ joined (members_view members.entries)) }
{
    if let Some(number) = number_in(&members) {
        return Ok(Value::Number(number));
    }
    match by_notes(alloc, &members)? {
        Some(value) => Ok(value),
        None => Ok(Value::Object(members)),
    }
}

/// A value in which what was set aside is put back.
#[cycle(backs)]
pub fn back(alloc: Global, value: &Value) -> Result<Value, AllocError>
    ensures { IfOk result (λ v. data_of v ≡ back (data_of value.now)) }
{
    match value {
        Value::Null | Value::Bool(_) | Value::String(_) => value.clone(),
        Value::Number(number) => Ok(Value::Number(*number)),
        Value::Array(items) => Ok(Value::Array(items_back(alloc, items)?)),
        Value::Object(members) => joined(alloc, members_back(alloc, members)?),
    }
}

#[cycle(backs)]
fn items_back(alloc: Global, items: &Vec<Value>) -> Result<Vec<Value>, AllocError>
    ensures { IfOk result (λ v. items_view v.items ≡ items_back (items_view items.now.items)) }
{
    let mut all = Vec::with_capacity(alloc, items.len())?;
    for item in items {
        all.push(back(alloc, item)?)?;
    }
    Ok(all)
}

#[cycle(backs)]
fn members_back(
    alloc: Global,
    members: &Map<String, Value>,
) -> Result<Map<String, Value>, AllocError>
    ensures { IfOk result (λ m. members_view m.entries
        ≡ members_back (members_view members.now.entries)) }
{
    let mut all = Map::new(alloc);
    for (key, member) in members.iter() {
        let value = back(alloc, member)?;
        serde_json::put(&mut all, alloc, key.as_str(), value)?;
    }
    Ok(all)
}
