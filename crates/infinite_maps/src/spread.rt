// The infinite map that a finite one with a note is.
ghost use Rattle.std.specs.Prelude.{◌≡◌, IfOk, IfErr, OnOk, option_map};
ghost use Rattle.serde_json.specs.Data.{object};
ghost use Rattle.serde_json.specs.Find.{as_i64};
ghost use Rattle.serde_json.specs.View.{view as data_of, number_view, items_view, members_view};
ghost use Rattle.infinite_maps.specs.Infinite.{moved_by, moved, own, spread, items_spread, members_spread, note_of, with_size, map_by, infinite_of};
ghost use Rattle.infinite_maps.specs.declared.fault.Fault.TheVariants.{Memory};
ghost use Rattle.infinite_maps.specs.declared.part.Part.TheVariants.{Layers};
ghost use Rattle.infinite_maps.specs.Notes.{plane_of};

use crate::fault::Fault;
use crate::layer::spread_layer;
use crate::members::{MARK, put_copy};
use crate::notes::plane_of;
use crate::part::Part;
use crate::plane::Plane;
use json_members::{found, remove};
use serde_json::{Map, Number, Value};
use std::alloc::{AllocError, Global};

fn moved_by(by: i64, number: Number) -> Value
    ensures { data_of result ≡ moved_by by (number_view number) (as_i64 (number_view number)) }
{
    match number.as_i64() {
        Some(pixels) => Value::from(pixels.wrapping_add(by)),
        None => Value::Number(number),
    }
}

/// A number; one that is the place of an object is moved.
pub fn moved(plane: Plane, part: Part, number: Number) -> Value
    ensures { data_of result ≡ moved plane part (number_view number) }
{
    match part {
        Part::Across => moved_by(plane.moved_x, number),
        Part::Down => moved_by(plane.moved_y, number),
        Part::Layers | Part::Objects | Part::Rest => Value::Number(number),
    }
}

fn own(
    alloc: Global,
    plane: Plane,
    part: Part,
    members: &mut Map<String, Value>,
) -> Result<(), AllocError>
    ensures { OnOk result (members_view members.new.entries
        ≡ own plane part (members_view members.old.entries)) }
{
    match part {
        Part::Layers => spread_layer(alloc, plane, members),
        Part::Objects | Part::Across | Part::Down | Part::Rest => Ok(()),
    }
}

#[cycle(spreads)]
fn spread(alloc: Global, plane: Plane, part: Part, value: &Value) -> Result<Value, AllocError>
    ensures { IfOk result (λ v. data_of v ≡ spread plane part (data_of value.now)) }
{
    match value {
        Value::Null | Value::Bool(_) | Value::String(_) => value.clone(),
        Value::Number(number) => Ok(moved(plane, part, *number)),
        Value::Array(items) => Ok(Value::Array(items_spread(alloc, plane, part, items)?)),
        Value::Object(members) => {
            let mut all = members_spread(alloc, plane, part, members)?;
            own(alloc, plane, part, &mut all)?;
            Ok(Value::Object(all))
        }
    }
}

#[cycle(spreads)]
fn items_spread(
    alloc: Global,
    plane: Plane,
    part: Part,
    items: &Vec<Value>,
) -> Result<Vec<Value>, AllocError>
    ensures { IfOk result (λ v. items_view v.items
        ≡ items_spread plane part (items_view items.now.items)) }
{
    let mut all = Vec::with_capacity(alloc, items.len())?;
    for item in items {
        all.push(spread(alloc, plane, part, item)?)?;
    }
    Ok(all)
}

#[cycle(spreads)]
fn members_spread(
    alloc: Global,
    plane: Plane,
    part: Part,
    members: &Map<String, Value>,
) -> Result<Map<String, Value>, AllocError>
    ensures { IfOk result (λ m. members_view m.entries
        ≡ members_spread plane part (members_view members.now.entries)) }
{
    let mut all = Map::new(alloc);
    for (key, member) in members.iter() {
        let value = spread(alloc, plane, part.below(key.as_str()), member)?;
        serde_json::put(&mut all, alloc, key.as_str(), value)?;
    }
    Ok(all)
}

/// The note of a map that was infinite, where it has one.
pub fn note_of(members: &Map<String, Value>) -> Option<&Value>
    ensures { option_map (λ value. data_of value.now) result
        ≡ note_of (members_view members.now.entries) }
{
    match found(members, MARK) {
        Some(value) => value.get("infinite"),
        None => None,
    }
}

fn put_size(alloc: Global, note: &Value, members: &mut Map<String, Value>) -> Result<(), AllocError>
    ensures { OnOk result (members_view members.new.entries
        ≡ with_size (data_of note.now) (members_view members.old.entries)) }
{
    remove(members, MARK);
    remove(members, "width");
    remove(members, "height");
    put_copy(alloc, members, "width", note)?;
    put_copy(alloc, members, "height", note)?;
    serde_json::put(members, alloc, "infinite", Value::from(true))
}

fn map_of(alloc: Global, members: &Map<String, Value>) -> Result<Option<Value>, AllocError>
    ensures { IfOk result (λ map. option_map data_of map
        ≡ map_by (members_view members.now.entries) (note_of (members_view members.now.entries))) }
{
    match note_of(members) {
        Some(note) => {
            let plane = plane_of(members, note);
            let mut all = members_spread(alloc, plane, Part::Layers, members)?;
            put_size(alloc, note, &mut all)?;
            Ok(Some(Value::Object(all)))
        }
        None => Ok(None),
    }
}

/// The infinite map that a map is, if `made_finite` made it; else `None`.
///
/// Where an allocation is refused, the answer is `Fault::Memory`.
pub fn made_infinite(alloc: Global, value: &Value) -> Result<Option<Value>, Fault>
    ensures map { IfOk result (λ map. option_map data_of map ≡ infinite_of (data_of value.now)) }
    ensures memory { IfErr result (λ fault. fault ≡ Memory) }
{
    match value {
        Value::Object(members) => Ok(map_of(alloc, members)?),
        _ => Ok(None),
    }
}
