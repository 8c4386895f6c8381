// The corners of a polygon or a polyline.
ghost use Rattle.std.specs.Prelude.{map};
ghost use Rattle.serde_json.specs.View.{view as data_of, number_view};
ghost use Rattle.tmx_tree.specs.Answers.{GivesBy, Leaves};
ghost use Rattle.tmx_tree.specs.Corners.{corner_number, corner, with_corner, corners};

use crate::cells::is_space;
use crate::fault::{Fault, Refusal};
use crate::row::number_in;
use serde_json::{Map, Number, Value};
use std::alloc::Global;

fn corner_number(text: &[u8]) -> Result<Number, Fault>
    ensures { GivesBy number_view result (corner_number text.now) }
{
    match fast_float::parse::<f64, _>(text) {
        Ok(x) => match number_in(Some(x))? {
            Some(number) => Ok(number),
            None => Err(Fault::Refused(Refusal::Corners)),
        },
        Err(_) => Err(Fault::Refused(Refusal::Corners)),
    }
}

fn corner(alloc: Global, before: &[u8], behind: &[u8]) -> Result<Value, Fault>
    ensures { GivesBy data_of result (corner before.now behind.now) }
{
    let x = corner_number(before)?;
    let y = corner_number(behind)?;
    let mut members = Map::new(alloc);
    serde_json::put(&mut members, alloc, "y", Value::Number(y))?;
    serde_json::put(&mut members, alloc, "x", Value::Number(x))?;
    Ok(Value::from(members))
}

// Pushes the corner of a pair of which this was read, if anything was.
fn push_corner(
    alloc: Global,
    before: &[u8],
    parted: bool,
    behind: &[u8],
    found: &mut Vec<Value>,
) -> Result<(), Fault>
    ensures { Leaves result (map data_of found.new.items)
        (with_corner before.now parted behind.now (map data_of found.old.items)) }
{
    if parted {
        let value = corner(alloc, before, behind)?;
        found.push(value)?;
        return Ok(());
    }
    if before.is_empty() {
        Ok(())
    } else {
        Err(Fault::Refused(Refusal::Corners))
    }
}

/// The corners that a text spells.
pub fn corners(alloc: Global, text: &[u8]) -> Result<Vec<Value>, Fault>
    ensures { GivesBy (λ v. map data_of v.items) result (corners text.now) }
{
    let mut found = Vec::new(alloc);
    let mut before = Vec::new(alloc);
    let mut behind = Vec::new(alloc);
    let mut parted = false;
    for byte in text {
        if is_space(*byte) {
            push_corner(alloc, &before, parted, &behind, &mut found)?;
            before.clear();
            behind.clear();
            parted = false;
        } else if *byte == b',' && !parted {
            parted = true;
        } else if parted {
            behind.push(*byte)?;
        } else {
            before.push(*byte)?;
        }
    }
    push_corner(alloc, &before, parted, &behind, &mut found)?;
    Ok(found)
}
