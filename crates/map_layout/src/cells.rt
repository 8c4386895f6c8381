//! Cells of a source, which need no tree once they are known to differ: their bytes tell them.
use crate::dropping::discard;
use crate::parts::between;
use json_trees::RESERVED_NAME;
use serde_json::{Map, Value};
use std::alloc::{AllocError, Global};

// Whether all items are whole numbers from 0 on, and there is one.
fn are_cells(items: &[Value]) -> bool {
    for item in items {
        if item.as_u64().is_none() {
            return false;
        }
    }
    !items.is_empty()
}

// What stands for the cells of an array: an item with the reserved name, which no other has.
fn stand_in(alloc: Global) -> Result<Vec<Value>, AllocError> {
    let mut members = Map::new(alloc);
    let name = String::from_str(alloc, RESERVED_NAME)?;
    drop(members.insert(name, Value::Null)?);
    let mut items = Vec::with_capacity(alloc, 1)?;
    items.push(Value::Object(members))?;
    Ok(items)
}

/// Whether the cells of an array were dropped.
pub fn are_dropped(items: &[Value]) -> bool {
    match items.first() {
        Some(Value::Object(members)) => items.len() == 1
            && members.len() == 1
            && members.get(RESERVED_NAME).is_some(),
        _ => false,
    }
}

/// A tree without its cells, which are most of a map.
#[cycle(drops)]
pub fn without_cells(alloc: Global, value: Value) -> Result<Value, AllocError> {
    match value {
        Value::Array(items) => Ok(Value::Array(items_without_cells(alloc, items)?)),
        Value::Object(members) => {
            let mut kept = Map::new(alloc);
            for (name, member) in members {
                drop(kept.insert(name, without_cells(alloc, member)?)?);
            }
            Ok(Value::Object(kept))
        }
        Value::Null | Value::Bool(_) | Value::Number(_) | Value::String(_) => Ok(value),
    }
}

#[cycle(drops)]
fn items_without_cells(alloc: Global, items: Vec<Value>) -> Result<Vec<Value>, AllocError> {
    if are_cells(&items) {
        discard(Value::Array(items));
        return stand_in(alloc);
    }
    let mut kept = Vec::with_capacity(alloc, items.len())?;
    for item in items {
        kept.push(without_cells(alloc, item)?)?;
    }
    Ok(kept)
}

/// A cell that the bytes of an array do not tell, and where its bytes begin: behind the bracket or the comma in front of it.
#[derive(Clone, Copy)]
pub struct OtherCell {
    pub index: usize,
    pub start: usize,
}

/// The first such cell from one on whose bytes begin at a place, among items that are as many as the array has cells.
pub fn other_cell(text: &[u8], from: OtherCell, items: &[Value]) -> Option<OtherCell> {
    let mut at = from;
    let mut n: u64 = 0;
    let rest = between(text, from.start, text.len());
    for (passed, byte) in rest.iter().enumerate() {
        if byte.is_ascii_digit() {
            n = n.wrapping_mul(10).wrapping_add((*byte - b'0') as u64);
        } else if *byte == b',' || *byte == b']' {
            match items.get(at.index) {
                Some(item) if item.as_u64() == Some(n) => {}
                Some(_) => return Some(at),
                None => return None,
            }
            at = OtherCell {
                index: at.index.saturating_add(1),
                start: from.start.saturating_add(passed).saturating_add(1),
            };
            n = 0;
        }
    }
    None
}
