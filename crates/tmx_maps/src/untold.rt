// Where a map says what XML can't.
use crate::fault::Fault;
use crate::place::{Place, inner_place, place_of};
use crate::reading::tree_in;
use crate::same_map::{is_same_at, is_same_map};
use crate::usual::is_left_out;
use map_layout::read_tree;
use serde_json::{Map, Value};
use std::alloc::{AllocError, Global};
use tmx_writer::written;

// Where two values stand.
#[derive(Clone, Copy)]
struct Places {
    one: Place,
    other: Place,
}

fn push_name(name: &str, path: &mut Vec<u8>) -> Result<(), AllocError> {
    if !path.is_empty() {
        path.push(b'.')?;
    }
    path.extend_from_slice(name.as_bytes())
}

fn push_index(at: usize, path: &mut Vec<u8>) -> Result<(), AllocError> {
    path.push(b'[')?;
    path.extend_from_slice(itoa::Buffer::new().format(at).as_bytes())?;
    path.push(b']')?;
    Ok(())
}

// Pushes the name of a member that the first has not.
fn push_absent(
    places: Places,
    one: &Map<String, Value>,
    other: &Map<String, Value>,
    path: &mut Vec<u8>,
) -> Result<(), AllocError> {
    for (name, value) in other.iter() {
        if !is_left_out(places.other, name.as_str(), value) && one.get(name.as_str()).is_none() {
            return push_name(name.as_str(), path);
        }
    }
    Ok(())
}

#[cycle(untold)]
fn push_member(
    places: Places,
    one: &Map<String, Value>,
    other: &Map<String, Value>,
    path: &mut Vec<u8>,
) -> Result<(), AllocError> {
    for (name, value) in one.iter() {
        if is_left_out(places.one, name.as_str(), value) {
            continue;
        }
        let Some(next) = other.get(name.as_str()) else {
            return push_name(name.as_str(), path);
        };
        let inner = Places {
            one: inner_place(places.one, name.as_str()),
            other: inner_place(places.other, name.as_str()),
        };
        if !is_same_at(inner.one, value, inner.other, next) {
            push_name(name.as_str(), path)?;
            return push_place(inner, value, next, path);
        }
    }
    push_absent(places, one, other, path)
}

#[cycle(untold)]
fn push_item(
    places: Places,
    one: &Vec<Value>,
    other: &Vec<Value>,
    path: &mut Vec<u8>,
) -> Result<(), AllocError> {
    for (at, (value, next)) in one.iter().zip(other.iter()).enumerate() {
        if !is_same_at(places.one, value, places.other, next) {
            push_index(at, path)?;
            return push_place(places, value, next, path);
        }
    }
    Ok(())
}

// Pushes the way from two values to the first place where they differ.
#[cycle(untold)]
fn push_place(
    places: Places,
    one: &Value,
    other: &Value,
    path: &mut Vec<u8>,
) -> Result<(), AllocError> {
    match one {
        Value::Object(a) => match other {
            Value::Object(b) => {
                let inner = Places {
                    one: place_of(places.one, a),
                    other: place_of(places.other, b),
                };
                push_member(inner, a, b, path)
            }
            _ => Ok(()),
        },
        Value::Array(a) => match other {
            Value::Array(b) => push_item(places, a, b, path),
            _ => Ok(()),
        },
        Value::Null | Value::Bool(_) | Value::Number(_) | Value::String(_) => Ok(()),
    }
}

/// Where a map says what XML can't: the way to the first member that is not read again when all is told anew, as
/// `layers[0].objects[2].name`. It is empty where all is.
///
/// `NotXml` and `NotAMap` say why the text that is told anew can't be read at all; its bytes are not those of a source.
pub fn where_untold(alloc: Global, json: &[u8]) -> Result<Vec<u8>, Fault> {
    let Some(map) = read_tree(alloc, json)? else {
        return Err(Fault::NotJson);
    };
    let text = written(alloc, &map, b"")?;
    let tree = tree_in(alloc, &text)?;
    let mut path = Vec::new(alloc);
    if !is_same_map(&map, &tree) {
        let places = Places {
            one: Place::Thing,
            other: Place::Thing,
        };
        push_place(places, &map, &tree, &mut path)?;
    }
    Ok(path)
}
