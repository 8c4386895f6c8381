//! By what the items of an array are found again, wherever they stand now.
use serde_json::Value;
use std::alloc::{AllocError, Global};
use std::collections::BTreeMap;

/// The members that tell items apart: of layers and objects, of properties, of tilesets, of frames and colours.
const NAMES: [&str; 4] = ["id", "name", "firstgid", "tileid"];

/// Where the items of an array stand.
#[derive(Drop)]
pub struct Keys {
    places: BTreeMap<String, usize>,
}

// The first of the members that an item has as a number or a text.
fn key_of(alloc: Global, item: &Value) -> Result<Option<String>, AllocError> {
    let Value::Object(members) = item else {
        return Ok(None);
    };
    for name in &NAMES {
        if let Some(value) = members.get(*name) {
            if value.is_number() || value.is_string() {
                let mut key = value.to_string(alloc)?;
                key.push_str(*name)?;
                return Ok(Some(key));
            }
        }
    }
    Ok(None)
}

impl Keys {
    /// The places of some items, if each has a key and no two have the same.
    pub fn of(alloc: Global, items: &[Value]) -> Result<Option<Keys>, AllocError> {
        let mut places = BTreeMap::new(alloc);
        for (place, item) in items.iter().enumerate() {
            let Some(key) = key_of(alloc, item)? else {
                return Ok(None);
            };
            if places.insert(key, place)?.is_some() {
                return Ok(None);
            }
        }
        Ok(Some(Keys { places }))
    }

    /// Where the item with the key of this one stands.
    pub fn place_of(&self, alloc: Global, item: &Value) -> Result<Option<usize>, AllocError> {
        let Some(key) = key_of(alloc, item)? else {
            return Ok(None);
        };
        match self.places.get(key.as_str()) {
            Some(place) => Ok(Some(*place)),
            None => Ok(None),
        }
    }
}
