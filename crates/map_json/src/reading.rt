// A map from its text.
ghost use Rattle.std.specs.Prelude.{◌≡◌, option_map};
ghost use Rattle.serde_json.specs.View.{view as data_of};
ghost use Rattle.map_values.specs.Presence.{Gives};
ghost use Rattle.map_json.specs.Maps.{is_map_type, parts_of, consistent, map_of, Says};

use crate::doubles::{are_below_next, ids_are_unique, ids_of};
use crate::floats::has_fraction;
use crate::layer::map_layers;
use crate::property::properties_or_none;
use crate::size::Size;
use crate::tileset::required_tilesets;
use map_model::limits::{MAX_CELLS, MAX_SIDE, MAX_TILE_SIDE};
use map_model::{Map, MapParts, names};
use map_values::{
    JsonObject, MapFault, NoTrail, Segment, Trail, required_next_id, required_whole, truth_or,
};
use refusals::MapRefusal;
use serde_json::Value;
use std::alloc::Global;

#[tactic(auto, using(crate::proofs::Lacking::takes), unfolding(crate::specs::Maps::parts_of))]
fn parts_of<T: Trail>(
    alloc: Global,
    mut members: JsonObject,
    trail: &mut T,
) -> Result<MapParts, MapFault>
    ensures { Gives result (parts_of members) }
{
    let width = required_whole(&mut members, names::WIDTH, 1, MAX_SIDE, trail)?;
    let height = required_whole(&mut members, names::HEIGHT, 1, MAX_SIDE, trail)?;
    if width as usize * height as usize > MAX_CELLS {
        trail.enter(Segment::Member(names::HEIGHT));
        return Err(MapFault::Refused(MapRefusal::OverLimit));
    }
    let size = Size { width, height };
    let tile_width = required_whole(&mut members, names::TILE_WIDTH, 1, MAX_TILE_SIDE, trail)?;
    let tile_height = required_whole(&mut members, names::TILE_HEIGHT, 1, MAX_TILE_SIDE, trail)?;
    if truth_or(&mut members, names::INFINITE, false, trail)? {
        trail.enter(Segment::Member(names::INFINITE));
        return Err(MapFault::Refused(MapRefusal::Infinite));
    }
    let next_layer_id = required_next_id(&mut members, names::NEXT_LAYER_ID, trail)?;
    let next_object_id = required_next_id(&mut members, names::NEXT_OBJECT_ID, trail)?;
    let layers = map_layers(alloc, size, &mut members, trail)?;
    let tilesets = required_tilesets(alloc, size, &mut members, trail)?;
    let properties = properties_or_none(alloc, size, &mut members, trail)?;
    members.remove(names::TYPE);
    members.remove(names::VERSION);
    Ok(MapParts {
        width,
        height,
        tile_width,
        tile_height,
        layers,
        tilesets,
        properties,
        next_layer_id,
        next_object_id,
        kept: members.into_kept(),
    })
}

#[tactic(auto, unfolding(crate::specs::Maps::consistent))]
fn consistent<T: Trail>(alloc: Global, parts: MapParts, trail: &mut T) -> Result<MapParts, MapFault>
    ensures { Gives result (consistent parts) }
{
    let ids = ids_of(alloc, &parts.layers)?;
    if !ids_are_unique(alloc, &parts, &ids, trail)? {
        return Err(MapFault::Refused(MapRefusal::IdUsedTwice));
    }
    if !are_below_next(&parts, &ids, trail) {
        return Err(MapFault::Refused(MapRefusal::OverLimit));
    }
    Ok(parts)
}

fn is_map_type(member: Option<&Value>) -> bool
    ensures { result ≡ is_map_type (option_map (λ value. data_of value.now) member.entry) }
{
    match member {
        Some(value) => match value.as_str() {
            Some(text) => text == "map",
            None => false,
        },
        None => false,
    }
}

#[tactic(auto, unfolding(crate::specs::Maps::map_of))]
fn map_of<T: Trail>(alloc: Global, value: Value, trail: &mut T) -> Result<MapParts, MapFault>
    ensures { Gives result (map_of (data_of value)) }
{
    if has_fraction(&value, trail) {
        return Err(MapFault::Refused(MapRefusal::Fraction));
    }
    let members = JsonObject::from_value(value).ok_or(MapRefusal::NotAMap)?;
    trail.enter(Segment::Member(names::TYPE));
    if !is_map_type(members.get(names::TYPE)) {
        return Err(MapFault::Refused(MapRefusal::NotAMap));
    }
    trail.leave();
    let parts = parts_of(alloc, members, trail)?;
    consistent(alloc, parts, trail)
}

/// The map that the bytes of a file spell, or the first fault in the order of reading.
///
/// `NotJson` comes exactly where the bytes have no tree; where there is no memory the answer is `Memory` alone.
pub fn read_map(alloc: Global, bytes: &[u8]) -> Result<Map, MapFault>
    ensures { Says bytes.now result }
{
    read_map_along(alloc, bytes, &mut NoTrail)
}

/// What `read_map` answers. The trail begins at the root.
///
/// After a refusal other than `NotJson` the trail stands at the place of the fault: what was entered and not left. A
/// member that is absent is entered as well. After any other answer it says nothing.
pub fn read_map_along<T: Trail>(alloc: Global, bytes: &[u8], trail: &mut T) -> Result<Map, MapFault>
    ensures { Says bytes.now result }
{
    match Value::from_slice(alloc, bytes) {
        Ok(value) => Ok(Map::from_parts(map_of(alloc, value, trail)?)),
        Err(error) => {
            if error.is_memory() {
                Err(MapFault::Memory)
            } else {
                Err(MapFault::Refused(MapRefusal::NotJson))
            }
        }
    }
}
