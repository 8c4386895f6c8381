// The head of a map: the members that are written of it, the head that members say, and whether a map has one.
ghost use Rattle.std.specs.Prelude.{◌≡◌, ◌↔◌, IfOk, IsTrue};
ghost use Rattle.map_model.specs.Heads.{map_head, map_with_head};
ghost use Rattle.map_model.specs.WellFormed.{layer_ids, object_ids};
ghost use Rattle.map_values.specs.Presence.{Gives};
ghost use Rattle.map_json.specs.Distinctness.{are_below_next};
ghost use Rattle.map_json.specs.MapHeads.{is_map_member, map_head_at, map_head_members, map_head_said};

use crate::doubles::{Ids, ids_of, late_place};
use json_trees::{RESERVED_NAME, members_are_same};
use map_model::limits::MAX_TILE_SIDE;
use map_model::{Map, MapHead, names};
use map_values::{JsonObject, MapFault, NoTrail, required_next_id, required_whole};
use refusals::MapRefusal;
use serde_json::Value;
use std::alloc::{AllocError, Global};

/// Whether a member of this name is a map's own, and no other lines change it.
pub fn is_map_member(name: &str) -> bool
    ensures { result ≡ is_map_member name.now }
{
    !(name == names::WIDTH
        || name == names::HEIGHT
        || name == names::INFINITE
        || name == names::CHUNKS
        || name == names::DATA
        || name == names::OBJECTS
        || name == names::LAYERS
        || name == names::TILESETS
        || name == names::PROPERTIES
        || name == names::TYPE
        || name == names::VERSION
        || name == RESERVED_NAME)
}

/// The members of a map but its size in cells and its lists.
pub fn map_head_members(alloc: Global, map: &Map) -> Result<JsonObject, AllocError>
    ensures { IfOk result (λ members. members ≡ map_head_members (map_head map.now)) }
{
    let parts = map.parts();
    let mut members = JsonObject::from_kept(alloc, &parts.kept)?;
    members.put(
        alloc,
        names::NEXT_OBJECT_ID,
        Value::from(parts.next_object_id),
    )?;
    members.put(
        alloc,
        names::NEXT_LAYER_ID,
        Value::from(parts.next_layer_id),
    )?;
    members.put(alloc, names::TILE_HEIGHT, Value::from(parts.tile_height))?;
    members.put(alloc, names::TILE_WIDTH, Value::from(parts.tile_width))?;
    Ok(members)
}

#[tactic(auto, using(crate::proofs::Lacking::takes), unfolding(crate::specs::MapHeads::map_head_said))]
fn said(mut members: JsonObject) -> Result<MapHead, MapRefusal>
    ensures { result ≡ map_head_said members }
{
    let tile_width = required_whole(
        &mut members,
        names::TILE_WIDTH,
        1,
        MAX_TILE_SIDE,
        &mut NoTrail,
    )?;
    let tile_height = required_whole(
        &mut members,
        names::TILE_HEIGHT,
        1,
        MAX_TILE_SIDE,
        &mut NoTrail,
    )?;
    let next_layer_id = required_next_id(&mut members, names::NEXT_LAYER_ID, &mut NoTrail)?;
    let next_object_id = required_next_id(&mut members, names::NEXT_OBJECT_ID, &mut NoTrail)?;
    Ok(MapHead {
        tile_width,
        tile_height,
        next_layer_id,
        next_object_id,
        kept: members.into_kept(),
    })
}

// Whether each id of a map is below the next one of a head.
fn is_above_ids(map: &Map, ids: &Ids, head: &MapHead) -> bool
    requires layers { ids.now.layers.items ≡ layer_ids map.now.layers }
    requires objects { ids.now.objects.items ≡ object_ids map.now.layers }
    ensures { result ≡ are_below_next (map_with_head head.now map.now) }
{
    late_place(&ids.layers, head.next_layer_id).is_none()
        && late_place(&ids.objects, head.next_object_id).is_none()
}

/// The head that members say, or why a file may not say it of this map: of its ids each must be below the next one.
#[tactic(auto, unfolding(crate::specs::MapHeads::map_head_at))]
pub fn read_map_head(alloc: Global, map: &Map, members: JsonObject) -> Result<MapHead, MapFault>
    ensures { Gives result (map_head_at map.now members) }
{
    let head = said(members)?;
    let ids = ids_of(alloc, &map.parts().layers)?;
    if !is_above_ids(map, &ids, &head) {
        return Err(MapFault::Refused(MapRefusal::OverLimit));
    }
    Ok(head)
}

/// Whether a map has this head.
pub fn is_map_head(map: &Map, head: &MapHead) -> bool
    ensures { IsTrue result ↔ map_head map.now ≡ head.now }
{
    let parts = map.parts();
    parts.tile_width == head.tile_width
        && parts.tile_height == head.tile_height
        && parts.next_layer_id == head.next_layer_id
        && parts.next_object_id == head.next_object_id
        && members_are_same(parts.kept.members(), head.kept.members())
}
