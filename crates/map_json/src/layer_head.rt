// The head of a layer: the members that are written of it, the head that members say, and whether a layer has one.
ghost use Rattle.std.specs.Prelude.{◌≡◌, ◌↔◌, IfOk, IsTrue};
ghost use Rattle.map_model.specs.Heads.{layer_head};
ghost use Rattle.map_json.specs.LayerHeads.{is_layer_member, layer_head_at, layer_head_members};

use crate::writing::text_tree;
use json_trees::{RESERVED_NAME, members_are_same};
use map_model::{Layer, LayerHead, MapText, names};
use map_values::{JsonObject, NoTrail, optional_text, truth_or};
use refusals::MapRefusal;
use serde_json::Value;
use std::alloc::{AllocError, Global};

/// Whether a member of this name is a layer's own, whatever the layer holds, and no other lines change it.
pub fn is_layer_member(name: &str) -> bool
    ensures { result ≡ is_layer_member name.now }
{
    !(name == names::ID
        || name == names::TYPE
        || name == names::PROPERTIES
        || name == names::DATA
        || name == names::CHUNKS
        || name == names::START_X
        || name == names::START_Y
        || name == names::OBJECTS
        || name == names::LAYERS
        || name == names::WIDTH
        || name == names::HEIGHT
        || name == names::ENCODING
        || name == names::COMPRESSION
        || name == RESERVED_NAME)
}

/// The members of a layer but its id, its properties and those of what it holds.
pub fn layer_head_members(alloc: Global, layer: &Layer) -> Result<JsonObject, AllocError>
    ensures { IfOk result (λ members. members ≡ layer_head_members (layer_head layer.now)) }
{
    let mut members = JsonObject::from_kept(alloc, &layer.kept)?;
    members.put(alloc, names::VISIBLE, Value::from(layer.visible))?;
    members.put(alloc, names::NAME, text_tree(alloc, layer.name.as_str())?)?;
    Ok(members)
}

/// The head that members say, or why a layer of a file may not say it.
#[tactic(auto, using(crate::proofs::Lacking::takes), unfolding(crate::specs::LayerHeads::layer_head_at))]
pub fn read_layer_head(alloc: Global, mut members: JsonObject) -> Result<LayerHead, MapRefusal>
    ensures { result ≡ layer_head_at members }
{
    let name = match optional_text(&mut members, names::NAME, &mut NoTrail)? {
        Some(name) => name,
        None => MapText::new(String::new(alloc)),
    };
    let visible = truth_or(&mut members, names::VISIBLE, true, &mut NoTrail)?;
    Ok(LayerHead {
        name,
        visible,
        kept: members.into_kept(),
    })
}

/// Whether a layer has this head.
pub fn is_layer_head(layer: &Layer, head: &LayerHead) -> bool
    ensures { IsTrue result ↔ layer_head layer.now ≡ head.now }
{
    layer.name.as_str() == head.name.as_str()
        && layer.visible == head.visible
        && members_are_same(layer.kept.members(), head.kept.members())
}
