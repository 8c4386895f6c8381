// The head of an object: the members that are written of it, and the head that members say.
ghost use Rattle.std.specs.Prelude.{◌≡◌, IfOk};
ghost use Rattle.map_model.specs.Heads.{object_head};
ghost use Rattle.map_json.specs.ObjectHeads.{head_at, head_members};

use crate::object::{optional_gid, placing};
use crate::writing::{
    optional_gid_tree, optional_pixels_tree, optional_text_tree, optional_truth_tree,
};
use map_model::{Object, ObjectHead, names};
use map_values::{JsonObject, NoTrail, optional_text, optional_truth};
use refusals::MapRefusal;
use std::alloc::{AllocError, Global};

/// The members of an object but its id and its properties.
pub fn object_head_members(alloc: Global, object: &Object) -> Result<JsonObject, AllocError>
    ensures { IfOk result (λ members. members ≡ head_members (object_head object.now)) }
{
    let mut members = JsonObject::from_kept(alloc, &object.kept)?;
    members.put_some(alloc, names::GID, optional_gid_tree(object.gid))?;
    members.put_some(alloc, names::VISIBLE, optional_truth_tree(object.visible))?;
    members.put_some(alloc, names::NAME, optional_text_tree(alloc, &object.name)?)?;
    members.put_some(
        alloc,
        names::HEIGHT,
        optional_pixels_tree(object.placing.height),
    )?;
    members.put_some(
        alloc,
        names::WIDTH,
        optional_pixels_tree(object.placing.width),
    )?;
    members.put_some(alloc, names::Y, optional_pixels_tree(object.placing.y))?;
    members.put_some(alloc, names::X, optional_pixels_tree(object.placing.x))?;
    Ok(members)
}

/// The head that members say, or why an object of a file may not say it.
#[tactic(auto, using(crate::proofs::Bodies::placings), unfolding(crate::specs::ObjectHeads::head_at))]
pub fn read_object_head(mut members: JsonObject) -> Result<ObjectHead, MapRefusal>
    ensures { result ≡ head_at members }
{
    members.remove(names::ID);
    let placing = placing(&mut members, &mut NoTrail)?;
    let name = optional_text(&mut members, names::NAME, &mut NoTrail)?;
    let visible = optional_truth(&mut members, names::VISIBLE, &mut NoTrail)?;
    let gid = optional_gid(&mut members, &mut NoTrail)?;
    members.remove(names::PROPERTIES);
    Ok(ObjectHead {
        placing,
        name,
        visible,
        gid,
        kept: members.into_kept(),
    })
}
