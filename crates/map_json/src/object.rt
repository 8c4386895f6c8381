// Objects of an object layer.
ghost use Rattle.std.specs.Prelude.{◌≡◌, IfOk};
ghost use Rattle.serde_json.specs.Find.{get_member};
ghost use Rattle.map_model.specs.declared.names.TheConstants.{X, Y, WIDTH, HEIGHT, GID};
ghost use Rattle.json_members.specs.Members.{without};
ghost use Rattle.map_values.specs.Presence.{optional};
ghost use Rattle.map_values.specs.Scalars.{whole_at};
ghost use Rattle.map_json.specs.Reading.{object_at, placing_of};

use crate::elements::Element;
use crate::property::properties_or_none;
use crate::size::Size;
use map_model::{Object, Placing, names};
use map_values::{
    JsonObject, MapFault, Trail, optional_pixels, optional_text, optional_truth, optional_whole,
    required_id,
};
use refusals::MapRefusal;
use serde_json::Value;
use std::alloc::Global;
use tile_id::Gid;

/// Where an object stands, and how large it is; the members are taken out.
#[tactic(auto, using(crate::proofs::Lacking::takes), unfolding(crate::specs::Reading::placing_of))]
pub fn placing<T: Trail>(members: &mut JsonObject, trail: &mut T) -> Result<Placing, MapRefusal>
    ensures value { result ≡ placing_of members.old }
    ensures left { IfOk result (λ placing. members.new ≡ without HEIGHT.now (without WIDTH.now (without Y.now (without X.now members.old)))) }
{
    Ok(Placing {
        x: optional_pixels(members, names::X, trail)?,
        y: optional_pixels(members, names::Y, trail)?,
        width: optional_pixels(members, names::WIDTH, trail)?,
        height: optional_pixels(members, names::HEIGHT, trail)?,
    })
}

/// A value of a tile that may be absent; the member is taken out.
pub fn optional_gid<T: Trail>(
    members: &mut JsonObject,
    trail: &mut T,
) -> Result<Option<Gid>, MapRefusal>
    ensures value { result ≡ optional (whole_at 0 4294967295) (get_member GID.now members.old) }
    ensures left { members.new ≡ without GID.now members.old }
{
    match optional_whole(members, names::GID, 0, u32::MAX, trail)? {
        Some(value) => Ok(Some(Gid(value))),
        None => Ok(None),
    }
}

impl Element for Object {
    ghost reads = { λ _. object_at };

    #[tactic(auto, using(crate::proofs::Bodies::placings), unfolding(crate::specs::Reading::object_at))]
    fn read<T: Trail>(
        alloc: Global,
        size: Size,
        value: Value,
        trail: &mut T,
    ) -> Result<Object, MapFault> {
        let mut members = JsonObject::from_value(value).ok_or(MapRefusal::MemberOfAnotherKind)?;
        let id = required_id(&mut members, trail)?;
        let placing = placing(&mut members, trail)?;
        let name = optional_text(&mut members, names::NAME, trail)?;
        let visible = optional_truth(&mut members, names::VISIBLE, trail)?;
        let gid = optional_gid(&mut members, trail)?;
        let properties = properties_or_none(alloc, size, &mut members, trail)?;
        Ok(Object {
            id,
            placing,
            name,
            visible,
            gid,
            properties,
            kept: members.into_kept(),
        })
    }
}
