// Tilesets.
ghost use Rattle.std.specs.Prelude.{◌≡◌, ◌*◌, ◌≤◌};
ghost use Rattle.serde_json.specs.Find.{get_member};
ghost use Rattle.map_model.specs.declared.names.TheConstants.{TILESETS};
ghost use Rattle.map_model.specs.declared.limits.TheConstants.{MAX_CELLS, MAX_TILESETS};
ghost use Rattle.json_members.specs.Members.{without};
ghost use Rattle.map_values.specs.Presence.{Gives, required};
ghost use Rattle.map_json.specs.Elements.{elements_at};
ghost use Rattle.map_json.specs.Reading.{tileset_at};

use crate::elements::{Element, required_elements};
use crate::size::Size;
use link_chain::Chain;
use map_model::limits::{MAX_FIRST_ID, MAX_TILESETS};
use map_model::{Tileset, names};
use map_values::{JsonObject, MapFault, Trail, optional_text, required_whole};
use refusals::MapRefusal;
use serde_json::Value;
use std::alloc::Global;

impl Element for Tileset {
    ghost reads = { λ _. tileset_at };

    #[tactic(auto, using(crate::proofs::Lacking::takes), unfolding(crate::specs::Reading::tileset_at))]
    fn read<T: Trail>(
        _alloc: Global,
        _size: Size,
        value: Value,
        trail: &mut T,
    ) -> Result<Tileset, MapFault> {
        let mut members = JsonObject::from_value(value).ok_or(MapRefusal::MemberOfAnotherKind)?;
        let first_id = required_whole(&mut members, names::FIRST_ID, 1, MAX_FIRST_ID, trail)?;
        let source = optional_text(&mut members, names::SOURCE, trail)?;
        Ok(Tileset {
            first_id,
            source,
            kept: members.into_kept(),
        })
    }
}

/// The tilesets of a map, which must be there and are taken out.
pub fn required_tilesets<T: Trail>(
    alloc: Global,
    size: Size,
    members: &mut JsonObject,
    trail: &mut T,
) -> Result<Chain<Tileset>, MapFault>
    requires { size.width * size.height ≤ MAX_CELLS }
    ensures value { Gives result
        (required (elements_at MAX_TILESETS tileset_at) (get_member TILESETS.now members.old)) }
    ensures left { members.new ≡ without TILESETS.now members.old }
{
    required_elements(alloc, size, MAX_TILESETS, members, names::TILESETS, trail)
}
