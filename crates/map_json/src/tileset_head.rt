// The head of a tileset: the members that are written of it, the head that members say, and whether a tileset has one.
ghost use Rattle.std.specs.Prelude.{◌≡◌, ◌↔◌, IfOk, IsTrue};
ghost use Rattle.map_model.specs.Heads.{tileset_head};
ghost use Rattle.map_json.specs.TilesetHeads.{is_tileset_member, tileset_head_at, tileset_head_members};

use crate::same_head::is_text;
use crate::writing::optional_text_tree;
use json_trees::{RESERVED_NAME, members_are_same};
use map_model::{Tileset, TilesetHead, names};
use map_values::{JsonObject, NoTrail, optional_text};
use refusals::MapRefusal;
use std::alloc::{AllocError, Global};

/// Whether a member of this name is a tileset's own, and no other lines change it.
pub fn is_tileset_member(name: &str) -> bool
    ensures { result ≡ is_tileset_member name.now }
{
    !(name == names::FIRST_ID || name == RESERVED_NAME)
}

/// The members of a tileset but its first id.
pub fn tileset_head_members(alloc: Global, tileset: &Tileset) -> Result<JsonObject, AllocError>
    ensures { IfOk result (λ members. members ≡ tileset_head_members (tileset_head tileset.now)) }
{
    let mut members = JsonObject::from_kept(alloc, &tileset.kept)?;
    members.put_some(
        alloc,
        names::SOURCE,
        optional_text_tree(alloc, &tileset.source)?,
    )?;
    Ok(members)
}

/// The head that members say, or why a tileset of a file may not say it.
#[tactic(auto, using(crate::proofs::Lacking::takes), unfolding(crate::specs::TilesetHeads::tileset_head_at))]
pub fn read_tileset_head(mut members: JsonObject) -> Result<TilesetHead, MapRefusal>
    ensures { result ≡ tileset_head_at members }
{
    members.remove(names::FIRST_ID);
    let source = optional_text(&mut members, names::SOURCE, &mut NoTrail)?;
    Ok(TilesetHead {
        source,
        kept: members.into_kept(),
    })
}

/// Whether a tileset has this head.
pub fn is_tileset_head(tileset: &Tileset, head: &TilesetHead) -> bool
    ensures { IsTrue result ↔ tileset_head tileset.now ≡ head.now }
{
    is_text(&tileset.source, &head.source)
        && members_are_same(tileset.kept.members(), head.kept.members())
}
