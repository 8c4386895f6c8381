// The heads of tilesets.
use crate::head::Head;
use command_api::OwnerHead;
use fractions::{Fractions, Moved, Place, UNMOVED};
use map_json::{is_tileset_head, is_tileset_member, read_tileset_head, tileset_head_members};
use map_model::{Document, MemberOwner, TilesetHead};
use map_values::{JsonObject, MapFault};
use refusals::EditFault;
use std::alloc::{AllocError, Global};

impl Head for TilesetHead {
    ghost use Rattle.member_commands.specs.Tilesets.{tileset_heads, tileset_heads-laws};

    ghost parts = { tileset_heads };

    ghost laws = { tileset_heads-laws };

    fn owner(first_id: u32) -> MemberOwner {
        MemberOwner::Tileset(first_id)
    }

    fn absence() -> EditFault {
        EditFault::NoSuchTileset
    }

    fn place() -> Place {
        Place::Elsewhere
    }

    fn moved(_fractions: Fractions, _document: &Document) -> Moved {
        UNMOVED
    }

    fn is_own(name: &str) -> bool {
        is_tileset_member(name)
    }

    fn is_there(document: &Document, first_id: u32) -> bool {
        let map = document.map();
        let _ = map.parts();
        map.tileset(first_id).is_some()
    }

    fn members(
        alloc: Global,
        document: &Document,
        first_id: u32,
    ) -> Result<JsonObject, AllocError> {
        let Some(tileset) = document.map().tileset(first_id) else {
            unreachable!();
        };
        tileset_head_members(alloc, tileset)
    }

    fn read(
        _alloc: Global,
        _document: &Document,
        members: JsonObject,
    ) -> Result<TilesetHead, MapFault> {
        Ok(read_tileset_head(members)?)
    }

    fn is_of(&self, document: &Document, first_id: u32) -> bool {
        match document.map().tileset(first_id) {
            Some(tileset) => is_tileset_head(tileset, self),
            None => false,
        }
    }

    fn lend(&self, first_id: u32) -> OwnerHead<'_> {
        OwnerHead::Tileset(first_id, self)
    }

    fn give(self, document: &mut Document, first_id: u32) -> TilesetHead {
        document.set_tileset_head(first_id, self)
    }
}
