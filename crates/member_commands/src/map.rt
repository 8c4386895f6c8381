// The heads of maps.
use crate::head::Head;
use command_api::OwnerHead;
use fractions::{Fractions, Moved, Place, UNMOVED};
use map_json::{is_map_head, is_map_member, map_head_members, read_map_head};
use map_model::{Document, MapHead, MemberOwner};
use map_values::{JsonObject, MapFault};
use refusals::EditFault;
use std::alloc::{AllocError, Global};

impl Head for MapHead {
    ghost use Rattle.member_commands.specs.Maps.{map_heads, map_heads-laws};

    ghost parts = { map_heads };

    ghost laws = { map_heads-laws };

    fn owner(_id: u32) -> MemberOwner {
        MemberOwner::Map
    }

    // (a document has a map, so nothing is refused as this)
    fn absence() -> EditFault {
        EditFault::NoSuchLayer
    }

    fn place() -> Place {
        Place::Elsewhere
    }

    fn moved(_fractions: Fractions, _document: &Document) -> Moved {
        UNMOVED
    }

    fn is_own(name: &str) -> bool {
        is_map_member(name)
    }

    fn is_there(document: &Document, _id: u32) -> bool {
        let _ = document.map().parts();
        true
    }

    fn members(alloc: Global, document: &Document, _id: u32) -> Result<JsonObject, AllocError> {
        map_head_members(alloc, document.map())
    }

    fn read(alloc: Global, document: &Document, members: JsonObject) -> Result<MapHead, MapFault> {
        read_map_head(alloc, document.map(), members)
    }

    fn is_of(&self, document: &Document, _id: u32) -> bool {
        is_map_head(document.map(), self)
    }

    fn lend(&self, _id: u32) -> OwnerHead<'_> {
        OwnerHead::Map(self)
    }

    fn give(self, document: &mut Document, _id: u32) -> MapHead {
        document.set_map_head(self)
    }
}
