// The heads of objects.
ghost use Rattle.std.specs.Prelude.{◌≡◌};
ghost use Rattle.member_commands.specs.Objects.{is_object_member};

use crate::head::Head;
use command_api::OwnerHead;
use fractions::{Fractions, Moved, Place};
use json_trees::RESERVED_NAME;
use map_json::{is_object_head, moved_in, object_head_members, read_object_head};
use map_model::{Document, MemberOwner, ObjectHead, names};
use map_values::{JsonObject, MapFault};
use refusals::EditFault;
use std::alloc::{AllocError, Global};

// Whether the lines of own members change the member of an object that has this name.
fn is_object_member(name: &str) -> bool
    ensures { result ≡ is_object_member name.now }
{
    !(name == names::ID || name == names::PROPERTIES || name == RESERVED_NAME)
}

impl Head for ObjectHead {
    ghost use Rattle.member_commands.specs.Objects.{object_heads, object_heads-laws};

    ghost parts = { object_heads };

    ghost laws = { object_heads-laws };

    fn owner(id: u32) -> MemberOwner {
        MemberOwner::Object(id)
    }

    fn absence() -> EditFault {
        EditFault::NoSuchObject
    }

    fn place() -> Place {
        Place::Object
    }

    fn moved(fractions: Fractions, document: &Document) -> Moved {
        moved_in(fractions, document.map())
    }

    fn is_own(name: &str) -> bool {
        is_object_member(name)
    }

    fn is_there(document: &Document, id: u32) -> bool {
        document.map().object(id).is_some()
    }

    fn members(alloc: Global, document: &Document, id: u32) -> Result<JsonObject, AllocError> {
        let Some((_, object)) = document.map().object(id) else {
            unreachable!();
        };
        object_head_members(alloc, object)
    }

    fn read(
        _alloc: Global,
        _document: &Document,
        members: JsonObject,
    ) -> Result<ObjectHead, MapFault> {
        Ok(read_object_head(members)?)
    }

    fn is_of(&self, document: &Document, id: u32) -> bool {
        match document.map().object(id) {
            Some((_, object)) => is_object_head(object, self),
            None => false,
        }
    }

    fn lend(&self, id: u32) -> OwnerHead<'_> {
        OwnerHead::Object(id, self)
    }

    fn give(self, document: &mut Document, id: u32) -> ObjectHead {
        let Some((place, _)) = document.map().object(id) else {
            unreachable!();
        };
        document.set_object_head(place, self)
    }
}
