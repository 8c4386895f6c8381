// The heads of layers.
use crate::head::Head;
use command_api::OwnerHead;
use fractions::{Fractions, Moved, Place, UNMOVED};
use map_json::{is_layer_head, is_layer_member, layer_head_members, read_layer_head};
use map_model::{Document, LayerHead, MemberOwner};
use map_values::{JsonObject, MapFault};
use refusals::EditFault;
use std::alloc::{AllocError, Global};

impl Head for LayerHead {
    ghost use Rattle.member_commands.specs.Layers.{layer_heads, layer_heads-laws};

    ghost parts = { layer_heads };

    ghost laws = { layer_heads-laws };

    fn owner(id: u32) -> MemberOwner {
        MemberOwner::Layer(id)
    }

    fn absence() -> EditFault {
        EditFault::NoSuchLayer
    }

    fn place() -> Place {
        Place::Elsewhere
    }

    fn moved(_fractions: Fractions, _document: &Document) -> Moved {
        UNMOVED
    }

    fn is_own(name: &str) -> bool {
        is_layer_member(name)
    }

    fn is_there(document: &Document, id: u32) -> bool {
        let map = document.map();
        let _ = map.parts();
        map.layer(id).is_some()
    }

    fn members(alloc: Global, document: &Document, id: u32) -> Result<JsonObject, AllocError> {
        let Some(layer) = document.map().layer(id) else {
            unreachable!();
        };
        layer_head_members(alloc, layer)
    }

    fn read(
        alloc: Global,
        _document: &Document,
        members: JsonObject,
    ) -> Result<LayerHead, MapFault> {
        Ok(read_layer_head(alloc, members)?)
    }

    fn is_of(&self, document: &Document, id: u32) -> bool {
        match document.map().layer(id) {
            Some(layer) => is_layer_head(layer, self),
            None => false,
        }
    }

    fn lend(&self, id: u32) -> OwnerHead<'_> {
        OwnerHead::Layer(id, self)
    }

    fn give(self, document: &mut Document, id: u32) -> LayerHead {
        document.set_layer_head(id, self)
    }
}
