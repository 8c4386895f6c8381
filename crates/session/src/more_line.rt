use crate::text::Text;
use map_model::{MemberOwner, MoreLayerKind, Owner};

/// What a line for all edits asks for. Its texts are borrowed from the line.
#[derive(Drop)]
pub enum MoreLine<'a> {
    /// The own member of this name gets the value that a JSON text says. Where it follows, it merges with the step before it, if
    /// that sets the same member.
    SetMember {
        owner: MemberOwner,
        name: Text<'a>,
        json: Text<'a>,
        follows: bool,
    },
    /// Each own member that a JSON text names gets the value that it says, all at once. Where it follows, it merges with the step
    /// before it, if that does so of the same owner.
    PutMembers {
        owner: MemberOwner,
        json: Text<'a>,
        follows: bool,
    },
    /// The own member of this name is taken out.
    RemoveMember {
        owner: MemberOwner,
        name: Text<'a>,
    },
    /// A new layer of that kind and with that name.
    AddLayer {
        kind: MoreLayerKind,
        name: Text<'a>,
    },
    /// The object that a JSON text says goes into the layer.
    PutObject {
        layer: u32,
        json: Text<'a>,
    },
    /// The object goes into the layer, which may be its own, to that place among its other objects, where the first one is at 0.
    ReparentObject {
        object: u32,
        layer: u32,
        place: u32,
    },
    /// The layer, with all in it, goes into the group, or out of all groups where that is 0, to that place among the other layers
    /// there, where the first one is at 0.
    ReparentLayer {
        layer: u32,
        group: u32,
        place: u32,
    },
    /// The layer that a JSON text says, with all in it, goes into the group, or into no group where that is 0, to that place among the
    /// layers there, where the first one is at 0.
    PutLayer {
        group: u32,
        place: u32,
        json: Text<'a>,
    },
    /// The property that a JSON text says is put in, or takes the place of the one of its name.
    PutProperty {
        owner: Owner,
        json: Text<'a>,
    },
    /// The property whose name a JSON text says is taken out.
    TakeProperty {
        owner: Owner,
        json: Text<'a>,
    },
    /// The tileset that a JSON text says goes into the map.
    PutTileset {
        json: Text<'a>,
    },
    /// The tileset with a first id gets another one, and its values go along.
    NumberTileset {
        first_id: u32,
        number: u32,
    },
    /// The map gets so many columns more on its left and right, and so many rows more at its top and bottom.
    Extend {
        left: u32,
        top: u32,
        right: u32,
        bottom: u32,
    },
}
