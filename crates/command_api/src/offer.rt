use map_model::{
    CellEdit, JsonValue, LayerHead, MapHead, MemberOwner, ObjectHead, Owner, Placing, Scalar,
    Setting, TilesetHead,
};

/// The head of an owner: what it is beside its id and its lists. Of a tileset it may be the value alone of the member that is named.
#[derive(Drop)]
pub enum OwnerHead<'a> {
    /// That of the object with this id.
    Object(u32, &'a ObjectHead),
    /// That of the layer with this id.
    Layer(u32, &'a LayerHead),
    /// That of the tileset with this first id.
    Tileset(u32, &'a TilesetHead),
    /// That of the map.
    Map(&'a MapHead),
    /// The value of the own member that is named, of the tileset with this first id.
    TilesetMember(u32, &'a JsonValue),
}

impl<'a> OwnerHead<'a> {
    ghost use Rattle.std.specs.Prelude.{◌≡◌};
    ghost use Rattle.command_api.specs.Heads.{head_owner, shown_head};

    /// The owner that has the head.
    pub fn owner(&self) -> MemberOwner
        ensures { result ≡ head_owner (shown_head self.now) }
    {
        match self {
            OwnerHead::Object(object, _) => MemberOwner::Object(*object),
            OwnerHead::Layer(layer, _) => MemberOwner::Layer(*layer),
            OwnerHead::Tileset(first_id, _) => MemberOwner::Tileset(*first_id),
            OwnerHead::Map(_) => MemberOwner::Map,
            OwnerHead::TilesetMember(first_id, _) => MemberOwner::Tileset(*first_id),
        }
    }
}

/// What a command shows to the one before it: its change in the open.
#[derive(Drop)]
pub enum Offer<'a> {
    /// A command that does not follow shows nothing.
    Nothing,
    /// The cells that a paint with this id changes on a tile layer, in row order, each once.
    Cells {
        id: u32,
        layer: u32,
        cells: &'a [CellEdit],
    },
    /// The object with an id is moved.
    Place {
        object: u32,
        before: Placing,
        after: Placing,
    },
    /// The owner's property with a name gets a type and a value. Before, it had others, or was not there.
    Value {
        owner: Owner,
        name: &'a str,
        before: Option<&'a Setting>,
        kind: &'a str,
        value: Scalar<'a>,
    },
    /// The owner's own member with a name is set, or several are at once. Before, the owner had this head, or the member this value.
    Member {
        name: Option<&'a str>,
        before: OwnerHead<'a>,
    },
}
