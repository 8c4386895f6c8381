// The value of an own member of a tileset, which a command exchanges alone.
ghost use Rattle.std.specs.Prelude.{IsSome};

use crate::set_head::SetHead;
use map_model::{JsonValue, MapText, TilesetHead};

/// The own member of a tileset that has this name gets another value. The command holds the one that the tileset does not have.
#[derive(Drop)]
pub struct SetValue {
    pub(crate) first_id: u32,
    pub(crate) name: MapText,
    pub(crate) follows: bool,
    pub(crate) value: Option<JsonValue>,
    pub(crate) is_made: bool,
    // Whether the tileset's value and the command's are the same.
    pub(crate) is_same: bool,
    ghost holds: { IsSome value },
}

/// An own member of a tileset is set.
#[derive(Drop)]
pub enum SetTileset {
    /// The tileset has the member, which gets another value.
    Value(SetValue),
    /// The tileset gets another head.
    Head(SetHead<TilesetHead>),
}
