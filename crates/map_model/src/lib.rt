//! Documents of the editor: tile maps as Tiled has them, seen by contracts as records, with look-ups and changes.
//!
//! A look-up or a change takes no memory; what must hold for it is a condition, and no call refuses.
#![tactic(auto)]

mod alike;
mod body;
mod canvas;
mod contents;
mod create;
mod document;
mod edit;
mod fits;
mod groups;
mod heads;
mod here;
mod layers;
pub mod limits;
mod map;
pub mod names;
mod next_ids;
mod objects;
mod owner;
mod parts;
mod place;
mod properties;
mod renumbering;
mod seek;
mod selection;
mod setting;
mod sizes;
mod tilesets;

pub use canvas::{Canvas, LayerCells};
pub use contents::{Cells, JsonValue, Kept, MapText};
pub use document::Document;
pub use edit::{CellEdit, Side};
pub use heads::{LayerHead, MapHead, ObjectHead, TilesetHead};
pub use map::Map;
pub use next_ids::NextIds;
pub use owner::{MemberOwner, Owner};
pub use parts::{
    Body, Encoding, Layer, LayerKind, MapParts, MoreLayerKind, Object, Placing, PropValue,
    Property, Tileset,
};
pub use place::{LayerPlace, ObjectPlace, OwnerPlace};
pub use selection::SelectionMode;
pub use setting::{GivenSetting, OwnedScalar, Scalar, Setting};
pub use sizes::{is_size, is_tile_size};
