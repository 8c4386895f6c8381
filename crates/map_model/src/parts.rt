// The records of a map.
use crate::contents::{Cells, JsonValue, Kept, MapText};
use link_chain::Chain;
use link_tree::LinkTree;
use tile_id::Gid;

/// How a file spells the values of a tile layer: as numbers, or as base64.
#[derive(Clone, Copy, PartialEq, Eq, Debug)]
pub enum Encoding {
    Array,
    Base64,
}

/// The value of a property.
#[derive(Drop)]
pub enum PropValue {
    Text(MapText),
    Whole(i64),
    Truth(bool),
    /// Any other JSON value, kept as it is.
    Other(JsonValue),
}

/// A property of a map, a layer or an object.
#[derive(Drop)]
pub struct Property {
    pub name: MapText,
    /// The property's type, as Tiled names it.
    pub kind: MapText,
    pub value: PropValue,
    pub kept: Kept,
}

/// Where an object stands and how large it is, in pixels; a member that is absent in the file is `None`.
#[derive(Clone, Copy, PartialEq, Eq, Debug)]
pub struct Placing {
    pub x: Option<i32>,
    pub y: Option<i32>,
    pub width: Option<i32>,
    pub height: Option<i32>,
}

/// An object of an object layer.
#[derive(Drop)]
pub struct Object {
    pub id: u32,
    pub placing: Placing,
    pub name: Option<MapText>,
    pub visible: Option<bool>,
    pub gid: Option<Gid>,
    pub properties: Chain<Property>,
    pub kept: Kept,
}

/// What a layer holds.
#[cycle(layers)]
#[derive(Drop)]
pub enum Body {
    /// A tile layer: how a file spells it, and its values.
    Tiles(Encoding, Cells),
    /// An object layer.
    Objects(LinkTree<Object>),
    /// An image layer.
    Other,
    /// A group: the layers that stand in it.
    Group(Chain<Layer>),
}

/// A kind of layer that can be added to a map.
#[derive(Clone, Copy, PartialEq, Eq, Debug)]
pub enum LayerKind {
    Tile,
    Object,
}

/// A further kind of layer that can be added to a map.
#[derive(Clone, Copy, PartialEq, Eq, Debug)]
pub enum MoreLayerKind {
    Group,
    Image,
}

/// A layer.
#[cycle(layers)]
#[derive(Drop)]
pub struct Layer {
    pub id: u32,
    pub name: MapText,
    pub visible: bool,
    pub properties: Chain<Property>,
    pub kept: Kept,
    pub body: Body,
}

/// A set of tiles, whose values begin at its first id.
#[derive(Drop)]
pub struct Tileset {
    pub first_id: u32,
    pub source: Option<MapText>,
    pub kept: Kept,
}

/// The parts of a map: sizes in cells and in pixels, the layers that stand in no group, in drawing order.
#[derive(Drop)]
pub struct MapParts {
    pub width: u32,
    pub height: u32,
    pub tile_width: u32,
    pub tile_height: u32,
    pub layers: Chain<Layer>,
    pub tilesets: Chain<Tileset>,
    pub properties: Chain<Property>,
    pub next_layer_id: u32,
    pub next_object_id: u32,
    pub kept: Kept,
}
