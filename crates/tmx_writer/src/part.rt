// The parts of a map that are elements.
use serde_json::Value;

/// Which element a part is.
#[derive(Clone, Copy, PartialEq, Eq)]
pub enum Kind {
    Map,
    Settings,
    ChunkSize,
    Export,
    Properties,
    /// A property of an owner.
    Property,
    /// A member of a class.
    Member,
    Tileset,
    TileOffset,
    Grid,
    Turning,
    /// The picture of a tileset.
    Picture,
    TilePicture,
    LayerPicture,
    Tile,
    Animation,
    Frame,
    WangSets,
    WangSet,
    WangColor,
    WangTile,
    Layer,
    ObjectLayer,
    ImageLayer,
    Group,
    Data,
    Chunk,
    Object,
    Polygon,
    Polyline,
    Ellipse,
    Point,
    Capsule,
    Words,
}

/// A part of a map that is an element.
#[derive(Clone, Copy)]
pub struct Part<'a> {
    pub kind: Kind,
    /// The name of a member of a class.
    pub key: &'a str,
    /// What it says. Of data it is their layer, and of a picture its owner.
    pub value: &'a Value,
    /// What is noted of a member of a class, or of all of them; the layer of a chunk.
    pub beside: Option<&'a Value>,
}

/// A part that its value says alone.
pub fn made_part(kind: Kind, value: &Value) -> Part<'_> {
    Part {
        kind,
        key: "",
        value,
        beside: None,
    }
}

/// The name of the element.
pub fn element_name(kind: Kind) -> &'static str {
    match kind {
        Kind::Map => "map",
        Kind::Settings => "editorsettings",
        Kind::ChunkSize => "chunksize",
        Kind::Export => "export",
        Kind::Properties => "properties",
        Kind::Property | Kind::Member => "property",
        Kind::Tileset => "tileset",
        Kind::TileOffset => "tileoffset",
        Kind::Grid => "grid",
        Kind::Turning => "transformations",
        Kind::Picture | Kind::TilePicture | Kind::LayerPicture => "image",
        Kind::Tile => "tile",
        Kind::Animation => "animation",
        Kind::Frame => "frame",
        Kind::WangSets => "wangsets",
        Kind::WangSet => "wangset",
        Kind::WangColor => "wangcolor",
        Kind::WangTile => "wangtile",
        Kind::Layer => "layer",
        Kind::ObjectLayer => "objectgroup",
        Kind::ImageLayer => "imagelayer",
        Kind::Group => "group",
        Kind::Data => "data",
        Kind::Chunk => "chunk",
        Kind::Object => "object",
        Kind::Polygon => "polygon",
        Kind::Polyline => "polyline",
        Kind::Ellipse => "ellipse",
        Kind::Point => "point",
        Kind::Capsule => "capsule",
        Kind::Words => "text",
    }
}
