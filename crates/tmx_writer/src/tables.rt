// The attributes that are members of the same name, in the orders in which Tiled writes them.

/// How a member is told, and when it is left out.
#[derive(Clone, Copy)]
pub enum How {
    /// Always; as this if it is absent.
    Told(&'static str),
    /// Unless it is absent, or told as this.
    Unless(&'static str),
    /// If it is there.
    Given,
    /// As a number of few digits: always; as this if it is absent.
    RealTold(&'static str),
    /// The same, unless it is absent, or told as this.
    RealUnless(&'static str),
    /// The same, if it is there.
    RealGiven,
}

/// An attribute, and how the member of its name is told.
pub type Row = (&'static str, How);

pub static MAP_HEAD: [Row; 10] = [
    ("tiledversion", How::Given),
    ("class", How::Unless("")),
    ("orientation", How::Told("orthogonal")),
    ("renderorder", How::Told("right-down")),
    ("compressionlevel", How::Unless("-1")),
    ("width", How::Told("0")),
    ("height", How::Told("0")),
    ("tilewidth", How::Told("0")),
    ("tileheight", How::Told("0")),
    ("infinite", How::Told("0")),
];

pub static HEXAGON: [Row; 1] = [("hexsidelength", How::Told("0"))];

pub static STAGGER: [Row; 2] = [
    ("staggeraxis", How::Told("y")),
    ("staggerindex", How::Told("odd")),
];

pub static MAP_END: [Row; 3] = [
    ("backgroundcolor", How::Unless("")),
    ("nextlayerid", How::Told("1")),
    ("nextobjectid", How::Told("1")),
];

pub static SIZE: [Row; 2] = [("width", How::Told("0")), ("height", How::Told("0"))];

pub static PLACE: [Row; 2] = [("x", How::Told("0")), ("y", How::Told("0"))];

pub static EXPORT: [Row; 2] = [("target", How::Given), ("format", How::Given)];

pub static FILE_TILESET: [Row; 2] = [("firstgid", How::Told("0")), ("source", How::Given)];

pub static TILESET: [Row; 13] = [
    ("firstgid", How::Told("0")),
    ("name", How::Told("")),
    ("class", How::Unless("")),
    ("tilewidth", How::Told("0")),
    ("tileheight", How::Told("0")),
    ("spacing", How::Unless("0")),
    ("margin", How::Unless("0")),
    ("tilecount", How::Told("0")),
    ("columns", How::Told("0")),
    ("backgroundcolor", How::Unless("")),
    ("objectalignment", How::Unless("")),
    ("tilerendersize", How::Unless("")),
    ("fillmode", How::Unless("")),
];

pub static GRID: [Row; 3] = [
    ("orientation", How::Told("orthogonal")),
    ("width", How::Told("0")),
    ("height", How::Told("0")),
];

pub static TURNING: [Row; 4] = [
    ("hflip", How::Told("0")),
    ("vflip", How::Told("0")),
    ("rotate", How::Told("0")),
    ("preferuntransformed", How::Told("0")),
];

pub static TILE: [Row; 8] = [
    ("id", How::Told("0")),
    ("type", How::Unless("")),
    ("class", How::Unless("")),
    ("probability", How::RealUnless("1")),
    ("x", How::Given),
    ("y", How::Given),
    ("width", How::Given),
    ("height", How::Given),
];

pub static FRAME: [Row; 2] = [("tileid", How::Told("0")), ("duration", How::Told("0"))];

pub static WANG_SET: [Row; 4] = [
    ("name", How::Told("")),
    ("class", How::Unless("")),
    ("type", How::Told("mixed")),
    ("tile", How::Told("0")),
];

pub static WANG_COLOR: [Row; 5] = [
    ("name", How::Told("")),
    ("class", How::Unless("")),
    ("color", How::Told("")),
    ("tile", How::Told("0")),
    ("probability", How::RealTold("0")),
];

pub static WANG_TILE: [Row; 1] = [("tileid", How::Told("0"))];

pub static OBJECT_LAYER: [Row; 2] = [
    ("color", How::Unless("")),
    ("draworder", How::Unless("topdown")),
];

pub static LAYER_HEAD: [Row; 5] = [
    ("id", How::Unless("0")),
    ("name", How::Unless("")),
    ("class", How::Unless("")),
    ("x", How::Unless("0")),
    ("y", How::Unless("0")),
];

pub static LAYER_LOOK: [Row; 4] = [
    ("visible", How::Unless("1")),
    ("locked", How::Unless("0")),
    ("opacity", How::RealUnless("1")),
    ("tintcolor", How::Unless("")),
];

pub static LAYER_END: [Row; 3] = [
    ("parallaxx", How::RealUnless("1")),
    ("parallaxy", How::RealUnless("1")),
    ("mode", How::Unless("")),
];

pub static IMAGE_LAYER: [Row; 2] = [("repeatx", How::Unless("0")), ("repeaty", How::Unless("0"))];

pub static OBJECT: [Row; 10] = [
    ("id", How::Unless("0")),
    ("template", How::Unless("")),
    ("name", How::Unless("")),
    ("type", How::Unless("")),
    ("class", How::Unless("")),
    ("gid", How::Unless("0")),
    ("x", How::RealTold("0")),
    ("y", How::RealTold("0")),
    ("width", How::RealUnless("0")),
    ("height", How::RealUnless("0")),
];

/// Of an object of no template.
pub static OWN_LOOK: [Row; 3] = [
    ("rotation", How::RealUnless("0")),
    ("visible", How::Unless("1")),
    ("opacity", How::RealUnless("1")),
];

/// Of an object of a template: what is not said is the template's.
pub static INSTANCE_LOOK: [Row; 3] = [
    ("rotation", How::RealGiven),
    ("visible", How::Given),
    ("opacity", How::RealUnless("1")),
];

pub static WORDS: [Row; 11] = [
    ("fontfamily", How::Unless("")),
    ("pixelsize", How::Unless("16")),
    ("wrap", How::Unless("0")),
    ("color", How::Unless("")),
    ("bold", How::Unless("0")),
    ("italic", How::Unless("0")),
    ("underline", How::Unless("0")),
    ("strikeout", How::Unless("0")),
    ("kerning", How::Unless("1")),
    ("halign", How::Unless("")),
    ("valign", How::Unless("")),
];
