//! The names of the members that are read and written.

// Of several owners.
pub const ID: &str = "id";

pub const NAME: &str = "name";

pub const TYPE: &str = "type";

pub const VISIBLE: &str = "visible";

pub const PROPERTIES: &str = "properties";

pub const WIDTH: &str = "width";

pub const HEIGHT: &str = "height";

// Of a map.
pub const TILE_WIDTH: &str = "tilewidth";

pub const TILE_HEIGHT: &str = "tileheight";

pub const INFINITE: &str = "infinite";

pub const NEXT_LAYER_ID: &str = "nextlayerid";

pub const NEXT_OBJECT_ID: &str = "nextobjectid";

pub const LAYERS: &str = "layers";

pub const TILESETS: &str = "tilesets";

pub const VERSION: &str = "version";

// Of a layer.
pub const ENCODING: &str = "encoding";

pub const COMPRESSION: &str = "compression";

pub const DATA: &str = "data";

pub const OBJECTS: &str = "objects";

// Of a layer of an infinite map; none is read.
pub const CHUNKS: &str = "chunks";

pub const START_X: &str = "startx";

pub const START_Y: &str = "starty";

// Of an object.
pub const X: &str = "x";

pub const Y: &str = "y";

pub const GID: &str = "gid";

// Of a tileset.
pub const FIRST_ID: &str = "firstgid";

pub const SOURCE: &str = "source";

// Of a property.
pub const VALUE: &str = "value";
