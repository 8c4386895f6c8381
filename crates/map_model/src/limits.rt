// The limits of a map. Contracts name them too.

/// The most columns and the most rows of a map.
pub const MAX_SIDE: u32 = 4_096;

/// The most cells of a map.
pub const MAX_CELLS: usize = 1_048_576;

/// The most pixels that a tile is wide or high.
pub const MAX_TILE_SIDE: u32 = 65_535;

/// The most layers of a map, those in groups and the groups among them.
pub const MAX_LAYERS: usize = 256;

/// The most groups in which a layer stands.
pub const MAX_GROUPS: usize = 16;

/// The most objects of a layer.
pub const MAX_OBJECTS: usize = 4_096;

/// The most properties of an owner.
pub const MAX_PROPERTIES: usize = 256;

/// The most tilesets of a map.
pub const MAX_TILESETS: usize = 256;

/// The greatest next id, of a layer or of an object: no id is as great.
pub const MAX_NEXT_ID: u32 = 2_147_483_647;

/// The greatest first id of a tileset.
pub const MAX_FIRST_ID: u32 = 268_435_455;

/// The greatest number of an object, in pixels; the least is its negative.
pub const MAX_PIXELS: i32 = 1_000_000_000;

/// The most pixels by which objects are moved, either way: as many tiles as there may be pixels, each as large as may be.
pub const MAX_SHIFT: i64 = 65_535_000_000_000;

/// The most tiers that the tree of a map nests.
pub const MAX_DEPTH: usize = 127;
