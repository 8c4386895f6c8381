ghost use Rattle.std.specs.Prelude.{◌≡◌};
ghost use Rattle.map_lists.specs.Sizes.{sizes_of};

use map_model::Map;

/// The sizes of a map, in cells and, of a tile, in pixels; the ids that its next layer and object get; and how many layers it has,
/// those in groups and the groups among them, and how many tilesets.
#[derive(Clone, Copy, Debug, PartialEq, Eq)]
pub struct Sizes {
    pub width: u32,
    pub height: u32,
    pub tile_width: u32,
    pub tile_height: u32,
    pub next_layer_id: u32,
    pub next_object_id: u32,
    pub layers: usize,
    pub tilesets: usize,
}

/// The sizes of a map.
pub fn sizes_of(map: &Map) -> Sizes
    ensures { result ≡ sizes_of map.now }
{
    let parts = map.parts();
    Sizes {
        width: parts.width,
        height: parts.height,
        tile_width: parts.tile_width,
        tile_height: parts.tile_height,
        next_layer_id: parts.next_layer_id,
        next_object_id: parts.next_object_id,
        layers: map.layer_count(),
        tilesets: parts.tilesets.len(),
    }
}
