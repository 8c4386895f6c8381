// The reply to a look at a cell.
ghost use Rattle.std.specs.Prelude.{◌≡◌};
ghost use Rattle.document_lines.specs.Answers.{cell_value, local_tile, tile_reply};

use edits::tiles_of_layer;
use map_model::Map;
use refusals::{EditFault, Refusal};
use session::{LocalTile, Reply};
use tile_id::Gid;

// The tile that a value names: the first id of its tileset, and how far the value's base is above that.
fn local_tile(map: &Map, value: Gid) -> Option<LocalTile>
    ensures { result ≡ local_tile map.now value }
{
    let tileset = map.tileset_of(value)?;
    Some(LocalTile {
        first_id: tileset.first_id,
        local_id: value.base() - tileset.first_id,
    })
}

// The value of a cell, where these are the values of its layer.
fn cell_value(map: &Map, tiles: &[Gid], x: i32, y: i32) -> Option<Gid>
    ensures { result ≡ cell_value map.now tiles.now x y }
{
    let parts = map.parts();
    let x = u32::try_from(x).ok()?;
    let y = u32::try_from(y).ok()?;
    if x >= parts.width || y >= parts.height {
        return None;
    }
    tiles
        .get(y as usize * parts.width as usize + x as usize)
        .copied()
}

/// The value of a cell, its flags and its tileset; refused where there is no such layer, where it is not a tile
/// layer, and where the cell lies outside the map.
pub fn reply(map: &Map, layer: u32, x: i32, y: i32) -> Reply
    ensures { result ≡ tile_reply map.now layer x y }
{
    let tiles = match tiles_of_layer(map, layer) {
        Ok(tiles) => tiles,
        Err(fault) => return Reply::Refused(Refusal::from(fault)),
    };
    let Some(value) = cell_value(map, tiles, x, y) else {
        return Reply::Refused(Refusal::Edit(EditFault::OutsideTheMap));
    };
    if value.is_empty() {
        return Reply::EmptyTile;
    }
    Reply::Tile {
        value,
        local: local_tile(map, value),
    }
}
