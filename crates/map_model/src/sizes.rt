// Whether a map and its tiles may be so large.
ghost use Rattle.std.specs.Prelude.{◌≡◌, ◌↔◌, IsTrue};
ghost use Rattle.map_model.specs.Sizes.{is_side, is_size};
ghost use Rattle.map_model.specs.WellFormed.{IsSize, IsTileSize};

use crate::limits::{MAX_CELLS, MAX_SIDE, MAX_TILE_SIDE};

// Whether a number is from 1 on, and at most this one.
fn is_side(side: u32, most: u32) -> bool
    ensures { result ≡ is_side side most }
{
    1 <= side && side <= most
}

/// Whether a map may have so many columns and rows.
pub fn is_size(width: u32, height: u32) -> bool
    ensures value { result ≡ is_size width height }
    ensures size { IsTrue result ↔ IsSize width height }
{
    is_side(width, MAX_SIDE)
        && is_side(height, MAX_SIDE)
        && width as usize * height as usize <= MAX_CELLS
}

/// Whether a tile may be so many pixels wide and high.
pub fn is_tile_size(width: u32, height: u32) -> bool
    ensures { IsTrue result ↔ IsTileSize width height }
{
    is_side(width, MAX_TILE_SIDE) && is_side(height, MAX_TILE_SIDE)
}
