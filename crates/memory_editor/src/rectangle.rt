// Rectangles of cells, which are copied to a caller's buffer.
ghost use Rattle.std.specs.Prelude.{◌≡◌, ◌+◌, ◌*◌, ◌≤◌, length, nat_le};
ghost use Rattle.std.specs.Option.{option_map};
ghost use Rattle.map_model.specs.WellFormed.{IsSize};
ghost use Rattle.memory_editor.specs.Buffers.{filled};
ghost use Rattle.memory_editor.specs.Rectangles.{cells_in, lies_in, rows_of};

use edits::tiles_of_layer;
use map_model::{Map, MapParts};
use tile_id::Gid;

/// A rectangle of cells: its first column and row, and how many of them it has.
#[derive(Clone, Copy, Debug, PartialEq, Eq)]
pub struct Rectangle {
    pub x: usize,
    pub y: usize,
    pub width: usize,
    pub height: usize,
}

// Whether so many columns from one on, or rows, lie in a map that has so many.
fn fits(from: usize, count: usize, all: u32) -> bool
    ensures { result ≡ nat_le (from + count) all }
{
    let all = all as usize;
    from <= all && count <= all - from
}

// Whether a rectangle lies in a map.
fn lies_in(rectangle: Rectangle, map: &MapParts) -> bool
    ensures { result ≡ lies_in rectangle map.now }
{
    fits(rectangle.x, rectangle.width, map.width) && fits(rectangle.y, rectangle.height, map.height)
}

// Copies values to as many cells.
fn copy_values(values: &[Gid], cells: &mut [u32])
    requires { length cells.old ≡ length values.now }
    ensures { cells.new ≡ values.now }
{
    for (at, cell) in cells.iter_mut().enumerate() {
        let value = values[at];
        *cell = value.0;
    }
}

// Copies the cells of a rectangle, row by row, from the values of a layer of the map.
fn copy_rows(map: &MapParts, values: &[Gid], rectangle: Rectangle, cells: &mut [u32])
    requires columns { rectangle.x + rectangle.width ≤ map.now.width }
    requires rows { rectangle.y + rectangle.height ≤ map.now.height }
    requires values { length values.now ≡ map.now.width * map.now.height }
    requires size { IsSize map.now.width map.now.height }
    requires room { length cells.old ≡ rectangle.height * rectangle.width }
    ensures { cells.new ≡ rows_of map.now.width rectangle values.now }
{
    let width = map.width as usize;
    let mut to = 0;
    for row in rectangle.y..rectangle.y + rectangle.height {
        let from = row * width + rectangle.x;
        copy_values(
            &values[from..from + rectangle.width],
            &mut cells[to..to + rectangle.width],
        );
        to += rectangle.width;
    }
}

/// Copies the cells of a rectangle of the tile layer with an id, row by row, where the buffer has room for all of them, and gives
/// how many they are. `None` where the map has no such tile layer, or the rectangle leaves the map.
pub fn copy_cells(map: &Map, layer: u32, rectangle: Rectangle, cells: &mut [u32]) -> Option<usize>
    ensures count { result ≡ option_map length (cells_in layer rectangle map.now) }
    ensures copied { cells.new ≡ filled (cells_in layer rectangle map.now) cells.old }
{
    let parts = map.parts();
    if !lies_in(rectangle, parts) {
        return None;
    }
    let Ok(values) = tiles_of_layer(map, layer) else {
        return None;
    };
    let count = rectangle.height * rectangle.width;
    if count <= cells.len() {
        copy_rows(parts, values, rectangle, &mut cells[..count]);
    }
    Some(count)
}
