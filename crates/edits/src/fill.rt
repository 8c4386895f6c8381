ghost use Rattle.std.specs.Prelude.{◌≡◌, IfOk, IfErr};
ghost use Rattle.command_api.specs.Making.{IsRefusalOf};
ghost use Rattle.edits.specs.Filling.{after_fill, map_cell};
ghost use Rattle.edits.specs.Painting.{IsPainted};

use crate::change::{CellChange, CellEdits};
use crate::filled::fill_cells;
use crate::layer::{is_known_value, tiles_of_layer};
use command_api::EditFault;
use map_model::{Document, Map};
use std::alloc::Global;
use tile_id::Gid;

// The cell of a map at a column and a row.
fn map_cell(map: &Map, x: i32, y: i32) -> Option<(u32, u32)>
    ensures { result ≡ map_cell map.now x y }
{
    let parts = map.parts();
    let x = u32::try_from(x).ok()?;
    let y = u32::try_from(y).ok()?;
    if x < parts.width && y < parts.height {
        Some((x, y))
    } else {
        None
    }
}

/// What a fill changes: the cells that are joined to a start take a value. A cell is joined to the start if steps along
/// columns and rows lead to it over cells that have the start's whole value, flags included, and lie in the selection
/// unless that is empty.
///
/// Refused, in this order: where there is no layer with the id; where it is not a tile layer; where the start lies
/// outside the map; where the value is not 0 and has no tileset; and then where there is no memory.
pub fn fill_change(
    alloc: Global,
    document: &Document,
    layer: u32,
    x: i32,
    y: i32,
    value: Gid,
) -> Result<CellChange, EditFault>
    ensures change { IfOk result (IsPainted document.now layer (after_fill document.now layer x y value)) }
    ensures refusal { IfErr result (IsRefusalOf (after_fill document.now layer x y value)) }
{
    let map = document.map();
    let tiles = tiles_of_layer(map, layer)?;
    let Some(start) = map_cell(map, x, y) else {
        return Err(EditFault::OutsideTheMap);
    };
    if !is_known_value(map, value) {
        return Err(EditFault::UnknownTile);
    }
    let width = map.parts().width;
    match fill_cells(alloc, tiles, width, document.selection(), start, value) {
        Ok(cells) => Ok(CellChange {
            layer,
            cells: CellEdits::alike(cells),
        }),
        Err(_) => Err(EditFault::NoMemory),
    }
}
