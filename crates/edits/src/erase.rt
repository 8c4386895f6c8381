ghost use Rattle.std.specs.Prelude.{IfOk, IfErr};
ghost use Rattle.command_api.specs.Making.{IsRefusalOf};
ghost use Rattle.edits.specs.Painting.{IsPainted};
ghost use Rattle.edits.specs.Stamping.{after_erase};

use crate::area::Area;
use crate::change::CellChange;
use crate::extent::Extent;
use crate::layer::tiles_of_layer;
use crate::span::Span;
use command_api::EditFault;
use map_model::Document;
use std::alloc::Global;

/// What an erase changes: each cell of an area becomes 0 in a tile layer, if it lies in the map, and in the selection
/// unless that is empty. The time grows with the cells of the map in the area.
///
/// Refused, in this order: where there is no layer with the id; where it is not a tile layer; and then where there is
/// no memory.
pub fn erase_change(
    alloc: Global,
    document: &Document,
    layer: u32,
    area: &Area,
) -> Result<CellChange, EditFault>
    ensures change { IfOk result (IsPainted document.now layer (after_erase document.now layer area.now)) }
    ensures refusal { IfErr result (IsRefusalOf (after_erase document.now layer area.now)) }
{
    let map = document.map();
    let tiles = tiles_of_layer(map, layer)?;
    let parts = map.parts();
    let extent = Extent {
        tiles,
        width: parts.width,
        columns: Span::new(area.x, area.width, parts.width),
        rows: Span::new(area.y, area.height, parts.height),
        selection: document.selection(),
    };
    extent.change(alloc, layer, area)
}
