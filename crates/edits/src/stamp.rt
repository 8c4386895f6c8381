ghost use Rattle.std.specs.Prelude.{IfOk, IfErr};
ghost use Rattle.command_api.specs.Making.{IsRefusalOf};
ghost use Rattle.edits.specs.Blocks.{block_of};
ghost use Rattle.edits.specs.Painting.{IsPainted};
ghost use Rattle.edits.specs.Stamping.{IsBlock, after_stamp};

use crate::block::Block;
use crate::change::CellChange;
use crate::extent::Extent;
use crate::layer::{are_known_values, tiles_of_layer};
use crate::span::Span;
use command_api::EditFault;
use map_model::Document;
use std::alloc::Global;

/// What a stamp changes: a block is laid over a tile layer. A value 0 of the block leaves the cell under it, and what
/// falls outside the map, or outside the selection where it is not empty, is left out.
///
/// Refused, in this order: where there is no layer with the id; where it is not a tile layer; where a value of the
/// block other than 0 has no tileset, also one that falls outside; and then where there is no memory.
pub fn stamp_change(
    alloc: Global,
    document: &Document,
    layer: u32,
    block: &Block<'_>,
) -> Result<CellChange, EditFault>
    requires { IsBlock (block_of block.now) }
    ensures change { IfOk result (IsPainted document.now layer (after_stamp document.now layer (block_of block.now))) }
    ensures refusal { IfErr result (IsRefusalOf (after_stamp document.now layer (block_of block.now))) }
{
    let map = document.map();
    let tiles = tiles_of_layer(map, layer)?;
    if !are_known_values(map, block.values) {
        return Err(EditFault::UnknownTile);
    }
    let parts = map.parts();
    let height = (block.values.len() / block.width as usize) as u32;
    let extent = Extent {
        tiles,
        width: parts.width,
        columns: Span::new(block.x, block.width, parts.width),
        rows: Span::new(block.y, height, parts.height),
        selection: document.selection(),
    };
    extent.change(alloc, layer, block)
}
