// The values of a layer, laid on a map of another size.
ghost use Rattle.std.specs.Prelude.{◌≡◌, ◌*◌, ◌++◌, ◌<◌, ◌≤◌, IfOk, OnOk, length};
ghost use Rattle.map_model.specs.declared.limits.TheConstants.{MAX_SIDE};
ghost use Rattle.edits.specs.Blocks.{block_of, IsSpan};
ghost use Rattle.edits.specs.Resizing.{row, table, value_at, IsRowStretch};

use crate::block::Block;
use crate::cover::offset;
use crate::span::Span;
use map_model::Cells;
use std::alloc::{AllocError, Global};
use tile_id::Gid;

// The values of a block of so many rows in a row of the map, in the columns under it.
fn row_stretch<'a>(block: &Block<'a>, rows: u32, columns: Span, width: u32, y: u32) -> &'a [Gid]
    requires columns { IsSpan block.now.x block.now.width width columns }
    requires whole { length block.now.values.now ≡ rows * block.now.width }
    requires width { width ≤ MAX_SIDE }
    requires row { y < MAX_SIDE }
    ensures { IsRowStretch (block_of block.now) width y columns.first result.now }
{
    let none = &block.values[..0];
    if columns.first >= columns.end {
        return none;
    }
    let Some(right) = offset(block.x, columns.first) else {
        return none;
    };
    let Some(down) = offset(block.y, y) else {
        return none;
    };
    if down >= rows {
        return none;
    }
    let from = down as usize * block.width as usize + right as usize;
    &block.values[from..from + (columns.end - columns.first) as usize]
}

// Adds a row of the map: the values of a block, and 0 where it does not lie.
fn push_row(
    cells: &mut Vec<Gid>,
    block: &Block<'_>,
    rows: u32,
    columns: Span,
    width: u32,
    y: u32,
) -> Result<(), AllocError>
    requires columns { IsSpan block.now.x block.now.width width columns }
    requires whole { length block.now.values.now ≡ rows * block.now.width }
    requires width { width ≤ MAX_SIDE }
    requires row { y < MAX_SIDE }
    ensures { OnOk result (cells.new.items ≡ cells.old.items ++ row (value_at (block_of block.now)) width y) }
{
    let start = cells.len();
    cells.resize(start + columns.first as usize, Gid(0))?;
    cells.extend_from_slice(row_stretch(block, rows, columns, width, y))?;
    cells.resize(start + width as usize, Gid(0))
}

/// The values of a layer of a map of this width and height on which a block of so many rows lies: 0 where it does not lie.
pub(crate) fn laid_cells(
    alloc: Global,
    block: &Block<'_>,
    rows: u32,
    width: u32,
    height: u32,
) -> Result<Cells, AllocError>
    requires whole { length block.now.values.now ≡ rows * block.now.width }
    requires width { width ≤ MAX_SIDE }
    requires height { height ≤ MAX_SIDE }
    ensures { IfOk result (λ cells. cells ≡ table (value_at (block_of block.now)) width height) }
{
    let columns = Span::new(block.x, block.width, width);
    let mut cells = Vec::with_capacity(alloc, width as usize * height as usize)?;
    for y in 0..height {
        push_row(&mut cells, block, rows, columns, width, y)?;
    }
    Ok(Cells::new(cells))
}
