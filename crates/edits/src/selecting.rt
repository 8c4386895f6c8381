ghost use Rattle.std.specs.Prelude.{◌≡◌, IfOk};
ghost use Rattle.map_model.specs.Document.{IsSelectionOf};
ghost use Rattle.edits.specs.Selecting.{cells_in, combined, selected};

use crate::area::Area;
use crate::span::Span;
use map_model::{Document, Map, SelectionMode};
use region::Region;
use std::alloc::{AllocError, Global};

/// An edit of the selection.
#[derive(Clone, Copy, PartialEq, Eq, Debug)]
pub enum Selecting {
    /// No cell is selected any longer.
    Nothing,
    /// The cells of an area that lie in the map replace the selection, or are united with it, taken from it or met with it.
    Rectangle { mode: SelectionMode, area: Area },
}

// The cells of a map that lie in an area.
fn cells_in(alloc: Global, map: &Map, area: Area) -> Result<Region, AllocError>
    ensures { IfOk result (λ r. r ≡ cells_in map.now area) }
{
    let parts = map.parts();
    let columns = Span::new(area.x, area.width, parts.width);
    let rows = Span::new(area.y, area.height, parts.height);
    Region::rect(
        alloc,
        columns.first,
        rows.first,
        columns.end - columns.first,
        rows.end - rows.first,
    )
}

// A selection and other cells together.
fn combined(
    alloc: Global,
    mode: SelectionMode,
    selection: &Region,
    cells: Region,
) -> Result<Region, AllocError>
    ensures { IfOk result (λ r. r ≡ combined mode selection.now cells) }
{
    match mode {
        SelectionMode::Replace => Ok(cells),
        SelectionMode::Add => selection.united(alloc, &cells),
        SelectionMode::Subtract => selection.without(alloc, &cells),
        SelectionMode::Intersect => selection.met(alloc, &cells),
    }
}

/// The selection of a document after an edit of it. The document stays as it is.
///
/// Where there is no memory for it the answer is `AllocError`.
pub fn selected(alloc: Global, document: &Document, edit: Selecting) -> Result<Region, AllocError>
    ensures cells { IfOk result (λ r. r ≡ selected document.now edit) }
    ensures within { IfOk result (IsSelectionOf document.now.map) }
{
    let selection = document.selection();
    let Selecting::Rectangle { mode, area } = edit else {
        return Ok(Region::empty(alloc));
    };
    let cells = cells_in(alloc, document.map(), area)?;
    combined(alloc, mode, selection, cells)
}
