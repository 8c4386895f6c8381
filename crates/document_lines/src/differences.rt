// What of a document an edit can change, by its undo as by its redo.
ghost use Rattle.std.specs.Prelude.{◌≡◌, ℕ, ◌<◌, ◌≤◌, pos, ◌+ℤ◌, IfSome, IsTrue};
ghost use Rattle.map_model.specs.CellEdits.{AreInRowOrder};
ghost use Rattle.map_model.specs.Document.{DocumentParts};
ghost use Rattle.map_model.specs.Lists.{Each};
ghost use Rattle.edits.specs.Blocks.{in_area, is_below, offset};
ghost use Rattle.paint_commands.specs.Painting.{paint_change};
ghost use Rattle.document_lines.specs.Differing.{AreWithin, Covers, DifferWithin, IsOneOf, layers_differ, no_differences, outline_differs};
ghost use Rattle.document_lines.specs.Planning.{edit_change};

use crate::planned::Edit;
use edits::Area;
use map_model::CellEdit;
use map_model::limits::MAX_SIDE;
use paint_commands::PaintCommand;

/// Cells that may differ between two documents.
#[derive(Clone, Copy, PartialEq, Eq, Debug)]
pub enum Cells {
    /// No cell differs.
    None,
    /// Each cell that differs is of the layer with this id, and lies in the area.
    Within { layer: u32, area: Area },
    /// Any cell of any layer may differ, and so may the layers that there are, and their order.
    All,
}

/// What may differ between two documents. What is not told is the same in both.
#[derive(Clone, Copy, PartialEq, Eq, Debug)]
pub struct Differences {
    /// Whether anything but the cells and the selection may differ.
    pub outline: bool,
    pub selection: bool,
    pub cells: Cells,
}

// Where columns, or rows, end: behind so many from this one on.
fn end_of(from: i32, count: u32) -> i64
    ensures { result ≡ from +ℤ pos count }
{
    i64::from(from) + i64::from(count)
}

// The fewest columns, or rows, that hold these and others: the first one, and how many. None where they are more than can be told.
fn joined_columns(from: i32, count: u32, other_from: i32, other_count: u32) -> Option<(i32, u32)>
    ensures one { IfSome result (λ joined. (at : ℕ) → IsTrue (is_below (offset from at) count)
        → IsTrue (is_below (offset joined.0 at) joined.1)) }
    ensures other { IfSome result (λ joined. (at : ℕ) → IsTrue (is_below (offset other_from at) other_count)
        → IsTrue (is_below (offset joined.0 at) joined.1)) }
{
    let first = from.min(other_from);
    let end = end_of(from, count).max(end_of(other_from, other_count));
    match u32::try_from(end - i64::from(first)) {
        Ok(joined) => Some((first, joined)),
        Err(_) => None,
    }
}

// The smallest area that holds two. None where it has more columns or rows than can be told.
fn joined_areas(one: Area, other: Area) -> Option<Area>
    ensures one { IfSome result (λ joined. (x y : ℕ) → IsTrue (in_area one x y) → IsTrue (in_area joined x y)) }
    ensures other { IfSome result (λ joined. (x y : ℕ) → IsTrue (in_area other x y) → IsTrue (in_area joined x y)) }
{
    let (x, width) = joined_columns(one.x, one.width, other.x, other.width)?;
    let (y, height) = joined_columns(one.y, one.height, other.y, other.height)?;
    Some(Area {
        x,
        y,
        width,
        height,
    })
}

// The cells of a layer in two areas, or all cells where no area is told that holds both.
fn within_both(layer: u32, one: Area, other: Area) -> Cells
    ensures one { (x y : ℕ) → IsTrue (in_area one x y) → IsOneOf result layer x y }
    ensures other { (x y : ℕ) → IsTrue (in_area other x y) → IsOneOf result layer x y }
{
    match joined_areas(one, other) {
        Some(area) => Cells::Within { layer, area },
        None => Cells::All,
    }
}

impl Cells {
    /// The cells of both. Where they are of two layers, these are all cells.
    pub fn joined(self, other: Cells) -> Cells
        ensures one { AreWithin self result }
        ensures other { AreWithin other result }
    {
        match (self, other) {
            (Cells::None, cells) | (cells, Cells::None) => cells,
            (
                Cells::Within { layer, area },
                Cells::Within {
                    layer: other_layer,
                    area: other_area,
                },
            ) if layer == other_layer => within_both(layer, area, other_area),
            _ => Cells::All,
        }
    }
}

impl Differences {
    /// Nothing differs.
    pub fn nothing() -> Differences
        ensures { result ≡ no_differences }
    {
        Differences {
            outline: false,
            selection: false,
            cells: Cells::None,
        }
    }

    /// What may differ between the first and the last of three documents, where these are the differences of the first two and
    /// of the last two.
    pub fn joined(self, other: Differences) -> Differences
        ensures { (d e f : DocumentParts) → DifferWithin self d e → DifferWithin other e f → DifferWithin result d f }
    {
        Differences {
            outline: self.outline || other.outline,
            selection: self.selection || other.selection,
            cells: self.cells.joined(other.cells),
        }
    }

    // The outline alone.
    fn of_outline() -> Differences
        ensures { result ≡ outline_differs }
    {
        Differences {
            outline: true,
            ..Differences::nothing()
        }
    }

    // The outline and all cells.
    fn of_layers() -> Differences
        ensures { result ≡ layers_differ }
    {
        Differences {
            outline: true,
            selection: false,
            cells: Cells::All,
        }
    }
}

/// Of more cells the columns are not looked at.
const MOST_CELLS: usize = 4_096;

// The first and the last column of cells, of which this is one. All columns of any map, where the cells are many.
fn columns_of(column: u16, cells: &[CellEdit]) -> (u16, u16)
    ensures { Each (λ e. e.x < MAX_SIDE → (result.0 ≤ e.x) × (e.x ≤ result.1)) cells.now }
{
    if cells.len() > MOST_CELLS {
        return (0, MAX_SIDE as u16 - 1);
    }
    let (mut left, mut right) = (column, column);
    for cell in cells {
        left = left.min(cell.x);
        right = right.max(cell.x);
    }
    (left, right)
}

// The smallest area that holds cells in row order, of which the first and the last are given too. Where the cells are many, it has
// all columns, and may be wider than the map.
fn area_of(first: CellEdit, last: CellEdit, cells: &[CellEdit]) -> Area
    ensures { Each (λ e. e.x < MAX_SIDE → (first.y ≤ e.y) → (e.y ≤ last.y) → IsTrue (in_area result e.x e.y)) cells.now }
{
    let (left, right) = columns_of(first.x, cells);
    Area {
        x: i32::from(left),
        y: i32::from(first.y),
        width: u32::from(right.saturating_sub(left)) + 1,
        height: u32::from(last.y.saturating_sub(first.y)) + 1,
    }
}

// The cells of a layer that hold these ones in row order.
fn cells_around(layer: u32, cells: &[CellEdit]) -> Cells
    requires { AreInRowOrder cells.now }
    ensures { Each (λ e. e.x < MAX_SIDE → IsOneOf result layer e.x e.y) cells.now }
{
    let Some(first) = cells.first() else {
        return Cells::None;
    };
    let Some(last) = cells.last() else {
        return Cells::None;
    };
    Cells::Within {
        layer,
        area: area_of(*first, *last, cells),
    }
}

// What a paint changes: cells that it writes.
fn painted(paint: &PaintCommand) -> Differences
    ensures { Covers result (paint_change paint.now) }
{
    Differences {
        outline: false,
        selection: false,
        cells: cells_around(paint.layer(), paint.change()),
    }
}

impl Edit {
    /// What may differ between the documents on the two sides of the edit. It looks at each cell that a paint writes, or at none where
    /// they are more than 4,096: then all columns of their rows are told.
    pub fn differs(&self) -> Differences
        ensures { Covers result (edit_change self.now) }
    {
        match self {
            Edit::Paint(paint) => painted(paint),
            Edit::Select(_) => Differences {
                selection: true,
                ..Differences::nothing()
            },
            Edit::ResizeMap(_) => Differences {
                selection: true,
                ..Differences::of_layers()
            },
            Edit::AddLayer(_)
            | Edit::RemoveLayer(_)
            | Edit::MoveLayer(_)
            | Edit::NumberTileset(_) => Differences::of_layers(),
            Edit::RenameLayer(_)
            | Edit::ShowLayer(_)
            | Edit::AddObject(_)
            | Edit::RemoveObject(_)
            | Edit::PlaceObject(_)
            | Edit::SetProperty(_)
            | Edit::RemoveProperty(_)
            | Edit::AddTileset(_)
            | Edit::RemoveTileset(_)
            | Edit::SetObjectHead(_)
            | Edit::SetLayerHead(_)
            | Edit::SetMapHead(_)
            | Edit::ReparentObject(_)
            | Edit::PutProperty(_)
            | Edit::SetTilesetHead(_)
            | Edit::SetTilesetMember(_) => Differences::of_outline(),
        }
    }
}
