ghost use Rattle.std.specs.Prelude.{◌≡◌, ◌++◌, ◌∷◌, [], OnErr, OnOk};
ghost use Rattle.edits.specs.CellLists.{IsSoundlyKept, cells_in, kept_cells};
ghost use Rattle.edits.specs.Merging.{joined};
ghost use Rattle.map_model.specs.Alike.{AreAlike};
ghost use Rattle.map_model.specs.CellEdits.{AreInRowOrder};
ghost use Rattle.map_model.specs.Document.{IsDocument, painted};
ghost use Rattle.map_model.specs.Lists.{Each};
ghost use Rattle.map_model.specs.Lookups.{HasTiles, IsWithin};

use crate::in_place::join_in_place;
use crate::merging::joined_cells;
use map_model::{CellEdit, Document, Side};
use std::alloc::{AllocError, Global};
use std::marker::Model;
use std::slice;

/// The room of a list of two cells: a block of three columns and three rows fits.
const ROOM: usize = 9;

/// Changed cells as they are listed. One cell takes no list, and most paints are of one.
#[derive(Drop)]
pub(crate) enum CellList {
    One(CellEdit),
    Many(Vec<CellEdit>),
}

impl CellList {
    // The list with no cell. It takes no memory.
    pub(crate) fn new(alloc: Global) -> CellList
        ensures { cells_in result ≡ [] }
    {
        CellList::Many(Vec::new(alloc))
    }

    // Adds a cell at the end.
    pub(crate) fn push(&mut self, alloc: Global, cell: CellEdit) -> Result<(), AllocError>
        ensures { OnOk result (cells_in self.new ≡ cells_in self.old ++ cell ∷ []) }
    {
        match self {
            CellList::One(first) => {
                let mut cells = Vec::with_capacity(alloc, ROOM)?;
                cells.push_reserved(*first);
                cells.push_reserved(cell);
                *self = CellList::Many(cells);
            }
            CellList::Many(cells) => {
                if cells.is_empty() {
                    *self = CellList::One(cell);
                } else {
                    cells.push(cell)?;
                }
            }
        }
        Ok(())
    }
}

/// Changed cells as they are kept.
#[derive(Drop)]
enum KeptCells {
    One(CellEdit),
    Many(Vec<CellEdit>),
    /// Cells that all have one value before and one after.
    Alike(Vec<CellEdit>),
}

impl KeptCells {
    // The changed cells of a list.
    fn of_list(cells: CellList) -> KeptCells
        ensures cells { kept_cells result ≡ cells_in cells }
        ensures sound { IsSoundlyKept result }
    {
        match cells {
            CellList::One(cell) => KeptCells::One(cell),
            CellList::Many(cells) => KeptCells::Many(cells),
        }
    }

    fn as_slice(&self) -> &[CellEdit]
        ensures { result.now ≡ kept_cells self.now }
    {
        match self {
            KeptCells::One(cell) => slice::from_ref(cell),
            KeptCells::Many(cells) => cells.as_slice(),
            KeptCells::Alike(cells) => cells.as_slice(),
        }
    }
}

/// Changed cells in row order, each once, seen as their list.
#[derive(Drop)]
pub struct CellEdits {
    cells: KeptCells,
}

impl Model for CellEdits {
    ghost use Rattle.std.specs.Prelude.{List};
    ghost use Rattle.edits.specs.CellLists.{IsSoundlyKept, kept_cells};
    ghost use Rattle.map_model.specs.declared.edit.CellEdit.{CellEdit};
    ghost use Rattle.map_model.specs.CellEdits.{AreInRowOrder};

    ghost Value = { List CellEdit };

    ghost view = { λ a. kept_cells a.cells };

    ghost invariant = { λ a. AreInRowOrder (kept_cells a.cells) × IsSoundlyKept a.cells };
}

impl CellEdits {
    /// The changed cells of a vector, which are in row order, each once.
    pub fn new(cells: Vec<CellEdit>) -> CellEdits
        requires { AreInRowOrder cells.items }
        ensures { result ≡ cells.items }
    {
        CellEdits {
            cells: KeptCells::Many(cells),
        }
    }

    // The changed cells of a list, which are in row order, each once.
    pub(crate) fn of_list(cells: CellList) -> CellEdits
        requires { AreInRowOrder (cells_in cells) }
        ensures { result ≡ cells_in cells }
    {
        CellEdits {
            cells: KeptCells::of_list(cells),
        }
    }

    // The changed cells of a vector, which are in row order, each once. All of them have one value before and one after.
    pub(crate) fn alike(cells: Vec<CellEdit>) -> CellEdits
        requires ordered { AreInRowOrder cells.items }
        requires alike { AreAlike cells.items }
        ensures { result ≡ cells.items }
    {
        CellEdits {
            cells: KeptCells::Alike(cells),
        }
    }

    /// The changed cells.
    pub fn as_slice(&self) -> &[CellEdit]
        ensures cells { result.now ≡ self.now }
        ensures ordered { AreInRowOrder self.now }
    {
        self.cells.as_slice()
    }

    /// Joins them with the cells of a newer change, which was made behind them: a cell of one of the two keeps its values; a
    /// cell of both has its value before the older one and after the newer one, and goes where these are equal.
    ///
    /// Refused only where there is no memory, and then the cells stay. There is at most one growth.
    pub fn join(&mut self, alloc: Global, newer: &[CellEdit]) -> Result<(), AllocError>
        requires { AreInRowOrder (joined self.old newer.now) }
        ensures joined { OnOk result (self.new ≡ joined self.old newer.now) }
        ensures refused { OnErr result (self.new ≡ self.old) }
    {
        if let KeptCells::Many(cells) = &mut self.cells {
            return join_in_place(cells, newer);
        }
        let cells = joined_cells(alloc, self.cells.as_slice(), newer)?;
        self.cells = KeptCells::Many(cells);
        Ok(())
    }

    /// Sets the cells, in a tile layer of a document, to their values on a side.
    #[inline(always)]
    pub fn put(&self, document: &mut Document, layer: u32, side: Side)
        requires tiles { HasTiles document.old.map layer }
        requires inside { Each (IsWithin document.old.map) self.now }
        ensures document { document.new ≡ painted layer self.now side document.old }
        ensures well_formed { IsDocument document.new }
    {
        match &self.cells {
            KeptCells::One(cell) => document.put_edits(layer, slice::from_ref(cell), side),
            KeptCells::Many(cells) => document.put_edits(layer, cells.as_slice(), side),
            KeptCells::Alike(cells) => document.put_alike(layer, cells.as_slice(), side),
        }
    }
}

/// The changed cells of one layer, in row order, each once, with unequal values before and after.
#[derive(Drop)]
pub struct CellChange {
    pub layer: u32,
    pub cells: CellEdits,
}
