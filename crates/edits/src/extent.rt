// The extent of an edit in a tile layer, and the changes that it makes there.
ghost use Rattle.std.specs.Prelude.{◌≡◌, ℕ, ◌+◌, ◌*◌, ◌<◌, ◌≤◌, ◌++◌, true, false, OnOk, IfOk, IfErr, IfSome, IfNone, length};
ghost use Rattle.refusals.specs.declared.edit_fault.EditFault.TheVariants.{NoMemory};
ghost use Rattle.map_model.specs.declared.limits.TheConstants.{MAX_SIDE};
ghost use Rattle.edits.specs.CellLists.{cells_in};
ghost use Rattle.edits.specs.Covering.{lets_change};
ghost use Rattle.edits.specs.Laying.{AreNextColumns, IsExtent, changes_below, changed_to};

use crate::change::{CellChange, CellEdits, CellList};
use crate::cover::Cover;
use crate::span::Span;
use command_api::EditFault;
use map_model::CellEdit;
use region::Region;
use std::alloc::{AllocError, Global};
use tile_id::Gid;

/// A tile layer of a map of this width, the columns and rows that an edit may put something over, and the selection.
#[derive(Clone, Copy)]
pub struct Extent<'a> {
    pub tiles: &'a [Gid],
    pub width: u32,
    pub columns: Span,
    pub rows: Span,
    pub selection: &'a Region,
}

/// Whether a selection lets a cell be changed.
pub(crate) fn lets_change(selection: &Region, x: u32, y: u32) -> bool
    ensures { result ≡ lets_change selection.now (x, y) }
{
    if selection.is_empty() {
        return true;
    }
    selection.contains(x, y)
}

// Adds the change of a cell, where there is one.
fn push_change(
    alloc: Global,
    cells: &mut CellList,
    x: u32,
    y: u32,
    before: Gid,
    over: Option<Gid>,
) -> Result<(), AllocError>
    requires column { x < MAX_SIDE }
    requires row { y < MAX_SIDE }
    ensures { OnOk result (cells_in cells.new ≡ cells_in cells.old ++ changed_to x y before over) }
{
    if let Some(after) = over
        && after != before
    {
        let cell = CellEdit {
            x: x as u16,
            y: y as u16,
            before,
            after,
        };
        cells.push(alloc, cell)?;
    }
    Ok(())
}

impl Extent<'_> {
    // The next columns of a row, from one on, that may be changed.
    fn next_columns(&self, y: u32, from: u32) -> Option<Span>
        ensures some { IfSome result (AreNextColumns self.now.selection.now y from self.now.columns.end) }
        ensures none { IfNone result ((x : ℕ) → from ≤ x → x < self.now.columns.end → lets_change self.now.selection.now (x, y) ≡ false) }
    {
        let end = self.columns.end;
        if from >= end {
            return None;
        }
        if self.selection.is_empty() {
            return Some(Span { first: from, end });
        }
        let Some(run) = self.selection.next_run(y, from, end) else {
            return None;
        };
        Some(Span {
            first: run.x,
            end: run.x + run.len,
        })
    }

    // Adds the changes of columns of a row, all of which may be changed.
    fn push_columns<C: Cover>(
        &self,
        alloc: Global,
        cells: &mut CellList,
        cover: &C,
        y: u32,
        columns: Span,
    ) -> Result<(), AllocError>
        requires extent { IsExtent (C.over cover.now) self.now }
        requires row { (self.now.rows.first ≤ y) × (y < self.now.rows.end) }
        requires columns { (columns.first ≤ columns.end) × (columns.end ≤ self.now.columns.end) }
        requires selected { (x : ℕ) → columns.first ≤ x → x < columns.end → lets_change self.now.selection.now (x, y) ≡ true }
        requires so_far { cells_in cells.old ≡ changes_below (C.over cover.now) self.now (y * self.now.width + columns.first) }
        ensures { OnOk result (cells_in cells.new ≡ changes_below (C.over cover.now) self.now (y * self.now.width + columns.end)) }
    {
        for x in columns.first..columns.end {
            let number = y as usize * self.width as usize + x as usize;
            push_change(alloc, cells, x, y, self.tiles[number], cover.value(x, y))?;
        }
        Ok(())
    }

    // Adds the changes of a row of the map.
    fn push_row<C: Cover>(
        &self,
        alloc: Global,
        cells: &mut CellList,
        cover: &C,
        y: u32,
    ) -> Result<(), AllocError>
        requires extent { IsExtent (C.over cover.now) self.now }
        requires row { (self.now.rows.first ≤ y) × (y < self.now.rows.end) }
        requires so_far { cells_in cells.old ≡ changes_below (C.over cover.now) self.now (y * self.now.width) }
        ensures { OnOk result (cells_in cells.new ≡ changes_below (C.over cover.now) self.now (y * self.now.width + self.now.width)) }
    {
        let mut from = self.columns.first;
        while let Some(columns) = self.next_columns(y, from) {
            self.push_columns(alloc, cells, cover, y, columns)?;
            from = columns.end;
        }
        Ok(())
    }

    // The change of the only cell of an extent, where there is one.
    fn change_of_cell<C: Cover>(&self, alloc: Global, cover: &C) -> Result<CellList, AllocError>
        requires extent { IsExtent (C.over cover.now) self.now }
        requires column { self.now.columns.end ≡ self.now.columns.first + 1 }
        requires row { self.now.rows.end ≡ self.now.rows.first + 1 }
        ensures { IfOk result (λ cells. cells_in cells ≡ changes_below (C.over cover.now) self.now (length self.now.tiles.now)) }
    {
        let x = self.columns.first;
        let y = self.rows.first;
        let mut cells = CellList::new(alloc);
        if !lets_change(self.selection, x, y) {
            return Ok(cells);
        }
        let number = y as usize * self.width as usize + x as usize;
        push_change(
            alloc,
            &mut cells,
            x,
            y,
            self.tiles[number],
            cover.value(x, y),
        )?;
        Ok(cells)
    }

    // The changes of all cells that a cover lies over and that the selection lets be changed, in row order.
    fn changes<C: Cover>(&self, alloc: Global, cover: &C) -> Result<CellList, AllocError>
        requires { IsExtent (C.over cover.now) self.now }
        ensures { IfOk result (λ cells. cells_in cells ≡ changes_below (C.over cover.now) self.now (length self.now.tiles.now)) }
    {
        if self.columns.end - self.columns.first == 1 && self.rows.end - self.rows.first == 1 {
            return self.change_of_cell(alloc, cover);
        }
        let mut cells = CellList::new(alloc);
        for y in self.rows.first..self.rows.end {
            self.push_row(alloc, &mut cells, cover, y)?;
        }
        Ok(cells)
    }

    /// The change of the layer, which has this id: each cell that a cover lies over, and that the selection lets be
    /// changed, takes its value.
    pub fn change<C: Cover>(
        &self,
        alloc: Global,
        layer: u32,
        cover: &C,
    ) -> Result<CellChange, EditFault>
        requires { IsExtent (C.over cover.now) self.now }
        ensures layer { IfOk result (λ change. change.layer ≡ layer) }
        ensures cells { IfOk result (λ change. change.cells ≡ changes_below (C.over cover.now) self.now (length self.now.tiles.now)) }
        ensures refusal { IfErr result (λ fault. fault ≡ NoMemory) }
    {
        match self.changes(alloc, cover) {
            Ok(cells) => Ok(CellChange {
                layer,
                cells: CellEdits::of_list(cells),
            }),
            Err(_) => Err(EditFault::NoMemory),
        }
    }
}
