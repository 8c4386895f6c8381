// Where a finite map lies on the plane of the infinite one.
ghost use Rattle.std.specs.Prelude.{◌≡◌, ◌+◌, ◌*◌, ◌/◌, ◌<◌, ◌^◌, ◌-◌, max, map, IfOk, slice_index};
ghost use Rattle.infinite_maps.specs.Wide.{size, whole_side, has_room, wide_by, wide, before_x, before_y, cell_on, cell_behind, widened};
ghost use Rattle.infinite_maps.specs.Finite.{turned};

use crate::cells::cell_at;
use std::alloc::{AllocError, Global};

#[derive(Clone, Copy)]
pub struct Plane {
    /// The place of the map's corner, in cells.
    pub x: i64,
    pub y: i64,
    /// The size of the map, in cells.
    pub columns: u16,
    pub rows: u16,
    /// The size of a new chunk, in cells, which is never 0.
    pub across: u16,
    pub down: u16,
    /// How many columns and rows of the first chunk lie before the corner.
    pub lost_x: u16,
    pub lost_y: u16,
    /// The most cells that a layer may have where chunks reach past the map.
    pub most: u32,
    /// How far objects are moved, in pixels.
    pub moved_x: i64,
    pub moved_y: i64,
}

// How many cells the blocks of a side are that hold so many, of which the first has lost some.
#[tactic(auto, using(crate::proofs::Sizes::wholes))]
fn whole_side(side: u16, lost: u16, limit: u16) -> u32
    ensures { result ≡ whole_side side lost limit }
{
    let side = side.max(1) as u32;
    (limit as u32 + lost as u32 + (side - 1)) / side * side
}

impl Plane {
    /// The number of cells of a layer.
    #[tactic(auto, using(crate::proofs::Sizes::products))]
    pub fn size(self) -> usize
        ensures { result ≡ size self }
    {
        self.columns as usize * self.rows as usize
    }

    // Whether so many columns and rows are within the limits, and one of each more.
    #[tactic(auto, using(crate::proofs::Sizes::products))]
    fn has_room(self, columns: u32, rows: u32) -> bool
        ensures { result ≡ has_room self columns rows }
    {
        columns < 4096
            && rows < 4096
            && (columns as u64 + 1) * (rows as u64 + 1) <= self.most as u64
    }

    /// The map with whole blocks on all sides, where there is room for it; else the map as it is.
    #[tactic(auto, unfolding(crate::specs::Wide::wide))]
    pub fn wide(self) -> Plane
        ensures { result ≡ wide self }
    {
        let columns = whole_side(self.across, self.lost_x, self.columns);
        let rows = whole_side(self.down, self.lost_y, self.rows);
        if !self.has_room(columns, rows) {
            return self;
        }
        Plane {
            x: self.x.wrapping_sub(self.lost_x as i64),
            y: self.y.wrapping_sub(self.lost_y as i64),
            columns: columns as u16,
            rows: rows as u16,
            lost_x: 0,
            lost_y: 0,
            ..self
        }
    }

    /// How many columns the wide map begins before the corner of the map.
    pub fn before_x(self) -> u16
        ensures { result ≡ before_x self }
    {
        self.lost_x.saturating_sub(self.wide().lost_x)
    }

    /// How many rows the wide map begins before the corner of the map.
    pub fn before_y(self) -> u16
        ensures { result ≡ before_y self }
    {
        self.lost_y.saturating_sub(self.wide().lost_y)
    }

    // The cell of a layer; 0 outside of the map.
    #[tactic(auto, using(crate::proofs::Sizes::products))]
    fn cell_on(self, cells: &[u64], column: usize, row: usize) -> u64
        ensures { result ≡ cell_on self cells.now column row }
    {
        if column < self.columns as usize && row < self.rows as usize {
            cell_at(cells, row * self.columns as usize + column)
        } else {
            0
        }
    }

    // The same, counted from so many columns and rows before the corner.
    fn cell_behind(
        self,
        cells: &[u64],
        before_x: usize,
        before_y: usize,
        column: usize,
        row: usize,
    ) -> u64
        ensures { result ≡ cell_behind self cells.now before_x before_y column row }
    {
        if before_x <= column && before_y <= row {
            self.cell_on(cells, column - before_x, row - before_y)
        } else {
            0
        }
    }

    /// The cells of a layer on the wide map, row by row.
    #[tactic(auto, unfolding(crate::specs::Wide::widened))]
    pub fn widened(self, alloc: Global, cells: &[u64]) -> Result<Vec<u64>, AllocError>
        ensures { IfOk result (λ found. found.items ≡ widened self cells.now) }
    {
        let wide = self.wide();
        let columns = wide.columns.max(1) as usize;
        let before_x = self.before_x() as usize;
        let before_y = self.before_y() as usize;
        let mut found = Vec::with_capacity(alloc, wide.size())?;
        for k in 0..wide.size() {
            found.push(self.cell_behind(cells, before_x, before_y, k % columns, k / columns))?;
        }
        Ok(found)
    }

    /// The same, but objects are moved the other way.
    pub fn turned(self) -> Plane
        ensures { result ≡ turned self }
    {
        Plane {
            moved_x: 0i64.wrapping_sub(self.moved_x),
            moved_y: 0i64.wrapping_sub(self.moved_y),
            ..self
        }
    }
}
