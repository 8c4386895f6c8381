ghost use Rattle.std.specs.Prelude.{◌≡◌, ℕ, ◌+◌, ◌≤◌, ◌↔◌, IsTrue, IfOk, IfSome, IfNone, List};
ghost use Rattle.std.specs.FinSet as set;
ghost use Rattle.region.specs.Cells.{in_rectangle, in_moved_cut, set_of, cells_of, IsInRowOrder};
ghost use Rattle.region.specs.Runs.{HasNone, IsMaximalRuns, IsNextRun};
ghost use Rattle.region.specs.declared.runs.Run.{Run as RunOf};

use crate::next::next_in;
use crate::row_order::Rows;
use crate::runs::Run;
use crate::stored::StoredRun;
use crate::walks::{any_has, merged, moved_runs, overlaps, push_run, remainders};
use std::alloc::{AllocError, Global};
use std::marker::Model;

/// A set of cells, each a column and a row below 2^16.
///
/// No call changes its sources, and a call that answers `AllocError` leaves nothing behind.
#[derive(Drop)]
pub struct Region {
    // Maximal runs in row order.
    runs: Vec<StoredRun>,
}

impl Model for Region {
    ghost use Rattle.std.specs.FinSet as set;
    ghost use Rattle.region.specs.Cells.{cell_cmp, cell_code, set_of};
    ghost use Rattle.region.specs.Runs.{IsMaximalRuns};

    ghost Value = { set.FinSet cell_cmp };

    ghost coded = { set.code cell_code };

    ghost view = { λ a. set_of a.runs.items };

    ghost invariant = { λ a. IsMaximalRuns a.runs.items };
}

impl Region {
    /// The set of no cells. It takes no memory.
    pub fn empty(alloc: Global) -> Region
        ensures { result ≡ set.empty }
    {
        Region {
            runs: Vec::new(alloc),
        }
    }

    // The region of the runs, in no more room than they take. Where the smaller room is refused, they stay where they are.
    fn of(mut runs: Vec<StoredRun>) -> Region
        requires { IsMaximalRuns runs.items }
        ensures { result ≡ set_of runs.items }
    {
        runs.shrink_to_fit();
        Region { runs }
    }

    /// The cells of a rectangle: `w` columns from column `x` on, and `h` rows from row `y` on. With no
    /// column or no row it is the set of no cells.
    ///
    /// The columns and the rows end at 4,096 at most. Where the room for one run a row is refused, the
    /// answer is `AllocError`.
    pub fn rect(alloc: Global, x: u32, y: u32, w: u32, h: u32) -> Result<Region, AllocError>
        requires columns { x + w ≤ 4096 }
        requires rows { y + h ≤ 4096 }
        ensures { IfOk result (λ r. (q : ℕ × ℕ) → set.contains r q ≡ in_rectangle x y w h q) }
    {
        if w == 0 {
            return Ok(Region::empty(alloc));
        }
        let mut runs = Vec::with_capacity(alloc, h as usize)?;
        for row in 0..h {
            let run = StoredRun::of(Run {
                y: y + row,
                x,
                len: w,
            });
            push_run(&mut runs, run);
        }
        Ok(Region { runs })
    }

    /// The cells that are in this set or in the other one.
    ///
    /// Where the room for the runs of both is refused, the answer is `AllocError`.
    pub fn united(&self, alloc: Global, other: &Region) -> Result<Region, AllocError>
        ensures { IfOk result (λ r. r ≡ set.union self.now other.now) }
    {
        let runs = merged(alloc, self.runs.as_slice(), other.runs.as_slice())?;
        Ok(Region::of(runs))
    }

    /// The cells of this set that are not in the other one.
    ///
    /// Where the room for as many runs as both have is refused, the answer is `AllocError`.
    pub fn without(&self, alloc: Global, other: &Region) -> Result<Region, AllocError>
        ensures { IfOk result (λ r. r ≡ set.difference self.now other.now) }
    {
        let runs = remainders(alloc, self.runs.as_slice(), other.runs.as_slice())?;
        Ok(Region::of(runs))
    }

    /// The cells that are in this set and in the other one.
    ///
    /// Where the room for as many runs as both have is refused, the answer is `AllocError`.
    pub fn met(&self, alloc: Global, other: &Region) -> Result<Region, AllocError>
        ensures { IfOk result (λ r. r ≡ set.intersection self.now other.now) }
    {
        let runs = overlaps(alloc, self.runs.as_slice(), other.runs.as_slice())?;
        Ok(Region::of(runs))
    }

    /// The cells of this set, each moved by `dx` columns and `dy` rows, that then lie in the first `w`
    /// columns and the first `h` rows. A cell that would get a negative column or row is cut off too.
    ///
    /// These are 4,096 columns and 4,096 rows at most.
    /// Where the room for as many runs as this set has is refused, the answer is `AllocError`.
    pub fn moved_cut(
        &self,
        alloc: Global,
        dx: i32,
        dy: i32,
        w: u32,
        h: u32,
    ) -> Result<Region, AllocError>
        requires columns { w ≤ 4096 }
        requires rows { h ≤ 4096 }
        ensures { IfOk result (λ r. (q : ℕ × ℕ) → set.contains r q ≡ in_moved_cut self.now dx dy w h q) }
    {
        let runs = moved_runs(alloc, self.runs.as_slice(), dx, dy, w, h)?;
        Ok(Region::of(runs))
    }

    /// Whether the cell at column `x` and row `y` is in the set. It takes a number of steps that grows
    /// with the logarithm of the number of runs.
    pub fn contains(&self, x: u32, y: u32) -> bool
        ensures { result ≡ set.contains self.now (x, y) }
    {
        any_has(self.runs.as_slice(), x, y)
    }

    /// The next cells of row `y` that lie side by side: those of the set from column `from` on and before column `end`.
    /// Finding them takes a number of steps that grows with the logarithm of the number of runs.
    pub fn next_run(&self, y: u32, from: u32, end: u32) -> Option<Run>
        ensures some { IfSome result (IsNextRun (set.contains self.now) y from end) }
        ensures none { IfNone result (HasNone (set.contains self.now) y from end) }
    {
        next_in(self.runs.as_slice(), y, from, end)
    }

    /// Whether the set has no cells.
    pub fn is_empty(&self) -> bool
        ensures { IsTrue result ↔ (self.now ≡ set.empty) }
    {
        // The runs are all that a region keeps.
        let Region { runs } = self;
        runs.is_empty()
    }

    /// Visits the cells run by run: maximal runs in row order. Equal sets have equal runs.
    pub fn rows(&self) -> Rows<'_>
        ensures maximal { IsMaximalRuns result }
        ensures cells { set_of result ≡ self.now }
        ensures once { IsInRowOrder (cells_of result) }
        ensures unique { (runs : List RunOf) → IsMaximalRuns runs → set_of runs ≡ self.now → runs ≡ result }
    {
        Rows::over(self.runs.as_slice())
    }
}

impl PartialEq for Region {
    ghost use Rattle.region.specs.Equality.{same_cells, same_cells-partial_laws};

    ghost eq = { same_cells };

    ghost laws = { same_cells-partial_laws };

    /// Whether two sets have the same cells. It takes no memory.
    fn eq(&self, other: &Region) -> bool
        ensures eq { result ≡ same_cells self.now other.now }
        ensures same { IsTrue result ↔ (self.now ≡ other.now) }
    {
        self.runs == other.runs
    }
}

impl Eq for Region {
    ghost use Rattle.region.specs.Equality.{same_cells-laws};

    ghost laws = { same_cells-laws };
}
