// Runs, as callers see them.
ghost use Rattle.std.specs.Prelude.{◌≡◌, ◌+◌};
ghost use Rattle.region.specs.Runs.{IsRun};

/// Cells of one row that lie side by side.
#[derive(Clone, Copy, PartialEq, Eq, Debug)]
pub struct Run {
    /// The row.
    pub y: u32,
    /// The column of the first cell.
    pub x: u32,
    /// How many cells the run has. No run of a `Region` is empty.
    pub len: u32,
}

impl Run {
    // The column behind the last cell.
    pub(crate) fn end(self) -> u32
        requires { IsRun self }
        ensures { result ≡ self.x + self.len }
    {
        self.x + self.len
    }
}
