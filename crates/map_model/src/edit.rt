ghost use Rattle.std.specs.Prelude.{◌≡◌};
ghost use Rattle.map_model.specs.CellEdits.{side_value};

use tile_id::Gid;

/// A cell of a layer whose value changes: its column and row, each below 4,096, and its value before and after.
#[derive(Clone, Copy, PartialEq, Eq, Debug)]
pub struct CellEdit {
    pub x: u16,
    pub y: u16,
    pub before: Gid,
    pub after: Gid,
}

/// One of the two sides of a change.
#[derive(Clone, Copy, PartialEq, Eq, Debug)]
pub enum Side {
    Before,
    After,
}

impl CellEdit {
    /// The cell's value on a side of the change.
    pub fn value(self, side: Side) -> Gid
        ensures { result ≡ side_value side self }
    {
        match side {
            Side::Before => self.before,
            Side::After => self.after,
        }
    }
}
