/// A run of cells of a row: a row, the column of its first cell, and how many cells it has.
#[repr(C)]
#[derive(Clone, Copy)]
pub struct SelectionRun {
    pub row: u32,
    pub column: u32,
    pub count: u32,
}
