use crate::size::Size;

/// How much of a map is written.
#[derive(Clone, Copy, Debug, PartialEq, Eq)]
pub enum Detail {
    /// All of it.
    Whole,
    /// All but the values of the cells.
    Outline,
}

/// What stays the same while a map is written: its size, and how much of it is written.
#[derive(Clone, Copy)]
pub struct Writing {
    pub size: Size,
    pub detail: Detail,
}
