/// What becomes of a document's selection when a rectangle of cells is selected.
#[derive(Clone, Copy, PartialEq, Eq, Debug)]
pub enum SelectionMode {
    /// The rectangle replaces the selection.
    Replace,
    /// The rectangle is united with the selection.
    Add,
    /// The rectangle is taken from the selection.
    Subtract,
    /// The rectangle is met with the selection.
    Intersect,
}
