//! How a text may be laid out.

/// What ends a line.
#[derive(Clone, Copy, Debug, PartialEq, Eq)]
pub enum LineEnd {
    /// A line feed.
    Lf,
    /// A carriage return and a line feed, as Tiled writes on Windows.
    CrLf,
}

/// How a text may be laid out.
#[derive(Clone, Copy, Debug, PartialEq, Eq)]
pub enum Layout {
    /// As Tiled does: each member of an object on a line of its own, all cells of a layer on one.
    Tiled(LineEnd),
    /// As Tiled does, but each row of cells on a line of its own.
    Rows(LineEnd),
    /// As Tiled does if it is asked to minimize: no spaces and no lines, but Tiled's escapes and numbers.
    Minimized,
    /// As `serde_json` writes: no spaces, no lines, and no escape that can be left out.
    Compact,
}
