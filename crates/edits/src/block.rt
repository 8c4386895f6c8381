use tile_id::Gid;

/// A block of values: the column and row of its upper left, its width in columns, and its values, row by row.
///
/// Columns and rows count from the map's upper left corner and may lie before it.
#[derive(Clone, Copy)]
pub struct Block<'a> {
    pub x: i32,
    pub y: i32,
    pub width: u32,
    pub values: &'a [Gid],
}
