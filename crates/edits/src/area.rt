/// Cells of a rectangle: the column and row of its upper left, and how many columns and rows it has.
///
/// Columns and rows count from the map's upper left corner; the rectangle may lie before it, or end behind the map.
#[derive(Clone, Copy, PartialEq, Eq, Debug)]
pub struct Area {
    pub x: i32,
    pub y: i32,
    pub width: u32,
    pub height: u32,
}
