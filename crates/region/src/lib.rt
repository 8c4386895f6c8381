//! Sets of cells of a map.
//!
//! A `Region` is a finite set of cells, each a column and a row, which is kept as runs: cells of one
//! row that lie side by side. The runs are maximal and stand in row order, so that equal sets have
//! equal runs.
#![tactic(auto)]

mod cells;
mod moves;
mod next;
mod row_order;
mod runs;
mod stored;
mod walks;

pub use cells::Region;
pub use row_order::Rows;
pub use runs::Run;
