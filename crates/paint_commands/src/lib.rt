//! The commands of paints and of the selection: changed cells of a tile layer, and selections, which are exchanged with the
//! document's own.
#![tactic(auto)]

mod paint;
mod select;

pub use paint::PaintCommand;
pub use select::SelectCommand;
