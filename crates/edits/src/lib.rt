//! What an edit does to a document: the cells that it changes, or why it is refused.
#![tactic(auto)]

mod area;
mod block;
mod change;
mod cover;
mod erase;
mod extent;
mod fill;
mod filled;
mod flood;
mod ground;
mod in_place;
mod joining;
mod layer;
mod laying;
mod marks;
mod merging;
mod resizing;
mod selecting;
mod span;
mod stamp;

pub use area::Area;
pub use block::Block;
pub use change::{CellChange, CellEdits};
pub use command_api::EditFault;
pub use erase::erase_change;
pub use fill::fill_change;
pub use joining::reached_is_joined;
pub use layer::tiles_of_layer;
pub use merging::{joined_cells, joined_differences};
pub use resizing::resized_cells;
pub use selecting::{Selecting, selected};
pub use stamp::stamp_change;
