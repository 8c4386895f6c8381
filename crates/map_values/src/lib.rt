//! The values of a map's members, read and written; why a map is refused; the way to a fault.
#![tactic(auto)]

mod cells;
mod fault;
mod json_object;
mod numbers;
mod scalar;
mod trail;

pub use cells::{array_cells, base64_cells, base64_room, base64_tree};
pub use fault::MapFault;
pub use json_object::JsonObject;
pub use numbers::{push_numbers, room_for};
pub use scalar::{
    optional_pixels, optional_text, optional_truth, optional_whole, required_id, required_next_id,
    required_text, required_whole, text_or, truth_or,
};
pub use trail::{NoTrail, Segment, Trail};
