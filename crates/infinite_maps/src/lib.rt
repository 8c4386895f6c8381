//! Infinite maps as finite ones, and back.
#![tactic(auto)]

mod cells;
mod cover;
mod fault;
mod finite;
mod growth;
mod laws;
mod layer;
mod look;
mod margin;
mod members;
mod notes;
mod part;
mod pasting;
mod plane;
mod rectangle;
mod spread;
mod survey;

pub use fault::Fault;
pub use finite::made_finite;
pub use laws::layers_stay;
pub use margin::{Margin, has_note, moved_layer_note, moved_notes};
pub use spread::made_infinite;
