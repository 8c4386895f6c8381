//! Open documents by name: each with its undo stack, in order of opening, of which at most one is active.
#![tactic(auto)]

mod group;
mod names;
mod order;

pub use group::{Group, GroupFault, NotAdded};
pub use names::Names;
