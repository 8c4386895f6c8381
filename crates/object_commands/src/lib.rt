//! The commands of objects: one is added, removed, moved or resized, or goes to another layer.
#![tactic(auto)]

mod add;
mod held_placing;
mod place;
mod remove;
mod reparent;
mod size;

pub use add::{AddObject, objects_of_layer};
pub use place::PlaceObject;
pub use remove::RemoveObject;
pub use reparent::ReparentObject;
