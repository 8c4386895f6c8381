//! The commands of properties and tilesets: one is set, added or removed.
#![tactic(auto)]

mod link;
mod number;
mod owners;
mod put;
mod remove;
mod same;
mod set;
mod tilesets;

pub use number::NumberTileset;
pub use owners::place_of;
pub use put::PutProperty;
pub use remove::RemoveProperty;
pub use set::{PropertySet, SetProperty};
pub use tilesets::{AddTileset, RemoveTileset};
