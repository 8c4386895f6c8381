//! Commands: changes of a document that can be made, undone and made again.
//!
//! A caller of an undo stack writes its own commands as types with an `impl Command`, and passes them on in a box.
#![tactic(auto)]

mod command;
mod exchange;
pub mod ids;
mod offer;

pub use command::Command;
pub use exchange::{Exchange, Label, Lone};
pub use offer::{Offer, OwnerHead};
pub use refusals::EditFault;
