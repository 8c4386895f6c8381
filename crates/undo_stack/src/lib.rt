//! An undo stack: a document, and the commands that lead back from it and on again.
//!
//! To a caller a stack is a history of whole documents with a position among them, while it holds one document and the
//! commands that turn it.
#![tactic(auto)]

mod entry;
mod level;
pub mod limits;
mod pushed;
mod sequence;
mod stack;

pub use entry::{Entry, MacroContents};
pub use pushed::Pushed;
pub use refusals::StackFault;
pub use stack::Stack;
