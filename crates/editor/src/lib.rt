//! The editor: plans what a line asks for, over the open documents and their files, and commits planned edits to the active
//! document's stack.
#![tactic(auto)]

mod editor;
mod saving;
mod tell;

pub use document_lines::{Edit, Planned};
pub use editor::{Editor, turns_are_moves};
pub use tell::{NoTell, Tell};
