//! What a line does to one document: plans its edit, or does what it asks of the history.
#![tactic(auto)]

mod dialect;
mod differences;
mod edit_command;
mod planned;
mod planning;
mod steps;
mod subject;
mod tile;

pub use dialect::Dialect;
pub use differences::{Cells, Differences};
pub use fractions::Fractions;
pub use planned::{Edit, Planned};
pub use planning::{on_document, on_more_line, refused};
pub use steps::{answered, state_of, text_reply};
pub use subject::Subject;
