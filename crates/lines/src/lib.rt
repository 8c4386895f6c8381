//! The lines of a byte stream, cut at byte 10 and read through one buffer of fixed size.
#![tactic(auto)]

mod laws;
mod reader;

pub use laws::lines_are_cut;
pub use reader::{FlushFault, Found, LineReader, ReadFault};
