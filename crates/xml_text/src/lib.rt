//! The XML of Tiled's maps, read without loss: each element knows where it stands in the text.
#![tactic(auto)]

mod fault;
mod markup;
mod nodes;
mod prolog;
mod reading;
mod said;
mod tags;
mod tree;
mod words;

pub use fault::{Fault, Flaw};
pub use reading::read;
pub use tree::{Attribute, Element, Node, Span, Text};
