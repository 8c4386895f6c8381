//! Lists of boxed links, each held as a balanced tree.
#![tactic(auto)]

mod find;
mod iter;
mod link_tree;
mod numbers;
mod tree;

pub use iter::Iter;
pub use link_tree::{LinkTree, Loose};
