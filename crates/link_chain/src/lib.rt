//! Chains: lists of boxed links, from which one link can be taken, kept apart and put back without memory.
#![tactic(auto)]

mod chain;
mod iter;

pub use chain::{Chain, Loose};
pub use iter::Iter;
