//! Trees of JSON: how deep they nest, whether a member has a name, and whether two are the same.
#![tactic(auto)]

mod depth;
mod names;
mod same;

pub use depth::{is_within, members_are_within};
pub use names::{RESERVED_NAME, has_name};
pub use same::{is_same, members_are_same};
