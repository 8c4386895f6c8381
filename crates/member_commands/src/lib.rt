//! The commands of own members: some of an owner's are set, or one is taken out, by what a file would then say.
#![tactic(auto)]

mod command;
mod head;
mod layer;
mod making;
mod map;
mod narrowing;
mod object;
mod set_head;
mod set_value;
mod tileset;
mod value_command;

pub use head::Head;
pub use making::more_fault;
pub use narrowing::set_tileset_member;
pub use set_head::{MemberEdit, SetHead};
pub use set_value::{SetTileset, SetValue};
