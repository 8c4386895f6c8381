//! Maps as Tiled saves them: what the editor's format refuses is set aside before it is read, and put back when it is saved.
#![tactic(auto)]

mod damage;
mod fault;
mod formats;
mod look;
mod packed_layers;
mod packing;
mod shape;
mod sources;
mod text;
mod tree;
mod unpacking;

pub use damage::why_damaged;
pub use fault::Fault;
pub use fractions::number_in;
pub use look::needs_nothing;
pub use map_layout::LaidText;
pub use text::{LONGEST, put_back, put_back_by, put_back_like, set_aside};
