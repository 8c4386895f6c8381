//! What a map holds, as numbers: its sizes, and its layers, objects and tilesets as lists.
#![tactic(auto)]

mod first_ids;
mod named;
mod object_ids;
mod rows;
mod sizes;

pub use first_ids::first_ids_of;
pub use named::{Subject, id_of_name};
pub use object_ids::{all_object_ids, object_ids_of_layer};
pub use rows::{Kind, LayerRow, rows_of_layers};
pub use sizes::{Sizes, sizes_of};
