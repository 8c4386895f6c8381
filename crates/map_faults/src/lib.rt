//! Why a file is refused as a map, or as a tileset, and where in it.
#![tactic(auto)]

mod faults;
mod json_fault;
mod lexemes;
mod members;
mod offsets;
mod output;
mod place;
mod scan;
mod shown;
mod tileset_faults;
mod told;

pub use faults::{ToldFault, map_fault};
pub use json_fault::place_of_fault;
pub use members::Members;
pub use output::Output;
pub use place::Place;
pub use shown::{is_shown_plain, write_short};
pub use tiled_files::LineColumn;
pub use tileset_faults::tileset_fault;
pub use told::{TOO_LONG, why_refused};
