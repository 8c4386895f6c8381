//! Files of maps, in JSON and in XML: what is opened of one, and what is saved as one. And files of tilesets: what is read of one.
#![tactic(auto)]

mod fault;
mod kind;
mod line_column;
mod opening;
mod saving;
mod tilesets;
mod untold;
mod words;

pub use fault::FileFault;
pub use kind::{Kind, is_xml, kind_of, kind_of_bytes};
pub use line_column::LineColumn;
pub use map_layout::LaidText;
pub use opening::{json_in, opened};
pub use saving::saved;
pub use tiled_maps::LONGEST;
pub use tilesets::tileset_text;
pub use untold::tmx_fault;
