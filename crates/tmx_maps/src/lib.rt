//! Maps in Tiled's XML as texts of JSON, and trees of maps as XML; tilesets in XML as texts of JSON.
#![tactic(auto)]

mod fault;
mod place;
mod reading;
mod same_map;
mod saving;
mod source;
mod tilesets;
mod untold;
mod usual;

pub use fault::Fault;
pub use reading::json_of;
pub use saving::tmx_of_tree;
pub use source::{TmxSource, read_source};
pub use tilesets::tileset_json_of;
pub use tmx_tree::Refusal;
pub use untold::where_untold;
pub use xml_text::Flaw;
