//! A map or a tileset in Tiled's XML, as the tree that Tiled's JSON has of it.
#![tactic(auto)]

mod bounds;
mod cells;
mod corners;
mod counts;
mod element;
mod fault;
mod format;
mod layers;
mod map;
mod number;
mod objects;
mod plain_value;
mod properties;
mod property;
mod row;
mod settings;
mod tables;
mod texts;
mod tile_layer;
mod tiles;
mod tileset;
mod tileset_file;
mod tilesets;
mod wangs;

pub use fault::{Fault, Refusal};
pub use map::tree;
pub use property::NOTE_NAME;
pub use tileset_file::tileset_tree;
