//! The reader and the writer of Tiled's JSON maps.
#![tactic(auto)]

// A map is read,
mod reading;

// and its parts:
mod body;
mod elements;
mod layer;
mod object;
mod property;
mod size;
mod tileset;

// no number may have a fraction, and ids and names must differ.
mod doubles;
mod floats;

// A map is written,
mod map_text;

// and its parts.
mod detail;
mod writing;

// The text of one thing of a map.
mod part_text;

// What a text of a line says, the heads that such values go into, and the whole things that it says.
mod given;
mod layer_head;
mod map_head;
mod moved;
mod object_head;
mod same_head;
mod tileset_head;
mod word;

pub use doubles::Ids;
pub use fractions::{Fractions, Moved, Place};
pub use given::{
    GivenLayer, GivenObject, given_layer, given_object, given_property, given_text, given_tileset,
};
pub use layer_head::{is_layer_head, is_layer_member, layer_head_members, read_layer_head};
pub use map_head::{is_map_head, is_map_member, map_head_members, read_map_head};
pub use map_text::{saved_is_opened, write_map, write_outline, written_is_read};
pub use map_values::{MapFault, NoTrail, Segment, Trail};
pub use moved::moved_in;
pub use object_head::{object_head_members, read_object_head};
pub use part_text::{
    write_layer_head, write_map_head, write_object, write_properties, write_property, write_tileset,
};
pub use reading::{read_map, read_map_along};
pub use refusals::MapRefusal;
pub use same_head::is_object_head;
pub use tileset_head::{
    is_tileset_head, is_tileset_member, read_tileset_head, tileset_head_members,
};
pub use word::{MAX_WORD_DEPTH, json_member, json_word, json_words};
