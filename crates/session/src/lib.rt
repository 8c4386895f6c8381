//! The lines of a session, and the replies to them: what each line says, and how each reply reads.
#![tactic(auto)]

mod fields;
mod gids;
mod layer_lines;
pub mod limits;
mod line;
mod member_lines;
mod more_line;
mod more_lines;
mod more_spelling;
mod more_word_faults;
mod object_lines;
mod parse;
mod property_lines;
mod reply;
mod select_lines;
mod spelling;
mod text;
mod tileset_lines;
mod trail;
mod typed_value;
mod word_faults;
mod words;

pub use gids::{Gids, Values};
pub use line::Line;
pub use more_line::MoreLine;
pub use more_lines::{parse_more_line, parse_more_line_along};
pub use more_spelling::{
    more_is_not_a_line, more_long_is_not_read, more_read_is_spelled, more_spelled_is_read,
};
pub use more_word_faults::{any_word_fault, one_word_is_at_any_fault};
pub use parse::{parse_line, parse_line_along};
pub use refusals::{LineFault, Refusal};
pub use reply::{LocalTile, Reply};
pub use spelling::{long_is_not_read, quiet_is_read, read_is_spelled, spelled_is_read};
pub use text::{FileName, MapBytes, Text};
pub use trail::{Expected, LastWanted, NoTrail, Trail};
pub use typed_value::TypedValue;
pub use word_faults::{WordFault, one_word_is_at_fault, word_fault};
