// How much further than it stands an object of a map is saved.
ghost use Rattle.std.specs.Prelude.{◌≡◌, option_map};
ghost use Rattle.serde_json.specs.View.{view as data_of, members_view};
ghost use Rattle.map_json.specs.Moves.{infinite_note, moved_in, pixels};

use fractions::{Fractions, Moved, UNMOVED};
use json_trees::RESERVED_NAME;
use map_model::Map;
use serde_json::Value;

// The note by which an infinite map was made finite, among the members that a map keeps.
fn infinite_note(members: &serde_json::Map<String, Value>) -> Option<&Value>
    ensures { option_map (λ note. data_of note.now) result ≡ infinite_note (members_view members.now.entries) }
{
    match json_members::found(members, RESERVED_NAME) {
        Some(notes) => notes.get("infinite"),
        None => None,
    }
}

// A whole number of 64 bits; 0 where there is none.
fn pixels(value: Option<&Value>) -> i64
    ensures { result ≡ pixels (option_map (λ value. data_of value.now) value.entry) }
{
    match value {
        Some(value) => value.as_i64().unwrap_or(0),
        None => 0,
    }
}

/// How many pixels further than they stand the objects of a map are saved: as the note tells by which an infinite map was made
/// finite. Where fractions are refused, no map is taken to have such a note.
pub fn moved_in(fractions: Fractions, map: &Map) -> Moved
    ensures { result ≡ moved_in fractions map.now }
{
    match fractions {
        Fractions::Refused => UNMOVED,
        Fractions::SetAside => match infinite_note(map.parts().kept.members()) {
            Some(note) => Moved {
                x: pixels(note.get("movedx")),
                y: pixels(note.get("movedy")),
            },
            None => UNMOVED,
        },
    }
}
