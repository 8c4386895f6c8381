// Members of objects, as far as they are what they are to be.
use serde_json::Value;

/// The name under which stands what JSON can't say.
pub const NOTE_NAME: &str = "roskevad_tmx";

/// A member that is a text, else an empty one.
pub fn text_at<'a>(value: &'a Value, name: &str) -> &'a str {
    match value.get(name) {
        Some(member) => member.as_str().unwrap_or(""),
        None => "",
    }
}

/// The items of a member that is an array; of any other none.
pub fn items_at<'a>(value: &'a Value, name: &str) -> &'a [Value] {
    match value.get(name) {
        Some(member) => items_of(member),
        None => &[],
    }
}

/// The items of an array; of anything else none.
pub fn items_of(value: &Value) -> &[Value] {
    match value.as_array() {
        Some(items) => items.as_slice(),
        None => &[],
    }
}

/// A member that is a whole number, else 0.
pub fn whole_at(value: &Value, name: &str) -> u64 {
    match value.get(name) {
        Some(member) => member.as_u64().unwrap_or(0),
        None => 0,
    }
}

/// Whether a member is `true`.
pub fn is_true_at(value: &Value, name: &str) -> bool {
    match value.get(name) {
        Some(member) => member.as_bool() == Some(true),
        None => false,
    }
}

/// Whether a member is there and is a number other than 0.
pub fn is_far_at(value: &Value, name: &str) -> bool {
    match value.get(name) {
        Some(member) => member.as_f64().unwrap_or(0.0) != 0.0,
        None => false,
    }
}

/// What is noted of a thing.
pub fn note_of(value: &Value) -> Option<&Value> {
    value.get(NOTE_NAME)
}

/// A member of what is noted, else of the thing itself.
pub fn noted<'a>(value: &'a Value, name: &str, own: &str) -> Option<&'a Value> {
    match note_of(value) {
        Some(note) => note.get(name).or(value.get(own)),
        None => value.get(own),
    }
}
