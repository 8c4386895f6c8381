// What Tiled takes where a member is absent, and which members are left out.
ghost use Rattle.std.specs.Prelude.{◌≡◌, map, bytes_eq, codes};
ghost use Rattle.serde_json.specs.Data.{boolean};
ghost use Rattle.tmx_tree.specs.Texts.{is_one_of};
ghost use Rattle.serde_json.specs.Find.{to_float};
ghost use Rattle.serde_json.specs.View.{view as data_of, number_view, items_view};
ghost use Rattle.tmx_maps.specs.SameMap.{usual_texts, usual_words, is_pair_of, is_float_of, is_usual_float, has_no_items, is_usual, is_usual_word, is_note, is_own, is_value, is_left_here, is_left_out, text_of, zero_names, one_names};

use crate::place::{Place, is_one_of, text_of};
use serde_json::{Number, Value};
use std::num::nearest_i64_to_f64;

fn is_pair_of(pairs: &[(&str, &str)], name: &str, text: &str) -> bool
    ensures { result ≡ is_pair_of (map (λ p. (p.0.now, p.1.now)) pairs.now) name.now text.now }
{
    for pair in pairs {
        if name == pair.0 && text == pair.1 {
            return true;
        }
    }
    false
}

fn is_usual_text(name: &str, text: &str) -> bool
    ensures { result ≡ is_pair_of usual_texts name.now text.now }
{
    is_pair_of(
        &[
            ("name", ""),
            ("type", ""),
            ("class", ""),
            ("propertytype", ""),
            ("compression", ""),
            ("color", ""),
            ("tintcolor", ""),
            ("backgroundcolor", ""),
            ("transparentcolor", ""),
            ("image", ""),
            ("mode", ""),
            ("text", ""),
            ("renderorder", "right-down"),
            ("draworder", "topdown"),
            ("staggeraxis", "y"),
            ("staggerindex", "odd"),
            ("encoding", "csv"),
            ("objectalignment", "unspecified"),
        ],
        name,
        text,
    )
}

fn is_usual_word_text(name: &str, text: &str) -> bool
    ensures { result ≡ is_pair_of usual_words name.now text.now }
{
    is_pair_of(
        &[
            ("fontfamily", ""),
            ("fontfamily", "sans-serif"),
            ("color", "#000000"),
            ("color", "#ff000000"),
            ("halign", "left"),
            ("valign", "top"),
        ],
        name,
        text,
    )
}

/// A number as a float.
pub fn float_of(number: &Number) -> f64
    ensures { result ≡ to_float (number_view number.now) }
{
    match number.as_f64() {
        Some(x) => x,
        None => 0.0,
    }
}

fn is_zero_name(name: &str) -> bool
    ensures { result ≡ is_one_of zero_names name.now }
{
    is_one_of(
        &[
            "x",
            "y",
            "width",
            "height",
            "rotation",
            "gid",
            "offsetx",
            "offsety",
            "parallaxoriginx",
            "parallaxoriginy",
            "hexsidelength",
            "spacing",
            "margin",
        ],
        name,
    )
}

fn is_one_name(name: &str) -> bool
    ensures { result ≡ is_one_of one_names name.now }
{
    is_one_of(&["opacity", "parallaxx", "parallaxy", "probability"], name)
}

/// Whether a float is a whole number.
pub fn is_float_of(whole: i64, x: f64) -> bool
    ensures { result ≡ is_float_of whole x }
{
    nearest_i64_to_f64(whole) == x
}

fn is_usual_float(name: &str, x: f64) -> bool
    ensures { result ≡ is_usual_float name.now x }
{
    is_float_of(0, x) && is_zero_name(name)
        || is_float_of(1, x) && is_one_name(name)
        || is_float_of(-1, x) && name == "compressionlevel"
}

fn is_usual_flag(name: &str, is_set: bool) -> bool
    ensures { result ≡ is_usual name.now (boolean is_set) }
{
    if is_set {
        is_one_of(&["visible", "kerning"], name)
    } else {
        is_one_of(
            &[
                "infinite",
                "locked",
                "repeatx",
                "repeaty",
                "ellipse",
                "point",
                "capsule",
                "wrap",
                "bold",
                "italic",
                "underline",
                "strikeout",
            ],
            name,
        )
    }
}

fn has_no_items(items: &Vec<Value>) -> bool
    ensures { result ≡ has_no_items (items_view items.now.items) }
{
    match items.first() {
        Some(_) => false,
        None => true,
    }
}

fn is_usual(name: &str, value: &Value) -> bool
    ensures { result ≡ is_usual name.now (data_of value.now) }
{
    match value {
        Value::Null | Value::Object(_) => false,
        Value::Bool(is_set) => is_usual_flag(name, *is_set),
        Value::Number(number) => is_usual_float(name, float_of(number)),
        Value::String(text) => is_usual_text(name, text.as_str()),
        Value::Array(items) => has_no_items(items)
            && is_one_of(&["properties", "tiles", "wangsets"], name),
    }
}

fn is_usual_word(name: &str, value: &Value) -> bool
    ensures { result ≡ is_usual_word name.now (data_of value.now) }
{
    match value {
        Value::Null | Value::Bool(_) | Value::Array(_) | Value::Object(_) => false,
        Value::Number(number) => name == "pixelsize" && is_float_of(16, float_of(number)),
        Value::String(text) => is_usual_word_text(name, text.as_str()),
    }
}

fn is_string(value: &Value) -> bool
    ensures { result ≡ bytes_eq (text_of (data_of value.now)) (codes "string") }
{
    text_of(value) == "string"
}

fn is_own(name: &str) -> bool
    ensures { result ≡ is_own name.now }
{
    is_one_of(&["rotation", "visible", "width", "height"], name)
}

fn is_left_here(place: Place, name: &str, value: &Value) -> bool
    ensures { result ≡ is_left_here place name.now (data_of value.now) }
{
    match place {
        Place::Thing | Place::Color => is_usual(name, value),
        Place::Straight => is_one_of(&["hexsidelength", "staggeraxis", "staggerindex"], name)
            || is_usual(name, value),
        Place::Staggered => name == "hexsidelength" || is_usual(name, value),
        Place::Chunked => is_one_of(&["startx", "starty", "width", "height"], name)
            || is_usual(name, value),
        Place::Image => is_one_of(&["imagewidth", "imageheight"], name) || is_usual(name, value),
        Place::Instance => !is_own(name) && is_usual(name, value),
        Place::Property => name == "type" && is_string(value) || is_usual(name, value),
        Place::NoColor => name == "type" || is_usual(name, value),
        Place::Words => is_usual_word(name, value) || is_usual(name, value),
        Place::Value => false,
    }
}

fn is_value(place: Place) -> bool
    ensures { result ≡ is_value place }
{
    match place {
        Place::Value => true,
        _ => false,
    }
}

fn is_note(name: &str) -> bool
    ensures { result ≡ is_note name.now }
{
    is_one_of(&["roskevad_tmx", "version"], name)
}

/// Whether a member is left out, since Tiled takes it as said where it is absent, or since it tells nothing of the map.
pub fn is_left_out(place: Place, name: &str, value: &Value) -> bool
    ensures { result ≡ is_left_out place name.now (data_of value.now) }
{
    !is_value(place) && (is_note(name) || is_left_here(place, name, value))
}
