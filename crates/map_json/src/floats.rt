// Whether a tree has a number that is not whole. The trail then stands at the first one.
ghost use Rattle.std.specs.Prelude.{◌≡◌, option_map};
ghost use Rattle.serde_json.specs.Data.{object};
ghost use Rattle.serde_json.specs.View.{view as data_of, items_view, members_view};
ghost use Rattle.serde_json.specs.Written.{has_float, items_have_float, members_have_float};
ghost use Rattle.map_model.specs.declared.names.TheConstants.{VERSION};
ghost use Rattle.json_members.specs.Members.{without};
ghost use Rattle.map_json.specs.Maps.{version_has_fraction, has_fraction};

use map_model::names;
use map_values::{Segment, Trail};
use serde_json::{Map, Value};

/// Whether a number that is not whole stands anywhere in a value.
#[cycle(floats)]
pub fn has_float<T: Trail>(value: &Value, trail: &mut T) -> bool
    ensures { result ≡ has_float (data_of value.now) }
{
    match value {
        Value::Null | Value::Bool(_) | Value::String(_) => false,
        Value::Number(number) => number.is_f64(),
        Value::Array(items) => items_have_float(items, trail),
        Value::Object(members) => members_have_float(members, trail),
    }
}

#[cycle(floats)]
fn items_have_float<T: Trail>(items: &Vec<Value>, trail: &mut T) -> bool
    ensures { result ≡ items_have_float (items_view items.now.items) }
{
    for (at, item) in items.iter().enumerate() {
        // Most items are the numbers of cells, and those take no call.
        if let Value::Number(number) = item {
            if number.is_f64() {
                trail.enter(Segment::Element(at));
                return true;
            }
        } else {
            trail.enter(Segment::Element(at));
            if has_float(item, trail) {
                return true;
            }
            trail.leave();
        }
    }
    false
}

#[cycle(floats)]
fn members_have_float<T: Trail>(members: &Map<String, Value>, trail: &mut T) -> bool
    ensures { result ≡ members_have_float (members_view members.now.entries) }
{
    for (name, member) in members.iter() {
        trail.enter(Segment::Member(name.as_str()));
        if has_float(member, trail) {
            return true;
        }
        trail.leave();
    }
    false
}

// Whether a version that is no number has a number in it that is not whole.
fn version_has_fraction<T: Trail>(version: Option<&Value>, trail: &mut T) -> bool
    ensures { result ≡ version_has_fraction (option_map (λ value. data_of value.now) version.entry) }
{
    match version {
        Some(Value::Number(_)) | None => false,
        Some(value) => {
            trail.enter(Segment::Member(names::VERSION));
            let found = has_float(value, trail);
            if !found {
                trail.leave();
            }
            found
        }
    }
}

// Whether a member other than the version has a number in it that is not whole.
fn others_have_fraction<T: Trail>(members: &Map<String, Value>, trail: &mut T) -> bool
    ensures { result
        ≡ members_have_float (without VERSION.now (members_view members.now.entries)) }
{
    for (name, member) in members.iter() {
        if name.as_str() != "version" {
            trail.enter(Segment::Member(name.as_str()));
            if has_float(member, trail) {
                return true;
            }
            trail.leave();
        }
    }
    false
}

fn object_has_fraction<T: Trail>(members: &Map<String, Value>, trail: &mut T) -> bool
    ensures { result ≡ has_fraction (object (members_view members.now.entries)) }
{
    others_have_fraction(members, trail) || version_has_fraction(members.get(names::VERSION), trail)
}

/// Whether a number that is not whole stands anywhere but as the version of the root.
pub fn has_fraction<T: Trail>(value: &Value, trail: &mut T) -> bool
    ensures { result ≡ has_fraction (data_of value.now) }
{
    match value {
        Value::Object(members) => object_has_fraction(members, trail),
        other => has_float(other, trail),
    }
}
