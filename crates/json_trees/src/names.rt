// Members found by name anywhere in a tree.
ghost use Rattle.std.specs.Prelude.{◌≡◌};
ghost use Rattle.serde_json.specs.View.{view as data_of, items_view, members_view};
ghost use Rattle.json_trees.specs.Names.{has_name, items_have_name, members_have_name};

use serde_json::{Map, Value};

/// The name that no member of a map's file may have: under it stands what is noted of fractions and of infinite maps.
pub const RESERVED_NAME: &str = "roskevad";

/// Whether a member of this name stands anywhere in a tree.
#[cycle(names)]
pub fn has_name(name: &str, value: &Value) -> bool
    ensures { result ≡ has_name name.now (data_of value.now) }
{
    match value {
        Value::Null | Value::Bool(_) | Value::Number(_) | Value::String(_) => false,
        Value::Array(items) => items_have_name(name, items),
        Value::Object(members) => members_have_name(name, members),
    }
}

#[cycle(names)]
fn items_have_name(name: &str, items: &Vec<Value>) -> bool
    ensures { result ≡ items_have_name name.now (items_view items.now.items) }
{
    for item in items {
        if has_name(name, item) {
            return true;
        }
    }
    false
}

#[cycle(names)]
fn members_have_name(name: &str, members: &Map<String, Value>) -> bool
    ensures { result ≡ members_have_name name.now (members_view members.now.entries) }
{
    for (key, member) in members.iter() {
        if name == key.as_str() || has_name(name, member) {
            return true;
        }
    }
    false
}
