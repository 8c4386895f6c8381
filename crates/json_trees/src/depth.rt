// How deep a tree nests.
ghost use Rattle.std.specs.Prelude.{◌≡◌, nat_le};
ghost use Rattle.serde_json.specs.Data.{depth, items_depth, members_depth};
ghost use Rattle.serde_json.specs.View.{view as data_of, items_view, members_view};

use serde_json::{Map, Value};

/// Whether arrays and objects nest no deeper than so many tiers.
#[cycle(tiers)]
pub fn is_within(tiers: u8, value: &Value) -> bool
    ensures { result ≡ nat_le (depth (data_of value.now)) tiers }
{
    match value {
        Value::Null | Value::Bool(_) | Value::Number(_) | Value::String(_) => true,
        Value::Array(items) => tiers > 0 && items_are_within(tiers - 1, items),
        Value::Object(members) => tiers > 0 && members_are_within(tiers - 1, members),
    }
}

#[cycle(tiers)]
fn items_are_within(tiers: u8, items: &Vec<Value>) -> bool
    ensures { result ≡ nat_le (items_depth (items_view items.now.items)) tiers }
{
    for item in items {
        if !is_within(tiers, item) {
            return false;
        }
    }
    true
}

/// Whether the values of members nest no deeper than so many tiers. The object that has them is no tier of these.
#[cycle(tiers)]
pub fn members_are_within(tiers: u8, members: &Map<String, Value>) -> bool
    ensures { result ≡ nat_le (members_depth (members_view members.now.entries)) tiers }
{
    for (_key, member) in members.iter() {
        if !is_within(tiers, member) {
            return false;
        }
    }
    true
}
