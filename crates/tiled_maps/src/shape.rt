// Looks at a whole tree, as those of `json_trees`. They go past numbers and texts without a call for each.
ghost use Rattle.std.specs.Prelude.{◌≡◌, nat_le};
ghost use Rattle.json_trees.specs.Names.{has_name, items_have_name, members_have_name};
ghost use Rattle.serde_json.specs.Data.{depth, items_depth, members_depth};
ghost use Rattle.serde_json.specs.View.{view as data_of, items_view, members_view};

use serde_json::{Map, Value};

/// Whether arrays and objects nest no deeper than so many tiers.
#[cycle(tiers)]
#[inline(always)]
pub fn is_within(tiers: u8, value: &Value) -> bool
    ensures { result ≡ nat_le (depth (data_of value.now)) tiers }
{
    match value {
        Value::Null | Value::Bool(_) | Value::Number(_) | Value::String(_) => true,
        Value::Array(items) => tiers > 0 && items_are_within(tiers - 1, items),
        Value::Object(members) => tiers > 0 && members_are_within(tiers - 1, members),
    }
}

#[cycle(tiers)]
#[inline(never)]
fn items_are_within(tiers: u8, items: &Vec<Value>) -> bool
    ensures { result ≡ nat_le (items_depth (items_view items.now.items)) tiers }
{
    for item in items {
        if !is_within(tiers, item) {
            return false;
        }
    }
    true
}

#[cycle(tiers)]
#[inline(never)]
fn members_are_within(tiers: u8, members: &Map<String, Value>) -> bool
    ensures { result ≡ nat_le (members_depth (members_view members.now.entries)) tiers }
{
    for (_key, member) in members.iter() {
        if !is_within(tiers, member) {
            return false;
        }
    }
    true
}

/// Whether a member of this name stands anywhere in a tree.
#[cycle(names)]
#[inline(always)]
pub fn has_name(name: &str, value: &Value) -> bool
    ensures { result ≡ has_name name.now (data_of value.now) }
{
    match value {
        Value::Null | Value::Bool(_) | Value::Number(_) | Value::String(_) => false,
        Value::Array(items) => items_have_name(name, items),
        Value::Object(members) => members_have_name(name, members),
    }
}

#[cycle(names)]
#[inline(never)]
fn items_have_name(name: &str, items: &Vec<Value>) -> bool
    ensures { result ≡ items_have_name name.now (items_view items.now.items) }
{
    for item in items {
        if has_name(name, item) {
            return true;
        }
    }
    false
}

#[cycle(names)]
#[inline(never)]
fn members_have_name(name: &str, members: &Map<String, Value>) -> bool
    ensures { result ≡ members_have_name name.now (members_view members.now.entries) }
{
    for (key, member) in members.iter() {
        if name == key.as_str() || has_name(name, member) {
            return true;
        }
    }
    false
}
