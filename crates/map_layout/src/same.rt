//! Whether two trees are the same. Cells are told apart without a call for each.
ghost use Rattle.std.specs.Prelude.{◌≡◌, ◌↔◌, IsTrue, true};
ghost use Rattle.serde_json.specs.View.{view as data_of, items_view, members_view};

use serde_json::{Map, Value};

// Whether two values are the same whole number from 0 on, as two cells mostly are.
#[inline(always)]
fn is_same_number(one: &Value, other: &Value) -> bool
    ensures { result ≡ true → data_of one.now ≡ data_of other.now }
{
    match one {
        Value::Number(one) => match other {
            Value::Number(other) => match one.as_u64() {
                Some(n) => other.as_u64() == Some(n),
                None => false,
            },
            _ => false,
        },
        _ => false,
    }
}

/// Whether two items of arrays are the same.
#[cycle(same)]
#[inline(always)]
pub fn is_same_item(one: &Value, other: &Value) -> bool
    ensures { IsTrue result ↔ (data_of one.now ≡ data_of other.now) }
{
    is_same_number(one, other) || is_same(one, other)
}

/// Whether two trees are the same, as `json_trees` tells it.
#[cycle(same)]
pub fn is_same(one: &Value, other: &Value) -> bool
    ensures { IsTrue result ↔ (data_of one.now ≡ data_of other.now) }
{
    match one {
        Value::Array(a) => match other {
            Value::Array(b) => items_are_same(a, b),
            _ => false,
        },
        Value::Object(a) => match other {
            Value::Object(b) => members_are_same(a, b),
            _ => false,
        },
        Value::Null | Value::Bool(_) | Value::Number(_) | Value::String(_) => json_trees::is_same(
            one, other,
        ),
    }
}

#[cycle(same)]
fn items_are_same(one: &Vec<Value>, other: &Vec<Value>) -> bool
    ensures { IsTrue result ↔ (items_view one.now.items ≡ items_view other.now.items) }
{
    let mut others = other.iter();
    for item in one {
        match others.next() {
            Some(next) => if !is_same_item(item, next) {
                return false;
            },
            None => return false,
        }
    }
    others.next().is_none()
}

#[cycle(same)]
fn members_are_same(one: &Map<String, Value>, other: &Map<String, Value>) -> bool
    ensures { IsTrue result ↔ (members_view one.now.entries ≡ members_view other.now.entries) }
{
    let mut others = other.iter();
    for (key, member) in one.iter() {
        match others.next() {
            Some((name, next)) => if key.as_str() != name.as_str() || !is_same(member, next) {
                return false;
            },
            None => return false,
        }
    }
    others.next().is_none()
}
