//! The end of a tree.
use serde_json::Value;

/// Drops a tree. It takes half as long as to let it go, which calls a function for each number.
#[cycle(discards)]
pub fn discard(value: Value) {
    match value {
        Value::Array(items) => discard_items(items),
        Value::Object(members) => for (_name, member) in members {
            discard(member);
        },
        Value::Null | Value::Bool(_) | Value::Number(_) | Value::String(_) => {}
    }
}

#[cycle(discards)]
fn discard_items(items: Vec<Value>) {
    for item in items {
        match item {
            Value::Null | Value::Bool(_) | Value::Number(_) => {}
            other => discard(other),
        }
    }
}
