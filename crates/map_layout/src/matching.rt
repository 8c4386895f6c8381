//! Whether a text has a tree, told token by token and without a second tree.
ghost use Rattle.std.specs.Prelude.{◌≡◌, ◌<◌, length, true, Some, IfOk};
ghost use Rattle.json.specs.Json.{value, items, members};
ghost use Rattle.json.specs.Reads.{token_of};
ghost use Rattle.json_trees.specs.Texts.{IsTreeOf};
ghost use Rattle.serde_json.specs.Data.{no_members};
ghost use Rattle.serde_json.specs.Read.{of_json, of_items, of_members, converted, read as read_text};
ghost use Rattle.serde_json.specs.View.{view as data_of, items_view, members_view};
ghost use Rattle.map_layout.specs.Laid.{leaf_of};

use crate::number::number_in;
use crate::read::MAX_DEPTH;
use crate::same::is_same_item;
use json::{Reader, Scratch, Token};
use serde_json::{Map, Value};
use std::alloc::{AllocError, Global};

// Whether a token is all of a value.
#[inline(always)]
fn is_leaf(token: Token<'_>, wanted: &Value) -> bool
    ensures { result ≡ true → leaf_of (token_of token.entry) ≡ Some (data_of wanted.now) }
{
    match token {
        Token::Number(text) => match number_in(text) {
            Some(number) => is_same_item(&Value::Number(number), wanted),
            None => false,
        },
        Token::String(text) => match wanted {
            Value::String(own) => text == own.as_str(),
            _ => false,
        },
        Token::Bool(b) => match wanted {
            Value::Bool(own) => b == *own,
            _ => false,
        },
        Token::Null => match wanted {
            Value::Null => true,
            _ => false,
        },
        _ => false,
    }
}

// Whether a value comes next.
#[cycle(matches)]
#[inline(always)]
fn comes(reader: &mut Reader<'_>, depth: usize, wanted: &Value) -> bool
    ensures same { result ≡ true
        → converted of_json (value depth reader.old) ≡ Some (data_of wanted.now, reader.new) }
    ensures shorter { result ≡ true → length reader.new < length reader.old }
{
    let Some(token) = reader.next() else {
        return false;
    };
    match token {
        Token::BeginArray => match wanted {
            Value::Array(wanted) => depth > 0 && items_come(reader, depth - 1, wanted),
            _ => false,
        },
        Token::BeginObject => match wanted {
            Value::Object(wanted) => depth > 0 && members_come(reader, depth - 1, wanted),
            _ => false,
        },
        _ => is_leaf(token, wanted),
    }
}

#[cycle(matches)]
#[inline(never)]
fn items_come(reader: &mut Reader<'_>, depth: usize, wanted: &Vec<Value>) -> bool
    ensures same { result ≡ true
        → converted of_items (items (value depth) (length reader.old) reader.old)
        ≡ Some (items_view wanted.now.items, reader.new) }
    ensures shorter { result ≡ true → length reader.new < length reader.old }
{
    for item in wanted {
        if !comes(reader, depth, item) {
            return false;
        }
    }
    reader.take_end_array()
}

// The members have to come by their names.
#[cycle(matches)]
#[inline(never)]
fn members_come(reader: &mut Reader<'_>, depth: usize, wanted: &Map<String, Value>) -> bool
    ensures same { result ≡ true
        → converted (λ ms. of_members ms no_members)
        (members (value depth) (length reader.old) reader.old)
        ≡ Some (members_view wanted.now.entries, reader.new) }
    ensures shorter { result ≡ true → length reader.new < length reader.old }
{
    for (key, member) in wanted.iter() {
        let Ok(Some(name)) = reader.next_key() else {
            return false;
        };
        if name != key.as_str() || !comes(reader, depth, member) {
            return false;
        }
    }
    match reader.next_key() {
        Ok(None) => true,
        _ => false,
    }
}

/// Whether a text has this tree, and its members stand by their names; `false` says nothing.
pub fn is_text_of(alloc: Global, bytes: &[u8], wanted: &Value) -> Result<bool, AllocError>
    ensures { IfOk result (λ same. same ≡ true → IsTreeOf bytes.now (data_of wanted.now)) }
{
    let Ok(text) = simdutf8::compat::from_utf8(bytes) else {
        return Ok(false);
    };
    let mut scratch = Scratch::new(alloc);
    let mut reader = Reader::new(text, &mut scratch)?;
    let same = comes(&mut reader, MAX_DEPTH, wanted);
    Ok(same && reader.next().is_none())
}
