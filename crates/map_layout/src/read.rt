//! The tree of a text, as `serde_json` reads it. Cells are read faster than there: most of a map are.
ghost use Rattle.std.specs.Prelude.{◌≡◌, ◌<◌, ◌+◌, [], ◌∷◌, length, Some, IfOk, OnOk};
ghost use Rattle.json.specs.Reads.{token_of};
ghost use Rattle.json.specs.Json.{value, items, members};
ghost use Rattle.serde_json.specs.Data.{no_members};
ghost use Rattle.serde_json.specs.Read.{of_json, of_items, of_members, converted};
ghost use Rattle.serde_json.specs.View.{view as data_of, items_view, members_view};
ghost use Rattle.map_layout.specs.Laid.{IsTreeIn, ReadsTree};

use crate::number::number_in;
use crate::parts::{between, room_for_cells};
use json::{Invalid, Reader, Scratch, Token};
use serde_json::{Map, Value};
use std::alloc::{AllocError, AllocFailed, Global};

/// How deep arrays and objects may nest.
pub const MAX_DEPTH: usize = 127;

// Why no tree is made.
#[derive(Drop)]
enum Stop {
    Memory,
    // The text has none, or `serde_json` is to say so.
    Refused,
}

impl From<AllocError> for Stop {
    fn from(_error: AllocError) -> Stop {
        Stop::Memory
    }
}

impl<T: Drop> From<AllocFailed<T>> for Stop {
    fn from(_error: AllocFailed<T>) -> Stop {
        Stop::Memory
    }
}

impl From<Invalid> for Stop {
    fn from(_error: Invalid) -> Stop {
        Stop::Refused
    }
}

// An array for the items that begin at a place of a text. Many cells get room from the start: the first sizes that an array outgrows
// are of memory that is not given back.
#[inline(never)]
fn items_at(alloc: Global, text: &str, start: usize) -> Result<Vec<Value>, AllocError>
    ensures { IfOk result (λ v. v.items ≡ []) }
{
    let bytes = text.as_bytes();
    let room = room_for_cells(between(bytes, start, bytes.len()));
    Vec::with_capacity(alloc, room)
}

// The value that begins with a token.
#[cycle(reads)]
#[inline(always)]
fn value_from(
    alloc: Global,
    text: &str,
    reader: &mut Reader<'_>,
    depth: usize,
    token: Token<'_>,
) -> Result<Value, Stop>
    ensures ok { IfOk result (λ v. converted of_json (value depth (token_of token.entry ∷ reader.old)) ≡ Some (data_of v, reader.new)) }
    ensures shorter { OnOk result (length reader.new < length reader.old + 1) }
{
    match token {
        Token::Number(text) => match number_in(text) {
            Some(number) => Ok(Value::Number(number)),
            None => Err(Stop::Refused),
        },
        Token::String(text) => Ok(Value::String(String::from_str(alloc, text)?)),
        Token::Bool(b) => Ok(Value::Bool(b)),
        Token::Null => Ok(Value::Null),
        Token::EndObject | Token::EndArray | Token::Key(_) | Token::Bad => Err(Stop::Refused),
        Token::BeginArray => {
            if depth == 0 {
                return Err(Stop::Refused);
            }
            Ok(Value::Array(read_items(alloc, text, reader, depth - 1)?))
        }
        Token::BeginObject => {
            if depth == 0 {
                return Err(Stop::Refused);
            }
            Ok(Value::Object(read_members(alloc, text, reader, depth - 1)?))
        }
    }
}

#[cycle(reads)]
#[inline(never)]
fn read_items(
    alloc: Global,
    text: &str,
    reader: &mut Reader<'_>,
    depth: usize,
) -> Result<Vec<Value>, Stop>
    ensures ok { IfOk result (λ v. converted of_items (items (value depth) (length reader.old) reader.old) ≡ Some (items_view v.items, reader.new)) }
    ensures shorter { OnOk result (length reader.new < length reader.old) }
{
    let mut found = items_at(alloc, text, reader.offset())?;
    'items: while let Some(token) = reader.next() {
        if let Token::EndArray = token {
            return Ok(found);
        }
        found.push(value_from(alloc, text, reader, depth, token)?)?;
    }
    Err(Stop::Refused)
}

#[cycle(reads)]
#[inline(never)]
fn read_members(
    alloc: Global,
    text: &str,
    reader: &mut Reader<'_>,
    depth: usize,
) -> Result<Map<String, Value>, Stop>
    ensures ok { IfOk result
        (λ m. converted (λ ms. of_members ms no_members) (members (value depth) (length reader.old) reader.old) ≡ Some (members_view m.entries, reader.new)) }
    ensures shorter { OnOk result (length reader.new < length reader.old) }
{
    let mut found = Map::new(alloc);
    'members: while let Some(name) = reader.next_key()? {
        let key = String::from_str(alloc, name)?;
        let Some(token) = reader.next() else {
            return Err(Stop::Refused);
        };
        let member = value_from(alloc, text, reader, depth, token)?;
        drop(found.insert(key, member)?);
    }
    Ok(found)
}

// The tree of a text, if it has one.
fn read_all(alloc: Global, text: &str) -> Result<Value, Stop>
    ensures { IfOk result (λ v. IsTreeIn text.now v) }
{
    let mut scratch = Scratch::new(alloc);
    let mut reader = Reader::new(text, &mut scratch)?;
    let Some(token) = reader.next() else {
        return Err(Stop::Refused);
    };
    let value = value_from(alloc, text, &mut reader, MAX_DEPTH, token)?;
    if reader.next().is_some() {
        return Err(Stop::Refused);
    }
    Ok(value)
}

/// The tree that the bytes have, if they have one.
pub fn read_tree(alloc: Global, bytes: &[u8]) -> Result<Option<Value>, AllocError>
    ensures { IfOk result (ReadsTree bytes.now) }
{
    if let Ok(text) = simdutf8::compat::from_utf8(bytes) {
        match read_all(alloc, text) {
            Ok(value) => return Ok(Some(value)),
            Err(Stop::Memory) => return Err(AllocError),
            Err(Stop::Refused) => {}
        }
    }
    match Value::from_slice(alloc, bytes) {
        Ok(value) => Ok(Some(value)),
        Err(error) => if error.is_memory() {
            Err(AllocError)
        } else {
            Ok(None)
        },
    }
}
