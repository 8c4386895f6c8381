// Whether two trees are the same map.
ghost use Rattle.std.specs.Prelude.{◌≡◌, ◌↔◌, IsTrue, true};
ghost use Rattle.serde_json.specs.View.{view as data_of, number_view, items_view, members_view};
ghost use Rattle.serde_json.specs.Find.{to_float};
ghost use Rattle.tmx_maps.specs.declared.place.Place.{Place};
ghost use Rattle.tmx_maps.specs.declared.place.Place.TheVariants.{Thing};
ghost use Rattle.tmx_maps.specs.SameMap.{IsSameMap, plain_float, plain_number, color_digits, plain_text, place_of, plain, plain_items, plain_members};
ghost use Rattle.tmx_maps.specs.Walks.{IsNext};

use crate::place::{Place, inner_place, place_of};
use crate::usual::{float_of, is_float_of, is_left_out};
use serde_json::{Map, Number, Value};
use std::collections::btree_map::Iter;
use std::num::{f64_to_bits_with_nan, nearest_i64_to_f64};

fn plain_float(x: f64) -> f64
    ensures { result ≡ plain_float x }
{
    if is_float_of(0, x) {
        nearest_i64_to_f64(0)
    } else {
        x
    }
}

// By their bits, which no two floats share.
fn is_same_float(one: f64, other: f64) -> bool
    ensures { IsTrue result ↔ (one ≡ other) }
{
    f64_to_bits_with_nan(one) == f64_to_bits_with_nan(other)
}

fn is_same_number(one: &Number, other: &Number) -> bool
    ensures { IsTrue result ↔ (plain_number (number_view one.now) ≡ plain_number (number_view other.now)) }
{
    is_same_float(plain_float(float_of(one)), plain_float(float_of(other)))
}

fn color_digits(text: &[u8]) -> &[u8]
    ensures { result.now ≡ color_digits text.now }
{
    if text.len() == 9 && text[0] == b'#' && text[1] == b'f' && text[2] == b'f' {
        &text[3..]
    } else if !text.is_empty() && text[0] == b'#' {
        &text[1..]
    } else {
        text
    }
}

fn plain_text(place: Place, text: &str) -> &[u8]
    ensures { result.now ≡ plain_text place text.now }
{
    if place == Place::Color {
        color_digits(text.as_bytes())
    } else {
        text.as_bytes()
    }
}

// The next member that is not left out.
fn next_said<'a>(
    place: Place,
    members: &mut Iter<'a, String, Value>,
) -> Option<(&'a String, &'a Value)>
    ensures { IsNext place members.old result members.new }
{
    while let Some((key, value)) = members.next() {
        if !is_left_out(place, key.as_str(), value) {
            return Some((key, value));
        }
    }
    None
}

// Whether two values are the same whole number from 0 on, as two cells mostly are.
#[inline(always)]
fn is_same_whole(one: &Value, other: &Value) -> bool
    ensures { result ≡ true → (p : Place) → (q : Place) → plain p (data_of one.now) ≡ plain q (data_of other.now) }
{
    match one {
        Value::Number(one) => match other {
            Value::Number(other) => match one.as_u64() {
                Some(n) => other.as_u64() == Some(n),
                None => false,
            },
            _ => false,
        },
        _ => false,
    }
}

// Whether two items of arrays are the same. Cells are told apart without a call for each.
#[cycle(same)]
#[inline(always)]
fn is_same_item(one_place: Place, one: &Value, other_place: Place, other: &Value) -> bool
    ensures { IsTrue result ↔ (plain one_place (data_of one.now) ≡ plain other_place (data_of other.now)) }
{
    is_same_whole(one, other) || is_same_at(one_place, one, other_place, other)
}

#[cycle(same)]
pub fn is_same_at(one_place: Place, one: &Value, other_place: Place, other: &Value) -> bool
    ensures { IsTrue result ↔ (plain one_place (data_of one.now) ≡ plain other_place (data_of other.now)) }
{
    match one {
        Value::Null => match other {
            Value::Null => true,
            _ => false,
        },
        Value::Bool(a) => match other {
            Value::Bool(b) => *a == *b,
            _ => false,
        },
        Value::Number(a) => match other {
            Value::Number(b) => is_same_number(a, b),
            _ => false,
        },
        Value::String(a) => match other {
            Value::String(b) => plain_text(one_place, a.as_str())
                == plain_text(other_place, b.as_str()),
            _ => false,
        },
        Value::Array(a) => match other {
            Value::Array(b) => are_same_items(one_place, a, other_place, b),
            _ => false,
        },
        Value::Object(a) => match other {
            Value::Object(b) => are_same_members(
                place_of(one_place, a),
                a,
                place_of(other_place, b),
                b,
            ),
            _ => false,
        },
    }
}

#[cycle(same)]
fn are_same_items(
    one_place: Place,
    one: &Vec<Value>,
    other_place: Place,
    other: &Vec<Value>,
) -> bool
    ensures { IsTrue result ↔ (plain_items one_place (items_view one.now.items) ≡ plain_items other_place (items_view other.now.items)) }
{
    let mut others = other.iter();
    for item in one {
        match others.next() {
            Some(next) => if !is_same_item(one_place, item, other_place, next) {
                return false;
            },
            None => return false,
        }
    }
    others.next().is_none()
}

#[cycle(same)]
fn are_same_members(
    one_place: Place,
    one: &Map<String, Value>,
    other_place: Place,
    other: &Map<String, Value>,
) -> bool
    ensures { IsTrue result ↔ (plain_members one_place (members_view one.now.entries) ≡ plain_members other_place (members_view other.now.entries)) }
{
    let mut others = other.iter();
    for (key, member) in one.iter() {
        if is_left_out(one_place, key.as_str(), member) {
            continue;
        }
        match next_said(other_place, &mut others) {
            Some((name, next)) => if key.as_str() != name.as_str()
                || !is_same_at(
                    inner_place(one_place, key.as_str()),
                    member,
                    inner_place(other_place, name.as_str()),
                    next,
                )
            {
                return false;
            },
            None => return false,
        }
    }
    next_said(other_place, &mut others).is_none()
}

/// Whether two trees are the same map.
pub fn is_same_map(one: &Value, other: &Value) -> bool
    ensures { IsTrue result ↔ IsSameMap (data_of one.now) (data_of other.now) }
{
    is_same_at(Place::Thing, one, Place::Thing, other)
}
