// Whether a map has a fraction anywhere but as its version, and whether it has too many.
ghost use Rattle.std.specs.Prelude.{◌≡◌, ◌+◌, ◌<◌, nat_le, IfSome, IfNone};
ghost use Rattle.serde_json.specs.View.{view as data_of, number_view, items_view, members_view};
ghost use Rattle.fractions.specs.declared.place.Place.TheVariants as place;
ghost use Rattle.fractions.specs.Fractions.{is_fraction, has_fraction, items_have_fraction, members_have_fraction};
ghost use Rattle.fractions.specs.Fractions.{fractions_in, fractions_in_items, fractions_in_members, most_fractions};

use crate::place::Place;
use serde_json::{Map, Number, Value};

/// How many fractions a map may have, so that they take less than 1 GiB of memory. Measured with `tile_editor`, each takes 2,100 bytes
/// while a map is opened and saved, or 3,100 if that is infinite, besides what the map takes with whole numbers in their place.
const MOST_FRACTIONS: u64 = 200_000;

fn is_fraction(place: Place, number: &Number) -> bool
    ensures { result ≡ is_fraction place (number_view number.now) }
{
    match place {
        Place::Version => false,
        Place::Map | Place::Layer | Place::Object | Place::Coordinate | Place::Elsewhere => {
            number.is_f64()
        }
    }
}

/// Whether a fraction stands in a value at a place.
#[cycle(fractions)]
pub fn has_fraction(place: Place, value: &Value) -> bool
    ensures { result ≡ has_fraction place (data_of value.now) }
{
    match value {
        Value::Null | Value::Bool(_) | Value::String(_) => false,
        Value::Number(number) => is_fraction(place, number),
        Value::Array(items) => items_have_fraction(place.inside(), items),
        Value::Object(members) => members_have_fraction(place, members),
    }
}

#[cycle(fractions)]
fn items_have_fraction(place: Place, items: &Vec<Value>) -> bool
    ensures { result ≡ items_have_fraction place (items_view items.now.items) }
{
    for item in items {
        if has_fraction(place, item) {
            return true;
        }
    }
    false
}

#[cycle(fractions)]
fn members_have_fraction(place: Place, members: &Map<String, Value>) -> bool
    ensures { result ≡ members_have_fraction place (members_view members.now.entries) }
{
    for (name, member) in members.iter() {
        if has_fraction(place.below(name.as_str()), member) {
            return true;
        }
    }
    false
}

// How many fractions are left after those of a value at a place, or `None` if it has more.
#[cycle(counts)]
fn after_fractions(place: Place, value: &Value, left: u64) -> Option<u64>
    ensures some { IfSome result (λ rest. rest + fractions_in place (data_of value.now) ≡ left) }
    ensures none { IfNone result (left < fractions_in place (data_of value.now)) }
{
    match value {
        Value::Null | Value::Bool(_) | Value::String(_) => Some(left),
        Value::Number(number) => if is_fraction(place, number) {
            left.checked_sub(1)
        } else {
            Some(left)
        },
        Value::Array(items) => after_items(place.inside(), items, left),
        Value::Object(members) => after_members(place, members, left),
    }
}

#[cycle(counts)]
fn after_items(place: Place, items: &Vec<Value>, left: u64) -> Option<u64>
    ensures some { IfSome result
        (λ rest. rest + fractions_in_items place (items_view items.now.items) ≡ left) }
    ensures none { IfNone result (left < fractions_in_items place (items_view items.now.items)) }
{
    let mut rest = left;
    for item in items {
        rest = after_fractions(place, item, rest)?;
    }
    Some(rest)
}

#[cycle(counts)]
fn after_members(place: Place, members: &Map<String, Value>, left: u64) -> Option<u64>
    ensures some { IfSome result
        (λ rest. rest + fractions_in_members place (members_view members.now.entries) ≡ left) }
    ensures none { IfNone result
        (left < fractions_in_members place (members_view members.now.entries)) }
{
    let mut rest = left;
    for (name, member) in members.iter() {
        rest = after_fractions(place.below(name.as_str()), member, rest)?;
    }
    Some(rest)
}

/// Whether a map has no more fractions than can be set aside.
pub fn has_few_fractions(map: &Value) -> bool
    ensures { result ≡ nat_le (fractions_in place.Map (data_of map.now)) most_fractions }
{
    after_fractions(Place::Map, map, MOST_FRACTIONS).is_some()
}
