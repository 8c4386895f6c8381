// One fraction: its whole part, and its bits in two halves.
ghost use Rattle.std.specs.Prelude.{◌≡◌, IfOk, option_map};
ghost use Rattle.serde_json.specs.Find.{to_float};
ghost use Rattle.serde_json.specs.View.{view as data_of, number_view};
ghost use Rattle.fractions.specs.Aside.{stand_in, whole_part, fraction_of, fraction_at};
ghost use Rattle.fractions.specs.Lines.{further};
ghost use Rattle.fractions.specs.Back.{half, of_halves, number_of_halves, still_is};

use json_trees::RESERVED_NAME;
use serde_json::{Map, Number, Value};
use std::alloc::{AllocError, Global};
use std::num::{
    f64_from_bits_with_nan, f64_to_bits_with_nan, nearest_i64_to_f64, saturating_f64_to_i64,
};

/// How many values a half of the bits has. A whole number below 2^53 is one for readers in JavaScript, too.
const HALF: u64 = 4_294_967_296;

/// The greatest whole number that is not above a float, as far as 64 bits reach.
#[tactic(auto, unfolding(crate::specs::Aside::whole_part))]
pub fn whole_part(x: f64) -> i64
    ensures { result ≡ whole_part x }
{
    saturating_f64_to_i64(x.floor())
}

fn fraction_of(number: &Number) -> Option<Number>
    ensures { option_map number_view result ≡ fraction_of (number_view number.now) }
{
    if number.is_f64() { Some(*number) } else { None }
}

/// The number that a value is, if it is a fraction.
pub fn fraction_at(value: &Value) -> Option<Number>
    ensures { option_map number_view result ≡ fraction_at (data_of value.now) }
{
    match value.as_number() {
        Some(number) => fraction_of(number),
        None => None,
    }
}

/// The nearest float to a number.
pub fn to_float(number: &Number) -> f64
    ensures { result ≡ to_float (number_view number.now) }
{
    match number.as_f64() {
        Some(x) => x,
        None => 0.0,
    }
}

/// A number so many pixels further.
pub fn further(pixels: i64, x: f64) -> f64
    ensures { result ≡ further pixels x }
{
    if pixels == 0 {
        x
    } else {
        x + nearest_i64_to_f64(pixels)
    }
}

/// What stands for a fraction: the halves of its bits under the reserved name.
#[tactic(auto, unfolding(crate::specs::Aside::stand_in))]
pub fn stand_in(alloc: Global, x: f64) -> Result<Value, AllocError>
    ensures { IfOk result (λ value. data_of value ≡ stand_in x) }
{
    let bits = f64_to_bits_with_nan(x);
    let mut halves = Vec::new(alloc);
    halves.push(Value::from(bits / HALF))?;
    halves.push(Value::from(bits % HALF))?;
    let mut members = Map::new(alloc);
    serde_json::put(&mut members, alloc, RESERVED_NAME, Value::from(halves))?;
    Ok(Value::from(members))
}

fn half(index: usize, value: &Value) -> Option<u64>
    ensures { result ≡ half index (data_of value.now) }
{
    match value.get(index) {
        Some(half) => half.as_u64(),
        None => None,
    }
}

fn of_halves(high: u64, low: u64) -> Option<Number>
    ensures { option_map number_view result ≡ of_halves high low }
{
    if high < HALF && low < HALF {
        Number::from_f64(f64_from_bits_with_nan(high * HALF + low))
    } else {
        None
    }
}

/// The number whose halves stand in an array.
#[tactic(auto, unfolding(crate::specs::Back::number_of_halves))]
pub fn number_of_halves(value: &Value) -> Option<Number>
    ensures { option_map number_view result ≡ number_of_halves (data_of value.now) }
{
    match half(0, value) {
        Some(high) => match half(1, value) {
            Some(low) => of_halves(high, low),
            None => None,
        },
        None => None,
    }
}

/// Whether a value is the whole part of a fraction.
pub fn still_is(x: f64, value: &Value) -> bool
    ensures { result ≡ still_is x (data_of value.now) }
{
    match value.as_number() {
        Some(number) => match number.as_i128() {
            Some(integer) => integer == whole_part(x) as i128,
            None => false,
        },
        None => false,
    }
}
