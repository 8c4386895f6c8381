// Numbers that a text spells.
ghost use Rattle.std.specs.Prelude.{◌≡◌, ◌^◌, ◌<◌, option_map, drop, slice_index};
ghost use Rattle.serde_json.specs.View.{number_view};
ghost use Rattle.tmx_tree.specs.Numbers.{is_digit, digits_of, wrapped_digits_of, unsigned_of, positive, negative, whole_of, signed, wrapped_of, real_number};
ghost use Rattle.tmx_tree.specs.Numbers.{real_of, is_whole, without_plus, negated, whole_in, wrapped_in};

use serde_json::Number;
use std::num::{nearest_i64_to_f64, saturating_f64_to_i64};

/// How many values 32 bits have.
const WORD: u64 = 0x1_0000_0000;

/// Whether a byte is a digit.
pub fn is_digit(byte: u8) -> bool
    ensures { result ≡ is_digit byte }
{
    b'0' <= byte && byte <= b'9'
}

// The number that digits spell, if it is one of 32 bits.
fn digits_of(digits: &[u8]) -> Option<u32>
    ensures { result ≡ digits_of digits.now }
{
    if digits.is_empty() {
        return None;
    }
    let mut number: u64 = 0;
    for byte in digits {
        if !is_digit(*byte) {
            return None;
        }
        number = 10 * number + (*byte - b'0') as u64;
        if number >= WORD {
            return None;
        }
    }
    Some(number as u32)
}

// The last 32 bits of the number that digits spell.
fn wrapped_digits_of(digits: &[u8]) -> Option<u32>
    ensures { result ≡ wrapped_digits_of digits.now }
{
    if digits.is_empty() {
        return None;
    }
    let mut number: u64 = 0;
    for byte in digits {
        if !is_digit(*byte) {
            return None;
        }
        number = (10 * number + (*byte - b'0') as u64) % WORD;
    }
    Some(number as u32)
}

// The first byte, or 0 where there is none.
fn first(text: &[u8]) -> u8
    ensures { result ≡ slice_index text.now 0 }
{
    if text.is_empty() { 0 } else { text[0] }
}

// The bytes behind the first.
fn behind_first(text: &[u8]) -> &[u8]
    ensures { result.now ≡ drop 1 text.now }
{
    if text.is_empty() { text } else { &text[1..] }
}

// The digits of a text that may have a plus.
fn without_plus(text: &[u8]) -> &[u8]
    ensures { result.now ≡ without_plus text.now }
{
    if first(text) == b'+' {
        behind_first(text)
    } else {
        text
    }
}

/// The number of 32 bits that a text spells.
#[tactic(auto, unfolding(crate::specs::Numbers::unsigned_of))]
pub fn unsigned_of(text: &str) -> Option<u32>
    ensures { result ≡ unsigned_of text.now }
{
    digits_of(without_plus(text.trim().as_bytes()))
}

fn positive(number: u32) -> Option<i32>
    ensures { result ≡ positive number }
{
    if number < 0x8000_0000 {
        Some(number as i32)
    } else {
        None
    }
}

fn negative(number: u32) -> Option<i32>
    ensures { result ≡ negative number }
{
    if number <= 0x8000_0000 {
        Some((-(number as i64)) as i32)
    } else {
        None
    }
}

fn whole_in(text: &[u8]) -> Option<i32>
    ensures { result ≡ whole_in text.now }
{
    if first(text) == b'-' {
        negative(digits_of(behind_first(text))?)
    } else {
        positive(digits_of(without_plus(text))?)
    }
}

/// The whole number of 32 bits, one of them its sign, that a text spells.
#[tactic(auto, unfolding(crate::specs::Numbers::whole_of))]
pub fn whole_of(text: &str) -> Option<i32>
    ensures { result ≡ whole_of text.now }
{
    whole_in(text.trim().as_bytes())
}

// The whole number whose 32 bits these are.
fn signed(bits: u32) -> i32
    ensures { result ≡ signed bits }
{
    if bits < 0x8000_0000 {
        bits as i32
    } else {
        (bits as i64 - 0x1_0000_0000) as i32
    }
}

fn negated(bits: u32) -> u32
    ensures { result ≡ negated bits }
{
    ((WORD - bits as u64) % WORD) as u32
}

fn wrapped_in(text: &[u8]) -> Option<i32>
    ensures { result ≡ wrapped_in text.now }
{
    if first(text) == b'-' {
        Some(signed(negated(wrapped_digits_of(behind_first(text))?)))
    } else {
        Some(signed(wrapped_digits_of(without_plus(text))?))
    }
}

/// The last 32 bits of the whole number that a text spells, one of them the sign.
#[tactic(auto, unfolding(crate::specs::Numbers::wrapped_of))]
pub fn wrapped_of(text: &str) -> Option<i32>
    ensures { result ≡ wrapped_of text.now }
{
    wrapped_in(text.trim().as_bytes())
}

// Whether a float is its whole part, and below 2^63.
fn is_whole(x: f64, whole: i64) -> bool
    ensures { result ≡ is_whole x whole }
{
    nearest_i64_to_f64(whole) == x && i64::MIN < whole && whole < i64::MAX
}

/// The number that a float is: a whole one if it is whole and below 2^63.
#[tactic(auto, unfolding(crate::specs::Numbers::whole_part))]
pub fn real_number(x: f64) -> Option<Number>
    ensures { option_map number_view result ≡ real_number x }
{
    let whole = saturating_f64_to_i64(x.floor());
    if is_whole(x, whole) {
        Some(Number::from(whole))
    } else {
        Number::from_f64(x)
    }
}

/// The float of a text.
#[tactic(auto, unfolding(crate::specs::Numbers::real_of))]
pub fn real_of(text: &str) -> Option<f64>
    ensures { result ≡ real_of text.now }
{
    match fast_float::parse::<f64, _>(text.trim()) {
        Ok(x) => Some(x),
        Err(_) => None,
    }
}
