// What the characters of a text and of a value say.
ghost use Rattle.std.specs.Prelude.{◌≡◌, ◌==◌, ◌&&◌, ◌⊎◌, ◌<◌, ◌≤◌, ◌++◌, length, IfOk, IfSome, OnOk, option_map, string_bytes, if◌then◌else◌, unwrap_or, slice_index, true, Some, None};
ghost use Rattle.std.specs.Char.{digit_value};
ghost use Rattle.std.specs.List.{position_or_len};
ghost use Rattle.xml_text.specs.Answers.{Gives};
ghost use Rattle.xml_text.specs.Words.{first_is};
ghost use Rattle.xml_text.specs.Said.{is_character, is_changed, plain, numbered, character, reference, said_turn, said};
ghost use Rattle.xml_text.specs.Views.{left_plain, said_state};

use crate::fault::{Fault, Flaw};
use crate::words::{after, up_to};
use memchr::{memchr, memchr3};
use std::alloc::{AllocError, Global};

/// The least number that is no character's.
const PAST_CHARACTERS: u32 = 0x11_0000;

/// Whether a text may hold the character of this number.
pub fn is_character(c: u32) -> bool
    ensures { result ≡ is_character c }
{
    c == 9
        || c == 10
        || c == 13
        || (32 <= c && c < 0xD800)
        || (0xE000 <= c && c < 0xFFFE)
        || (0x1_0000 <= c && c < PAST_CHARACTERS)
}

fn at_or_end(found: Option<usize>, bytes: &[u8]) -> usize
    ensures { result ≡ unwrap_or found (length bytes.now) }
{
    match found {
        Some(at) => at,
        None => bytes.len(),
    }
}

fn changed_at(bytes: &[u8], is_value: bool) -> usize
    ensures { result ≡ position_or_len (is_changed is_value) bytes.now }
{
    if is_value {
        at_or_end(memchr3(b'\r', b'\t', b'\n', bytes), bytes)
    } else {
        at_or_end(memchr(b'\r', bytes), bytes)
    }
}

// What stands before the first byte that says another, and this byte with what follows.
fn stretch(text: &str, is_value: bool) -> (&str, &str)
    ensures said { plain is_value text.now ≡ result.0.now ++ plain is_value result.1.now }
    ensures changed { 0 < length result.1.now → is_changed is_value (slice_index result.1.now 0) ≡ true }
    ensures shorter { length result.1.now ≤ length text.now }
{
    text.split_at(changed_at(text.as_bytes(), is_value))
}

fn has_line_feed(text: &str) -> bool
    ensures { result ≡ first_is (λ c. c == 10) text.now }
{
    match text.as_bytes() {
        [first, ..] => *first == b'\n',
        [] => false,
    }
}

fn is_line_end(text: &str, rest: &str) -> bool
    requires { 0 < length text.now }
    ensures { result ≡ ((slice_index text.now 0 == 13) && first_is (λ c. c == 10) rest.now) }
{
    text.as_bytes()[0] == b'\r' && has_line_feed(rest)
}

fn blank_of(is_value: bool) -> char
    ensures { result ≡ (if is_value then 32 else 10) }
{
    if is_value { ' ' } else { '\n' }
}

// Pushes what a byte at the front says that says another. Gives what follows it.
fn push_changed<'a>(out: &mut String, text: &'a str, is_value: bool) -> Result<&'a str, AllocError>
    requires some { 0 < length text.now }
    requires changed { is_changed is_value (slice_index text.now 0) ≡ true }
    ensures said { IfOk result (λ rest. string_bytes out.new ++ plain is_value rest.now
        ≡ string_bytes out.old ++ plain is_value text.now) }
    ensures shorter { IfOk result (λ rest. length rest.now < length text.now) }
{
    let rest = &text[1..];
    if is_line_end(text, rest) {
        return Ok(rest);
    }
    out.push(blank_of(is_value))?;
    Ok(rest)
}

// Pushes bytes up to one that says another, and that one. Says what is left.
fn push_stretch<'a>(
    out: &mut String,
    text: &'a str,
    is_value: bool,
) -> Result<Option<&'a str>, AllocError>
    ensures said { IfOk result (λ left. string_bytes out.new ++ left_plain is_value left
        ≡ string_bytes out.old ++ plain is_value text.now) }
    ensures shorter { IfOk result (λ left. IfSome left (λ rest. length rest.now < length text.now)) }
{
    let (front, behind) = stretch(text, is_value);
    out.push_str(front)?;
    if behind.is_empty() {
        return Ok(None);
    }
    let rest = push_changed(out, behind, is_value)?;
    Ok(Some(rest))
}

/// Pushes what a text says that has no reference.
pub fn push_plain(out: &mut String, text: &str, is_value: bool) -> Result<(), AllocError>
    ensures { OnOk result (string_bytes out.new ≡ string_bytes out.old ++ plain is_value text.now) }
{
    let mut rest = text;
    while let Some(left) = push_stretch(out, rest, is_value)? {
        rest = left;
    }
    Ok(())
}

fn value_of(digit: u8) -> u32
    ensures { result ≡ digit_value digit }
{
    match digit {
        b'0'..=b'9' => u32::from(digit - b'0'),
        b'A'..=b'Z' => u32::from(digit - b'A') + 10,
        b'a'..=b'z' => u32::from(digit - b'a') + 10,
        _ => 36,
    }
}

fn character_of(number: u32) -> Option<char>
    ensures { result ≡ (if is_character number then Some number else None) }
{
    if is_character(number) {
        char::from_u32(number)
    } else {
        None
    }
}

fn numbered(digits: &str, base: u32) -> Option<char>
    requires { (base ≡ 10) ⊎ (base ≡ 16) }
    ensures { result ≡ numbered base digits.now }
{
    if digits.is_empty() {
        return None;
    }
    let mut number = 0;
    for digit in digits.as_bytes() {
        let value = value_of(*digit);
        if value >= base {
            return None;
        }
        number = (number * base + value).min(PAST_CHARACTERS);
    }
    character_of(number)
}

#[tactic(auto, unfolding(crate::specs::Said::character))]
fn character(name: &str) -> Option<char>
    ensures { result ≡ character name.now }
{
    if name == "lt" {
        return Some('<');
    }
    if name == "gt" {
        return Some('>');
    }
    if name == "amp" {
        return Some('&');
    }
    if name == "quot" {
        return Some('"');
    }
    if name == "apos" {
        return Some('\'');
    }
    if let Some(digits) = after(name, "#x") {
        return numbered(digits, 16);
    }
    match after(name, "#") {
        Some(digits) => numbered(digits, 10),
        None => None,
    }
}

// A reference behind its `&`, in a text with so many bytes behind it.
#[tactic(auto, unfolding(crate::specs::Said::reference))]
fn reference(text: &str, behind: usize) -> Result<(char, &str), Fault>
    ensures character { Gives (λ found. (found.0, found.1.now)) result (reference text.now) }
    ensures shorter { IfOk result (λ found. length found.1.now < length text.now) }
{
    let left = text.len().saturating_add(behind);
    let (name, end) = up_to(text, b';');
    let Some(rest) = after(end, ";") else {
        return Err(Fault::Flawed(Flaw::BadReference, left));
    };
    let Some(c) = character(name) else {
        return Err(Fault::Flawed(Flaw::BadReference, left));
    };
    Ok((c, rest))
}

// Pushes what characters say up to a reference, and this. Says what is left.
#[tactic(auto, unfolding(crate::specs::Said::said_turn))]
fn push_said<'a>(
    out: &mut String,
    text: &'a str,
    is_value: bool,
    behind: usize,
) -> Result<Option<&'a str>, Fault>
    ensures said { Gives (λ left. said_state (string_bytes out.new) left) result (said_turn is_value (string_bytes out.old, text.now)) }
    ensures shorter { IfOk result (λ left. IfSome left (λ rest. length rest.now < length text.now)) }
{
    let (front, end) = up_to(text, b'&');
    push_plain(out, front, is_value)?;
    let Some(inner) = after(end, "&") else {
        return Ok(None);
    };
    let (c, rest) = reference(inner, behind)?;
    out.push(c)?;
    Ok(Some(rest))
}

/// What characters say: those of a text, or of the value of an attribute. So many bytes are left behind them.
pub fn said(alloc: Global, text: &str, is_value: bool, behind: usize) -> Result<String, Fault>
    ensures { Gives (λ s. string_bytes s) result (said is_value text.now) }
{
    let mut out = String::new(alloc);
    let mut rest = text;
    while let Some(left) = push_said(&mut out, rest, is_value, behind)? {
        rest = left;
    }
    Ok(out)
}
