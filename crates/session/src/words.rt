ghost use Rattle.std.specs.Char.{is_ascii_digit};
ghost use Rattle.std.specs.Prelude.{◌≡◌, List, ℕ, false, true, ◌<◌, ◌^◌, ◌∷◌, ◌==◌, ◌≤◌, ◌≢◌, ◌+◌, ◌++◌, All, take, drop, length, Some, IfSome, IfNone, option_map};
ghost use Rattle.std.specs.List.{list_all, slice_split};
ghost use Rattle.std.specs.Str.Parse.{digits_value};
ghost use Rattle.session.specs.declared.limits.TheConstants.{MAX_COORDINATE};
ghost use Rattle.session.specs.Words.{number_of, is_numeral_prefix, AreLeadingDigits, HasLargePrefix, HasNoNumber, IsFirst, IsLeadingNumber, words, distance_of, below_zero, coordinate_of, is_name, is_name_byte, is_text, is_text_byte, cut_at_bars, are_texts, pieces_left, size_left};

use crate::limits::{MAX_COORDINATE, MAX_TEXT};
use memchr::memchr;

/// The largest number.
const MAX: u64 = 4_294_967_295;

/// So many digits have a value below the largest, whichever they are.
const FEW_DIGITS: usize = 9;

/// The byte of the digit 0.
const ZERO: u32 = 48;

/// Texts of fewer bytes are short.
const SHORT: usize = 16;

/// The offset of the first separator, where it is near or the text is short: byte by byte.
fn near_separator_at(bytes: &[u8], separator: u8) -> Option<usize>
    ensures within { IfSome result (λ n. n < length bytes.now) }
    ensures found { IfSome result (λ n. All (λ b. b ≢ separator) (take n bytes.now)
        × (bytes.now ≡ take n bytes.now ++ separator ∷ drop (n + 1) bytes.now)) }
    ensures none { IfNone result (All (λ b. b ≢ separator) bytes.now) }
{
    bytes.iter().position(|b| *b == separator)
}

/// The offset of the first separator, which may be far.
fn separator_at(bytes: &[u8], separator: u8) -> Option<usize>
    ensures within { IfSome result (λ n. n < length bytes.now) }
    ensures found { IfSome result (λ n. All (λ b. b ≢ separator) (take n bytes.now)
        × (bytes.now ≡ take n bytes.now ++ separator ∷ drop (n + 1) bytes.now)) }
    ensures none { IfNone result (All (λ b. b ≢ separator) bytes.now) }
{
    if bytes.len() < SHORT {
        return near_separator_at(bytes, separator);
    }
    memchr(separator, bytes)
}

// The piece in front of the first separator, which stands there, and what is left behind it.
fn cut_at<'a>(text: &'a str, separator: u8, found: Option<usize>) -> (&'a str, Option<&'a str>)
    requires ascii { separator < 128 }
    requires within { IfSome found (λ n. n < length text.now) }
    requires found { IfSome found (λ n. All (λ b. b ≢ separator) (take n text.now)
        × (text.now ≡ take n text.now ++ separator ∷ drop (n + 1) text.now)) }
    requires none { IfNone found (All (λ b. b ≢ separator) text.now) }
    ensures pieces { slice_split (λ b. b == separator) text.now
        ≡ result.0.now ∷ pieces_left separator result.1 }
    ensures shorter { size_left result.1 ≤ length text.now }
{
    match found {
        Some(n) => (&text[..n], Some(&text[n + 1..])),
        None => (text, None),
    }
}

/// The first piece, which is likely to be short, and what is left behind the separator.
pub fn cut(text: &str, separator: u8) -> (&str, Option<&str>)
    requires { separator < 128 }
    ensures pieces { slice_split (λ b. b == separator) text.now
        ≡ result.0.now ∷ pieces_left separator result.1 }
    ensures shorter { size_left result.1 ≤ length text.now }
{
    cut_at(
        text,
        separator,
        near_separator_at(text.as_bytes(), separator),
    )
}

/// As `cut`, where the first piece is likely to be long.
pub fn cut_long(text: &str, separator: u8) -> (&str, Option<&str>)
    requires { separator < 128 }
    ensures pieces { slice_split (λ b. b == separator) text.now
        ≡ result.0.now ∷ pieces_left separator result.1 }
    ensures shorter { size_left result.1 ≤ length text.now }
{
    cut_at(text, separator, separator_at(text.as_bytes(), separator))
}

/// What stands in front of the first bars and what stands behind, or the whole text and nothing.
pub fn cut_at_bars(text: &str) -> (&str, Option<&str>)
    ensures prefix { result.0.now ≡ (cut_at_bars text.now).0 }
    ensures behind { option_map (λ s. s.now) result.1 ≡ (cut_at_bars text.now).1 }
{
    match text.split_once(" || ") {
        Some((prefix, behind)) => (prefix, Some(behind)),
        None => (text, None),
    }
}

/// The digits in front of other bytes: how many, and their value. There is none where it is 2^32 or more.
fn leading_digits(bytes: &[u8]) -> Option<(usize, u32)>
    ensures some { IfSome result (λ x. AreLeadingDigits bytes.now x.0 x.1) }
    ensures none { IfNone result (HasLargePrefix bytes.now) }
{
    let mut len = 0;
    let mut n: u64 = 0;
    for b in bytes {
        if !b.is_ascii_digit() {
            return Some((len, n as u32));
        }
        n = n * 10 + u64::from(*b - b'0');
        if n > MAX {
            return None;
        }
        len += 1;
    }
    Some((len, n as u32))
}

/// Whether a word has a byte, and no zero in front of others.
fn has_numeral_prefix(word: &[u8]) -> bool
    ensures { result ≡ is_numeral_prefix word.now }
{
    if word.is_empty() {
        return false;
    }
    word.len() == 1 || word[0] != b'0'
}

/// How many digits the number in front of other bytes has.
#[inline(never)]
fn number_len(bytes: &[u8]) -> Option<usize>
    ensures some { IfSome result (λ len. IsLeadingNumber bytes.now len (digits_value 10 (take len bytes.now))) }
    ensures none { IfNone result (HasNoNumber bytes.now) }
{
    let (len, _) = leading_digits(bytes)?;
    if !has_numeral_prefix(&bytes[..len]) {
        return None;
    }
    Some(len)
}

/// The value of digits.
#[inline(never)]
fn value_of(digits: &[u8]) -> u32
    requires digits { list_all is_ascii_digit digits.now ≡ true }
    requires small { digits_value 10 digits.now < 2 ^ 32 }
    ensures { result ≡ digits_value 10 digits.now }
{
    match leading_digits(digits) {
        Some((_, value)) => value,
        None => unreachable!(),
    }
}

/// The digit 0 in front of other bytes, where no other digit stands behind it.
#[inline(always)]
fn zero(bytes: &[u8]) -> Option<(usize, u32)>
    ensures { IfSome result (λ x. IsLeadingNumber bytes.now x.0 x.1) }
{
    if bytes.is_empty() || bytes[0] != b'0' {
        return None;
    }
    if bytes.len() > 1 && bytes[1].is_ascii_digit() {
        return None;
    }
    Some((1, 0))
}

/// The digits in front of other bytes, where they are few and no zero stands in front of others: how many, and their value.
#[inline(always)]
fn few_digits(bytes: &[u8]) -> Option<(usize, u32)>
    ensures { IfSome result (λ x. IsLeadingNumber bytes.now x.0 x.1) }
{
    if bytes.is_empty() || bytes[0] < b'1' || bytes[0] > b'9' {
        return zero(bytes);
    }
    let mut value = u32::from(bytes[0]) - ZERO;
    let mut len = 1;
    while len < bytes.len() && bytes[len].is_ascii_digit() {
        // Of digits that are not few the value may be any.
        let digit = u32::from(bytes[len]) - ZERO;
        value = value.wrapping_mul(10).wrapping_add(digit);
        len += 1;
    }
    if len > FEW_DIGITS {
        return None;
    }
    Some((len, value))
}

/// The number in front of other bytes: how many digits it has, and its value.
#[inline(always)]
fn leading_number(bytes: &[u8]) -> Option<(usize, u32)>
    ensures some { IfSome result (λ x. IsLeadingNumber bytes.now x.0 x.1) }
    ensures none { IfNone result (HasNoNumber bytes.now) }
{
    // Nearly all numbers have few digits.
    if let Some(found) = few_digits(bytes) {
        return Some(found);
    }
    let len = number_len(bytes)?;
    Some((len, value_of(&bytes[..len])))
}

// The number that the first piece is, whose first bytes are such digits, and what is left behind the separator.
#[inline(always)]
fn behind_digits(text: &str, separator: u8, len: usize, number: u32) -> Option<(u32, Option<&str>)>
    requires ascii { separator < 128 }
    requires other { is_ascii_digit separator ≡ false }
    requires digits { IsLeadingNumber text.now len number }
    ensures number { IsFirst number_of (slice_split (λ b. b == separator) text.now) separator result }
    ensures shorter { IfSome result (λ x. size_left x.1 ≤ length text.now) }
{
    let bytes = text.as_bytes();
    if len == bytes.len() {
        return Some((number, None));
    }
    if bytes[len] != separator {
        return None;
    }
    Some((number, Some(&text[len + 1..])))
}

/// The number that the first piece is, and what is left behind the separator.
#[inline(always)]
pub fn number_before(text: &str, separator: u8) -> Option<(u32, Option<&str>)>
    requires ascii { separator < 128 }
    requires other { is_ascii_digit separator ≡ false }
    ensures number { IsFirst number_of (slice_split (λ b. b == separator) text.now) separator result }
    ensures shorter { IfSome result (λ x. size_left x.1 ≤ length text.now) }
{
    let (len, number) = leading_number(text.as_bytes())?;
    behind_digits(text, separator, len, number)
}

/// The first word's distance from 0, where it is a number up to `MAX_COORDINATE`, and what is left of the line.
#[tactic(auto, unfolding(crate::specs::Words::distance_of))]
fn distance_before(text: &str) -> Option<(u32, Option<&str>)>
    ensures distance { IsFirst distance_of (words text.now) 32 result }
    ensures within { IfSome result (λ x. x.0 ≤ MAX_COORDINATE) }
{
    let (distance, rest) = number_before(text, b' ')?;
    if distance > MAX_COORDINATE {
        return None;
    }
    Some((distance, rest))
}

// As `distance_before`, where the number has few digits.
#[inline(always)]
#[tactic(auto, unfolding(crate::specs::Words::distance_of))]
fn short_distance_before(text: &str) -> Option<(u32, Option<&str>)>
    ensures distance { IfSome result (λ x. IsFirst distance_of (words text.now) 32 (Some x)) }
    ensures within { IfSome result (λ x. x.0 ≤ MAX_COORDINATE) }
{
    let (len, number) = few_digits(text.as_bytes())?;
    let (distance, rest) = behind_digits(text, b' ', len, number)?;
    if distance > MAX_COORDINATE {
        return None;
    }
    Some((distance, rest))
}

/// The number below 0 that is so far from it, if it is not 0.
fn negative(distance: u32) -> Option<i32>
    requires { distance ≤ MAX_COORDINATE }
    ensures { result ≡ below_zero distance }
{
    if distance == 0 {
        return None;
    }
    Some(-(distance as i32))
}

/// What stands behind a minus sign at the front.
fn behind_minus(text: &str) -> Option<&str>
    ensures some { IfSome result (λ digits. text.now ≡ 45 ∷ digits.now) }
    ensures none { IfNone result ((rest : List ℕ) → text.now ≢ 45 ∷ rest) }
{
    let bytes = text.as_bytes();
    if bytes.is_empty() {
        return None;
    }
    if bytes[0] != b'-' {
        return None;
    }
    Some(&text[1..])
}

/// The coordinate that the first word is, at most `MAX_COORDINATE` from 0, and what is left of the line.
pub fn coordinate_before(text: &str) -> Option<(i32, Option<&str>)>
    ensures { IsFirst coordinate_of (words text.now) 32 result }
{
    match behind_minus(text) {
        Some(digits) => {
            let (distance, rest) = distance_before(digits)?;
            Some((negative(distance)?, rest))
        }
        None => {
            let (distance, rest) = distance_before(text)?;
            Some((distance as i32, rest))
        }
    }
}

/// As `coordinate_before`, where the word is likely to be one: it has few digits and no sign.
#[inline(always)]
pub fn short_coordinate_before(text: &str) -> Option<(i32, Option<&str>)>
    ensures { IfSome result (λ x. IsFirst coordinate_of (words text.now) 32 (Some x)) }
{
    match behind_minus(text) {
        Some(_) => None,
        None => {
            let (distance, rest) = short_distance_before(text)?;
            Some((distance as i32, rest))
        }
    }
}

fn has_only_name_bytes(word: &[u8]) -> bool
    ensures { result ≡ list_all is_name_byte word.now }
{
    word.iter().all(|b| b.is_ascii_alphanumeric() || *b == b'_' || *b == b'.' || *b == b'-')
}

/// Whether a word can be a name of at most so many bytes.
pub fn is_name_word(limit: usize, word: &[u8]) -> bool
    ensures { result ≡ is_name limit word.now }
{
    if word.is_empty() || word.len() > limit {
        return false;
    }
    if word[0] == b'.' || word[0] == b'-' {
        return false;
    }
    has_only_name_bytes(word)
}

fn has_only_text_bytes(bytes: &[u8]) -> bool
    ensures { result ≡ list_all is_text_byte bytes.now }
{
    bytes.iter().all(|b| *b >= 32 && *b != 127)
}

/// Whether what is left of a line can be a text.
pub fn is_text_here(bytes: &[u8]) -> bool
    ensures { result ≡ is_text bytes.now }
{
    if bytes.is_empty() || bytes.len() > MAX_TEXT {
        return false;
    }
    has_only_text_bytes(bytes)
}

/// Whether what is left of a line can be a text, and another one where it is given.
pub fn are_texts_here(text: &str, action: Option<&str>) -> bool
    ensures { result ≡ are_texts text.now (option_map (λ s. s.now) action.entry) }
{
    match action {
        Some(action) => is_text_here(text.as_bytes()) && is_text_here(action.as_bytes()),
        None => is_text_here(text.as_bytes()),
    }
}
