// A look at the bytes: whether a text surely needs nothing set aside.
ghost use Rattle.std.specs.Prelude.{◌≡◌, ◌+◌, ◌<◌, ◌≤◌, true, ◌||◌, length, drop, slice_index, IfSome};
ghost use Rattle.std.specs.List.{prefix_len};
ghost use Rattle.std.specs.Char.{is_ascii_digit};
ghost use Rattle.json.specs.Text.{content, plain};
ghost use Rattle.json.specs.Word.{is_operator, is_space, head};
ghost use Rattle.json.specs.Lex.{lex, between, in_word};
ghost use Rattle.tiled_maps.specs.Look.{TextNeedsNothing};
ghost use Rattle.tiled_maps.specs.Lexemes.{IsPlainText, AreFalse, AreEmpty, BeginsLiteral, BeginsOther, ArePlain, EndsWell, LeavesText, LeavesEscaped, Ends, Leads};

use crate::unpacking::{COMPRESSION, NOTE};
use json_trees::RESERVED_NAME;
use memchr::memchr2;

/// How many digits a number may have that surely fits 64 bits, with a sign, too.
const MAX_DIGITS: usize = 18;

// Whether a word ends before this byte.
#[inline(always)]
fn is_delimiter(byte: u8) -> bool
    ensures { result ≡ (is_operator byte || is_space byte) }
{
    let operator = (byte == b'{')
        | (byte == b'}')
        | (byte == b'[')
        | (byte == b']')
        | (byte == b':')
        | (byte == b',');
    let space = (byte == b' ') | (byte == b'\t') | (byte == b'\n') | (byte == b'\r');
    operator | space
}

// The byte there, or a space at the end.
#[inline(always)]
fn byte_at(text: &[u8], at: usize) -> u8
    ensures { result ≡ head (drop at text.now) }
{
    if at < text.len() { text[at] } else { b' ' }
}

// Whether the last byte is a brace or a line feed, so that something follows each other byte.
fn ends_well(text: &[u8]) -> bool
    ensures { result ≡ true → EndsWell text.now }
{
    match text.last() {
        Some(byte) => *byte == b'}' || *byte == b'\n',
        None => false,
    }
}

// Digits end before the last byte, since that is none.
#[inline(always)]
fn digits_end(text: &[u8], from: usize) -> usize
    requires within { from < length text.now }
    requires last { EndsWell text.now }
    ensures value { result ≡ from + prefix_len is_ascii_digit (drop from text.now) }
    ensures bound { result < length text.now }
{
    let mut at = from;
    while text[at].is_ascii_digit() {
        at += 1;
    }
    at
}

#[inline(always)]
fn letters_end(text: &[u8], from: usize) -> usize
    requires { from ≤ length text.now }
    ensures word { lex in_word (drop result text.now) ≡ lex in_word (drop from text.now) }
    ensures bounds { (from ≤ result) × (result ≤ length text.now) }
{
    let mut at = from;
    while at < text.len() && text[at] >= b'a' && text[at] <= b'z' {
        at += 1;
    }
    at
}

// Where the look goes on after a word that ends there.
fn after_word(text: &[u8], end: usize) -> Option<usize>
    requires { end ≤ length text.now }
    ensures { IfSome result (Ends text.now end) }
{
    if is_delimiter(byte_at(text, end)) {
        Some(end)
    } else {
        None
    }
}

// A number that begins with this digit, if it is whole and surely fits 64 bits.
fn whole_end(text: &[u8], at: usize) -> Option<usize>
    requires within { at < length text.now }
    requires last { EndsWell text.now }
    requires digit { (48 < slice_index text.now at) × (slice_index text.now at ≤ 57) }
    ensures { IfSome result (Leads text.now at) }
{
    let end = digits_end(text, at);
    if end - at > MAX_DIGITS {
        return None;
    }
    after_word(text, end)
}

// A number that begins with this minus. No 0 may follow: `-0` is a float.
fn negative_end(text: &[u8], at: usize) -> Option<usize>
    requires within { at < length text.now }
    requires last { EndsWell text.now }
    requires minus { slice_index text.now at ≡ 45 }
    ensures { IfSome result (Leads text.now at) }
{
    let from = at + 1;
    if from >= text.len() || text[from] < b'1' || text[from] > b'9' {
        return None;
    }
    let end = digits_end(text, from);
    if end - from > MAX_DIGITS {
        return None;
    }
    after_word(text, end)
}

// `true`, `false`, `null` or a fault.
fn literal_end(text: &[u8], at: usize) -> Option<usize>
    requires within { at < length text.now }
    requires letter { BeginsLiteral (slice_index text.now at) }
    ensures { IfSome result (Leads text.now at) }
{
    after_word(text, letters_end(text, at + 1))
}

// Whether a colon and `false` follow a text, with at most one space in between.
fn is_false(rest: &[u8]) -> bool
    ensures { result ≡ true → AreFalse (lex between rest.now) }
{
    rest.starts_with(b":f") || rest.starts_with(b": f")
}

// Whether a colon and a text of nothing follow a text, with at most one space in between.
fn is_empty(rest: &[u8]) -> bool
    ensures { result ≡ true → AreEmpty (lex between rest.now) }
{
    rest.starts_with(b":\"\"") || rest.starts_with(b": \"\"")
}

// Whether the escape at a place surely stands for no letter of a name: it is short, as `\/` is, or a character past ASCII.
fn is_no_letter(text: &[u8], at: usize) -> bool
    requires within { at < length text.now }
    requires backslash { slice_index text.now at ≡ 92 }
    ensures escape { result ≡ true → at + 1 < length text.now }
    ensures other { result ≡ true → BeginsOther (content plain (drop at text.now)) }
{
    if text.len() - at < 2 {
        return false;
    }
    if text[at + 1] != b'u' {
        return true;
    }
    if text.len() - at < 6 {
        return false;
    }
    if text[at + 2] != b'0' || text[at + 3] != b'0' {
        return true;
    }
    text[at + 4] >= b'8'
}

// The place behind the quote that closes a text. `None`: none does.
fn text_close(text: &[u8], from: usize) -> Option<usize>
    requires { from ≤ length text.now }
    ensures { IfSome result (LeavesText text.now from) }
{
    let mut at = from;
    while at < text.len() {
        let rest = &text[at..];
        let len = memchr2(b'"', b'\\', rest)?;
        let end = at + len + 1;
        if rest[len] == b'"' {
            return Some(end);
        }
        if end >= text.len() {
            return None;
        }
        at = end + 1;
    }
    None
}

// A text with an escape at a place, so that it is no name that matters.
fn escaped_end(text: &[u8], escape: usize) -> Option<usize>
    requires within { escape < length text.now }
    requires backslash { slice_index text.now escape ≡ 92 }
    ensures { IfSome result (LeavesEscaped text.now escape) }
{
    if is_no_letter(text, escape) {
        text_close(text, escape + 2)
    } else {
        None
    }
}

// Whether a text without an escape needs nothing set aside before what follows it.
fn is_plain_name(name: &[u8], rest: &[u8]) -> bool
    ensures { result ≡ true → IsPlainText name.now (lex between rest.now) }
{
    if name == RESERVED_NAME.as_bytes() || name == NOTE.as_bytes() {
        return false;
    }
    if name == COMPRESSION.as_bytes() {
        return is_empty(rest);
    }
    name != b"infinite".as_slice() || is_false(rest)
}

// A text that begins with this quote.
fn text_end(text: &[u8], at: usize) -> Option<usize>
    requires within { at < length text.now }
    requires quote { slice_index text.now at ≡ 34 }
    ensures { IfSome result (Leads text.now at) }
{
    let rest = &text[at + 1..];
    let len = memchr2(b'"', b'\\', rest)?;
    if rest[len] != b'"' {
        return escaped_end(text, at + 1 + len);
    }
    let end = at + 1 + len + 1;
    if is_plain_name(&rest[..len], &text[end..]) {
        Some(end)
    } else {
        None
    }
}

// The place of the comma behind the number that begins there. The same place: no such number surely needs nothing.
#[inline(always)]
fn cell_end(text: &[u8], at: usize) -> usize
    requires within { at < length text.now }
    requires last { EndsWell text.now }
    ensures low { at ≤ result }
    ensures bound { at < result → result + 1 < length text.now }
    ensures plain { at < result → ArePlain (lex between (drop (result + 1) text.now)) → ArePlain (lex between (drop at text.now)) }
{
    if text[at].is_ascii_digit() && text[at + 1] == b',' {
        return at + 1;
    }
    let end = digits_end(text, at);
    let len = end - at;
    if len == 0 || len > MAX_DIGITS || text[end] != b',' {
        return at;
    }
    if text[at] == b'0' && len > 1 {
        return at;
    }
    end
}

// Passes numbers that have a comma behind them, and perhaps one space, as cells are.
#[inline(always)]
fn cells_end(text: &[u8], from: usize) -> usize
    requires within { from < length text.now }
    requires last { EndsWell text.now }
    ensures bounds { (from ≤ result) × (result < length text.now) }
    ensures plain { ArePlain (lex between (drop result text.now)) → ArePlain (lex between (drop from text.now)) }
{
    let mut at = from;
    loop {
        let end = cell_end(text, at);
        if end == at {
            return at;
        }
        at = end + 1;
        if text[at] == b' ' {
            at += 1;
        }
    }
}

fn lexeme_end(text: &[u8], at: usize) -> Option<usize>
    requires within { at < length text.now }
    requires last { EndsWell text.now }
    ensures { IfSome result (Leads text.now at) }
{
    match text[at] {
        b'0' => after_word(text, at + 1),
        b'1'..=b'9' => whole_end(text, at),
        b'-' => negative_end(text, at),
        b'"' => text_end(text, at),
        b't' | b'f' | b'n' => literal_end(text, at),
        byte => {
            if is_delimiter(byte) {
                Some(at + 1)
            } else {
                None
            }
        }
    }
}

/// Whether a map's text surely needs nothing set aside: if it has a tree, that has no fraction, no member of the names of notes and
/// no packed layer, and is no infinite map. It is one pass over the bytes.
///
/// `false` says nothing of the text. It comes for a number that is no whole number of at most 18 digits, the version too, for an
/// escaped letter in a text, for one of these names, for a text `infinite` that is not followed by `false`, for a text `compression`
/// that is not followed by a text of nothing, for a text that does not end with a brace or a line feed, and for some that are not
/// JSON.
pub fn needs_nothing(text: &[u8]) -> bool
    ensures { result ≡ true → TextNeedsNothing text.now }
{
    if !ends_well(text) {
        return false;
    }
    let mut at = 0;
    while at < text.len() {
        match lexeme_end(text, cells_end(text, at)) {
            Some(end) => at = end,
            None => return false,
        }
    }
    true
}
