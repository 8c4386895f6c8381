// What stands at the front of a text.
ghost use Rattle.std.specs.Prelude.{◌≡◌, ◌<◌, ◌≤◌, ◌+◌, length, IfOk, IfSome, option_map};
ghost use Rattle.std.specs.List.{prefix_len};
ghost use Rattle.std.specs.Str.{bytes_eq, str_to_ascii_lowercase};
ghost use Rattle.xml_text.specs.Answers.{Gives};
ghost use Rattle.xml_text.specs.Words.{is_blank, is_letter, begins_name, is_of_name, first_is, unblanked, after, cut, up_to, name};

use crate::fault::{Fault, Flaw};
use memchr::memchr;

fn is_blank(byte: u8) -> bool
    ensures { result ≡ is_blank byte }
{
    byte == b' ' || byte == b'\t' || byte == b'\n' || byte == b'\r'
}

fn is_letter(byte: u8) -> bool
    ensures { result ≡ is_letter byte }
{
    (b'A' <= byte && byte <= b'Z') || (b'a' <= byte && byte <= b'z')
}

fn is_first_of_name(byte: u8) -> bool
    ensures { result ≡ begins_name byte }
{
    is_letter(byte) || byte == b':' || byte == b'_'
}

fn is_of_name(byte: u8) -> bool
    ensures { result ≡ is_of_name byte }
{
    is_first_of_name(byte) || (b'0' <= byte && byte <= b'9') || byte == b'-' || byte == b'.'
}

/// Whether a text begins with a blank.
pub fn has_blank(text: &str) -> bool
    ensures { result ≡ first_is is_blank text.now }
{
    match text.as_bytes() {
        [first, ..] => is_blank(*first),
        [] => false,
    }
}

/// Whether a text begins as a name does.
pub fn has_name(text: &str) -> bool
    ensures { result ≡ first_is begins_name text.now }
{
    match text.as_bytes() {
        [first, ..] => is_first_of_name(*first),
        [] => false,
    }
}

fn blanks_at(bytes: &[u8]) -> usize
    ensures { result ≡ prefix_len is_blank bytes.now }
{
    let mut at = 0;
    while at < bytes.len() && is_blank(bytes[at]) {
        at += 1;
    }
    at
}

fn name_at(bytes: &[u8]) -> usize
    ensures { result ≡ prefix_len is_of_name bytes.now }
{
    let mut at = 0;
    while at < bytes.len() && is_of_name(bytes[at]) {
        at += 1;
    }
    at
}

/// Whether a text is a word of small letters, but for large ones.
pub fn is_word(text: &[u8], word: &[u8]) -> bool
    ensures { result ≡ bytes_eq (str_to_ascii_lowercase text.now) (str_to_ascii_lowercase word.now) }
{
    text.eq_ignore_ascii_case(word)
}

/// The text behind the blanks at its front.
#[tactic(auto, unfolding(crate::specs::Words::unblanked))]
pub fn unblanked(text: &str) -> &str
    ensures text { result.now ≡ unblanked text.now }
    ensures shorter { length result.now ≤ length text.now }
{
    &text[blanks_at(text.as_bytes())..]
}

/// The text behind a word at its front.
#[tactic(auto, unfolding(crate::specs::Words::after))]
pub fn after<'a>(text: &'a str, word: &str) -> Option<&'a str>
    ensures text { option_map (λ rest. rest.now) result ≡ after word.now text.now }
    ensures shorter { IfSome result (λ rest. length rest.now + length word.now ≡ length text.now) }
{
    text.strip_prefix(word)
}

/// What stands before the first such word, and what behind it.
pub fn cut<'a>(text: &'a str, word: &str) -> Option<(&'a str, &'a str)>
    requires { 0 < length word.now }
    ensures parts { option_map (λ parts. (parts.0.now, parts.1.now)) result ≡ cut word.now text.now }
    ensures shorter { IfSome result (λ parts. length parts.0.now + length parts.1.now + length word.now ≡ length text.now) }
{
    text.split_once(word)
}

/// What stands before the first such byte, or all; and this byte with what follows.
#[tactic(auto, unfolding(crate::specs::Words::up_to))]
pub fn up_to(text: &str, byte: u8) -> (&str, &str)
    requires { byte < 128 }
    ensures parts { (result.0.now, result.1.now) ≡ up_to byte text.now }
    ensures shorter { length result.0.now + length result.1.now ≡ length text.now }
{
    match memchr(byte, text.as_bytes()) {
        Some(n) => text.split_at(n),
        None => text.split_at(text.len()),
    }
}

/// A name, and what stands behind it.
#[tactic(auto, unfolding(crate::specs::Words::name))]
pub fn name(text: &str) -> Result<(&str, &str), Fault>
    ensures name { Gives (λ parts. (parts.0.now, parts.1.now)) result (name text.now) }
    ensures shorter { IfOk result (λ parts. length parts.0.now + length parts.1.now ≡ length text.now) }
    ensures some { IfOk result (λ parts. 0 < length parts.0.now) }
{
    if !has_name(text) {
        return Err(Fault::Flawed(Flaw::NoName, text.len()));
    }
    Ok(text.split_at(name_at(text.as_bytes())))
}
