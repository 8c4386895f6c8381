//! A look at the bytes of a JSON text, without a tree.
ghost use Rattle.std.specs.Prelude.{◌<◌};

use memchr::{memchr, memchr2, memchr3};

/// How deep a JSON text may nest.
const MAX_DEPTH: u32 = 127;

/// Where in a JSON text a look at its bytes stands.
#[derive(Clone, Copy)]
pub struct Scan {
    /// How many arrays and objects are open.
    pub depth: u32,
    /// Whether it stands in a text between quotes.
    pub is_in_text: bool,
    /// Whether a backslash in front escapes the byte that comes.
    pub is_escaped: bool,
}

impl Scan {
    /// In front of all.
    pub fn new() -> Scan {
        Scan {
            depth: 0,
            is_in_text: false,
            is_escaped: false,
        }
    }

    /// Goes past a byte.
    pub fn pass(&mut self, byte: u8) {
        if self.is_in_text {
            if self.is_escaped {
                self.is_escaped = false;
            } else if byte == b'\\' {
                self.is_escaped = true;
            } else if byte == b'"' {
                self.is_in_text = false;
            }
        } else if byte == b'"' {
            self.is_in_text = true;
        } else if byte == b'[' || byte == b'{' {
            self.depth = self.depth.saturating_add(1);
        } else if byte == b']' || byte == b'}' {
            self.depth = self.depth.saturating_sub(1);
        }
    }
}

/// Whether arrays and objects nest deeper than a JSON text may.
pub fn nests_too_deep(text: &[u8]) -> bool {
    let mut scan = Scan::new();
    for byte in text {
        scan.pass(*byte);
        if scan.depth > MAX_DEPTH {
            return true;
        }
    }
    false
}

// How many bytes a text between quotes takes that begins here, with its quotes. One that does not end takes all.
fn text_len(text: &[u8]) -> usize {
    let mut at: usize = 1;
    while at < text.len() {
        let rest = &text[at..];
        let Some(len) = memchr2(b'"', b'\\', rest) else {
            return text.len();
        };
        let end = at.saturating_add(len).saturating_add(1);
        if rest[len] == b'"' {
            return end;
        }
        at = end.saturating_add(1);
    }
    text.len()
}

// How many bytes an array takes that begins here and has no text, array or object in it, as the cells of a layer.
fn flat_len(text: &[u8]) -> Option<usize> {
    let rest = text.get(1..)?;
    let end = memchr3(b']', b'[', b'"', rest)?;
    let is_flat = rest[end] == b']' && memchr(b'{', &rest[..end]).is_none();
    if is_flat {
        Some(end.saturating_add(2))
    } else {
        None
    }
}

/// Whether an array, which is all of the text, has no text, array or object in it.
pub fn is_flat(text: &[u8]) -> bool {
    flat_len(text).is_some()
}

/// What is passed at once from a byte on: a text, an array that has but numbers and words in it, or else that byte.
#[derive(Clone, Copy, Debug, PartialEq, Eq)]
pub enum Step {
    Text(usize),
    Array(usize),
    Byte,
}

impl Step {
    /// The one that begins with the first byte.
    pub fn of(text: &[u8]) -> Step {
        match text.first() {
            Some(b'"') => Step::Text(text_len(text)),
            Some(b'[') => match flat_len(text) {
                Some(len) => Step::Array(len),
                None => Step::Byte,
            },
            _ => Step::Byte,
        }
    }

    /// How many bytes it has.
    pub fn len(self) -> usize
        ensures { 0 < result }
    {
        match self {
            Step::Text(len) | Step::Array(len) => len.max(1),
            Step::Byte => 1,
        }
    }
}
