// The word at which a refused line leaves the forms of lines.
ghost use Rattle.std.specs.Prelude.{◌≡◌, is_some, IfSome};
ghost use Rattle.session.specs.Faults.{IsFaultAt, OneIsAtFault, WordsAreTheLine};
ghost use Rattle.session.specs.Grammar.{line_of};
ghost use Rattle.session.specs.WordFaults.{is_at_word};

use crate::parse::{parse_line_along, text_of};
use crate::trail::{Expected, LastWanted};
use refusals::LineFault;
use std::fmt;
use std::fmt::{Display, Formatter, Write};

/// The word of a line at which it leaves the forms of lines. It is displayed as people are told of it: `word 1 is not a command`.
#[derive(Clone, Copy, Debug, PartialEq, Eq)]
pub struct WordFault {
    /// Which word it is, counted from 1. A text counts as one word.
    pub place: u32,
    /// What it is to be.
    pub expected: Expected,
    /// Whether the line ends in front of it.
    pub is_missing: bool,
    /// Where it begins in the line, in bytes: at its end where it is missing.
    pub at: usize,
    /// How many bytes it has.
    pub length: usize,
}

impl Display for WordFault {
    fn fmt<W: Write>(&self, f: &mut Formatter<W>) -> fmt::Result {
        let place = self.place;
        let expected = &self.expected;
        if self.is_missing {
            return write!(f, "word {place} is missing: {expected}");
        }
        if self.expected == Expected::End {
            return write!(f, "word {place} is one too many");
        }
        write!(f, "word {place} is not {expected}")
    }
}

// What is left of a line from its word of that place on, or `None` where it ends in front of that.
fn from_word<'a>(line: &'a str, place: u32) -> Option<&'a str> {
    // A text stands in front of a macro's action, and has spaces of its own.
    if place == 4 && line.starts_with("begin ") {
        return match behind(line, " ") {
            Some(texts) => behind(texts, " || "),
            None => None,
        };
    }
    let mut left = Some(line);
    for _ in 1..place {
        left = match left {
            Some(text) => behind(text, " "),
            None => return None,
        };
    }
    left
}

// What is behind the first such cut of a text.
fn behind<'a>(text: &'a str, cut: &str) -> Option<&'a str> {
    match text.split_once(cut) {
        Some((_, behind)) => Some(behind),
        None => None,
    }
}

// How many bytes stand in front of the first such cut of a text, or all where it has none.
fn length_to(text: &str, cut: &str) -> usize {
    match text.split_once(cut) {
        Some((front, _)) => front.len(),
        None => text.len(),
    }
}

/// The fault at the word that was wanted last.
pub fn at_word(line: &str, last: LastWanted) -> WordFault
    ensures { result.place ≡ last.place }
{
    let LastWanted { place, expected } = last;
    let Some(left) = from_word(line, place) else {
        return WordFault {
            place,
            expected,
            is_missing: true,
            at: line.len(),
            length: 0,
        };
    };
    let length = match expected {
        Expected::Text if place == 2 => length_to(left, " || "),
        Expected::Text | Expected::Json => left.len(),
        _ => length_to(left, " "),
    };
    WordFault {
        place,
        expected,
        is_missing: false,
        at: line.len().saturating_sub(left.len()),
        length,
    }
}

/// The word at which a line is refused, and `None` where the line is read, or refused as a whole: it is too long, or not UTF-8.
pub fn word_fault(line: &[u8]) -> Option<WordFault>
    ensures value { is_some result ≡ is_at_word (line_of line.now) }
    ensures place { IfSome result (λ fault. IsFaultAt fault.place line.now) }
{
    let Some(text) = text_of(line) else {
        return None;
    };
    let mut last = LastWanted::new();
    match parse_line_along(line, &mut last) {
        Err(LineFault::BadWord) | Err(LineFault::UnknownCommand) => Some(at_word(text, last)),
        _ => None,
    }
}

/// The words of a line are all of it, and at most one of them is at fault. This function does nothing: it states these laws.
pub fn one_word_is_at_fault()
    ensures words { WordsAreTheLine }
    ensures one { OneIsAtFault }
{}
