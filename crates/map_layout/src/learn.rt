//! The style of a text, as far as its first line and its spellings tell it.
use crate::layout::LineEnd;
use crate::parts::between;
use crate::scan::Step;
use crate::style::{Lines, Style};
use memchr::{memchr, memchr2};

// What is seen in a text.
#[derive(Clone, Copy)]
struct Signs {
    has_lines: bool,
    has_carriage_returns: bool,
    has_plain_slashes: bool,
    has_escaped_slashes: bool,
    has_plain_letters: bool,
    has_escaped_letters: bool,
    // Whether a line begins with a digit, as a row of cells does.
    has_rows: bool,
    has_spaced_colons: bool,
}

impl Signs {
    fn new() -> Signs {
        Signs {
            has_lines: false,
            has_carriage_returns: false,
            has_plain_slashes: false,
            has_escaped_slashes: false,
            has_plain_letters: false,
            has_escaped_letters: false,
            has_rows: false,
            has_spaced_colons: false,
        }
    }

    // Sees a text between quotes, with those.
    fn see_text(&mut self, text: &[u8]) {
        self.has_plain_letters |= has_letters(text);
        let mut at: usize = 0;
        while at < text.len() {
            let rest = &text[at..];
            let Some(len) = memchr2(b'/', b'\\', rest) else {
                return;
            };
            let found = between(rest, len, rest.len());
            let passed = if found.first() == Some(&b'/') {
                self.has_plain_slashes = true;
                1
            } else {
                self.see_escape(found)
            };
            at = at.saturating_add(len).saturating_add(passed.max(1));
        }
    }

    // Sees what begins with a backslash, and gives how many bytes that escapes with it. The escapes of control characters, from 0000
    // to 001f, tell nothing: each layout escapes these.
    fn see_escape(&mut self, escape: &[u8]) -> usize {
        match escape.get(1) {
            Some(b'/') => self.has_escaped_slashes = true,
            Some(b'u') => {
                let is_of_control = escape.starts_with(b"\\u000") || escape.starts_with(b"\\u001");
                self.has_escaped_letters |= !is_of_control;
            }
            _ => {}
        }
        2
    }

    // Sees an array that has but numbers and words in it.
    fn see_array(&mut self, array: &[u8]) {
        let mut at: usize = 0;
        while at < array.len() {
            let rest = &array[at..];
            let Some(len) = memchr(b'\n', rest) else {
                return;
            };
            self.has_lines = true;
            let before = between(rest, 0, len);
            self.has_carriage_returns |= before.last() == Some(&b'\r');
            at = at.saturating_add(len).saturating_add(1);
            self.has_rows |= begins_with_digit(between(array, at, array.len()));
        }
    }

    // Sees a byte between texts, and the one before.
    fn see_space(&mut self, before: u8, byte: u8) {
        if byte == b'\n' {
            self.has_lines = true;
            self.has_carriage_returns |= before == b'\r';
        } else if byte == b' ' && before == b':' {
            self.has_spaced_colons = true;
        }
    }
}

// Whether a letter beyond ASCII stands in a text. One sum over all is faster than a look at each byte.
fn has_letters(text: &[u8]) -> bool {
    let mut all: u8 = 0;
    for byte in text {
        all |= *byte;
    }
    all > 127
}

// Whether a digit stands behind the spaces in front.
fn begins_with_digit(line: &[u8]) -> bool {
    for byte in line {
        if *byte != b' ' {
            return byte.is_ascii_digit();
        }
    }
    false
}

fn signs_of(text: &[u8]) -> Signs {
    let mut signs = Signs::new();
    let mut before: u8 = 0;
    let mut is_line_empty = false;
    let mut at: usize = 0;
    while at < text.len() {
        let byte = text[at];
        let step = Step::of(&text[at..]);
        let passed = between(text, at, at.saturating_add(step.len()));
        match step {
            Step::Text(_) => signs.see_text(passed),
            Step::Array(_) => signs.see_array(passed),
            Step::Byte => {
                signs.see_space(before, byte);
                signs.has_rows |= is_line_empty && byte.is_ascii_digit();
            }
        }
        is_line_empty = byte == b'\n' || is_line_empty && byte == b' ';
        before = byte;
        at = at.saturating_add(step.len());
    }
    signs
}

// Tiled's style, or the lines and the indent, by what stands behind the first bracket.
fn begun(text: &[u8], has_lines: bool) -> Style {
    let mut is_open = false;
    let mut is_lined = false;
    let mut indent = b' ';
    let mut indents: u8 = 0;
    for byte in text {
        match *byte {
            b'\n' => {
                is_lined = is_open;
                indents = 0;
            }
            b' ' | b'\t' => {
                indent = *byte;
                indents = indents.saturating_add(1);
            }
            b'\r' => {}
            _ => {
                if is_open {
                    break;
                }
                is_open = true;
                indents = 0;
            }
        }
    }
    let style = Style::tiled(LineEnd::Lf);
    if is_lined {
        Style {
            lines: Lines::Indented,
            indent,
            indents,
            ..style
        }
    } else if has_lines && indents == 1 {
        style
    } else {
        Style {
            lines: Lines::None,
            ..style
        }
    }
}

/// The style of a text.
pub fn style_of(text: &[u8]) -> Style {
    let signs = signs_of(text);
    let style = begun(text, signs.has_lines);
    let is_tiled = match style.lines {
        Lines::Tiled => true,
        Lines::Indented => false,
        Lines::None => !signs.has_spaced_colons
            && !signs.has_plain_slashes
            && !signs.has_plain_letters,
    };
    Style {
        line_end: if signs.has_carriage_returns {
            LineEnd::CrLf
        } else {
            LineEnd::Lf
        },
        has_rows: style.lines == Lines::Tiled && signs.has_rows,
        is_spaced: style.lines != Lines::Tiled && signs.has_spaced_colons,
        escapes_slashes: signs.has_escaped_slashes || is_tiled && !signs.has_plain_slashes,
        escapes_letters: signs.has_escaped_letters || is_tiled && !signs.has_plain_letters,
        has_tiled_floats: is_tiled,
        ..style
    }
}
