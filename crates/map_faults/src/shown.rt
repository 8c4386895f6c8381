// Texts of a file as they are shown: on one line, and cut where they are long.
use crate::output::Output;
use std::alloc::{AllocError, Global};
use std::io::Write;

/// The most letters of a text that are shown.
const MAX_SHOWN: usize = 40;

fn is_plain(word: &str) -> bool {
    !word.is_empty()
        && word.bytes().all(|byte| byte.is_ascii_alphanumeric() || byte == b'_' || byte == b'-')
}

/// Whether a word is shown as it is; another one is shown in quotes.
pub fn is_shown_plain(word: &str) -> bool {
    word.len() <= MAX_SHOWN && is_plain(word)
}

// The part of a text that is shown.
fn shown_part(alloc: Global, text: &str) -> Result<String, AllocError> {
    text.chars().take(MAX_SHOWN).collect(alloc)
}

/// Writes a text in quotes, and dots behind one that is cut.
pub fn write_short<W: Write>(alloc: Global, text: &str, out: &mut Output<'_, W>) {
    match shown_part(alloc, text) {
        Ok(part) => {
            out.quoted("", part.as_str());
            if part.len() < text.len() {
                out.text("...");
            }
        }
        Err(_) => out.lose(),
    }
}
