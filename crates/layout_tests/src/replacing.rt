// Texts with something replaced.
use std::alloc::{AllocError, Global};

/// A text with another in place of the first that is like this; the text itself if there is none.
pub fn replaced(alloc: Global, text: &str, from: &str, to: &str) -> Result<String, AllocError> {
    let mut out = String::new(alloc);
    match text.split_once(from) {
        Some((front, back)) => {
            out.push_str(front)?;
            out.push_str(to)?;
            out.push_str(back)?;
        }
        None => out.push_str(text)?,
    }
    Ok(out)
}

/// A text with a carriage return in front of each line feed.
pub fn with_carriage_returns(alloc: Global, text: &str) -> Result<String, AllocError> {
    let mut out = String::new(alloc);
    for letter in text.chars() {
        if letter == '\n' {
            out.push('\r')?;
        }
        out.push(letter)?;
    }
    Ok(out)
}
