// The forms of session lines, and the word at which a refused line leaves them.
use crate::command_line::{shown_forms, shown_forms_for_all_edits};
use refusals::LineFault;
use session::{WordFault, any_word_fault, word_fault};
use std::alloc::{AllocError, Global};
use std::fmt::Write;

// Whether a word that the session's reader took of a line is the one that a form has in its place.
fn stands_for(own: &str, word: &str) -> bool {
    match own {
        // `-` is no name.
        "DOC" => word != "-",
        // The text in front of them may be more than one word.
        "||" => true,
        _ => own == word || own.starts_with(|letter: char| letter.is_ascii_uppercase()),
    }
}

// Whether so many words at the front of a line are a form's.
fn begins_as(form: &str, line: &str, count: usize) -> bool {
    let mut fitting = 0usize;
    for (own, word) in form.split(' ').zip(line.split(' ')) {
        if fitting == count || !stands_for(own, word) {
            break;
        }
        fitting = fitting.saturating_add(1);
    }
    fitting == count
}

// The forms of the lines that are read for all edits alone, where these are read.
fn further_forms(does_all_edits: bool) -> &'static str {
    if does_all_edits {
        shown_forms_for_all_edits()
    } else {
        ""
    }
}

// Adds to forms those of a list with so many words of a line at their front, each on a line of its own.
fn add_begun(forms: &mut String, line: &str, count: usize, list: &str) -> Result<(), AllocError> {
    for shown in list.lines() {
        if shown.starts_with(' ') && begins_as(shown.trim_start(), line, count) {
            write!(forms, "\n{shown}")?;
        }
    }
    Ok(())
}

// The forms with so many words of a line at their front, each on a line of its own.
fn begun(
    alloc: Global,
    line: &str,
    count: usize,
    does_all_edits: bool,
) -> Result<String, AllocError> {
    let mut forms = String::new(alloc);
    add_begun(&mut forms, line, count, shown_forms())?;
    add_begun(&mut forms, line, count, further_forms(does_all_edits))?;
    Ok(forms)
}

// The command of a line or of a form, without a plus sign.
fn command_of(line: &str) -> &str {
    let word = match line.split_once(' ') {
        Some((word, _)) => word,
        None => line,
    };
    word.trim_end_matches('+')
}

// Whether a form's command is written as a word is; or else whether it begins with the word's first letter.
fn is_like(form: &str, word: &str, is_written_so: bool) -> bool {
    let command = command_of(form);
    if is_written_so {
        return command == word;
    }
    match (command.chars().next(), word.chars().next()) {
        (Some(own), Some(letter)) => own == letter.to_ascii_lowercase(),
        _ => false,
    }
}

// Whether a list has a form whose command is written as a word is.
fn has_command(list: &str, word: &str) -> bool {
    list.lines()
        .any(|shown| is_like(shown.trim_start(), word, true))
}

// Adds to forms those of a list that a line of no command seems to mean by its first word, each on a line of its own.
fn add_meant(
    forms: &mut String,
    word: &str,
    is_command: bool,
    list: &str,
) -> Result<(), AllocError> {
    for shown in list.lines() {
        if shown.starts_with(' ') && is_like(shown.trim_start(), word, is_command) {
            write!(forms, "\n{shown}")?;
        }
    }
    Ok(())
}

// The forms of the command that a line of no command seems to mean, each on a line of its own.
fn meant(alloc: Global, line: &str, does_all_edits: bool) -> Result<String, AllocError> {
    let word = command_of(line.trim());
    let further = further_forms(does_all_edits);
    let is_command = has_command(shown_forms(), word) || has_command(further, word);
    let mut forms = String::new(alloc);
    add_meant(&mut forms, word, is_command, shown_forms())?;
    add_meant(&mut forms, word, is_command, further)?;
    Ok(forms)
}

// The word at which a line is refused.
fn word_of(line: &[u8], does_all_edits: bool) -> Option<WordFault> {
    if does_all_edits {
        any_word_fault(line)
    } else {
        word_fault(line)
    }
}

/// What is said of a line that is refused as 3 or 4: at which word, counted from 1, it leaves its form, what that word is to be, and
/// the forms that the words before it fit. A text counts as one word. The word may be missing, or be one too many.
pub fn hint_of(
    alloc: Global,
    line: &str,
    fault: LineFault,
    does_all_edits: bool,
) -> Result<String, AllocError> {
    let Some(word) = word_of(line.as_bytes(), does_all_edits) else {
        return Ok(String::new(alloc));
    };
    let forms = match fault {
        LineFault::UnknownCommand => meant(alloc, line, does_all_edits)?,
        _ => begun(
            alloc,
            line,
            word.place.saturating_sub(1) as usize,
            does_all_edits,
        )?,
    };
    format!(in alloc; ": {word}{forms}")
}
