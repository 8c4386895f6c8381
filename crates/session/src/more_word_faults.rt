// The word at which a refused line leaves the forms of lines and those of the lines for all edits.
ghost use Rattle.std.specs.Prelude.{◌≡◌, is_some, max, IfSome};
ghost use Rattle.session.specs.Grammar.{line_of};
ghost use Rattle.session.specs.MoreFaults.{IsAnyFaultAt, MoreWordsAreTheLine, OneIsAtAnyFault};
ghost use Rattle.session.specs.MoreGrammar.{more_line_of};
ghost use Rattle.session.specs.WordFaults.{is_at_word_of_any, is_of_word};

use crate::more_lines::parse_more_line_along;
use crate::parse::{parse_line_along, text_of};
use crate::trail::LastWanted;
use crate::word_faults::{WordFault, at_word};
use refusals::LineFault;

// Whether a fault is at one of the words of a line.
fn is_of_word(fault: LineFault) -> bool
    ensures { result ≡ is_of_word fault }
{
    match fault {
        LineFault::UnknownCommand | LineFault::BadWord => true,
        LineFault::TooLong | LineFault::NotUtf8 => false,
    }
}

// The later one of two words. Where both are the same, the lines for all edits say what may stand there in either.
fn later(plain: LastWanted, more: LastWanted) -> LastWanted
    ensures { result.place ≡ max plain.place more.place }
{
    if plain.place > more.place {
        plain
    } else {
        more
    }
}

/// The word at which a line is refused where the lines for all edits are read, too, and `None` where it is read, or refused as a
/// whole: it is too long, or not UTF-8.
pub fn any_word_fault(line: &[u8]) -> Option<WordFault>
    ensures value { is_some result ≡ is_at_word_of_any (line_of line.now) (more_line_of line.now) }
    ensures place { IfSome result (λ fault. IsAnyFaultAt fault.place line.now) }
{
    let Some(text) = text_of(line) else {
        return None;
    };
    let mut plain = LastWanted::new();
    let Err(fault) = parse_line_along(line, &mut plain) else {
        return None;
    };
    let mut more = LastWanted::new();
    let Err(more_fault) = parse_more_line_along(line, &mut more) else {
        return None;
    };
    if !is_of_word(fault) || !is_of_word(more_fault) {
        return None;
    }
    Some(at_word(text, later(plain, more)))
}

/// The words of a line for all edits are all of it, and at most one word is the first at which bytes are neither such a line nor
/// one that `parse_line` reads. This function does nothing: it states these laws.
pub fn one_word_is_at_any_fault()
    ensures words { MoreWordsAreTheLine }
    ensures one { OneIsAtAnyFault }
{}
