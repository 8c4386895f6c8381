// Comments, processing instructions, and what stands between quotes.
ghost use Rattle.std.specs.Prelude.{◌≡◌, ◌<◌, ◌≤◌, ◌+◌, false, length, take, codes, ok_or, IfOk, option_map};
ghost use Rattle.xml_text.specs.Answers.{Gives};
ghost use Rattle.xml_text.specs.Views.{turn_of};
ghost use Rattle.xml_text.specs.Words.{cut, is_word};
ghost use Rattle.xml_text.specs.Reading.{comment, instruction, misc_turn, misc, quoted, behind, assigned};

use crate::fault::{Fault, Flaw};
use crate::words::{after, cut, has_blank, is_word, name, unblanked};

/// The text behind a comment, of which `<!--` was read.
#[tactic(auto, unfolding(crate::specs::Reading::comment))]
pub fn comment(text: &str) -> Result<&str, Fault>
    ensures text { Gives (λ rest. rest.now) result (comment text.now) }
    ensures shorter { IfOk result (λ rest. length rest.now < length text.now) }
{
    let Some((_said, end)) = cut(text, "--") else {
        return Err(Fault::Flawed(Flaw::BadComment, text.len()));
    };
    match after(end, ">") {
        Some(rest) => Ok(rest),
        None => Err(Fault::Flawed(Flaw::BadComment, end.len())),
    }
}

fn is_reserved(target: &str) -> bool
    ensures { result ≡ is_word (take 3 target.now) (codes "xml") }
{
    let bytes = target.as_bytes();
    if bytes.len() < 3 {
        return is_word(bytes, b"xml");
    }
    is_word(&bytes[..3], b"xml")
}

/// The text behind a processing instruction, of which `<?` was read.
#[tactic(auto, unfolding(crate::specs::Reading::instruction))]
pub fn instruction(text: &str) -> Result<&str, Fault>
    ensures text { Gives (λ rest. rest.now) result (instruction text.now) }
    ensures shorter { IfOk result (λ rest. length rest.now < length text.now) }
{
    let (target, behind) = name(text)?;
    if is_reserved(target) {
        return Err(Fault::Flawed(Flaw::BadInstruction, text.len()));
    }
    if !(has_blank(behind) || after(behind, "?>").is_some()) {
        return Err(Fault::Flawed(Flaw::BadInstruction, behind.len()));
    }
    match cut(behind, "?>") {
        Some((_said, rest)) => Ok(rest),
        None => Err(Fault::Flawed(Flaw::BadInstruction, text.len())),
    }
}

// Blanks, and a comment or a processing instruction. Says whether none was left.
#[tactic(auto, unfolding(crate::specs::Reading::misc_turn))]
fn misc_turn(text: &str) -> Result<(bool, &str), Fault>
    ensures turn { Gives (λ x. turn_of x.0 x.1.now) result (misc_turn text.now) }
    ensures shorter { IfOk result (λ x. length x.1.now ≤ length text.now) }
    ensures more { IfOk result (λ x. x.0 ≡ false → length x.1.now < length text.now) }
{
    let inner = unblanked(text);
    if let Some(rest) = after(inner, "<!--") {
        let rest = comment(rest)?;
        return Ok((false, rest));
    }
    if let Some(rest) = after(inner, "<?") {
        let rest = instruction(rest)?;
        return Ok((false, rest));
    }
    Ok((true, inner))
}

/// The text behind blanks, comments and processing instructions.
pub fn misc(text: &str) -> Result<&str, Fault>
    ensures text { Gives (λ rest. rest.now) result (misc text.now) }
    ensures shorter { IfOk result (λ rest. length rest.now ≤ length text.now) }
{
    let mut rest = text;
    loop {
        let (is_last, next) = misc_turn(rest)?;
        if is_last {
            return Ok(next);
        }
        rest = next;
    }
}

// What stands before the next quote, and what behind it.
fn closed<'a>(text: &'a str, quote: &str, flaw: Flaw) -> Result<(&'a str, &'a str), Fault>
    requires { 0 < length quote.now }
    ensures value { Gives (λ parts. (parts.0.now, parts.1.now)) result (ok_or (cut quote.now text.now) flaw) }
    ensures shorter { IfOk result (λ parts. length parts.0.now + length parts.1.now + length quote.now ≡ length text.now) }
{
    match cut(text, quote) {
        Some(parts) => Ok(parts),
        None => Err(Fault::Flawed(flaw, text.len())),
    }
}

/// What stands between two quotes, and what behind them.
#[tactic(auto, unfolding(crate::specs::Reading::quoted))]
pub fn quoted(text: &str, flaw: Flaw) -> Result<(&str, &str), Fault>
    ensures value { Gives (λ parts. (parts.0.now, parts.1.now)) result (quoted flaw text.now) }
    ensures shorter { IfOk result (λ parts. length parts.0.now + length parts.1.now + 2 ≡ length text.now) }
{
    if let Some(inner) = after(text, "\"") {
        return closed(inner, "\"", flaw);
    }
    if let Some(inner) = after(text, "'") {
        return closed(inner, "'", flaw);
    }
    Err(Fault::Flawed(flaw, text.len()))
}

/// The text behind a word that must stand at its front, but for blanks.
pub fn behind<'a>(text: &'a str, word: &str, flaw: Flaw) -> Result<&'a str, Fault>
    ensures text { Gives (λ rest. rest.now) result (behind flaw word.now text.now) }
    ensures shorter { IfOk result (λ rest. length rest.now + length word.now ≤ length text.now) }
{
    let inner = unblanked(text);
    match after(inner, word) {
        Some(rest) => Ok(rest),
        None => Err(Fault::Flawed(flaw, inner.len())),
    }
}

/// A value between quotes behind `=`.
#[tactic(auto, unfolding(crate::specs::Reading::assigned))]
pub fn assigned(text: &str, flaw: Flaw) -> Result<(&str, &str), Fault>
    ensures value { Gives (λ parts. (parts.0.now, parts.1.now)) result (assigned flaw text.now) }
    ensures shorter { IfOk result (λ parts. length parts.0.now + length parts.1.now + 2 ≤ length text.now) }
{
    let rest = behind(text, "=", flaw)?;
    quoted(unblanked(rest), flaw)
}
