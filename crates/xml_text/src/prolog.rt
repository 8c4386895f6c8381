// What stands before the root.
ghost use Rattle.std.specs.Prelude.{◌≡◌, ◌<◌, ◌≤◌, ◌+◌, length, List, [], ◌∷◌, unwrap_or, IfOk, option_map};
ghost use Rattle.xml_text.specs.Answers.{Gives};
ghost use Rattle.xml_text.specs.Words.{after};
ghost use Rattle.xml_text.specs.Reading.{gap, setting, is_version, is_encoding, is_standalone, settings, declaration, system, doctype, prolog};

use crate::fault::{Fault, Flaw};
use crate::markup::{assigned, behind, misc, quoted};
use crate::words::{after, has_blank, is_word, name, unblanked};

fn gap(text: &str, flaw: Flaw) -> Result<&str, Fault>
    ensures text { Gives (λ rest. rest.now) result (gap flaw text.now) }
    ensures shorter { IfOk result (λ rest. length rest.now ≤ length text.now) }
{
    if !has_blank(text) {
        return Err(Fault::Flawed(flaw, text.len()));
    }
    Ok(unblanked(text))
}

// The value of a word of the declaration, if it stands there.
#[tactic(auto, unfolding(crate::specs::Reading::setting))]
fn setting<'a>(text: &'a str, word: &str) -> Result<(Option<&'a str>, &'a str), Fault>
    ensures value { Gives (λ x. (option_map (λ value. value.now) x.0, x.1.now)) result (setting word.now text.now) }
    ensures shorter { IfOk result (λ x. length x.1.now ≤ length text.now) }
{
    let Some(rest) = after(unblanked(text), word) else {
        return Ok((None, text));
    };
    if !has_blank(text) {
        return Err(Fault::Flawed(Flaw::BadDeclaration, text.len()));
    }
    let (value, rest) = assigned(rest, Flaw::BadDeclaration)?;
    Ok((Some(value), rest))
}

fn is_version(value: Option<&str>) -> bool
    ensures { result ≡ is_version (option_map (λ value. value.now) value.entry) }
{
    match value {
        Some(value) => value == "1.0",
        None => false,
    }
}

fn is_encoding(value: Option<&str>) -> bool
    ensures { result ≡ is_encoding (option_map (λ value. value.now) value.entry) }
{
    match value {
        Some(value) => is_word(value.as_bytes(), b"utf-8"),
        None => true,
    }
}

fn is_standalone(value: Option<&str>) -> bool
    ensures { result ≡ is_standalone (option_map (λ value. value.now) value.entry) }
{
    match value {
        Some(value) => value == "yes" || value == "no",
        None => true,
    }
}

#[tactic(auto, unfolding(crate::specs::Reading::settings))]
fn settings(text: &str) -> Result<&str, Fault>
    ensures text { Gives (λ rest. rest.now) result (settings text.now) }
    ensures shorter { IfOk result (λ rest. length rest.now ≤ length text.now) }
{
    let (version, rest) = setting(text, "version")?;
    if !is_version(version) {
        return Err(Fault::Flawed(Flaw::BadDeclaration, text.len()));
    }
    let (encoding, rest) = setting(rest, "encoding")?;
    if !is_encoding(encoding) {
        return Err(Fault::Flawed(Flaw::OtherEncoding, text.len()));
    }
    let (standalone, rest) = setting(rest, "standalone")?;
    if !is_standalone(standalone) {
        return Err(Fault::Flawed(Flaw::BadDeclaration, text.len()));
    }
    behind(rest, "?>", Flaw::BadDeclaration)
}

#[tactic(auto, unfolding(crate::specs::Reading::declaration))]
fn declaration(text: &str) -> Result<&str, Fault>
    ensures text { Gives (λ rest. rest.now) result (declaration text.now) }
    ensures shorter { IfOk result (λ rest. length rest.now ≤ length text.now) }
{
    match after(text, "<?xml") {
        Some(rest) => settings(rest),
        None => Ok(text),
    }
}

#[tactic(auto, unfolding(crate::specs::Reading::system))]
fn system(text: &str) -> Result<&str, Fault>
    ensures text { Gives (λ rest. rest.now) result (system text.now) }
    ensures shorter { IfOk result (λ rest. length rest.now ≤ length text.now) }
{
    let Some(rest) = after(unblanked(text), "SYSTEM") else {
        return Ok(text);
    };
    let inner = gap(rest, Flaw::BadDoctype)?;
    let (_file, rest) = quoted(inner, Flaw::BadDoctype)?;
    Ok(rest)
}

#[tactic(auto, unfolding(crate::specs::Reading::doctype))]
fn doctype(text: &str) -> Result<&str, Fault>
    ensures text { Gives (λ rest. rest.now) result (doctype text.now) }
    ensures shorter { IfOk result (λ rest. length rest.now ≤ length text.now) }
{
    let inner = gap(text, Flaw::BadDoctype)?;
    let (_root, rest) = name(inner)?;
    let rest = system(rest)?;
    behind(rest, ">", Flaw::BadDoctype)
}

fn unmarked(text: &str) -> &str
    ensures text { result.now ≡ unwrap_or (after (239 ∷ 187 ∷ 191 ∷ []) text.now) text.now }
    ensures shorter { length result.now ≤ length text.now }
{
    match after(text, "\u{feff}") {
        Some(rest) => rest,
        None => text,
    }
}

/// The text from its root on.
#[tactic(auto, unfolding(crate::specs::Reading::prolog))]
pub fn prolog(text: &str) -> Result<&str, Fault>
    ensures text { Gives (λ rest. rest.now) result (prolog text.now) }
    ensures shorter { IfOk result (λ rest. length rest.now ≤ length text.now) }
{
    let rest = declaration(unmarked(text))?;
    let inner = misc(rest)?;
    match after(inner, "<!DOCTYPE") {
        Some(rest) => {
            let rest = doctype(rest)?;
            misc(rest)
        }
        None => Ok(inner),
    }
}
