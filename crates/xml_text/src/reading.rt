// A whole text.
ghost use Rattle.std.specs.Prelude.{◌≡◌, length, Result, Some, None, IfOk, IfErr};
ghost use Rattle.xml_text.specs.declared.fault.Flaw.{Flaw};
ghost use Rattle.std.specs.List.{list_all};
ghost use Rattle.std.specs.Str.{chars};
ghost use Rattle.xml_text.specs.declared.fault.Fault.TheVariants.{Memory};
ghost use Rattle.xml_text.specs.Answers.{Gives, Fails};
ghost use Rattle.xml_text.specs.Said.{is_character};
ghost use Rattle.xml_text.specs.Xml.{Xml, view};
ghost use Rattle.xml_text.specs.Places.{IsPlaced, place_of, IsWithin};
ghost use Rattle.xml_text.specs.Reading.{document, reading, xml_of};

use crate::fault::{Fault, Flaw};
use crate::markup::misc;
use crate::nodes::element;
use crate::prolog::prolog;
use crate::said::is_character;
use crate::tree::Element;
use crate::words::after;
use simdutf8::compat::from_utf8;
use std::alloc::Global;

/// As deep as elements may nest.
const MOST_LEVELS: u8 = 64;

fn has_characters(text: &str) -> bool
    ensures { result ≡ list_all is_character (chars text.now) }
{
    text.chars().all(|c| is_character(c as u32))
}

// Where the first character stands that no text may hold.
fn control_at(text: &str) -> usize {
    for (at, c) in text.char_indices() {
        if !is_character(c as u32) {
            return at;
        }
    }
    0
}

#[tactic(auto, unfolding(crate::specs::Reading::document))]
fn document(alloc: Global, text: &str) -> Result<Element, Fault>
    ensures root { Gives view result (document text.now) }
    ensures place { IfOk result (λ e. IsPlaced 0 (length text.now) (place_of e)) }
{
    let whole = text.len();
    let front = prolog(text)?;
    let Some(inner) = after(front, "<") else {
        return Err(Fault::Flawed(Flaw::NoRoot, front.len()));
    };
    let (root, rest) = element(alloc, MOST_LEVELS, inner, whole - front.len(), whole)?;
    let rest = misc(rest)?;
    if !rest.is_empty() {
        return Err(Fault::Flawed(Flaw::BehindRoot, rest.len()));
    }
    Ok(root)
}

// A fault whose place was told by how many bytes are left.
fn placed(fault: Fault, whole: usize) -> Fault
    ensures { (read : Result Xml Flaw) → Fails fault read → Fails result read }
{
    match fault {
        Fault::Memory => Fault::Memory,
        Fault::Flawed(flaw, left) => Fault::Flawed(flaw, whole.saturating_sub(left)),
    }
}

/// The tree of a text.
pub fn read(alloc: Global, bytes: &[u8]) -> Result<Element, Fault>
    ensures exact { Gives view result (reading bytes.now) }
    ensures read { IfOk result (λ e. xml_of bytes.now ≡ Some (view e)) }
    ensures refused { IfErr result (λ fault. (fault ≡ Memory → ⊥) → xml_of bytes.now ≡ None) }
    ensures places { IfOk result (λ e. IsWithin bytes.now e) }
{
    let text = match from_utf8(bytes) {
        Ok(text) => text,
        Err(error) => return Err(Fault::Flawed(Flaw::NotUtf8, error.valid_up_to())),
    };
    if !has_characters(text) {
        return Err(Fault::Flawed(Flaw::ControlCharacter, control_at(text)));
    }
    match document(alloc, text) {
        Ok(root) => Ok(root),
        Err(fault) => Err(placed(fault, bytes.len())),
    }
}
