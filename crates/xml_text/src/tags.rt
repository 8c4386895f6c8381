// Tags with their attributes.
ghost use Rattle.std.specs.Prelude.{◌≡◌, ◌<◌, ◌≤◌, ◌+◌, ◌-◌, ℕ, false, length, map, IfOk};
ghost use Rattle.xml_text.specs.Answers.{Gives};
ghost use Rattle.xml_text.specs.Views.{turn_of};
ghost use Rattle.xml_text.specs.Xml.{attribute_view};
ghost use Rattle.xml_text.specs.Places.{AttributesBetween, attribute_place, IsBetween};
ghost use Rattle.xml_text.specs.Reading.{attribute, has_name, attribute_turn, attributes, end_tag};

use crate::fault::{Fault, Flaw};
use crate::markup::{assigned, behind};
use crate::said::said;
use crate::tree::{Attribute, Span};
use crate::words::{cut, has_blank, has_name, name, unblanked};
use std::alloc::Global;

/// As many attributes as an element may have.
const MOST_ATTRIBUTES: usize = 256;

// An attribute, in a text of so many bytes of which these are left.
#[tactic(auto, unfolding(crate::specs::Reading::attribute))]
fn attribute(alloc: Global, text: &str, whole: usize) -> Result<(Attribute, &str), Fault>
    requires { length text.now ≤ whole }
    ensures attribute { Gives (λ x. (attribute_view x.0, x.1.now)) result (attribute text.now) }
    ensures shorter { IfOk result (λ x. length x.1.now < length text.now) }
    ensures from { IfOk result (λ x. x.0.span.from ≡ whole - length text.now) }
    ensures end { IfOk result (λ x. x.0.span.end ≡ whole - length x.1.now) }
    ensures value { IfOk result (λ x. IsBetween x.0.span.from x.0.span.end x.0.value_span) }
{
    let (key, after_key) = name(text)?;
    let (value, rest) = assigned(after_key, Flaw::BadAttribute)?;
    if cut(value, "<").is_some() {
        return Err(Fault::Flawed(Flaw::BadAttribute, text.len()));
    }
    let said = said(alloc, value, true, rest.len() + 1)?;
    let end = whole - rest.len();
    let attribute = Attribute {
        name: String::from_str(alloc, key)?,
        value: said,
        span: Span {
            from: whole - text.len(),
            end,
        },
        value_span: Span {
            from: end - 1 - value.len(),
            end: end - 1,
        },
    };
    Ok((attribute, rest))
}

fn has_attribute(found: &Vec<Attribute>, key: &str) -> bool
    ensures { result ≡ has_name key.now (map attribute_view found.now.items) }
{
    for attribute in found {
        if attribute.name.as_str() == key {
            return true;
        }
    }
    false
}

// One attribute more. Says whether there was none.
#[tactic(auto, unfolding(crate::specs::Reading::attribute_turn))]
fn attribute_turn<'a>(
    alloc: Global,
    found: &mut Vec<Attribute>,
    text: &'a str,
    whole: usize,
) -> Result<(bool, &'a str), Fault>
    requires { length text.now ≤ whole }
    ensures turn { Gives (λ x. turn_of x.0 (map attribute_view found.new.items, x.1.now)) result
        (attribute_turn (map attribute_view found.old.items, text.now)) }
    ensures shorter { IfOk result (λ x. length x.1.now ≤ length text.now) }
    ensures more { IfOk result (λ x. x.0 ≡ false → length x.1.now < length text.now) }
    ensures places { IfOk result (λ x. (low : ℕ) → AttributesBetween low (whole - length text.now) (map attribute_place found.old.items)
        → AttributesBetween low (whole - length x.1.now) (map attribute_place found.new.items)) }
{
    let inner = unblanked(text);
    if !has_name(inner) {
        return Ok((true, inner));
    }
    if !has_blank(text) {
        return Err(Fault::Flawed(Flaw::BadTag, text.len()));
    }
    if found.len() == MOST_ATTRIBUTES {
        return Err(Fault::Flawed(Flaw::TooManyAttributes, inner.len()));
    }
    let (attribute, rest) = attribute(alloc, inner, whole)?;
    if has_attribute(found, attribute.name.as_str()) {
        return Err(Fault::Flawed(Flaw::AttributeTwice, inner.len()));
    }
    found.push(attribute)?;
    Ok((false, rest))
}

/// The attributes of a tag.
pub fn attributes(alloc: Global, text: &str, whole: usize) -> Result<(Vec<Attribute>, &str), Fault>
    requires { length text.now ≤ whole }
    ensures attributes { Gives (λ x. (map attribute_view x.0.items, x.1.now)) result (attributes text.now) }
    ensures shorter { IfOk result (λ x. length x.1.now ≤ length text.now) }
    ensures places { IfOk result (λ x. AttributesBetween (whole - length text.now) (whole - length x.1.now) (map attribute_place x.0.items)) }
{
    let mut found = Vec::new(alloc);
    let mut rest = text;
    loop {
        let (is_last, next) = attribute_turn(alloc, &mut found, rest, whole)?;
        if is_last {
            return Ok((found, next));
        }
        rest = next;
    }
}

/// The text behind the end tag of this name, of which `</` was read.
#[tactic(auto, unfolding(crate::specs::Reading::end_tag))]
pub fn end_tag<'a>(text: &'a str, key: &str) -> Result<&'a str, Fault>
    ensures text { Gives (λ rest. rest.now) result (end_tag key.now text.now) }
    ensures shorter { IfOk result (λ rest. length rest.now < length text.now) }
{
    let (found, rest) = name(text)?;
    if found != key {
        return Err(Fault::Flawed(Flaw::WrongEnd, text.len()));
    }
    behind(rest, ">", Flaw::BadTag)
}
