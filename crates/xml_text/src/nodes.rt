// Elements, and what stands between their tags.
ghost use Rattle.std.specs.Prelude.{◌≡◌, ◌<◌, ◌≤◌, ◌+◌, ◌-◌, ◌++◌, ℕ, [], ◌∷◌, false, None, codes, length, map, string_bytes, IfOk, OnOk};
ghost use Rattle.xml_text.specs.Words.{after};
ghost use Rattle.xml_text.specs.Answers.{Gives};
ghost use Rattle.xml_text.specs.Views.{turn_of, left_at};
ghost use Rattle.xml_text.specs.Xml.{text, view, node_view, attribute_view};
ghost use Rattle.xml_text.specs.Places.{IsBetween, IsPlaced, ArePlaced, AttributesBetween, place_of, places_of, node_place, text_place, attribute_place};
ghost use Rattle.xml_text.specs.Reading.{cdata, characters, node_turn, nodes, element_by, element_of};

use crate::fault::{Fault, Flaw};
use crate::markup::{comment, instruction};
use crate::said::{push_plain, said};
use crate::tags::{attributes, end_tag};
use crate::tree::{Element, Node, Span, Text, made};
use crate::words::{after, cut, name, up_to};
use std::alloc::{AllocFailed, Global};

// A CDATA section, of which `<![CDATA[` was read; it began at a byte of the text of so many.
#[tactic(auto, unfolding(crate::specs::Reading::cdata))]
fn cdata(alloc: Global, bytes: &str, from: usize, whole: usize) -> Result<(Text, &str), Fault>
    requires whole { length bytes.now ≤ whole }
    requires from { from ≤ whole - length bytes.now }
    ensures text { Gives (λ x. (text (string_bytes x.0.text), x.1.now)) result (cdata bytes.now) }
    ensures shorter { IfOk result (λ x. length x.1.now ≤ length bytes.now) }
    ensures place { IfOk result (λ x. IsBetween from (whole - length x.1.now) x.0.span) }
{
    let Some((raw, rest)) = cut(bytes, "]]>") else {
        return Err(Fault::Flawed(Flaw::BadCdata, bytes.len()));
    };
    let mut said = String::new(alloc);
    push_plain(&mut said, raw, false)?;
    let span = Span {
        from,
        end: whole - rest.len(),
    };
    Ok((Text { text: said, span }, rest))
}

// Characters up to a tag.
#[tactic(auto, unfolding(crate::specs::Reading::characters))]
fn characters(alloc: Global, bytes: &str, whole: usize) -> Result<(Text, &str), Fault>
    requires whole { length bytes.now ≤ whole }
    requires some { 0 < length bytes.now }
    requires no_tag { after (codes "<") bytes.now ≡ None }
    ensures text { Gives (λ x. (text (string_bytes x.0.text), x.1.now)) result (characters bytes.now) }
    ensures shorter { IfOk result (λ x. length x.1.now < length bytes.now) }
    ensures place { IfOk result (λ x. IsBetween (whole - length bytes.now) (whole - length x.1.now) x.0.span) }
{
    let (raw, rest) = up_to(bytes, b'<');
    if cut(raw, "]]>").is_some() {
        return Err(Fault::Flawed(Flaw::CdataEnd, bytes.len()));
    }
    let said = said(alloc, raw, false, rest.len())?;
    let span = Span {
        from: whole - bytes.len(),
        end: whole - rest.len(),
    };
    Ok((Text { text: said, span }, rest))
}

// One text more.
fn add_text(children: &mut Vec<Node>, found: Text) -> Result<(), AllocFailed<Node>>
    ensures view { OnOk result (map node_view children.new.items
        ≡ map node_view children.old.items ++ text (string_bytes found.text) ∷ []) }
    ensures place { OnOk result (map node_place children.new.items
        ≡ map node_place children.old.items ++ text_place found.span ∷ []) }
{
    children.push(Node::Text(found))
}

// One element more.
fn add_element(children: &mut Vec<Node>, found: Element) -> Result<(), AllocFailed<Node>>
    ensures view { OnOk result (map node_view children.new.items ≡ map node_view children.old.items ++ view found ∷ []) }
    ensures place { OnOk result (map node_place children.new.items ≡ map node_place children.old.items ++ place_of found ∷ []) }
{
    children.push(Node::Element(found))
}

// One child more, or what is none. Says whether an end tag has come.
#[cycle(elements)]
#[tactic(auto, unfolding(crate::specs::Reading::node_turn))]
fn node_turn<'a>(
    alloc: Global,
    levels: u8,
    children: &mut Vec<Node>,
    bytes: &'a str,
    whole: usize,
) -> Result<(bool, &'a str), Fault>
    requires { length bytes.now ≤ whole }
    ensures turn { Gives (λ x. turn_of x.0 (map node_view children.new.items, x.1.now)) result
        (node_turn (element_of levels) (map node_view children.old.items, bytes.now)) }
    ensures shorter { IfOk result (λ x. length x.1.now < length bytes.now) }
    ensures places { IfOk result (λ x. (low : ℕ) → ArePlaced low (whole - length bytes.now) (places_of (map node_place children.old.items))
        → ArePlaced low (whole - left_at x.0 (length x.1.now)) (places_of (map node_place children.new.items))) }
{
    let from = whole - bytes.len();
    if bytes.is_empty() {
        return Err(Fault::Flawed(Flaw::NoEnd, 0));
    }
    if let Some(rest) = after(bytes, "</") {
        return Ok((true, rest));
    }
    if let Some(rest) = after(bytes, "<!--") {
        let rest = comment(rest)?;
        return Ok((false, rest));
    }
    if let Some(rest) = after(bytes, "<?") {
        let rest = instruction(rest)?;
        return Ok((false, rest));
    }
    if let Some(rest) = after(bytes, "<![CDATA[") {
        let (found, rest) = cdata(alloc, rest, from, whole)?;
        add_text(children, found)?;
        return Ok((false, rest));
    }
    if let Some(rest) = after(bytes, "<") {
        let (found, rest) = element(alloc, levels, rest, from, whole)?;
        add_element(children, found)?;
        return Ok((false, rest));
    }
    let (found, rest) = characters(alloc, bytes, whole)?;
    add_text(children, found)?;
    Ok((false, rest))
}

// The children up to an end tag, of which `</` is read; and where this begins.
#[cycle(elements)]
fn nodes(alloc: Global, levels: u8, bytes: &str, whole: usize) -> Result<(Vec<Node>, &str), Fault>
    requires { length bytes.now ≤ whole }
    ensures nodes { Gives (λ x. (map node_view x.0.items, x.1.now)) result (nodes (element_of levels) bytes.now) }
    ensures shorter { IfOk result (λ x. length x.1.now < length bytes.now) }
    ensures places { IfOk result (λ x. ArePlaced (whole - length bytes.now) (whole - (length x.1.now + 2)) (places_of (map node_place x.0.items))) }
{
    let mut children = Vec::new(alloc);
    let mut rest = bytes;
    loop {
        let (is_last, next) = node_turn(alloc, levels, &mut children, rest, whole)?;
        if is_last {
            return Ok((children, next));
        }
        rest = next;
    }
}

// An element whose children have so many levels, of which `<` was read; it began at a byte of the text of so many.
#[cycle(elements)]
#[tactic(auto, unfolding(crate::specs::Reading::element_by, crate::specs::Reading::content))]
fn element_by(
    alloc: Global,
    levels: u8,
    bytes: &str,
    from: usize,
    whole: usize,
) -> Result<(Element, &str), Fault>
    requires whole { length bytes.now ≤ whole }
    requires from { from ≤ whole - length bytes.now }
    ensures element { Gives (λ x. (view x.0, x.1.now)) result (element_by (element_of levels) bytes.now) }
    ensures shorter { IfOk result (λ x. length x.1.now < length bytes.now) }
    ensures place { IfOk result (λ x. IsPlaced from (whole - length x.1.now) (place_of x.0)) }
{
    let (key, rest) = name(bytes)?;
    let (found, behind) = attributes(alloc, rest, whole)?;
    let name = String::from_str(alloc, key)?;
    if let Some(rest) = after(behind, "/>") {
        let end = whole - rest.len();
        let span = Span { from, end };
        let content = Span { from: end, end };
        return Ok((made(name, found, Vec::new(alloc), span, content), rest));
    }
    let Some(inner) = after(behind, ">") else {
        return Err(Fault::Flawed(Flaw::BadTag, behind.len()));
    };
    let (children, tag) = nodes(alloc, levels, inner, whole)?;
    let rest = end_tag(tag, key)?;
    let content = Span {
        from: whole - inner.len(),
        end: whole - tag.len() - 2,
    };
    let span = Span {
        from,
        end: whole - rest.len(),
    };
    Ok((made(name, found, children, span, content), rest))
}

/// An element of so many levels, of which `<` was read; it began at a byte of the text of so many.
#[cycle(elements)]
pub fn element(
    alloc: Global,
    levels: u8,
    bytes: &str,
    from: usize,
    whole: usize,
) -> Result<(Element, &str), Fault>
    requires whole { length bytes.now ≤ whole }
    requires from { from ≤ whole - length bytes.now }
    ensures element { Gives (λ x. (view x.0, x.1.now)) result (element_of levels bytes.now) }
    ensures shorter { IfOk result (λ x. length x.1.now < length bytes.now) }
    ensures place { IfOk result (λ x. IsPlaced from (whole - length x.1.now) (place_of x.0)) }
{
    if levels == 0 {
        return Err(Fault::Flawed(Flaw::TooDeep, bytes.len()));
    }
    element_by(alloc, levels - 1, bytes, from, whole)
}
