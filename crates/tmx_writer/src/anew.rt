// Elements told anew.
use crate::attributes::attributes_of;
use crate::cells::push_cells;
use crate::escape::{push_attribute, push_text};
use crate::kids::kids_of;
use crate::layout::{Sheet, push_line};
use crate::members::text_at;
use crate::part::{Kind, Part, element_name};
use crate::property::{is_text_between, property_of};
use std::alloc::{AllocError, Global};

/// What stands between the tags of an element.
#[derive(Clone, Copy, PartialEq, Eq)]
pub enum Content {
    Elements,
    Cells,
    Text,
}

/// What stands between the tags of an element.
pub fn content_of(part: &Part<'_>) -> Content {
    match part.kind {
        Kind::Data => if part.value.get("chunks").is_some() {
            Content::Elements
        } else {
            Content::Cells
        },
        Kind::Chunk => Content::Cells,
        Kind::Words => Content::Text,
        Kind::Property | Kind::Member => if is_text_between(&property_of(part)) {
            Content::Text
        } else {
            Content::Elements
        },
        _ => Content::Elements,
    }
}

/// The text of an element that has one.
pub fn text_of<'a>(part: &Part<'a>) -> &'a str {
    if part.kind == Kind::Words {
        return text_at(part.value, "text");
    }
    property_of(part).value.as_str().unwrap_or("")
}

/// Pushes `</name>`.
pub fn push_end(part: &Part<'_>, out: &mut Vec<u8>) -> Result<(), AllocError> {
    out.extend_from_slice(b"</")?;
    out.extend_from_slice(element_name(part.kind).as_bytes())?;
    out.push(b'>')?;
    Ok(())
}

// Pushes `<name` and the attributes.
fn push_head(
    alloc: Global,
    sheet: &Sheet<'_>,
    part: &Part<'_>,
    out: &mut Vec<u8>,
) -> Result<(), AllocError> {
    out.push(b'<')?;
    out.extend_from_slice(element_name(part.kind).as_bytes())?;
    for told in &attributes_of(alloc, sheet, part)? {
        push_attribute(told.name, &told.value, out)?;
    }
    Ok(())
}

// Pushes elements, each on a line of its own.
#[cycle(anew)]
fn push_kids(
    alloc: Global,
    sheet: &Sheet<'_>,
    part: &Part<'_>,
    level: u8,
    most: u8,
    out: &mut Vec<u8>,
) -> Result<(), AllocError> {
    for kid in &kids_of(alloc, part)? {
        push_line(sheet, level.saturating_add(1), out)?;
        push_element(alloc, sheet, kid, level.saturating_add(1), most, out)?;
    }
    push_line(sheet, level, out)
}

/// Pushes what stands between the tags of an element of this level, if anything does; what nests deeper than `most` is left out.
#[cycle(anew)]
pub fn push_content(
    alloc: Global,
    sheet: &Sheet<'_>,
    part: &Part<'_>,
    level: u8,
    most: u8,
    out: &mut Vec<u8>,
) -> Result<(), AllocError> {
    match content_of(part) {
        Content::Cells => push_cells(sheet, part, level, out),
        Content::Text => push_text(text_of(part).as_bytes(), out),
        Content::Elements => push_kids(alloc, sheet, part, level, most, out),
    }
}

/// Whether anything stands between the tags of an element.
pub fn has_content(alloc: Global, part: &Part<'_>) -> Result<bool, AllocError> {
    if content_of(part) != Content::Elements {
        return Ok(true);
    }
    Ok(!kids_of(alloc, part)?.is_empty())
}

/// Pushes an element of this level.
#[cycle(anew)]
pub fn push_element(
    alloc: Global,
    sheet: &Sheet<'_>,
    part: &Part<'_>,
    level: u8,
    most: u8,
    out: &mut Vec<u8>,
) -> Result<(), AllocError> {
    push_head(alloc, sheet, part, out)?;
    if most == 0 || !has_content(alloc, part)? {
        return out.extend_from_slice(b"/>");
    }
    out.push(b'>')?;
    push_content(alloc, sheet, part, level, most - 1, out)?;
    push_end(part, out)
}
