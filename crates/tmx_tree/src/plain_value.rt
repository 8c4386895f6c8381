// The value of a property that is no class.
ghost use Rattle.std.specs.Prelude.{◌≡◌, ◌<◌, map, option_map, string_bytes, IsTrue, IfOk, slice_index, length, codes};
ghost use Rattle.std.specs.List.{list_all};
ghost use Rattle.serde_json.specs.View.{view as data_of};
ghost use Rattle.serde_json.specs.Data.{string, boolean};
ghost use Rattle.xml_text.specs.Xml.{attribute_view};
ghost use Rattle.tmx_tree.specs.Answers.{GivesBy};
ghost use Rattle.tmx_tree.specs.Numbers.{whole_of, wrapped_of};
ghost use Rattle.tmx_tree.specs.Properties.{text_at, is_false, is_true, is_hexadecimal, is_without_alpha, with_alpha, color_value, plain_value, as_text};
ghost use Rattle.tmx_tree.specs.Properties.{int_value, float_read, object_value, typed_of};

use crate::element::attribute_value;
use crate::fault::{Fault, Refusal};
use crate::number::{whole_of, wrapped_of};
use crate::row::real_in;
use serde_json::Value;
use std::alloc::{AllocError, Global};
use xml_text::Attribute;

/// The type and the value of a property.
#[derive(Drop)]
pub struct Typed {
    pub kind: &'static str,
    pub value: Value,
}

/// The value of an attribute, an empty text where it is absent.
pub fn text_at<'a>(attributes: &'a Vec<Attribute>, name: &str) -> &'a str
    ensures { result.now ≡ text_at name.now (map attribute_view attributes.now.items) }
{
    match attribute_value(attributes, name) {
        Some(text) => text,
        None => "",
    }
}

fn as_text(alloc: Global, text: &str) -> Result<Typed, AllocError>
    ensures { IfOk result (λ v. typed_of v ≡ as_text text.now) }
{
    Ok(Typed {
        kind: "string",
        value: Value::String(String::from_str(alloc, text)?),
    })
}

fn int_value(alloc: Global, text: &str) -> Result<Typed, AllocError>
    ensures { IfOk result (λ v. typed_of v ≡ int_value text.now (wrapped_of text.now)) }
{
    match wrapped_of(text) {
        Some(number) => Ok(Typed {
            kind: "int",
            value: Value::from(number),
        }),
        None => as_text(alloc, text),
    }
}

fn float_value(alloc: Global, text: &str) -> Result<Typed, Fault>
    ensures { GivesBy typed_of result (float_read text.now) }
{
    match real_in(text)? {
        Some(number) => Ok(Typed {
            kind: "float",
            value: Value::Number(number),
        }),
        None => Ok(as_text(alloc, text)?),
    }
}

fn is_false(text: &str) -> bool
    ensures { result ≡ is_false text.now }
{
    text.eq_ignore_ascii_case("false")
}

fn is_true(text: &str) -> bool
    ensures { result ≡ is_true text.now }
{
    !(text.is_empty() || text == "0" || is_false(text))
}

fn is_hexadecimal(byte: u8) -> bool
    ensures { result ≡ is_hexadecimal byte }
{
    b'0' <= byte && byte <= b'9' || b'A' <= byte && byte <= b'F' || b'a' <= byte && byte <= b'f'
}

fn are_hexadecimal(bytes: &[u8]) -> bool
    ensures { result ≡ list_all is_hexadecimal bytes.now }
{
    for byte in bytes {
        if !is_hexadecimal(*byte) {
            return false;
        }
    }
    true
}

// Whether a color is `#` and six digits.
fn is_without_alpha(color: &[u8]) -> bool
    ensures value { result ≡ is_without_alpha color.now }
    ensures ascii { IsTrue result → slice_index color.now 1 < 128 }
    ensures long { IsTrue result → 1 < length color.now }
{
    color.len() == 7 && color[0] == b'#' && is_hexadecimal(color[1]) && are_hexadecimal(&color[2..])
}

// A color with its alpha.
fn with_alpha(alloc: Global, color: &str) -> Result<String, AllocError>
    ensures { IfOk result (λ text. string_bytes text ≡ with_alpha color.now) }
{
    if !is_without_alpha(color.as_bytes()) {
        return String::from_str(alloc, color);
    }
    let mut text = String::from_str(alloc, "#ff")?;
    text.push_str(&color[1..])?;
    Ok(text)
}

fn color_value(alloc: Global, text: &str) -> Result<Typed, AllocError>
    ensures { IfOk result (λ v. typed_of v ≡ color_value text.now) }
{
    if text.is_empty() {
        return as_text(alloc, text);
    }
    Ok(Typed {
        kind: "color",
        value: Value::String(with_alpha(alloc, text)?),
    })
}

fn object_value(text: &str) -> Typed
    ensures { typed_of result ≡ object_value (whole_of text.now) }
{
    let id = whole_of(text).unwrap_or(0);
    Typed {
        kind: "object",
        value: Value::from(id),
    }
}

fn file_value(alloc: Global, text: &str) -> Result<Typed, AllocError>
    ensures { IfOk result (λ v. typed_of v ≡ (codes "file", string text.now)) }
{
    Ok(Typed {
        kind: "file",
        value: Value::String(String::from_str(alloc, text)?),
    })
}

fn bool_value(text: &str) -> Typed
    ensures { typed_of result ≡ (codes "bool", boolean (is_true text.now)) }
{
    Typed {
        kind: "bool",
        value: Value::Bool(is_true(text)),
    }
}

/// The value of a type that is no class.
pub fn plain_value(alloc: Global, kind: &str, text: &str) -> Result<Typed, Fault>
    ensures { GivesBy typed_of result (plain_value kind.now text.now) }
{
    if kind.is_empty() || kind == "string" {
        Ok(as_text(alloc, text)?)
    } else if kind == "int" {
        Ok(int_value(alloc, text)?)
    } else if kind == "float" {
        float_value(alloc, text)
    } else if kind == "bool" {
        Ok(bool_value(text))
    } else if kind == "color" {
        Ok(color_value(alloc, text)?)
    } else if kind == "file" {
        Ok(file_value(alloc, text)?)
    } else if kind == "object" {
        Ok(object_value(text))
    } else {
        Err(Fault::Refused(Refusal::PropertyType))
    }
}
