//! How texts and numbers are spelled.
use crate::float::push_float;
use crate::style::Style;
use itoa::Buffer;
use serde_json::{Number, Value};
use std::alloc::{AllocError, Global};

const DIGITS: &[u8; 16] = b"0123456789abcdef";

// A UTF-16 unit as an escape.
fn push_unit(out: &mut Vec<u8>, unit: u32) -> Result<(), AllocError> {
    out.extend_from_slice(b"\\u")?;
    out.push(DIGITS[(unit / 4096 % 16) as usize])?;
    out.push(DIGITS[(unit / 256 % 16) as usize])?;
    out.push(DIGITS[(unit / 16 % 16) as usize])?;
    out.push(DIGITS[(unit % 16) as usize])?;
    Ok(())
}

// A letter beyond ASCII, as one unit or as two.
fn push_escaped(out: &mut Vec<u8>, code: u32) -> Result<(), AllocError> {
    if code > 0xffff {
        let rest = code - 0x10000;
        push_unit(out, 0xd800 + rest / 1024 % 1024)?;
        push_unit(out, 0xdc00 + rest % 1024)
    } else {
        push_unit(out, code)
    }
}

// A byte of a text; those beyond ASCII stay.
fn push_byte(out: &mut Vec<u8>, style: &Style, byte: u8) -> Result<(), AllocError> {
    match byte {
        b'"' => out.extend_from_slice(b"\\\"")?,
        b'\\' => out.extend_from_slice(b"\\\\")?,
        b'/' if style.escapes_slashes => out.extend_from_slice(b"\\/")?,
        8 => out.extend_from_slice(b"\\b")?,
        9 => out.extend_from_slice(b"\\t")?,
        10 => out.extend_from_slice(b"\\n")?,
        12 => out.extend_from_slice(b"\\f")?,
        13 => out.extend_from_slice(b"\\r")?,
        0..=31 => push_unit(out, byte as u32)?,
        _ => out.push(byte)?,
    }
    Ok(())
}

/// A text in its quotes.
pub fn push_text(out: &mut Vec<u8>, style: &Style, text: &str) -> Result<(), AllocError> {
    out.push(b'"')?;
    if style.escapes_letters {
        for letter in text.chars() {
            let code = letter as u32;
            if code > 127 {
                push_escaped(out, code)?;
            } else {
                push_byte(out, style, code as u8)?;
            }
        }
    } else {
        for byte in text.as_bytes() {
            push_byte(out, style, *byte)?;
        }
    }
    out.push(b'"')?;
    Ok(())
}

fn push_number(
    alloc: Global,
    out: &mut Vec<u8>,
    style: &Style,
    number: &Number,
    value: &Value,
) -> Result<(), AllocError> {
    if let Some(n) = number.as_u64() {
        let mut buffer = Buffer::new();
        return out.extend_from_slice(buffer.format(n).as_bytes());
    }
    let told = value.to_vec(alloc)?;
    if style.has_tiled_floats && number.is_f64() {
        push_float(alloc, out, &told)
    } else {
        out.extend_from_slice(&told)
    }
}

/// A value that is no array and no object.
pub fn push_scalar(
    alloc: Global,
    out: &mut Vec<u8>,
    style: &Style,
    value: &Value,
) -> Result<(), AllocError> {
    match value {
        Value::String(text) => push_text(out, style, text.as_str()),
        Value::Number(number) => push_number(alloc, out, style, number, value),
        Value::Bool(true) => out.extend_from_slice(b"true"),
        Value::Bool(false) => out.extend_from_slice(b"false"),
        Value::Null | Value::Array(_) | Value::Object(_) => out.extend_from_slice(b"null"),
    }
}
