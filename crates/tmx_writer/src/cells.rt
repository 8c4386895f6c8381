// The cells of a layer or a chunk.
use crate::layout::{Sheet, push_line};
use crate::members::{items_at, whole_at};
use crate::number::push_whole;
use crate::part::Part;
use serde_json::Value;
use std::alloc::AllocError;

// A cell that is no number is told as nothing, which reads as no cell.
fn push_cell(cell: &Value, out: &mut Vec<u8>) -> Result<(), AllocError> {
    match cell.as_u64() {
        Some(number) => push_whole(number, out),
        None => out.extend_from_slice(b"?"),
    }
}

// Numbers between commas, a row a line.
fn push_csv(
    sheet: &Sheet<'_>,
    cells: &[Value],
    width: u64,
    out: &mut Vec<u8>,
) -> Result<(), AllocError> {
    let mut column: u64 = 0;
    let mut is_first = true;
    out.extend_from_slice(sheet.line)?;
    for cell in cells {
        if !is_first {
            out.push(b',')?;
        }
        if column >= width && !is_first {
            out.extend_from_slice(sheet.line)?;
            column = 0;
        }
        push_cell(cell, out)?;
        column = column.saturating_add(1);
        is_first = false;
    }
    if is_first {
        Ok(())
    } else {
        out.extend_from_slice(sheet.line)
    }
}

/// Pushes a cell as an element.
pub fn push_element(cell: &Value, out: &mut Vec<u8>) -> Result<(), AllocError> {
    if cell.as_u64() == Some(0) {
        return out.extend_from_slice(b"<tile/>");
    }
    out.extend_from_slice(b"<tile gid=\"")?;
    push_cell(cell, out)?;
    out.extend_from_slice(b"\"/>")
}

fn push_elements(
    sheet: &Sheet<'_>,
    level: u8,
    cells: &[Value],
    out: &mut Vec<u8>,
) -> Result<(), AllocError> {
    for cell in cells {
        push_line(sheet, level.saturating_add(1), out)?;
        push_element(cell, out)?;
    }
    if cells.is_empty() {
        Ok(())
    } else {
        push_line(sheet, level, out)
    }
}

fn push_packed(sheet: &Sheet<'_>, text: &str, out: &mut Vec<u8>) -> Result<(), AllocError> {
    if sheet.line.is_empty() {
        return out.extend_from_slice(text.as_bytes());
    }
    out.extend_from_slice(sheet.line)?;
    out.extend_from_slice(b"   ")?;
    out.extend_from_slice(text.as_bytes())?;
    out.extend_from_slice(sheet.line)?;
    out.extend_from_slice(b"  ")
}

/// Pushes the cells of a layer or a chunk, which stand between tags of this level.
pub fn push_cells(
    sheet: &Sheet<'_>,
    part: &Part<'_>,
    level: u8,
    out: &mut Vec<u8>,
) -> Result<(), AllocError> {
    if let Some(text) = packed_text(part.value) {
        return push_packed(sheet, text, out);
    }
    let cells = items_at(part.value, "data");
    if sheet.is_by_elements {
        push_elements(sheet, level, cells, out)
    } else {
        push_csv(sheet, cells, whole_at(part.value, "width"), out)
    }
}

/// The text of packed cells.
pub fn packed_text(value: &Value) -> Option<&str> {
    match value.get("data") {
        Some(data) => data.as_str(),
        None => None,
    }
}
