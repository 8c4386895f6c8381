// What is copied into a caller's buffer where memory may run out for it.
ghost use Rattle.std.specs.Prelude.{◌≡◌, IfOk, List, ℕ, Option, Some, length, map};
ghost use Rattle.std.specs.Option.{option_map};
ghost use Rattle.memory_editor.specs.Buffers.{written};
ghost use Rattle.roskevad_c.specs.Things.{Gives, GivesRows, filled_rows, row_of};
ghost use Rattle.roskevad_c.specs.declared.things.CLayerRow.{CLayerRow as RowOf};

use crate::answers::{NO_MEMORY, NONE};
use crate::copies::copy_text;
use crate::things::CLayerRow;
use map_lists::LayerRow;
use std::alloc::{AllocError, Global};

/// Copies a text where the buffer has room for all of it, and gives its size, `NONE` where there is none, or `NO_MEMORY`.
pub fn copy_told(told: Result<Option<Vec<u8>>, AllocError>, buffer: &mut [u8]) -> usize
    ensures { (text : Option (List ℕ)) → IfOk told (λ t. option_map (λ bytes. bytes.items) t ≡ text) → Gives text result buffer.old buffer.new }
{
    match told {
        Ok(Some(text)) => copy_text(text.as_slice(), buffer),
        Ok(None) => NONE,
        Err(_) => NO_MEMORY,
    }
}

// Copies ids where the buffer has room for all of them, and gives how many they are.
fn copy_ids(ids: &[u32], buffer: &mut [u32]) -> usize
    ensures count { result ≡ length ids.now }
    ensures copied { buffer.new ≡ written ids.now buffer.old }
{
    let count = ids.len();
    if count <= buffer.len() {
        let (front, _) = buffer.split_at_mut(count);
        front.copy_from_slice(ids);
    }
    count
}

/// Copies ids where the buffer has room for all of them, and gives how many they are, `NONE` where there are none to copy, or
/// `NO_MEMORY`.
pub fn copy_told_ids(told: Result<Option<Vec<u32>>, AllocError>, buffer: &mut [u32]) -> usize
    ensures { (ids : Option (List ℕ)) → IfOk told (λ t. option_map (λ v. v.items) t ≡ ids) → Gives ids result buffer.old buffer.new }
{
    match told {
        Ok(Some(ids)) => copy_ids(ids.as_slice(), buffer),
        Ok(None) => NONE,
        Err(_) => NO_MEMORY,
    }
}

// The rows of layers for C.
fn rows_for_c(alloc: Global, rows: &[LayerRow]) -> Result<Vec<CLayerRow>, AllocError>
    ensures { IfOk result (λ made. made.items ≡ map row_of rows.now) }
{
    let mut made = Vec::with_capacity(alloc, rows.len())?;
    for row in rows.iter() {
        made.push(CLayerRow::of(*row))?;
    }
    Ok(made)
}

// Copies rows where the buffer has room for all of them, and gives how many they are.
fn copy_rows(rows: &[CLayerRow], buffer: &mut [CLayerRow]) -> usize
    ensures count { result ≡ length rows.now }
    ensures copied { buffer.new ≡ filled_rows (Some rows.now) buffer.old }
{
    let count = rows.len();
    if count <= buffer.len() {
        let (front, _) = buffer.split_at_mut(count);
        front.copy_from_slice(rows);
    }
    count
}

/// Copies the rows of layers where the buffer has room for all of them, and gives how many they are, `NONE` where there are none to
/// copy, or `NO_MEMORY`.
pub fn copy_told_rows(
    alloc: Global,
    told: Result<Option<Vec<LayerRow>>, AllocError>,
    buffer: &mut [CLayerRow],
) -> usize
    ensures { (rows : Option (List RowOf)) → IfOk told (λ t. option_map (λ v. map row_of v.items) t ≡ rows) → GivesRows rows result buffer.old buffer.new }
{
    match told {
        Ok(Some(rows)) => match rows_for_c(alloc, rows.as_slice()) {
            Ok(made) => copy_rows(made.as_slice(), buffer),
            Err(_) => NO_MEMORY,
        },
        Ok(None) => NONE,
        Err(_) => NO_MEMORY,
    }
}
