// Which cells of a map rectangles cover.
ghost use Rattle.std.specs.Prelude.{◌≡◌, IfOk, true, false, replicate, slice_set, slice_index_or};
ghost use Rattle.infinite_maps.specs.Coverage.{covered_to, with_covered, cover_of, is_uncovered, are_apart};

use crate::rectangle::Rectangle;
use std::alloc::{AllocError, Global};

#[tactic(auto, unfolding(crate::specs::Coverage::with_covered))]
fn add(cover: &mut [bool], columns: u16, rectangle: Rectangle)
    ensures { cover.new ≡ with_covered columns cover.old rectangle }
{
    for k in 0..rectangle.area() {
        set(cover, rectangle.place(columns, k));
    }
}

// Covers the cell at a place, where there is one.
fn set(cover: &mut [bool], at: usize)
    ensures { cover.new ≡ slice_set cover.old at true }
{
    if at < cover.len() {
        cover[at] = true;
    }
}

/// What rectangles cover of so many cells.
pub fn cover_of(
    alloc: Global,
    columns: u16,
    size: usize,
    rectangles: &[Rectangle],
) -> Result<Vec<bool>, AllocError>
    ensures { IfOk result (λ cover. cover.items ≡ cover_of columns size rectangles.now) }
{
    let mut cover = vec![in alloc; false; size]?;
    for rectangle in rectangles {
        add(&mut cover, columns, *rectangle);
    }
    Ok(cover)
}

/// Whether no rectangle covers a cell of this one.
pub fn is_uncovered(columns: u16, cover: &[bool], rectangle: Rectangle) -> bool
    ensures { result ≡ is_uncovered columns cover.now rectangle }
{
    let mut found = false;
    for k in 0..rectangle.area() {
        found = found || is_covered(cover, rectangle.place(columns, k));
    }
    !found
}

/// Whether none of them overlaps one before it, and each lies within so many cells.
pub fn are_apart(
    alloc: Global,
    columns: u16,
    size: usize,
    rectangles: &[Rectangle],
) -> Result<bool, AllocError>
    ensures { IfOk result (λ apart. apart ≡ are_apart columns (replicate size false) rectangles.now) }
{
    let mut cover = vec![in alloc; false; size]?;
    for rectangle in rectangles {
        if !is_uncovered(columns, &cover, *rectangle) {
            return Ok(false);
        }
        add(&mut cover, columns, *rectangle);
    }
    Ok(true)
}

/// The first rectangle that overlaps one before it, or does not lie within so many cells; their number, where there is none.
pub fn first_overlap(
    alloc: Global,
    columns: u16,
    size: usize,
    rectangles: &[Rectangle],
) -> Result<usize, AllocError> {
    let mut cover = vec![in alloc; false; size]?;
    for (k, rectangle) in rectangles.iter().enumerate() {
        if !is_uncovered(columns, &cover, *rectangle) {
            return Ok(k);
        }
        add(&mut cover, columns, *rectangle);
    }
    Ok(rectangles.len())
}

/// Whether the cell at a place is covered; one past the end is.
pub fn is_covered(cover: &[bool], at: usize) -> bool
    ensures { result ≡ slice_index_or cover.now at true }
{
    cover.get(at).copied().unwrap_or(true)
}
