// The join of two changes of one layer.
ghost use Rattle.std.specs.Prelude.{◌≡◌, ◌+◌, ◌*◌, ◌<◌, ◌≤◌, ◌++◌, IfOk, OnOk, length};
ghost use Rattle.std.specs.Ordering.{is_eq, is_lt};
ghost use Rattle.std.specs.Vec.{vec_capacity, vec_len};
ghost use Rattle.region.specs.Cells.{cell_cmp};
ghost use Rattle.map_model.specs.CellEdits.{AreInRowOrder, cell};
ghost use Rattle.edits.specs.Merging.{AreNumbersAround, IsNumberOf, JoinedIsDifference, joined, joined_cell};

use map_model::CellEdit;
use std::alloc::{AllocError, Global};

// A number by which changed cells stand in row order. It is one comparison where a row and a column would be two.
#[inline(always)]
fn place(a: &CellEdit) -> u32
    ensures value { result ≡ a.now.y * 65536 + a.now.x }
    ensures column { a.now.x < 65536 }
{
    a.y as u32 * 65536 + a.x as u32
}

// Whether a changed cell comes before another one in row order.
pub(crate) fn comes_before(a: &CellEdit, b: &CellEdit) -> bool
    ensures { result ≡ is_lt (cell_cmp (cell a.now) (cell b.now)) }
{
    place(a) < place(b)
}

// Whether two changes are of one cell.
pub(crate) fn is_same_cell(a: &CellEdit, b: &CellEdit) -> bool
    ensures { result ≡ is_eq (cell_cmp (cell a.now) (cell b.now)) }
{
    place(a) == place(b)
}

// Two numbers around the first one of which the cell does not come before the newer one. The search goes first as far as
// the last jump went, since rows repeat, and from there on by steps that double.
#[inline(always)]
fn numbers_around(older: &[CellEdit], jump: usize, newer: &CellEdit) -> (usize, usize)
    ensures { AreNumbersAround older.now newer.now result.0 result.1 }
{
    let mut low = 0;
    let mut step = jump.max(1);
    let mut next = 1;
    while step <= older.len() - low && comes_before(&older[low + step - 1], newer) {
        low += step;
        step = next;
        next *= 2;
    }
    (low, low + (step - 1).min(older.len() - low))
}

// The first number of which the cell does not come before the newer one. The search goes by halves, between two numbers
// around it.
#[inline(always)]
fn number_between(older: &[CellEdit], mut low: usize, mut high: usize, newer: &CellEdit) -> usize
    requires ordered { AreInRowOrder older.now }
    requires around { AreNumbersAround older.now newer.now low high }
    ensures { IsNumberOf older.now newer.now result }
{
    while low < high {
        let middle = low + (high - low) / 2;
        if comes_before(&older[middle], newer) {
            low = middle + 1;
        } else {
            high = middle;
        }
    }
    low
}

// The first number of which the cell does not come before the newer one.
#[inline(never)]
pub(crate) fn number_of(older: &[CellEdit], jump: usize, newer: &CellEdit) -> usize
    requires { AreInRowOrder older.now }
    ensures { IsNumberOf older.now newer.now result }
{
    let (low, high) = numbers_around(older, jump, newer);
    number_between(older, low, high, newer)
}

// Adds a stretch of cells. It stands apart, as the search does, so that the loop around them stays small.
#[inline(never)]
fn push_stretch(cells: &mut Vec<CellEdit>, stretch: &[CellEdit]) -> Result<(), AllocError>
    ensures items { OnOk result (cells.new.items ≡ cells.old.items ++ stretch.now) }
    ensures len { OnOk result (vec_len cells.new ≡ vec_len cells.old + length stretch.now) }
    ensures capacity { vec_capacity cells.old ≤ vec_capacity cells.new }
{
    cells.extend_from_slice(stretch)
}

// Adds a cell of both changes, unless it is after them what it was before.
fn push_joined(cells: &mut Vec<CellEdit>, older: &CellEdit, newer: &CellEdit)
    requires { vec_len cells.old < vec_capacity cells.old }
    ensures items { cells.new.items ≡ cells.old.items ++ joined_cell older.now newer.now }
    ensures len { vec_len cells.new ≤ vec_len cells.old + 1 }
    ensures capacity { vec_capacity cells.new ≡ vec_capacity cells.old }
{
    if older.before != newer.after {
        let mut both = *older;
        both.after = newer.after;
        cells.push_reserved(both);
    }
}

/// The join of two changes of one layer, of which the newer one was made behind the older one: a cell of one of them keeps
/// its values; a cell of both has its value before the older one and after the newer one, and goes where these are equal.
///
/// Refused only where there is no memory. There is one growth, with room for the cells of both changes. What comes between
/// the newer cells is copied in stretches.
pub fn joined_cells(
    alloc: Global,
    older: &[CellEdit],
    newer: &[CellEdit],
) -> Result<Vec<CellEdit>, AllocError>
    requires { AreInRowOrder older.now }
    ensures { IfOk result (λ cells. cells.items ≡ joined older.now newer.now) }
{
    let mut cells = Vec::with_capacity(alloc, older.len() + newer.len())?;
    let mut rest = older;
    let mut jump = older.len();
    for cell in newer {
        if !rest.is_empty() && comes_before(&rest[0], cell) {
            let (prefix, behind) = rest.split_at(number_of(rest, jump, cell));
            push_stretch(&mut cells, prefix)?;
            jump = prefix.len();
            rest = behind;
        }
        if !rest.is_empty() && is_same_cell(&rest[0], cell) {
            push_joined(&mut cells, &rest[0], cell);
            rest = &rest[1..];
        } else {
            cells.push_reserved(*cell);
        }
    }
    push_stretch(&mut cells, rest)?;
    Ok(cells)
}

/// The join of the difference of a first map and a second one of its size, and of that of the second and a third, is the
/// difference of the first and the third. The function does nothing: it states this law of the join.
pub fn joined_differences()
    ensures { JoinedIsDifference }
{}
