// Cells of a list that all get one value: what stands side by side is found by a look at its ends, and set in one loop.
ghost use Rattle.std.specs.Prelude.{◌≡◌, ◌<◌, ◌≤◌, ◌+◌, IsTrue, length, take};
ghost use Rattle.map_model.specs.Alike.{AreAlike, AreSideBySide, fill_values};
ghost use Rattle.map_model.specs.CellEdits.{AreInRowOrder, HaveRange, IsBelow, cell_number, put_values, with_value};
ghost use Rattle.map_model.specs.Lists.{Each};

use crate::edit::{CellEdit, Side};
use tile_id::Gid;

// Whether the cells of a list stand side by side, from its first one to the one at an index.
#[inline(always)]
fn is_row_to(edits: &[CellEdit], last: usize) -> bool
    requires within { last < length edits.now }
    requires ordered { AreInRowOrder edits.now }
    ensures { IsTrue result → AreSideBySide (take (last + 1) edits.now) }
{
    let from = edits[0];
    let to = edits[last];
    to.y == from.y && to.x as usize == from.x as usize + last
}

// How many cells at the head of a list stand side by side. It looks at cells by steps, of which the first is given: they double
// as long as the cells do, and then halve. It ends where the next cell does not.
#[inline(never)]
fn row_length(edits: &[CellEdit], first_step: usize) -> usize
    requires some { 0 < length edits.now }
    requires ordered { AreInRowOrder edits.now }
    ensures some { 0 < result }
    ensures within { result ≤ length edits.now }
    ensures row { AreSideBySide (take result edits.now) }
{
    let mut last = 0;
    let mut step = first_step;
    while step > 0 {
        if step < edits.len() - last && is_row_to(edits, last + step) {
            last += step;
            step *= 2;
            if edits.len() - last < 2 || !is_row_to(edits, last + 1) {
                step = 0;
            }
        } else {
            step /= 2;
        }
    }
    last + 1
}

// Sets the cells of a row, in the values of a layer of this width, to a value.
fn put_row(values: &mut [Gid], width: usize, row: &[CellEdit], value: Gid)
    requires row { AreSideBySide row.now }
    requires inside { Each (IsBelow width (length values.old)) row.now }
    ensures { values.new ≡ fill_values width value row.now values.old }
{
    if let [first, ..] = row {
        let from = first.y as usize * width + first.x as usize;
        for at in from..from + row.len() {
            values[at] = value;
        }
    }
}

// Sets a cell, in the values of a layer of this width, to a value.
#[inline(always)]
fn put_value(values: &mut [Gid], width: usize, edit: CellEdit, value: Gid)
    requires { IsBelow width (length values.old) edit }
    ensures { values.new ≡ with_value (cell_number width edit) value values.old }
{
    values[edit.y as usize * width + edit.x as usize] = value;
}

// Sets the cells of a list to a value, one by one.
fn put_each(values: &mut [Gid], width: usize, edits: &[CellEdit], value: Gid)
    requires { Each (IsBelow width (length values.old)) edits.now }
    ensures { values.new ≡ fill_values width value edits.now values.old }
{
    let mut rest = edits;
    while let [edit, others @ ..] = rest {
        put_value(values, width, *edit, value);
        rest = others;
    }
}

// Sets the cells of a list, in the values of a layer of this width, to a value: row by row where eight or more stand side by
// side, and else eight in each round. For each row the length of the one before it is tried first.
fn fill(values: &mut [Gid], width: usize, edits: &[CellEdit], value: Gid)
    requires inside { Each (IsBelow width (length values.old)) edits.now }
    requires ordered { AreInRowOrder edits.now }
    ensures { values.new ≡ fill_values width value edits.now values.old }
{
    let mut rest = edits;
    let mut step = 7;
    while let [
        first,
        second,
        third,
        fourth,
        fifth,
        sixth,
        seventh,
        eighth,
        others @ ..,
    ] = rest
    {
        if is_row_to(rest, 7) {
            let (row, behind) = rest.split_at(row_length(rest, step));
            put_row(values, width, row, value);
            step = row.len() - 1;
            rest = behind;
        } else {
            put_value(values, width, *first, value);
            put_value(values, width, *second, value);
            put_value(values, width, *third, value);
            put_value(values, width, *fourth, value);
            put_value(values, width, *fifth, value);
            put_value(values, width, *sixth, value);
            put_value(values, width, *seventh, value);
            put_value(values, width, *eighth, value);
            rest = others;
        }
    }
    put_each(values, width, rest, value);
}

/// Sets the cells of a list, in the values of a layer of this width, to their values on a side. All of them have one value
/// before and one after.
pub fn put_alike(values: &mut [Gid], width: usize, edits: &[CellEdit], side: Side)
    requires inside { Each (IsBelow width (length values.old)) edits.now }
    requires ordered { AreInRowOrder edits.now }
    requires alike { AreAlike edits.now }
    ensures values { values.new ≡ put_values width side edits.now values.old }
    ensures range { HaveRange side edits.now }
{
    if let [first, ..] = edits {
        fill(values, width, edits, first.value(side));
    }
}
