// The join of two changes of one layer, in the list of the older one. What is joined stands at the front of the list, in front
// of a gap; behind it stand the older cells that are left.
ghost use Rattle.std.specs.Prelude.{◌≡◌, ◌+◌, ◌-◌, ◌<◌, ◌≤◌, ◌++◌, ◌∷◌, [], OnErr, OnOk, drop, length, slice_index_or, take};
ghost use Rattle.std.specs.Vec.{vec_capacity, vec_len};
ghost use Rattle.map_model.specs.CellEdits.{AreInRowOrder};
ghost use Rattle.edits.specs.Merging.{joined, joined_cell};

use crate::merging::{comes_before, is_same_cell, number_of};
use map_model::CellEdit;
use std::alloc::AllocError;
use tile_id::Gid;

/// A list of more cells than this gets room for whole pieces of so many, so that it seldom moves.
const PIECE: usize = 4096;

/// In a list up to so long each new cell makes its own gap: to look for those that follow would take longer than that moves.
const SHORT: usize = 1024;

/// So many cells are moved at once.
const STRETCH: usize = 128;

/// What stands where no cell was put yet.
const NO_CELL: CellEdit = CellEdit {
    x: 0,
    y: 0,
    before: Gid(0),
    after: Gid(0),
};

// Takes room for some more cells. There is at most one growth.
fn take_room(cells: &mut Vec<CellEdit>, more: &[CellEdit]) -> Result<(), AllocError>
    ensures items { cells.new.items ≡ cells.old.items }
    ensures room { OnOk result (vec_len cells.new + length more.now ≤ vec_capacity cells.new) }
{
    let len = cells.len();
    if more.len() <= cells.capacity() - len {
        return Ok(());
    }
    let wanted = len + more.len();
    let room = if wanted <= PIECE {
        wanted
    } else {
        wanted.div_ceil(PIECE) * PIECE
    };
    cells.reserve_exact(room - len)
}

// Moves the first cells behind the gap in front of it.
#[inline(never)]
fn move_down(cells: &mut Vec<CellEdit>, front: usize, back: usize, count: usize)
    requires order { front < back }
    requires within { back + count ≤ vec_len cells.old }
    ensures front { take (front + count) cells.new.items ≡ take front cells.old.items ++ take count (drop back cells.old.items) }
    ensures back { drop (back + count) cells.new.items ≡ drop (back + count) cells.old.items }
    ensures len { vec_len cells.new ≡ vec_len cells.old }
    ensures capacity { vec_capacity cells.new ≡ vec_capacity cells.old }
{
    cells.copy_within(back..back + count, front);
}

// Passes over the first cells behind the gap, if there is one: they stand in front of it then.
#[inline(always)]
fn pass(cells: &mut Vec<CellEdit>, front: usize, back: usize, count: usize)
    requires order { front ≤ back }
    requires within { back + count ≤ vec_len cells.old }
    ensures front { take (front + count) cells.new.items ≡ take front cells.old.items ++ take count (drop back cells.old.items) }
    ensures back { drop (back + count) cells.new.items ≡ drop (back + count) cells.old.items }
    ensures len { vec_len cells.new ≡ vec_len cells.old }
    ensures capacity { vec_capacity cells.new ≡ vec_capacity cells.old }
{
    if front < back {
        move_down(cells, front, back, count);
    }
}

// Puts a cell of both changes, the first one behind the gap, in front of it, unless it is after them what it was before.
fn put_joined(cells: &mut Vec<CellEdit>, front: usize, back: usize, newer: &CellEdit) -> usize
    requires order { front ≤ back }
    requires within { back < vec_len cells.old }
    ensures front { take result cells.new.items ≡ take front cells.old.items ++ joined_cell (slice_index_or cells.old.items back newer.now) newer.now }
    ensures back { drop (back + 1) cells.new.items ≡ drop (back + 1) cells.old.items }
    ensures least { front ≤ result }
    ensures most { result ≤ front + 1 }
    ensures len { vec_len cells.new ≡ vec_len cells.old }
    ensures capacity { vec_capacity cells.new ≡ vec_capacity cells.old }
{
    let mut both = cells[back];
    if both.before == newer.after {
        return front;
    }
    both.after = newer.after;
    cells[front] = both;
    front + 1
}

// How many of some newer cells are not among the older ones.
fn count_new(older: &[CellEdit], newer: &[CellEdit]) -> usize
    requires { AreInRowOrder older.now }
    ensures { result ≤ length newer.now }
{
    let mut rest = older;
    let mut jump = older.len();
    let mut count = 0;
    for cell in newer {
        let (prefix, behind) = rest.split_at(number_of(rest, jump, cell));
        if behind.is_empty() || !is_same_cell(&behind[0], cell) {
            count += 1;
        }
        jump = prefix.len();
        rest = behind;
    }
    count
}

// Copies some cells to a piece of memory.
#[inline(always)]
fn keep_stretch(piece: &mut [CellEdit], cells: &[CellEdit])
    requires { length cells.now ≤ length piece.old }
    ensures cells { take (length cells.now) piece.new ≡ cells.now }
    ensures len { length piece.new ≡ length piece.old }
{
    piece[..cells.len()].copy_from_slice(cells);
}

// Copies some cells to a place of a list.
#[inline(always)]
fn put_stretch(cells: &mut Vec<CellEdit>, at: usize, stretch: &[CellEdit])
    requires { at + length stretch.now ≤ vec_len cells.old }
    ensures items { cells.new.items ≡ take at cells.old.items ++ stretch.now ++ drop (at + length stretch.now) cells.old.items }
    ensures len { vec_len cells.new ≡ vec_len cells.old }
    ensures capacity { vec_capacity cells.new ≡ vec_capacity cells.old }
{
    cells
        .slice_mut(at..at + stretch.len())
        .copy_from_slice(stretch);
}

// Moves the cells from a place on, but for the last ones, so many places to the back. They go by way of a piece of memory, so
// that they are copied as bytes.
fn move_up(cells: &mut Vec<CellEdit>, at: usize, by: usize)
    requires { at + by ≤ vec_len cells.old }
    ensures items { cells.new.items ≡ take (at + by) cells.old.items ++ drop at (take (vec_len cells.old - by) cells.old.items) }
    ensures len { vec_len cells.new ≡ vec_len cells.old }
    ensures capacity { vec_capacity cells.new ≡ vec_capacity cells.old }
{
    let mut piece = [NO_CELL; STRETCH];
    let mut end = cells.len() - by;
    while at < end {
        let count = (end - at).min(STRETCH);
        end -= count;
        keep_stretch(&mut piece, &cells[end..end + count]);
        put_stretch(cells, end + by, &piece[..count]);
    }
}

// Opens a gap of as many places as there are some cells.
fn open_gap(cells: &mut Vec<CellEdit>, at: usize, any: &[CellEdit])
    requires within { at ≤ vec_len cells.old }
    requires room { vec_len cells.old + length any.now ≤ vec_capacity cells.old }
    ensures front { take at cells.new.items ≡ take at cells.old.items }
    ensures back { drop (at + length any.now) cells.new.items ≡ drop at cells.old.items }
    ensures len { vec_len cells.new ≡ vec_len cells.old + length any.now }
    ensures capacity { vec_capacity cells.new ≡ vec_capacity cells.old }
{
    for cell in any {
        cells.push_reserved(*cell);
    }
    move_up(cells, at, any.len());
}

// Opens a gap for the first of some newer cells, which the older change has not, and for those that are new behind it. Tells
// where it ends.
#[inline(never)]
fn open_wide(cells: &mut Vec<CellEdit>, at: usize, newer: &[CellEdit]) -> usize
    requires within { at ≤ vec_len cells.old }
    requires ordered { AreInRowOrder (drop at cells.old.items) }
    requires some { 0 < length newer.now }
    requires room { vec_len cells.old + length newer.now ≤ vec_capacity cells.old }
    ensures front { take at cells.new.items ≡ take at cells.old.items }
    ensures back { drop result cells.new.items ≡ drop at cells.old.items }
    ensures order { at < result }
    ensures within { result ≤ vec_len cells.new }
    ensures len { vec_len cells.new + at ≡ vec_len cells.old + result }
    ensures capacity { vec_capacity cells.new ≡ vec_capacity cells.old }
{
    let more = count_new(&cells[at..], &newer[1..]);
    open_gap(cells, at, &newer[..more + 1]);
    at + more + 1
}

// Inserts a cell, for which there is room.
#[inline(always)]
fn insert_reserved(cells: &mut Vec<CellEdit>, at: usize, cell: CellEdit)
    requires within { at ≤ vec_len cells.old }
    requires room { vec_len cells.old < vec_capacity cells.old }
    ensures items { cells.new.items ≡ take at cells.old.items ++ cell ∷ drop at cells.old.items }
    ensures len { vec_len cells.new ≡ vec_len cells.old + 1 }
    ensures capacity { vec_capacity cells.new ≡ vec_capacity cells.old }
{
    cells.push_reserved(cell);
    cells.slice_mut(at..).rotate_right(1);
}

// Puts the first of some newer cells, which the older change has not, in front of the gap, for which there is room if there is
// no gap. Tells where the older cells that are left begin.
#[inline(always)]
fn put_new(cells: &mut Vec<CellEdit>, front: usize, back: usize, newer: &[CellEdit]) -> usize
    requires order { front ≤ back }
    requires within { back ≤ vec_len cells.old }
    requires ordered { AreInRowOrder (drop back cells.old.items) }
    requires some { 0 < length newer.now }
    requires room { vec_len cells.old + length newer.now ≤ vec_capacity cells.old + (back - front) }
    ensures front { take (front + 1) cells.new.items ≡ take front cells.old.items ++ take 1 newer.now }
    ensures back { drop result cells.new.items ≡ drop back cells.old.items }
    ensures order { front < result }
    ensures within { result ≤ vec_len cells.new }
    ensures len { vec_len cells.new + back ≡ vec_len cells.old + result }
    ensures capacity { vec_capacity cells.new ≡ vec_capacity cells.old }
{
    if front == back && cells.len() <= SHORT {
        insert_reserved(cells, back, newer[0]);
        return back + 1;
    }
    let behind = if front < back {
        back
    } else {
        open_wide(cells, back, newer)
    };
    cells[front] = newer[0];
    behind
}

// Closes the gap.
fn close_gap(cells: &mut Vec<CellEdit>, front: usize, back: usize)
    requires order { front ≤ back }
    requires within { back ≤ vec_len cells.old }
    ensures { cells.new.items ≡ take front cells.old.items ++ drop back cells.old.items }
{
    if front < back {
        let count = cells.len() - back;
        pass(cells, front, back, count);
        cells.truncate(front + count);
    }
}

// The join, where there is room for the cells of both changes.
fn join_reserved(cells: &mut Vec<CellEdit>, newer: &[CellEdit])
    requires ordered { AreInRowOrder cells.old.items }
    requires room { vec_len cells.old + length newer.now ≤ vec_capacity cells.old }
    ensures { cells.new.items ≡ joined cells.old.items newer.now }
{
    let mut front = 0;
    let mut back = 0;
    let mut jump = cells.len();
    for at in 0..newer.len() {
        let cell = &newer[at];
        if back < cells.len() && comes_before(&cells[back], cell) {
            let count = number_of(&cells[back..], jump, cell);
            pass(cells, front, back, count);
            front += count;
            back += count;
            jump = count;
        }
        if back < cells.len() && is_same_cell(&cells[back], cell) {
            front = put_joined(cells, front, back, cell);
            back += 1;
        } else {
            back = put_new(cells, front, back, &newer[at..]);
            front += 1;
        }
    }
    close_gap(cells, front, back);
}

/// The join of two changes of one layer, of which the newer one was made behind the older one, in the list of the older one.
///
/// Refused only where there is no memory, and then the list stays. There is at most one growth. What lies between the newer
/// cells is moved in stretches.
pub(crate) fn join_in_place(cells: &mut Vec<CellEdit>, newer: &[CellEdit]) -> Result<(), AllocError>
    requires { AreInRowOrder cells.old.items }
    ensures joined { OnOk result (cells.new.items ≡ joined cells.old.items newer.now) }
    ensures refused { OnErr result (cells.new.items ≡ cells.old.items) }
{
    take_room(cells, newer)?;
    join_reserved(cells, newer);
    Ok(())
}
