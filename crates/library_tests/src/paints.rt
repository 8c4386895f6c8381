// The cells that a paint holds once newer ones were merged into it, on documents of 4 by 3 cells.
ghost use Rattle.std.specs.Prelude.{◌≡◌, ◌≤◌, IfOk, length};
ghost use Rattle.paint_commands.specs.Painting.{paint_change};

use command_api::Command;
use edits::Block;
use map_model::{CellEdit, Document, Map, MapText};
use paint_commands::PaintCommand;
use std::alloc::{AllocError, Global};
use tile_id::Gid;

pub(crate) fn town(alloc: Global) -> Result<Document, AllocError> {
    let source = MapText::new(String::from_str(alloc, "town.tsj")?);
    Ok(Document::new(alloc, Map::create(alloc, 4, 3, 16, 16, source)?))
}

// Stamps a row of values from a column of the first row on. The paint that was made leads back.
fn stamp(
    alloc: Global,
    document: &mut Document,
    column: i32,
    values: &[Gid],
    follows: bool,
) -> Result<PaintCommand, AllocError>
    requires some { 1 ≤ length values.now }
    requires few { length values.now ≤ 4 }
    ensures fits { IfOk result (λ c. (paint_change c).fits_undo document.new) }
    ensures back { IfOk result (λ c. (paint_change c).undone document.new ≡ document.old) }
{
    let block = Block {
        x: column,
        y: 0,
        width: values.len() as u32,
        values,
    };
    // The layer is there and the values have a tileset, so nothing but memory can be wanting.
    let stamp = PaintCommand::stamp(alloc, document, 1, &block, follows);
    let mut command = stamp.map_err(|_| AllocError)?;
    command.redo(document);
    Ok(command)
}

// Merges the newer command, which led to the document, into the one before it.
fn merge<C: Command>(alloc: Global, older: &mut C, newer: &C, document: &Document) -> bool
    requires newer { (C.change newer.now).fits_undo document.now }
    requires older { (C.change older.old).fits_undo ((C.change newer.now).undone document.now) }
{
    let offer = newer.offer();
    matches!(older.merge(alloc, &offer, document), Ok(true))
}

// A cell of the first row.
fn cell(x: u16, before: u32, after: u32) -> CellEdit {
    CellEdit {
        x,
        y: 0,
        before: Gid(before),
        after: Gid(after),
    }
}

// Whether an older stamp from the first column on holds these cells, once a newer one from a column on is merged into it. No
// answer for want of memory.
fn is_merged_to(
    alloc: Global,
    document: &mut Document,
    older: &[Gid],
    column: i32,
    newer: &[Gid],
    wanted: &[CellEdit],
) -> Option<bool>
    requires some_older { 1 ≤ length older.now }
    requires few_older { length older.now ≤ 4 }
    requires some_newer { 1 ≤ length newer.now }
    requires few_newer { length newer.now ≤ 4 }
{
    let mut below = stamp(alloc, document, 0, older, false).ok()?;
    let above = stamp(alloc, document, column, newer, true).ok()?;
    let is_merged = merge(alloc, &mut below, &above, document);
    Some(is_merged && below.change() == wanted)
}

// Whether a stamp from the first column on holds these cells.
fn is_stamped_as(
    alloc: Global,
    document: &mut Document,
    values: &[Gid],
    wanted: &[CellEdit],
) -> Option<bool>
    requires some { 1 ≤ length values.now }
    requires few { length values.now ≤ 4 }
{
    let paint = stamp(alloc, document, 0, values, false).ok()?;
    Some(paint.change() == wanted)
}

// Each test's document is let go of here, and not behind what the test asserts, which makes a long proof.
fn is_merged_on_town(
    alloc: Global,
    older: &[Gid],
    column: i32,
    newer: &[Gid],
    wanted: &[CellEdit],
) -> Option<bool>
    requires some_older { 1 ≤ length older.now }
    requires few_older { length older.now ≤ 4 }
    requires some_newer { 1 ≤ length newer.now }
    requires few_newer { length newer.now ≤ 4 }
{
    let mut document = town(alloc).ok()?;
    is_merged_to(alloc, &mut document, older, column, newer, wanted)
}

#[test]
fn merged_paint_holds_both_changes(rt: HostRuntime) {
    let wanted = [cell(0, 0, 5), cell(1, 0, 5), cell(2, 0, 6), cell(3, 0, 5)];
    let newer = [Gid(0), Gid(6)];
    let is_merged = is_merged_on_town(rt.alloc(), &[Gid(5); 4], 1, &newer, &wanted);
    assert_eq!(rt; is_merged, Some(true));
}

// Whether a stamp of two equal values, and then one of others over them, hold what is wanted.
fn are_stamped_as(alloc: Global, newer: &[Gid], wanted: &[CellEdit]) -> Option<bool>
    requires some { 1 ≤ length newer.now }
    requires few { length newer.now ≤ 4 }
{
    let mut document = town(alloc).ok()?;
    let below = [cell(0, 0, 5), cell(1, 0, 5)];
    let is_below = is_stamped_as(alloc, &mut document, &[Gid(5); 2], &below);
    let is_above = is_stamped_as(alloc, &mut document, newer, wanted);
    Some(is_below == Some(true) && is_above == Some(true))
}

#[test]
fn paint_over_the_same_values_leaves_them_out(rt: HostRuntime) {
    let newer = [Gid(5), Gid(5), Gid(7)];
    let are_stamped = are_stamped_as(rt.alloc(), &newer, &[cell(2, 0, 7)]);
    assert_eq!(rt; are_stamped, Some(true));
}

// The same of a stamp, and then of one over it into which a third is merged.
fn is_merged_over_a_stamp(
    alloc: Global,
    older: &[Gid],
    newer: &[Gid],
    wanted: &[CellEdit],
) -> Option<bool>
    requires some_older { 1 ≤ length older.now }
    requires few_older { length older.now ≤ 4 }
    requires some_newer { 1 ≤ length newer.now }
    requires few_newer { length newer.now ≤ 4 }
{
    let mut document = town(alloc).ok()?;
    let below = [cell(0, 0, 5), cell(1, 0, 5)];
    let is_below = is_stamped_as(alloc, &mut document, &[Gid(5); 2], &below);
    let is_merged = is_merged_to(alloc, &mut document, older, 0, newer, wanted);
    Some(is_below == Some(true) && is_merged == Some(true))
}

#[test]
fn merged_cells_that_are_as_before_go(rt: HostRuntime) {
    let wanted = [cell(1, 5, 6)];
    let is_merged = is_merged_over_a_stamp(rt.alloc(), &[Gid(6); 2], &[Gid(5)], &wanted);
    assert_eq!(rt; is_merged, Some(true));
}
