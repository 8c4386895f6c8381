// A map gets columns and rows at its left and top, and all of it stays where it was on the plane: its notes.
ghost use Rattle.std.specs.Prelude.{◌≡◌, codes, option_map, IfOk, OnOk};
ghost use Rattle.serde_json.specs.View.{view as data_of, items_view, members_view};
ghost use Rattle.infinite_maps.specs.Margins.{chunks_with, corner_with, each_item, edge_with, has_note, less, more, note_with, notes_with, rectangle_moved, rectangle_with, side_in, with_corner, with_edge, with_items, with_members, with_part};

use crate::finite::{lost, put_whole};
use crate::notes::{integer, natural, side};
use crate::spread::note_of;
use json_members::found;
use serde_json::{Map, Value};
use std::alloc::{AllocError, Global};

/// What a map gets at its left and top: so many columns and rows, for which its objects are moved by so many pixels to the
/// right and down.
#[derive(Clone, Copy)]
pub struct Margin {
    pub columns: u32,
    pub rows: u32,
    pub right: u32,
    pub down: u32,
}

/// Whether a map has the note by which an infinite one was made finite.
pub fn has_note(members: &Map<String, Value>) -> bool
    ensures { result ≡ has_note (members_view members.now.entries) }
{
    note_of(members).is_some()
}

// A whole number of a note, so much less.
fn less(note: &Map<String, Value>, name: &str, by: u32) -> i64
    ensures { result ≡ less name.now by (members_view note.now.entries) }
{
    integer(found(note, name)).wrapping_sub(i64::from(by))
}

// The side of a new chunk.
fn side_in(note: &Map<String, Value>, name: &str) -> u16
    ensures { result ≡ side_in name.now (members_view note.now.entries) }
{
    side(found(note, name))
}

// One side of a map: where it lies on the plane, how many columns or rows it leaves over of a chunk, and how far the map's
// objects are moved.
#[derive(Clone, Copy)]
struct Edge {
    place: i64,
    lost: u16,
    moved: i64,
}

// The left or top side of a map that has got so many columns or rows there, as its note names it.
fn edge_with(
    note: &Map<String, Value>,
    place: &str,
    chunk: &str,
    moved: &str,
    cells: u32,
    pixels: u32,
) -> Edge
    ensures { result ≡ edge_with place.now chunk.now moved.now cells pixels (members_view note.now.entries) }
{
    let place = less(note, place, cells);
    Edge {
        place,
        lost: lost(place, side_in(note, chunk)),
        moved: less(note, moved, pixels),
    }
}

fn put_edge(
    alloc: Global,
    note: &mut Map<String, Value>,
    place: &str,
    lost: &str,
    moved: &str,
    edge: Edge,
) -> Result<(), AllocError>
    ensures { OnOk result (members_view note.new.entries
        ≡ with_edge place.now lost.now moved.now edge (members_view note.old.entries)) }
{
    put_whole(alloc, note, place, edge.place)?;
    put_whole(alloc, note, lost, i64::from(edge.lost))?;
    put_whole(alloc, note, moved, edge.moved)
}

// The left and the top side of a map.
#[derive(Clone, Copy)]
struct Corner {
    left: Edge,
    top: Edge,
}

fn corner_with(margin: Margin, note: &Map<String, Value>) -> Corner
    ensures { result ≡ corner_with margin (members_view note.now.entries) }
{
    Corner {
        left: edge_with(
            note,
            "x",
            "chunkwidth",
            "movedx",
            margin.columns,
            margin.right,
        ),
        top: edge_with(note, "y", "chunkheight", "movedy", margin.rows, margin.down),
    }
}

fn put_corner(
    alloc: Global,
    note: &mut Map<String, Value>,
    corner: Corner,
) -> Result<(), AllocError>
    ensures { OnOk result (members_view note.new.entries
        ≡ with_corner corner (members_view note.old.entries)) }
{
    put_edge(alloc, note, "x", "lostx", "movedx", corner.left)?;
    put_edge(alloc, note, "y", "losty", "movedy", corner.top)
}

// Moves the note of an infinite map.
fn move_note(alloc: Global, margin: Margin, note: &mut Map<String, Value>) -> Result<(), AllocError>
    ensures { OnOk result (members_view note.new.entries
        ≡ note_with margin (members_view note.old.entries)) }
{
    let corner = corner_with(margin, note);
    put_corner(alloc, note, corner)
}

fn moved_note(alloc: Global, margin: Margin, note: &Value) -> Result<Value, AllocError>
    ensures { IfOk result (λ moved. data_of moved
        ≡ with_members (note_with margin) (data_of note.now)) }
{
    match note.clone()? {
        Value::Object(mut members) => {
            move_note(alloc, margin, &mut members)?;
            Ok(Value::Object(members))
        }
        other => Ok(other),
    }
}

// Moves the note of an infinite map among the notes of a map.
fn move_notes(
    alloc: Global,
    margin: Margin,
    notes: &mut Map<String, Value>,
) -> Result<(), AllocError>
    ensures { OnOk result (members_view notes.new.entries
        ≡ with_part (codes "infinite") (with_members (note_with margin)) (members_view notes.old.entries)) }
{
    match found(notes, "infinite") {
        Some(note) => {
            let moved = moved_note(alloc, margin, note)?;
            serde_json::put(notes, alloc, "infinite", moved)
        }
        None => Ok(()),
    }
}

/// The notes of a map that has got the margin: all of it is where it was. Notes without the one of an infinite map stay as they
/// are.
pub fn moved_notes(alloc: Global, margin: Margin, notes: &Value) -> Result<Value, AllocError>
    ensures { IfOk result (λ moved. data_of moved ≡ notes_with margin (data_of notes.now)) }
{
    match notes.clone()? {
        Value::Object(mut members) => {
            move_notes(alloc, margin, &mut members)?;
            Ok(Value::Object(members))
        }
        other => Ok(other),
    }
}

// A number, so much more.
fn more(value: Option<&Value>, by: u32) -> Value
    ensures { data_of result ≡ more by (option_map (λ value. data_of value.now) value.entry) }
{
    Value::from(natural(value).saturating_add(u64::from(by)))
}

fn rectangle_with(alloc: Global, margin: Margin, value: &Value) -> Result<Value, AllocError>
    ensures { IfOk result (λ moved. data_of moved ≡ rectangle_with margin (data_of value.now)) }
{
    let mut values = Vec::with_capacity(alloc, 4)?;
    values.push(more(value.get(0), margin.columns))?;
    values.push(more(value.get(1), margin.rows))?;
    values.push(more(value.get(2), 0))?;
    values.push(more(value.get(3), 0))?;
    Ok(Value::from(values))
}

// A rectangle of a note, moved.
fn moved_rectangle(alloc: Global, margin: Margin, value: &Value) -> Result<Value, AllocError>
    ensures { IfOk result (λ moved. data_of moved ≡ rectangle_moved margin (data_of value.now)) }
{
    if value.as_array().is_some() {
        rectangle_with(alloc, margin, value)
    } else {
        value.clone()
    }
}

fn moved_rectangles(
    alloc: Global,
    margin: Margin,
    values: &Vec<Value>,
) -> Result<Vec<Value>, AllocError>
    ensures { IfOk result (λ moved. items_view moved.items
        ≡ each_item (rectangle_moved margin) (items_view values.now.items)) }
{
    let mut moved = Vec::with_capacity(alloc, values.len())?;
    for value in values {
        moved.push(moved_rectangle(alloc, margin, value)?)?;
    }
    Ok(moved)
}

fn moved_chunks(alloc: Global, margin: Margin, chunks: &Value) -> Result<Value, AllocError>
    ensures { IfOk result (λ moved. data_of moved
        ≡ with_items (rectangle_moved margin) (data_of chunks.now)) }
{
    match chunks.as_array() {
        Some(values) => Ok(Value::Array(moved_rectangles(alloc, margin, values)?)),
        None => chunks.clone(),
    }
}

// Moves the rectangles of a layer's note.
fn move_chunks(
    alloc: Global,
    margin: Margin,
    note: &mut Map<String, Value>,
) -> Result<(), AllocError>
    ensures { OnOk result (members_view note.new.entries
        ≡ with_part (codes "chunks") (with_items (rectangle_moved margin)) (members_view note.old.entries)) }
{
    match found(note, "chunks") {
        Some(chunks) => {
            let moved = moved_chunks(alloc, margin, chunks)?;
            serde_json::put(note, alloc, "chunks", moved)
        }
        None => Ok(()),
    }
}

/// The note of a layer of a map that has got the margin: where its chunks were, as far from the new corner.
pub fn moved_layer_note(alloc: Global, margin: Margin, note: &Value) -> Result<Value, AllocError>
    ensures { IfOk result (λ moved. data_of moved ≡ chunks_with margin (data_of note.now)) }
{
    match note.clone()? {
        Value::Object(mut members) => {
            move_chunks(alloc, margin, &mut members)?;
            Ok(Value::Object(members))
        }
        other => Ok(other),
    }
}
