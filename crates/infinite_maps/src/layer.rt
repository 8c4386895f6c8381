// A tile layer of a finite map as one of an infinite map.
ghost use Rattle.std.specs.Prelude.{◌≡◌, ◌++◌, IfOk, OnOk, option_map, unwrap_or};
ghost use Rattle.serde_json.specs.Data.{Data};
ghost use Rattle.serde_json.specs.Find.{get_member};
ghost use Rattle.serde_json.specs.View.{view as data_of, members_view};
ghost use Rattle.infinite_maps.specs.Cells.{is_text};
ghost use Rattle.infinite_maps.specs.Rectangles.{bounds};
ghost use Rattle.infinite_maps.specs.Layers.{layer_cells, if_so_many, chunk_items, if_apart, old_rectangles, place_at, whole_number, with_place, chunk, chunks, with_old_bounds, with_bounds, with_right_bounds, rest_of, with_chunks, new_rectangles, tiles_on, tiles, is_text_at, layer_by, layer_of, no_cell};
ghost use Rattle.infinite_maps.specs.Notes.{mark, noted_all};

use crate::cells::{cells_data, cells_of, cut};
use crate::cover::{are_apart, cover_of};
use crate::growth::grown;
use crate::members::{MARK, put_copy};
use crate::notes::noted_all;
use crate::plane::Plane;
use crate::rectangle::{Rectangle, bounds};
use json_members::{found, remove};
use serde_json::{Map, Value};
use std::alloc::{AllocError, Global};

fn if_so_many(count: usize, cells: Option<Vec<u64>>) -> Option<Vec<u64>>
    ensures { option_map (λ cells. cells.items) result
        ≡ if_so_many count (option_map (λ cells. cells.items) cells) }
{
    match cells {
        Some(cells) => if cells.len() == count {
            Some(cells)
        } else {
            None
        },
        None => None,
    }
}

// The cells of a layer, where it has one for each cell of the map.
fn layer_cells(
    alloc: Global,
    plane: Plane,
    value: Option<&Value>,
) -> Result<Option<Vec<u64>>, AllocError>
    ensures { IfOk result (λ cells. option_map (λ cells. cells.items) cells
        ≡ layer_cells plane (option_map (λ value. data_of value.now) value.entry)) }
{
    match value {
        Some(value) => Ok(if_so_many(plane.size(), cells_of(alloc, value)?)),
        None => Ok(None),
    }
}

fn noted_rectangles(
    alloc: Global,
    plane: Plane,
    note: &Option<Value>,
) -> Result<Vec<Rectangle>, AllocError>
    ensures { IfOk result (λ found. found.items
        ≡ noted_all plane (chunk_items (option_map data_of note.now))) }
{
    match note {
        Some(note) => match note.get("chunks") {
            Some(chunks) => match chunks.as_array() {
                Some(values) => noted_all(alloc, plane, values),
                None => Ok(Vec::new(alloc)),
            },
            None => Ok(Vec::new(alloc)),
        },
        None => Ok(Vec::new(alloc)),
    }
}

// The rectangles of the chunks that the layer had, where none overlaps another.
fn old_rectangles(
    alloc: Global,
    plane: Plane,
    note: &Option<Value>,
) -> Result<Vec<Rectangle>, AllocError>
    ensures { IfOk result (λ found. found.items
        ≡ old_rectangles plane (option_map data_of note.now)) }
{
    let rectangles = noted_rectangles(alloc, plane, note)?;
    let wide = plane.wide();
    if are_apart(alloc, wide.columns, wide.size(), &rectangles)? {
        Ok(rectangles)
    } else {
        Ok(Vec::new(alloc))
    }
}

fn place_at(from: i64, cells: u32) -> Value
    ensures { data_of result ≡ place_at from cells }
{
    Value::from(from.wrapping_add(cells as i64))
}

// Puts the place and size of a chunk.
fn put_place(
    alloc: Global,
    plane: Plane,
    rectangle: Rectangle,
    members: &mut Map<String, Value>,
) -> Result<(), AllocError>
    ensures { OnOk result (members_view members.new.entries
        ≡ with_place plane rectangle (members_view members.old.entries)) }
{
    let y = place_at(plane.y, rectangle.top);
    serde_json::put(members, alloc, "y", y)?;
    let x = place_at(plane.x, rectangle.left);
    serde_json::put(members, alloc, "x", x)?;
    let width = Value::from(rectangle.width());
    serde_json::put(members, alloc, "width", width)?;
    let height = Value::from(rectangle.height());
    serde_json::put(members, alloc, "height", height)
}

// A chunk with the cells that the layer has there.
#[tactic(auto, unfolding(crate::specs::Layers::chunk))]
fn chunk(
    alloc: Global,
    plane: Plane,
    text: bool,
    cells: &[u64],
    rectangle: Rectangle,
) -> Result<Value, AllocError>
    ensures { IfOk result (λ value. data_of value ≡ chunk plane text cells.now rectangle) }
{
    let cut = cut(alloc, plane.columns, cells, rectangle)?;
    let data = cells_data(alloc, text, &cut)?;
    let mut members = Map::new(alloc);
    put_place(alloc, plane, rectangle, &mut members)?;
    serde_json::put(&mut members, alloc, "data", data)?;
    Ok(Value::from(members))
}

fn chunks(
    alloc: Global,
    plane: Plane,
    text: bool,
    cells: &[u64],
    rectangles: &[Rectangle],
) -> Result<Value, AllocError>
    ensures { IfOk result (λ value. data_of value ≡ chunks plane text cells.now rectangles.now) }
{
    let mut all = Vec::with_capacity(alloc, rectangles.len())?;
    for rectangle in rectangles {
        all.push(chunk(alloc, plane, text, cells, *rectangle)?)?;
    }
    Ok(Value::from(all))
}

fn put_old_bounds(
    alloc: Global,
    note: &Value,
    members: &mut Map<String, Value>,
) -> Result<(), AllocError>
    ensures { OnOk result (members_view members.new.entries
        ≡ with_old_bounds (data_of note.now) (members_view members.old.entries)) }
{
    put_copy(alloc, members, "width", note)?;
    put_copy(alloc, members, "starty", note)?;
    put_copy(alloc, members, "startx", note)?;
    put_copy(alloc, members, "height", note)
}

fn put_bounds(
    alloc: Global,
    plane: Plane,
    around: Rectangle,
    members: &mut Map<String, Value>,
) -> Result<(), AllocError>
    ensures { OnOk result (members_view members.new.entries
        ≡ with_bounds plane around (members_view members.old.entries)) }
{
    let width = Value::from(around.width());
    serde_json::put(members, alloc, "width", width)?;
    let y = place_at(plane.y, around.top);
    serde_json::put(members, alloc, "starty", y)?;
    let x = place_at(plane.x, around.left);
    serde_json::put(members, alloc, "startx", x)?;
    let height = Value::from(around.height());
    serde_json::put(members, alloc, "height", height)
}

// No cell, at the corner of the map, counted from that of the wide map.
fn no_cell(plane: Plane) -> Rectangle
    ensures { result ≡ no_cell plane }
{
    let left = plane.before_x() as u32;
    let top = plane.before_y() as u32;
    Rectangle {
        left,
        top,
        right: left,
        bottom: top,
    }
}

fn bounds_or(rectangles: &[Rectangle], none: Rectangle) -> Rectangle
    ensures { result ≡ unwrap_or (bounds rectangles.now) none }
{
    match bounds(rectangles) {
        Some(around) => around,
        None => none,
    }
}

fn put_right_bounds(
    alloc: Global,
    plane: Plane,
    none: Rectangle,
    note: &Option<Value>,
    rectangles: &[Rectangle],
    news: &[Rectangle],
    members: &mut Map<String, Value>,
) -> Result<(), AllocError>
    ensures { OnOk result (members_view members.new.entries
        ≡ with_right_bounds plane none (option_map data_of note.now) rectangles.now news.now (members_view members.old.entries)) }
{
    match note {
        Some(note) => if news.is_empty() {
            put_old_bounds(alloc, note, members)
        } else {
            put_bounds(alloc, plane, bounds_or(rectangles, none), members)
        },
        None => put_bounds(alloc, plane, bounds_or(rectangles, none), members),
    }
}

fn remove_own(members: &mut Map<String, Value>)
    ensures { members_view members.new.entries ≡ rest_of (members_view members.old.entries) }
{
    remove(members, MARK);
    remove(members, "width");
    remove(members, "height");
    remove(members, "data");
}

fn is_text(value: Option<&Value>) -> bool
    ensures { result ≡ is_text_at (option_map (λ value. data_of value.now) value.entry) }
{
    match value {
        Some(value) => value.is_string(),
        None => false,
    }
}

// A copy of a member.
fn copy_of(value: Option<&Value>) -> Result<Option<Value>, AllocError>
    ensures { IfOk result (λ copy. option_map data_of copy
        ≡ option_map (λ value. data_of value.now) value.entry) }
{
    match value {
        Some(value) => Ok(Some(value.clone()?)),
        None => Ok(None),
    }
}

// Puts the cells into chunks: those that the layer had, and new ones. A layer without chunks lies at `none`.
fn put_all(
    alloc: Global,
    plane: Plane,
    none: Rectangle,
    note: &Option<Value>,
    text: bool,
    cells: &[u64],
    mut rectangles: Vec<Rectangle>,
    news: &[Rectangle],
    members: &mut Map<String, Value>,
) -> Result<(), AllocError>
    ensures { OnOk result (members_view members.new.entries
        ≡ with_chunks plane none (option_map data_of note.now) text cells.now rectangles.items news.now (members_view members.old.entries)) }
{
    rectangles.extend_from_slice(news)?;
    let chunks = chunks(alloc, plane, text, cells, &rectangles)?;
    remove_own(members);
    put_right_bounds(alloc, plane, none, note, &rectangles, news, members)?;
    serde_json::put(members, alloc, "chunks", chunks)
}

// The rectangles of new chunks, beside those of old ones.
fn new_rectangles(
    alloc: Global,
    plane: Plane,
    cells: &[u64],
    olds: &[Rectangle],
) -> Result<Vec<Rectangle>, AllocError>
    ensures { IfOk result (λ found. found.items ≡ new_rectangles plane cells.now olds.now) }
{
    let cover = cover_of(alloc, plane.columns, plane.size(), olds)?;
    grown(alloc, plane, cells, &cover)
}

fn put_chunks(
    alloc: Global,
    plane: Plane,
    text: bool,
    cells: &[u64],
    members: &mut Map<String, Value>,
) -> Result<(), AllocError>
    ensures { OnOk result (members_view members.new.entries
        ≡ tiles plane (get_member mark (members_view members.old.entries)) text cells.now (members_view members.old.entries)) }
{
    let note = copy_of(found(members, MARK))?;
    let rectangles = old_rectangles(alloc, plane, &note)?;
    let wide = plane.wide();
    let cells = plane.widened(alloc, cells)?;
    let news = new_rectangles(alloc, wide, &cells, &rectangles)?;
    put_all(
        alloc,
        wide,
        no_cell(plane),
        &note,
        text,
        &cells,
        rectangles,
        &news,
        members,
    )
}

/// Puts the cells of a layer into chunks, where it has one for each cell of the map.
#[tactic(auto, unfolding(crate::specs::Layers::layer_of))]
pub fn spread_layer(
    alloc: Global,
    plane: Plane,
    members: &mut Map<String, Value>,
) -> Result<(), AllocError>
    ensures { OnOk result (members_view members.new.entries
        ≡ layer_of plane (members_view members.old.entries)) }
{
    let value = found(members, "data");
    let text = is_text(value);
    match layer_cells(alloc, plane, value)? {
        Some(cells) => put_chunks(alloc, plane, text, &cells, members),
        None => Ok(()),
    }
}
