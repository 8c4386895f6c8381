// Where a layer of an infinite map has cells.
ghost use Rattle.std.specs.Prelude.{◌≡◌, map, OnOk};
ghost use Rattle.serde_json.specs.Find.{as_array};
ghost use Rattle.std.specs.Int.{int_min, int_max};
ghost use Rattle.serde_json.specs.View.{view as data_of, items_view, members_view};
ghost use Rattle.xml_text.specs.Xml.{attribute_view};
ghost use Rattle.tmx_tree.specs.Bounds.{begun_at, ended_at, joined, with_stretch, last_of, chunk_stretch, is_empty_cell, with_cell, next_x, next_y, with_cells};
ghost use Rattle.tmx_tree.specs.Bounds.{has_no_cells, with_chunk_cells, block, blocks, put_bounds, with_bounds};

use crate::cells::{side, whole_at};
use crate::row::is_whole_data;
use serde_json::{Map, Value};
use std::alloc::{AllocError, Global};
use xml_text::Attribute;

/// A stretch of cells, its last column and row among them.
#[derive(Clone, Copy)]
pub struct Stretch {
    pub left: i64,
    pub top: i64,
    pub right: i64,
    pub bottom: i64,
}

fn least(one: i64, other: i64) -> i64
    ensures { result ≡ int_min one other }
{
    one.min(other)
}

fn greatest(one: i64, other: i64) -> i64
    ensures { result ≡ int_max one other }
{
    one.max(other)
}

fn begun_at(one: Stretch, other: Stretch) -> Stretch
    ensures { result ≡ begun_at one other }
{
    Stretch {
        left: least(one.left, other.left),
        top: least(one.top, other.top),
        ..one
    }
}

fn ended_at(one: Stretch, other: Stretch) -> Stretch
    ensures { result ≡ ended_at one other }
{
    Stretch {
        right: greatest(one.right, other.right),
        bottom: greatest(one.bottom, other.bottom),
        ..one
    }
}

// The least stretch around both.
fn joined(one: Stretch, other: Stretch) -> Stretch
    ensures { result ≡ joined one other }
{
    ended_at(begun_at(one, other), other)
}

fn with_stretch(stretch: Stretch, around: Option<Stretch>) -> Option<Stretch>
    ensures { result ≡ with_stretch stretch around }
{
    match around {
        Some(around) => Some(joined(around, stretch)),
        None => Some(stretch),
    }
}

fn last_of(from: i32, cells: u32) -> i64
    ensures { result ≡ last_of from cells }
{
    (from as i64).wrapping_add(cells as i64).wrapping_sub(1)
}

// Where a chunk is.
fn chunk_stretch(attributes: &Vec<Attribute>) -> Stretch
    ensures { result ≡ chunk_stretch (map attribute_view attributes.now.items) }
{
    let (x, y) = (whole_at(attributes, "x"), whole_at(attributes, "y"));
    Stretch {
        left: x as i64,
        top: y as i64,
        right: last_of(x, side(attributes, "width")),
        bottom: last_of(y, side(attributes, "height")),
    }
}

fn is_empty_cell(value: &Value) -> bool
    ensures { result ≡ is_empty_cell (data_of value.now) }
{
    is_whole_data(0, value)
}

fn with_cell(x: i64, y: i64, value: &Value, around: Option<Stretch>) -> Option<Stretch>
    ensures { result ≡ with_cell x y (data_of value.now) around }
{
    if is_empty_cell(value) {
        return around;
    }
    let cell = Stretch {
        left: x,
        top: y,
        right: x,
        bottom: y,
    };
    with_stretch(cell, around)
}

// The column of the cell behind one.
fn next_x(chunk: Stretch, x: i64) -> i64
    ensures { result ≡ next_x chunk x }
{
    if x == chunk.right {
        chunk.left
    } else {
        x.wrapping_add(1)
    }
}

// The row of the cell behind one.
fn next_y(chunk: Stretch, x: i64, y: i64) -> i64
    ensures { result ≡ next_y chunk x y }
{
    if x == chunk.right {
        y.wrapping_add(1)
    } else {
        y
    }
}

// The stretch around that and those cells of a chunk that are not empty.
fn with_cells(chunk: Stretch, cells: &Vec<Value>, around: Option<Stretch>) -> Option<Stretch>
    ensures { result ≡ with_cells chunk chunk.left chunk.top (items_view cells.now.items) around }
{
    let mut found = around;
    let mut x = chunk.left;
    let mut y = chunk.top;
    for cell in cells {
        found = with_cell(x, y, cell, found);
        y = next_y(chunk, x, y);
        x = next_x(chunk, x);
    }
    found
}

fn has_no_cells(attributes: &Vec<Attribute>) -> bool
    ensures { result ≡ has_no_cells (map attribute_view attributes.now.items) }
{
    side(attributes, "width") == 0 || side(attributes, "height") == 0
}

/// The stretch around that and the cells of a chunk.
pub fn with_chunk_cells(
    attributes: &Vec<Attribute>,
    cells: &Value,
    around: Option<Stretch>,
) -> Option<Stretch>
    ensures { result ≡ with_chunk_cells (map attribute_view attributes.now.items) (data_of cells.now) around }
{
    let chunk = chunk_stretch(attributes);
    match cells.as_array() {
        Some(cells) => with_cells(chunk, cells, around),
        None => if has_no_cells(attributes) {
            around
        } else {
            with_stretch(chunk, around)
        },
    }
}

// Where the block begins that a place lies in.
#[tactic(auto, unfolding(crate::specs::Bounds::block))]
fn block(place: i64) -> i64
    ensures { result ≡ block place }
{
    place.wrapping_sub(place.rem_euclid(16))
}

// How long the blocks are from that of one place on up to that of another.
#[tactic(auto, unfolding(crate::specs::Bounds::blocks))]
fn blocks(from: i64, to: i64) -> i64
    ensures { result ≡ blocks from to }
{
    block(to).wrapping_sub(block(from)).wrapping_add(16)
}

fn put_numbers(
    alloc: Global,
    left: i64,
    top: i64,
    width: i64,
    height: i64,
    members: &mut Map<String, Value>,
) -> Result<(), AllocError>
    ensures { OnOk result (members_view members.new.entries
        ≡ put_bounds left top width height (members_view members.old.entries)) }
{
    serde_json::put(members, alloc, "height", Value::from(height))?;
    serde_json::put(members, alloc, "width", Value::from(width))?;
    serde_json::put(members, alloc, "starty", Value::from(top))?;
    serde_json::put(members, alloc, "startx", Value::from(left))
}

/// Puts where a layer has cells among its members.
pub fn put_bounds(
    alloc: Global,
    around: Option<Stretch>,
    members: &mut Map<String, Value>,
) -> Result<(), AllocError>
    ensures { OnOk result (members_view members.new.entries
        ≡ with_bounds around (members_view members.old.entries)) }
{
    match around {
        Some(found) => put_numbers(
            alloc,
            block(found.left),
            block(found.top),
            blocks(found.left, found.right),
            blocks(found.top, found.bottom),
            members,
        ),
        None => put_numbers(alloc, 0, 0, 0, 0, members),
    }
}
