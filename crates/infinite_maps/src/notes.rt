// What is noted of an infinite map while it is finite.
ghost use Rattle.std.specs.Prelude.{◌≡◌, ◌+◌, ◌<◌, ◌^◌, min, codes, option_map, IfOk};
ghost use Rattle.serde_json.specs.Find.{get, get_member};
ghost use Rattle.serde_json.specs.View.{view as data_of, items_view, members_view};
ghost use Rattle.infinite_maps.specs.Notes.{natural, integer, plane_of, noted, noted_all};

use crate::cells::whole;
use crate::plane::Plane;
use crate::rectangle::Rectangle;
use json_members::found;
use serde_json::{Map, Value};
use std::alloc::{AllocError, Global};

/// The greatest number of columns or rows of a finite map.
pub const MAX_SIDE: u16 = 4096;

/// The most cells of a finite map.
pub const MAX_CELLS: usize = 1_048_576;

/// A whole number; 0 where there is none.
pub fn natural(value: Option<&Value>) -> u64
    ensures { result ≡ natural (option_map (λ value. data_of value.now) value.entry) }
{
    match value {
        Some(value) => whole(value),
        None => 0,
    }
}

/// A whole number of 64 bits; 0 where there is none.
pub fn integer(value: Option<&Value>) -> i64
    ensures { result ≡ integer (option_map (λ value. data_of value.now) value.entry) }
{
    match value {
        Some(value) => value.as_i64().unwrap_or(0),
        None => 0,
    }
}

/// A number of columns or rows, at most as many as a map may have; 0 where there is none.
pub fn side(value: Option<&Value>) -> u16
    ensures { result ≡ min (natural (option_map (λ value. data_of value.now) value.entry)) 4096 }
{
    natural(value).min(4096) as u16
}

fn most(value: Option<&Value>) -> u32
    ensures { result ≡ min (natural (option_map (λ value. data_of value.now) value.entry)) 1048576 }
{
    natural(value).min(MAX_CELLS as u64) as u32
}

/// Where a map lies that has this note.
pub fn plane_of(members: &Map<String, Value>, note: &Value) -> Plane
    ensures { result ≡ plane_of (members_view members.now.entries) (data_of note.now) }
{
    Plane {
        x: integer(note.get("x")),
        y: integer(note.get("y")),
        columns: side(found(members, "width")),
        rows: side(found(members, "height")),
        across: side(note.get("chunkwidth")).max(1),
        down: side(note.get("chunkheight")).max(1),
        lost_x: side(note.get("lostx")),
        lost_y: side(note.get("losty")),
        most: most(note.get("most")),
        moved_x: integer(note.get("movedx")),
        moved_y: integer(note.get("movedy")),
    }
}

// Where a side ends, at most at the limit.
fn end(from: u64, length: u64, limit: u16) -> u32
    ensures value { result ≡ min (from + length) limit }
    ensures small { result < 2 ^ 16 }
{
    from.saturating_add(length).min(limit as u64) as u32
}

fn noted(plane: Plane, value: &Value) -> Rectangle
    ensures { result ≡ noted plane (data_of value.now) }
{
    let left = natural(value.get(0));
    let top = natural(value.get(1));
    let before_x = plane.before_x() as u32;
    let before_y = plane.before_y() as u32;
    Rectangle {
        left: before_x + end(left, 0, plane.columns),
        top: before_y + end(top, 0, plane.rows),
        right: before_x + end(left, natural(value.get(2)), plane.columns),
        bottom: before_y + end(top, natural(value.get(3)), plane.rows),
    }
}

/// The rectangles of a note that have a cell on the map, counted from the corner of the wide map.
pub fn noted_all(
    alloc: Global,
    plane: Plane,
    values: &Vec<Value>,
) -> Result<Vec<Rectangle>, AllocError>
    ensures { IfOk result (λ found. found.items ≡ noted_all plane (items_view values.now.items)) }
{
    let mut found = Vec::with_capacity(alloc, values.len())?;
    for value in values {
        let rectangle = noted(plane, value);
        if 0 < rectangle.area() {
            found.push(rectangle)?;
        }
    }
    Ok(found)
}
