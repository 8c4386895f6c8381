// The chunks of a layer, pasted into one array of cells.
ghost use Rattle.std.specs.Prelude.{◌≡◌, ◌||◌, ◌+◌, ◌<◌, ℤ, ℕ, [], min, true, false, codes, map, replicate, option_map, length, slice_set, slice_index, unsigned_abs, IfOk, IfErr, OnOk, IsTrue};
ghost use Rattle.serde_json.specs.Find.{get_member};
ghost use Rattle.serde_json.specs.Data.{array};
ghost use Rattle.serde_json.specs.View.{view as data_of, items_of, items_view, members_view};
ghost use Rattle.json_members.specs.Members.{put_some};
ghost use Rattle.infinite_maps.specs.declared.fault.Fault.TheVariants.{Memory};
ghost use Rattle.infinite_maps.specs.Rectangles.{area};
ghost use Rattle.infinite_maps.specs.Wide.{size};
ghost use Rattle.infinite_maps.specs.Cells.{cells_data};
ghost use Rattle.infinite_maps.specs.Sound.{is_sound, are_sound, is_base64, is_compressed};
ghost use Rattle.infinite_maps.specs.Overlaps.{do_overlap, have_overlap, chunks_in};
ghost use Rattle.infinite_maps.specs.Pasted.{offset, side_of, rectangle_of, rectangles_of, pasted, chunk_cells, all_pasted, noted, layer_note, with_data, pasted_layer, layer_with};
ghost use Rattle.infinite_maps.specs.Finite.{is_memory, is_at_fault, BadHere, FaultHere};

use crate::cells::{cell_at, cells_data};
use crate::cover::{are_apart, first_overlap};
use crate::fault::Fault;
use crate::look::{is_base64, is_compressed, is_placed, sound_cells};
use crate::members::MARK;
use crate::notes::{integer, natural};
use crate::plane::Plane;
use crate::rectangle::Rectangle;
use crate::survey::extent_of;
use json_members::{found, remove};
use serde_json::{Map, Value};
use std::alloc::{AllocError, Global};

// How far a place lies from the corner.
fn offset(from: i64, place: i64) -> u32
    ensures value { result ≡ offset from place }
    ensures small { result < 2147483648 }
{
    place.wrapping_sub(from).unsigned_abs().min(2_147_483_647) as u32
}

fn side_of(value: Option<&Value>) -> u32
    ensures value { result ≡ side_of (option_map (λ value. data_of value.now) value.entry) }
    ensures small { result < 2147483649 }
{
    natural(value).min(2_147_483_648) as u32
}

// The part of a finite map that a chunk is.
fn rectangle_of(plane: Plane, chunk: &Value) -> Rectangle
    ensures { result ≡ rectangle_of plane (data_of chunk.now) }
{
    let left = offset(plane.x, integer(chunk.get("x")));
    let top = offset(plane.y, integer(chunk.get("y")));
    Rectangle {
        left,
        top,
        right: left + side_of(chunk.get("width")),
        bottom: top + side_of(chunk.get("height")),
    }
}

// Puts a cell where there is one.
fn set(cells: &mut [u64], at: usize, cell: u64)
    ensures { cells.new ≡ slice_set cells.old at cell }
{
    if at < cells.len() {
        cells[at] = cell;
    }
}

// Pastes the cells of a rectangle.
#[tactic(auto, unfolding(crate::specs::Pasted::pasted))]
fn paste(cells: &mut [u64], columns: u16, rectangle: Rectangle, own: &[u64])
    ensures { cells.new ≡ pasted columns rectangle own.now cells.old }
{
    for k in 0..rectangle.area() {
        set(cells, rectangle.place(columns, k), cell_at(own, k));
    }
}

// A rectangle of a note, as `[left, top, width, height]`.
fn noted(alloc: Global, rectangle: Rectangle) -> Result<Value, AllocError>
    ensures { IfOk result (λ value. data_of value ≡ noted rectangle) }
{
    let mut values = Vec::with_capacity(alloc, 4)?;
    values.push(Value::from(rectangle.left))?;
    values.push(Value::from(rectangle.top))?;
    values.push(Value::from(rectangle.width()))?;
    values.push(Value::from(rectangle.height()))?;
    Ok(Value::from(values))
}

fn put_own(
    alloc: Global,
    note: &mut Map<String, Value>,
    members: &Map<String, Value>,
    name: &str,
) -> Result<(), AllocError>
    ensures { OnOk result (members_view note.new.entries
        ≡ put_some name.now (get_member name.now (members_view members.now.entries)) (members_view note.old.entries)) }
{
    match found(members, name) {
        Some(value) => serde_json::put(note, alloc, name, value.clone()?),
        None => Ok(()),
    }
}

fn noted_all(alloc: Global, rectangles: &[Rectangle]) -> Result<Value, AllocError>
    ensures { IfOk result (λ value. data_of value ≡ array (items_of (map noted rectangles.now))) }
{
    let mut chunks = Vec::with_capacity(alloc, rectangles.len())?;
    for rectangle in rectangles {
        chunks.push(noted(alloc, *rectangle)?)?;
    }
    Ok(Value::from(chunks))
}

// The note of a layer that had these chunks, with the members that tell where they lie.
fn note_of(
    alloc: Global,
    members: &Map<String, Value>,
    rectangles: &[Rectangle],
) -> Result<Value, AllocError>
    ensures { IfOk result (λ value. data_of value
        ≡ layer_note (members_view members.now.entries) rectangles.now) }
{
    let chunks = noted_all(alloc, rectangles)?;
    let mut note = Map::new(alloc);
    serde_json::put(&mut note, alloc, "chunks", chunks)?;
    put_own(alloc, &mut note, members, "width")?;
    put_own(alloc, &mut note, members, "height")?;
    put_own(alloc, &mut note, members, "startx")?;
    put_own(alloc, &mut note, members, "starty")?;
    Ok(Value::from(note))
}

// Pastes the cells of a chunk, and tells where it lies.
fn paste_chunk(
    alloc: Global,
    plane: Plane,
    text: bool,
    chunk: &Value,
    cells: &mut [u64],
) -> Result<Rectangle, Fault>
    ensures lies { IfOk result (λ rectangle. rectangle ≡ rectangle_of plane (data_of chunk.now)) }
    ensures pasted { OnOk result (cells.new
        ≡ pasted plane.columns (rectangle_of plane (data_of chunk.now)) (chunk_cells (data_of chunk.now)) cells.old) }
    ensures bad { IfErr result (λ fault. BadHere fault (is_sound false text (data_of chunk.now))) }
{
    if !is_placed(chunk) {
        return Err(Fault::BadChunk);
    }
    match sound_cells(alloc, text, chunk)? {
        Some(own) => {
            let rectangle = rectangle_of(plane, chunk);
            paste(cells, plane.columns, rectangle, &own);
            Ok(rectangle)
        }
        None => Err(Fault::BadChunk),
    }
}

// The cells of all chunks, and where these lie.
fn pasted(
    alloc: Global,
    plane: Plane,
    text: bool,
    chunks: &Vec<Value>,
) -> Result<(Vec<u64>, Vec<Rectangle>), Fault>
    ensures cells { IfOk result (λ all. all.0.items
        ≡ all_pasted plane (replicate (size plane) 0) (items_view chunks.now.items)) }
    ensures lie { IfOk result (λ all. all.1.items ≡ rectangles_of plane (items_view chunks.now.items)) }
    ensures bad { IfErr result (λ fault. BadHere fault (are_sound false text (items_view chunks.now.items))) }
{
    let mut cells = vec![in alloc; 0u64; plane.size()]?;
    let mut rectangles = Vec::with_capacity(alloc, chunks.len())?;
    for chunk in chunks {
        rectangles.push(paste_chunk(alloc, plane, text, chunk, &mut cells)?)?;
    }
    Ok((cells, rectangles))
}

// Puts the data and the note of a layer that has the plane's size.
fn put_layer(
    alloc: Global,
    plane: Plane,
    all: &mut Map<String, Value>,
    cells: Value,
    note: Value,
) -> Result<(), AllocError>
    ensures { OnOk result (members_view all.new.entries
        ≡ with_data plane (data_of cells) (data_of note) (members_view all.old.entries)) }
{
    remove(all, "startx");
    remove(all, "starty");
    serde_json::put(all, alloc, "data", cells)?;
    serde_json::put(all, alloc, MARK, note)?;
    serde_json::put(all, alloc, "width", Value::from(plane.columns))?;
    serde_json::put(all, alloc, "height", Value::from(plane.rows))
}

// Whether two chunks share a cell.
fn do_overlap(one: &Value, other: &Value) -> bool
    ensures { result ≡ do_overlap (data_of one.now) (data_of other.now) }
{
    extent_of(one).meets(extent_of(other))
}

// Whether a chunk overlaps one before it.
fn overlaps_before(chunks: &Vec<Value>, at: usize) -> bool
    ensures { IsTrue result → have_overlap (items_view chunks.now.items) ≡ true }
{
    if at >= chunks.len() {
        return false;
    }
    for before in 0..at {
        if do_overlap(&chunks[before], &chunks[at]) {
            return true;
        }
    }
    false
}

// Whether two chunks overlap. Where the rectangles are apart, nothing more is looked at.
fn have_overlap(
    alloc: Global,
    plane: Plane,
    chunks: &Vec<Value>,
    rectangles: &[Rectangle],
) -> Result<bool, AllocError>
    ensures { IfOk result (λ found. IsTrue found → have_overlap (items_view chunks.now.items) ≡ true) }
{
    if are_apart(alloc, plane.columns, plane.size(), rectangles)? {
        return Ok(false);
    }
    let first = first_overlap(alloc, plane.columns, plane.size(), rectangles)?;
    Ok(overlaps_before(chunks, first))
}

// Puts the cells of chunks, and the note of them.
fn put_pasted(
    alloc: Global,
    plane: Plane,
    members: &Map<String, Value>,
    chunks: &Vec<Value>,
    all: &mut Map<String, Value>,
) -> Result<(), Fault>
    ensures layer { OnOk result (members_view all.new.entries
        ≡ pasted_layer plane (members_view members.now.entries) (items_view chunks.now.items) (members_view all.old.entries)) }
    ensures faults { IfErr result (λ fault. FaultHere fault (is_base64 (members_view members.now.entries)) (items_view chunks.now.items)) }
{
    let text = is_base64(members);
    let (cells, rectangles) = pasted(alloc, plane, text, chunks)?;
    if have_overlap(alloc, plane, chunks, &rectangles)? {
        return Err(Fault::Overlap);
    }
    let data = cells_data(alloc, text, &cells)?;
    let note = note_of(alloc, members, &rectangles)?;
    Ok(put_layer(alloc, plane, all, data, note)?)
}

/// Puts the cells of a layer's chunks into one array, and where these were into a note. `all` are the layer's members but those.
///
/// A layer without chunks, or whose data are compressed, stays as it is.
pub fn put_finite(
    alloc: Global,
    plane: Plane,
    members: &Map<String, Value>,
    all: &mut Map<String, Value>,
) -> Result<(), Fault>
    ensures layer { OnOk result (members_view all.new.entries
        ≡ layer_with plane (members_view members.now.entries) (members_view all.old.entries) (get_member (codes "chunks") (members_view members.now.entries))) }
    ensures faults { IfErr result (λ fault. (is_memory fault || is_at_fault fault (members_view members.now.entries)) ≡ true) }
{
    match found(members, "chunks") {
        Some(value) => if is_compressed(members) {
            Ok(serde_json::put(all, alloc, "chunks", value.clone()?)?)
        } else {
            match value.as_array() {
                Some(chunks) => put_pasted(alloc, plane, members, chunks, all),
                None => Err(Fault::BadChunk),
            }
        },
        None => Ok(()),
    }
}
