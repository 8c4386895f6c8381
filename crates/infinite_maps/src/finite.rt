// A finite map made of an infinite one.
ghost use Rattle.std.specs.Prelude.{◌≡◌, ◌↔◌, ◌||◌, ◌≤◌, ◌<◌, ℤ, pos, codes, string_bytes, IfOk, IfErr, OnOk, IfSome, IsTrue, Some, None, true, false, is_some, not, option_map};
ghost use Rattle.serde_json.specs.Data.{object, no_members};
ghost use Rattle.serde_json.specs.Find.{as_object};
ghost use Rattle.serde_json.specs.View.{view as data_of, items_view, members_view};
ghost use Rattle.json_members.specs.Members.{put_some};
ghost use Rattle.infinite_maps.specs.declared.fault.Fault.TheVariants.{Memory, BadChunk, Overlap, TooLarge, Unlike};
ghost use Rattle.infinite_maps.specs.declared.part.Part.TheVariants.{Layers};
ghost use Rattle.infinite_maps.specs.Infinite.{below, infinite_of, is_infinite};
ghost use Rattle.infinite_maps.specs.Sound.{has_bad_chunk};
ghost use Rattle.infinite_maps.specs.Overlaps.{has_overlap};
ghost use Rattle.infinite_maps.specs.Survey.{even, columns_of, rows_of, is_small, named_side, chunk_side, lost, is_orthogonal, pixels, most_cells, box_of, plane_at, plane_of, is_too_large};
ghost use Rattle.infinite_maps.specs.Finite.{is_kept, own_blamed, finite, items_finite, own_finite, members_finite, with_member, with_whole, with_place, with_limits, map_note, with_note, corner_of, sized, finite_on, map_on, finite_of, is_blamed, are_blamed, members_blamed, LeadsBack, IsUnlike, IsNotMade};

use crate::fault::Fault;
use crate::members::{MARK, put_copy};
use crate::notes::{MAX_CELLS, MAX_SIDE, integer, natural};
use crate::part::Part;
use crate::pasting::put_finite;
use crate::plane::Plane;
use crate::spread::{made_infinite, moved};
use crate::survey::{Extent, surveyed};
use json_trees::is_same;
use serde_json::{Map, Value};
use std::alloc::{AllocError, Global};

/// The most cells of all layers of a finite map.
const MAX_LAYER_CELLS: u64 = 16_777_216;

/// The side of a new chunk where the map names none, and the least that it may name.
const USUAL_CHUNK: u16 = 16;

const LEAST_CHUNK: u64 = 4;

fn is_infinite(value: &Value) -> bool
    ensures { result ≡ is_infinite (data_of value.now) }
{
    match value.get("infinite") {
        Some(infinite) => infinite.as_bool().unwrap_or(false),
        None => false,
    }
}

fn even(place: i64) -> i64
    ensures { result ≡ even place }
{
    if place.unsigned_abs() % 2 == 1 {
        place.wrapping_sub(1)
    } else {
        place
    }
}

// The side of a chunk that a map names; 0 where it names none.
fn named_side(value: &Value, name: &str) -> u64
    ensures { result ≡ named_side name.now (data_of value.now) }
{
    match value.get("editorsettings") {
        Some(settings) => match settings.get("chunksize") {
            Some(sizes) => natural(sizes.get(name)),
            None => 0,
        },
        None => 0,
    }
}

// The side of a new chunk.
fn chunk_side(named: u64) -> u16
    ensures { result ≡ chunk_side named }
{
    if named == 0 {
        USUAL_CHUNK
    } else {
        named.max(LEAST_CHUNK).min(MAX_SIDE as u64) as u16
    }
}

fn is_orthogonal(orientation: Option<&Value>) -> bool
    ensures { result ≡ is_orthogonal (option_map (λ value. data_of value.now) orientation.entry) }
{
    match orientation {
        Some(orientation) => match orientation.as_str() {
            Some(text) => text == "orthogonal",
            None => false,
        },
        None => true,
    }
}

// How many pixels objects lie away from where they lay, for so many cells of such a side.
fn pixels(value: &Value, cells: i64, side: &str) -> i64
    ensures { result ≡ pixels (data_of value.now) cells side.now }
{
    if is_orthogonal(value.get("orientation")) {
        cells.wrapping_mul(integer(value.get(side)))
    } else {
        0
    }
}

/// How many columns or rows of a chunk lie before a place, where chunks of such a side stand side by side.
pub fn lost(place: i64, side: u16) -> u16
    ensures { result ≡ lost place side }
{
    let side = side.max(1) as u64;
    let over = place.unsigned_abs() % side;
    let lost = if place < 0 && over != 0 {
        side - over
    } else {
        over
    };
    lost.min(MAX_SIDE as u64) as u16
}

// The rectangle around all chunks, from an even column and row on; one cell, where there is no chunk.
fn box_of(around: Option<Extent>) -> Extent
    ensures { result ≡ box_of around }
{
    match around {
        Some(around) => Extent {
            left: even(around.left),
            top: even(around.top),
            right: around.right,
            bottom: around.bottom,
        },
        None => Extent {
            left: 0,
            top: 0,
            right: 1,
            bottom: 1,
        },
    }
}

// The most cells that each of so many layers may have.
fn most_cells(layers: u64) -> u32
    ensures { result ≡ most_cells layers }
{
    (MAX_LAYER_CELLS / layers.max(1)).min(MAX_CELLS as u64) as u32
}

// Whether so many columns and rows are within the limits.
#[tactic(auto, using(crate::proofs::Sizes::products))]
fn is_small(columns: u64, rows: u64) -> bool
    ensures small { result ≡ is_small columns rows }
    ensures columns { IsTrue result → columns ≤ 4096 }
    ensures rows { IsTrue result → rows ≤ 4096 }
{
    columns <= MAX_SIDE as u64 && rows <= MAX_SIDE as u64 && columns * rows <= MAX_CELLS as u64
}

// Where the finite map of so many layers lies.
fn plane_at(value: &Value, around: Extent, columns: u16, rows: u16, layers: u64) -> Plane
    requires columns { columns ≡ columns_of around }
    requires rows { rows ≡ rows_of around }
    ensures { result ≡ plane_at (data_of value.now) around layers }
{
    let across = chunk_side(named_side(value, "width"));
    let down = chunk_side(named_side(value, "height"));
    Plane {
        x: around.left,
        y: around.top,
        columns,
        rows,
        across,
        down,
        lost_x: lost(around.left, across),
        lost_y: lost(around.top, down),
        most: most_cells(layers),
        moved_x: pixels(value, around.left, "tilewidth"),
        moved_y: pixels(value, around.top, "tileheight"),
    }
}

// The same, if it is not above the limits.
fn plane_of(value: &Value, around: Extent, layers: u64) -> Option<Plane>
    ensures { result ≡ plane_of (data_of value.now) around layers }
{
    let columns = around.columns();
    let rows = around.rows();
    if !is_small(columns, rows) {
        return None;
    }
    Some(plane_at(value, around, columns as u16, rows as u16, layers))
}

/// Puts a whole number in.
pub fn put_whole(
    alloc: Global,
    members: &mut Map<String, Value>,
    name: &str,
    whole: i64,
) -> Result<(), AllocError>
    ensures { OnOk result (members_view members.new.entries
        ≡ with_whole name.now whole (members_view members.old.entries)) }
{
    serde_json::put(members, alloc, name, Value::from(whole))
}

// Where the corner lies, and the blocks.
fn put_place(
    alloc: Global,
    members: &mut Map<String, Value>,
    plane: Plane,
) -> Result<(), AllocError>
    ensures { OnOk result (members_view members.new.entries
        ≡ with_place plane (members_view members.old.entries)) }
{
    put_whole(alloc, members, "x", plane.x)?;
    put_whole(alloc, members, "y", plane.y)?;
    put_whole(alloc, members, "chunkwidth", plane.across as i64)?;
    put_whole(alloc, members, "chunkheight", plane.down as i64)
}

// What the first blocks lost, how large layers may be, and how far objects are moved.
fn put_limits(
    alloc: Global,
    members: &mut Map<String, Value>,
    plane: Plane,
) -> Result<(), AllocError>
    ensures { OnOk result (members_view members.new.entries
        ≡ with_limits plane (members_view members.old.entries)) }
{
    put_whole(alloc, members, "lostx", plane.lost_x as i64)?;
    put_whole(alloc, members, "losty", plane.lost_y as i64)?;
    put_whole(alloc, members, "most", plane.most as i64)?;
    put_whole(alloc, members, "movedx", plane.moved_x)?;
    put_whole(alloc, members, "movedy", plane.moved_y)
}

// The note of a map that lies there.
fn note_of(alloc: Global, value: &Value, plane: Plane) -> Result<Value, AllocError>
    ensures { IfOk result (λ note. data_of note ≡ map_note (data_of value.now) plane) }
{
    let mut note = Map::new(alloc);
    put_place(alloc, &mut note, plane)?;
    put_limits(alloc, &mut note, plane)?;
    put_copy(alloc, &mut note, "width", value)?;
    put_copy(alloc, &mut note, "height", value)?;
    let mut notes = Map::new(alloc);
    serde_json::put(&mut notes, alloc, "infinite", Value::from(note))?;
    Ok(Value::from(notes))
}

// The members of the map itself, of so many columns and rows.
fn put_map(
    alloc: Global,
    all: &mut Map<String, Value>,
    columns: i64,
    rows: i64,
    value: &Value,
    plane: Plane,
) -> Result<(), AllocError>
    ensures { OnOk result (members_view all.new.entries
        ≡ with_note (data_of value.now) plane columns rows (members_view all.old.entries)) }
{
    let note = note_of(alloc, value, plane)?;
    serde_json::put(all, alloc, MARK, note)?;
    put_whole(alloc, all, "width", columns)?;
    put_whole(alloc, all, "height", rows)?;
    serde_json::put(all, alloc, "infinite", Value::from(false))
}

#[cycle(finites)]
fn finite(alloc: Global, plane: Plane, part: Part, value: &Value) -> Result<Value, Fault>
    ensures tree { IfOk result (λ v. data_of v ≡ finite plane part (data_of value.now)) }
    ensures faults { IfErr result (λ fault. is_blamed fault part (data_of value.now) ≡ true) }
{
    match value {
        Value::Null | Value::Bool(_) | Value::String(_) => Ok(value.clone()?),
        Value::Number(number) => Ok(moved(plane.turned(), part, *number)),
        Value::Array(items) => Ok(Value::Array(finite_items(alloc, plane, part, items)?)),
        Value::Object(members) => {
            let mut all = finite_members(alloc, plane, part, members)?;
            put_own(alloc, plane, part, members, &mut all)?;
            Ok(Value::Object(all))
        }
    }
}

// Puts the cells of a layer's chunks in.
fn put_own(
    alloc: Global,
    plane: Plane,
    part: Part,
    members: &Map<String, Value>,
    all: &mut Map<String, Value>,
) -> Result<(), Fault>
    ensures layer { OnOk result (members_view all.new.entries
        ≡ own_finite plane part (members_view members.now.entries) (members_view all.old.entries)) }
    ensures faults { IfErr result (λ fault. own_blamed fault part (members_view members.now.entries) ≡ true) }
{
    if part.is_layers() {
        put_finite(alloc, plane, members, all)
    } else {
        Ok(())
    }
}

#[cycle(finites)]
fn finite_items(
    alloc: Global,
    plane: Plane,
    part: Part,
    items: &Vec<Value>,
) -> Result<Vec<Value>, Fault>
    ensures tree { IfOk result (λ v. items_view v.items ≡ items_finite plane part (items_view items.now.items)) }
    ensures faults { IfErr result (λ fault. are_blamed fault part (items_view items.now.items) ≡ true) }
{
    let mut all = Vec::with_capacity(alloc, items.len())?;
    for item in items {
        all.push(finite(alloc, plane, part, item)?)?;
    }
    Ok(all)
}

// Puts a member in; chunks are not copied, since most are pasted into one array.
#[cycle(finites)]
fn put_member(
    alloc: Global,
    plane: Plane,
    part: Part,
    key: &String,
    member: &Value,
    all: &mut Map<String, Value>,
) -> Result<(), Fault>
    ensures member { OnOk result (members_view all.new.entries
        ≡ with_member plane part (string_bytes key.now) (data_of member.now) (members_view all.old.entries)) }
    ensures faults { IfErr result (λ fault. is_blamed fault (below part (string_bytes key.now)) (data_of member.now) ≡ true) }
{
    if part.is_layers() && key.as_str() == "chunks" {
        return Ok(());
    }
    let value = finite(alloc, plane, part.below(key.as_str()), member)?;
    Ok(serde_json::put(all, alloc, key.as_str(), value)?)
}

#[cycle(finites)]
fn finite_members(
    alloc: Global,
    plane: Plane,
    part: Part,
    members: &Map<String, Value>,
) -> Result<Map<String, Value>, Fault>
    ensures tree { IfOk result (λ m. members_view m.entries ≡ members_finite plane part (members_view members.now.entries)) }
    ensures faults { IfErr result (λ fault. members_blamed fault part (members_view members.now.entries) ≡ true) }
{
    let mut all = Map::new(alloc);
    for (key, member) in members.iter() {
        put_member(alloc, plane, part, key, member, &mut all)?;
    }
    Ok(all)
}

// Where a map lies of which only the sizes are told.
fn corner_of(around: Extent) -> Plane
    ensures { result ≡ corner_of around }
{
    Plane {
        x: around.left,
        y: around.top,
        columns: 0,
        rows: 0,
        across: 0,
        down: 0,
        lost_x: 0,
        lost_y: 0,
        most: 0,
        moved_x: 0,
        moved_y: 0,
    }
}

// A map above the limits, of which only the sizes are told.
fn sized(
    alloc: Global,
    value: &Value,
    members: &Map<String, Value>,
    around: Extent,
) -> Result<Map<String, Value>, Fault>
    requires { data_of value.now ≡ object (members_view members.now.entries) }
    ensures tree { IfOk result (λ m. members_view m.entries
        ≡ sized (data_of value.now) (members_view members.now.entries) around) }
    ensures faults { IfErr result (λ fault. IsNotMade fault (data_of value.now)) }
{
    let mut all = copied(value)?;
    let columns = around.right.wrapping_sub(around.left);
    let rows = around.bottom.wrapping_sub(around.top);
    put_map(alloc, &mut all, columns, rows, value, corner_of(around))?;
    Ok(all)
}

// The members of an object.
fn copied(value: &Value) -> Result<Map<String, Value>, Fault>
    ensures copy { IfOk result (λ m. data_of value.now ≡ object (members_view m.entries)) }
    ensures faults { IfErr result (λ fault. IsNotMade fault (data_of value.now)) }
{
    match value.clone()? {
        Value::Object(members) => Ok(members),
        _ => Err(Fault::Unlike),
    }
}

// The finite map on a plane.
fn finite_on(
    alloc: Global,
    plane: Plane,
    value: &Value,
    members: &Map<String, Value>,
) -> Result<Map<String, Value>, Fault>
    ensures tree { IfOk result (λ m. members_view m.entries
        ≡ finite_on (data_of value.now) (members_view members.now.entries) plane) }
    ensures faults { IfErr result (λ fault. is_blamed fault Layers (object (members_view members.now.entries)) ≡ true) }
{
    let mut all = finite_members(alloc, plane, Part::Layers, members)?;
    put_own(alloc, plane, Part::Layers, members, &mut all)?;
    let (columns, rows) = (plane.columns as i64, plane.rows as i64);
    put_map(alloc, &mut all, columns, rows, value, plane)?;
    Ok(all)
}

fn finite_map(
    alloc: Global,
    value: &Value,
    members: &Map<String, Value>,
) -> Result<Map<String, Value>, Fault>
    requires { data_of value.now ≡ object (members_view members.now.entries) }
    ensures tree { IfOk result (λ m. object (members_view m.entries) ≡ finite_of (data_of value.now)) }
    ensures faults { IfErr result (λ fault. IsNotMade fault (data_of value.now)) }
{
    let survey = surveyed(members)?;
    let around = box_of(survey.around);
    match plane_of(value, around, survey.layers) {
        Some(plane) => if survey.layers.saturating_mul(plane.size() as u64) > MAX_LAYER_CELLS {
            Err(Fault::TooLarge)
        } else {
            finite_on(alloc, plane, value, members)
        },
        None => sized(alloc, value, members, around),
    }
}

fn finite_of(alloc: Global, value: &Value) -> Result<Value, Fault>
    ensures tree { IfOk result (λ v. data_of v ≡ finite_of (data_of value.now)) }
    ensures faults { IfErr result (λ fault. IsNotMade fault (data_of value.now)) }
{
    match value {
        Value::Object(members) => Ok(Value::Object(finite_map(alloc, value, members)?)),
        _ => Err(Fault::Unlike),
    }
}

// Whether a map is a finite one, of which the other comes back.
fn comes_back(alloc: Global, finite: &Value, value: &Value) -> Result<bool, Fault>
    ensures back { IfOk result (λ same. IsTrue same ↔ LeadsBack (data_of finite.now) (data_of value.now)) }
    ensures memory { IfErr result (λ fault. fault ≡ Memory) }
{
    if is_infinite(finite) {
        return Ok(false);
    }
    match made_infinite(alloc, finite)? {
        Some(again) => Ok(is_same(&again, value)),
        None => Ok(false),
    }
}

/// The finite map of a map whose `infinite` is true; `None` for another.
///
/// Cells and objects keep their places beside each other. A map above the limits, which are 4,096 columns, 4,096 rows and
/// 1,048,576 cells, keeps its layers and gets its sizes, so that a reader refuses it for them.
pub fn made_finite(alloc: Global, value: &Value) -> Result<Option<Value>, Fault>
    ensures plain { is_infinite (data_of value.now) ≡ false → result ≡ Ok None }
    ensures some { IfOk result (λ map. is_some map ≡ is_infinite (data_of value.now)) }
    ensures finite { IfOk result (λ map. IfSome map (λ finite. is_infinite (data_of finite) ≡ false)) }
    ensures back { IfOk result (λ map. IfSome map (λ finite. infinite_of (data_of finite) ≡ Some (data_of value.now))) }
    ensures map { IfOk result (λ map. IfSome map (λ finite. data_of finite ≡ finite_of (data_of value.now))) }
    ensures bad { IfErr result (λ fault. fault ≡ BadChunk → has_bad_chunk (data_of value.now) ≡ true) }
    ensures overlap { IfErr result (λ fault. fault ≡ Overlap → has_overlap (data_of value.now) ≡ true) }
    ensures large { IfErr result (λ fault. fault ≡ TooLarge → is_too_large (data_of value.now) ≡ true) }
    ensures unlike { IfErr result (λ fault. fault ≡ Unlike → IsUnlike (data_of value.now)) }
{
    if !is_infinite(value) {
        return Ok(None);
    }
    let finite = finite_of(alloc, value)?;
    if comes_back(alloc, &finite, value)? {
        Ok(Some(finite))
    } else {
        Err(Fault::Unlike)
    }
}
