// Which layers of a map are packed, and how many cells they have, or all tile layers.
ghost use Rattle.std.specs.Prelude.{◌≡◌, ◌+◌, ◌-◌, ◌^◌, ◌≤◌, false, option_map, unwrap_or, min};
ghost use Rattle.serde_json.specs.View.{view as data_of, items_view, members_view};
ghost use Rattle.tiled_maps.specs.Packed.{cells_of, object_or, any_in, sum_in, any_below, sum_below, any_packed, has_packed, own_cells, cells_in_chunks, layer_cells};
ghost use Rattle.tiled_maps.specs.Packed.{all_cells, packed_cells};
ghost use Rattle.tiled_maps.specs.Sources.{tiers};
ghost use Rattle.tiled_maps.specs.Formats.{is_counted, tile_cells};

use crate::formats::is_tiles;
use crate::sources::{TIERS, layers_in};
use crate::unpacking::{cells_of, is_packed};
use json_members::found;
use serde_json::{Map, Value};

// Whether a map, a group or a layer is packed, or a layer in it.
#[cycle(any_packed)]
#[tactic(auto, unfolding(crate::specs::Packed::any_packed))]
fn any_packed(tiers: u8, members: &Map<String, Value>) -> bool
    ensures { result ≡ any_packed tiers (members_view members.now.entries) }
{
    if tiers == 0 {
        return false;
    }
    is_packed(members) || any_below(tiers - 1, members)
}

#[cycle(any_packed)]
fn any_below(tiers: u8, members: &Map<String, Value>) -> bool
    ensures { result ≡ any_below (λ own. any_packed tiers own) (members_view members.now.entries) }
{
    match layers_in(members) {
        Some(layers) => any_in(tiers, layers),
        None => false,
    }
}

#[cycle(any_packed)]
fn any_in(tiers: u8, layers: &Vec<Value>) -> bool
    ensures { result ≡ any_in (λ own. any_packed tiers own) (items_view layers.now.items) }
{
    for layer in layers {
        if any_at(tiers, layer) {
            return true;
        }
    }
    false
}

#[cycle(any_packed)]
fn any_at(tiers: u8, layer: &Value) -> bool
    ensures { result ≡ object_or (λ own. any_packed tiers own) false (data_of layer.now) }
{
    match layer {
        Value::Object(members) => any_packed(tiers, members),
        _ => false,
    }
}

/// Whether a layer of a map is packed.
pub fn has_packed(map: &Value) -> bool
    ensures { result ≡ has_packed (data_of map.now) }
{
    any_at(TIERS, map)
}

fn chunk_cells(chunk: &Value) -> u64
    ensures { result ≡ object_or (λ own. cells_of own) 0 (data_of chunk.now) }
{
    match chunk {
        Value::Object(members) => cells_of(members) as u64,
        _ => 0,
    }
}

// How many cells the chunks of a list have, as far as a number goes.
fn sum_of_chunks(chunks: &Vec<Value>) -> u64
    ensures { result ≡ min (sum_in (λ own. cells_of own) (items_view chunks.now.items)) (2 ^ 64 - 1) }
{
    let mut sum: u64 = 0;
    for chunk in chunks {
        sum = sum.saturating_add(chunk_cells(chunk));
    }
    sum
}

fn cells_in_chunks(members: &Map<String, Value>) -> u64
    ensures { result ≡ min (cells_in_chunks (members_view members.now.entries)) (2 ^ 64 - 1) }
{
    match found(members, "chunks") {
        Some(chunks) => match chunks.as_array() {
            Some(chunks) => sum_of_chunks(chunks),
            None => 0,
        },
        None => 0,
    }
}

fn own_cells(cells: usize, members: &Map<String, Value>) -> u64
    ensures { result ≡ own_cells cells (members_view members.now.entries) }
{
    match found(members, "data") {
        Some(_) => cells as u64,
        None => 0,
    }
}

/// Which layers are counted.
#[derive(Clone, Copy)]
pub enum Counted {
    /// Those that are packed.
    Packed,
    /// All tile layers.
    Tiles,
}

fn is_counted(counted: Counted, members: &Map<String, Value>) -> bool
    ensures { result ≡ is_counted counted (members_view members.now.entries) }
{
    match counted {
        Counted::Packed => is_packed(members),
        Counted::Tiles => is_tiles(members),
    }
}

fn layer_cells(counted: Counted, cells: usize, members: &Map<String, Value>) -> u64
    ensures { result ≡ min (layer_cells (is_counted counted) cells (members_view members.now.entries)) (2 ^ 64 - 1) }
{
    if is_counted(counted, members) {
        own_cells(cells, members).saturating_add(cells_in_chunks(members))
    } else {
        0
    }
}

#[cycle(all_cells)]
#[tactic(auto, unfolding(crate::specs::Packed::all_cells))]
fn all_cells(tiers: u8, counted: Counted, cells: usize, members: &Map<String, Value>) -> u64
    ensures { result ≡ min (all_cells (is_counted counted) tiers cells (members_view members.now.entries)) (2 ^ 64 - 1) }
{
    if tiers == 0 {
        return 0;
    }
    layer_cells(counted, cells, members).saturating_add(cells_below(
        tiers - 1,
        counted,
        cells,
        members,
    ))
}

#[cycle(all_cells)]
fn cells_below(tiers: u8, counted: Counted, cells: usize, members: &Map<String, Value>) -> u64
    ensures { result ≡ min (sum_below (λ own. all_cells (is_counted counted) tiers cells own) (members_view members.now.entries)) (2 ^ 64 - 1) }
{
    match layers_in(members) {
        Some(layers) => cells_in(tiers, counted, cells, layers),
        None => 0,
    }
}

#[cycle(all_cells)]
fn cells_in(tiers: u8, counted: Counted, cells: usize, layers: &Vec<Value>) -> u64
    ensures { result ≡ min (sum_in (λ own. all_cells (is_counted counted) tiers cells own) (items_view layers.now.items)) (2 ^ 64 - 1) }
{
    let mut sum: u64 = 0;
    for layer in layers {
        sum = sum.saturating_add(cells_at(tiers, counted, cells, layer));
    }
    sum
}

#[cycle(all_cells)]
fn cells_at(tiers: u8, counted: Counted, cells: usize, layer: &Value) -> u64
    ensures { result ≡ min (object_or (λ own. all_cells (is_counted counted) tiers cells own) 0 (data_of layer.now)) (2 ^ 64 - 1) }
{
    match layer {
        Value::Object(members) => all_cells(tiers, counted, cells, members),
        _ => 0,
    }
}

fn cells_of_map(counted: Counted, map: &Value) -> u64
    ensures { result ≡ min (object_or (λ ms. all_cells (is_counted counted) tiers (cells_of ms) ms) 0 (data_of map.now)) (2 ^ 64 - 1) }
{
    match map {
        Value::Object(members) => all_cells(TIERS, counted, cells_of(members), members),
        _ => 0,
    }
}

/// How many cells the packed layers of a map have in all, as far as a number goes: unpacking takes four bytes for each.
pub fn packed_cells(map: &Value) -> u64
    ensures { result ≡ min (packed_cells (data_of map.now)) (2 ^ 64 - 1) }
{
    cells_of_map(Counted::Packed, map)
}

/// How many cells the tile layers of a map have in all, as far as a number goes.
pub fn tile_cells(map: &Value) -> u64
    ensures { result ≡ min (tile_cells (data_of map.now)) (2 ^ 64 - 1) }
{
    cells_of_map(Counted::Tiles, map)
}
