// A tileset gets another first id, and its values go along.
ghost use Rattle.std.specs.Prelude.{◌≡◌, ◌<◌, ◌≤◌, ℕ, map};
ghost use Rattle.std.specs.List.{flat_map};
ghost use Rattle.map_model.specs.Groups.{body_with_layers, drawn, group_in, tree};
ghost use Rattle.map_model.specs.Keeping.{layer_tier};
ghost use Rattle.map_model.specs.Lists.{Each, or_empty};
ghost use Rattle.map_model.specs.Renumbering.{KeepsTileset, body_with_values, layers_with_values, loses_tileset, object_with_value, one_with_values, value_moved};
ghost use Rattle.map_model.specs.Tilesets.{gids_of, values_in, values_of};
ghost use Rattle.map_model.specs.Uses.{base_limit, is_between};

use crate::contents::Cells;
use crate::parts::{Body, Layer, Object};
use crate::tilesets::is_base_between;
use link_chain::Chain;
use link_tree::LinkTree;
use tile_id::Gid;

/// A range of bases, from one number up to another, and where it goes.
#[derive(Clone, Copy)]
pub struct Move {
    pub low: u32,
    pub end: u32,
    pub to: u32,
}

// A value, which goes along where it is of the range.
fn moved(value: Gid, by: Move) -> Gid
    requires keeps { KeepsTileset by.low by.end by.to value }
    requires limit { by.end ≤ base_limit }
    ensures { result ≡ value_moved by.low by.end by.to value }
{
    if is_base_between(value, by.low, by.end) {
        Gid(value.0 - by.low + by.to)
    } else {
        value
    }
}

fn move_cells(cells: &mut Cells, by: Move)
    requires keep { Each (KeepsTileset by.low by.end by.to) cells.old }
    requires limit { by.end ≤ base_limit }
    ensures { cells.new ≡ map (value_moved by.low by.end by.to) cells.old }
{
    for at in 0..cells.as_slice().len() {
        let value = cells.as_slice()[at];
        cells.set(at, moved(value, by));
    }
}

fn move_object(object: &mut Object, by: Move)
    requires keeps { Each (KeepsTileset by.low by.end by.to) (gids_of object.old) }
    requires limit { by.end ≤ base_limit }
    ensures { object.new ≡ object_with_value (value_moved by.low by.end by.to) object.old }
{
    if let Some(value) = object.gid {
        object.gid = Some(moved(value, by));
    }
}

fn move_objects(objects: &mut LinkTree<Object>, by: Move)
    requires keep { Each (KeepsTileset by.low by.end by.to) (flat_map gids_of objects.old) }
    requires limit { by.end ≤ base_limit }
    ensures { objects.new ≡ map (object_with_value (value_moved by.low by.end by.to)) objects.old }
{
    objects.change_each(
        |object: &mut Object|
            requires keeps { Each (KeepsTileset by.low by.end by.to) (gids_of object.old) }
            requires limit { by.end ≤ base_limit }
        { move_object(object, by) },
    );
}

fn move_body(body: &mut Body, by: Move)
    requires keep { Each (KeepsTileset by.low by.end by.to) (values_in body.old) }
    requires limit { by.end ≤ base_limit }
    ensures { body.new ≡ body_with_values (value_moved by.low by.end by.to) body.old }
{
    match body {
        Body::Tiles(_, cells) => move_cells(cells, by),
        Body::Objects(objects) => move_objects(objects, by),
        Body::Other => {}
        Body::Group(_) => {}
    }
}

/// Moves the values in layers, and in those that stand in them, in so many groups in one another.
#[cycle(values)]
pub fn move_layers(layers: &mut Chain<Layer>, by: Move, groups: usize)
    requires keep { Each (λ d. Each (KeepsTileset by.low by.end by.to) (values_of d)) (drawn groups layer_tier layers.old) }
    requires limit { by.end ≤ base_limit }
    ensures { layers.new ≡ layers_with_values groups (value_moved by.low by.end by.to) layers.old }
{
    for at in 0..layers.len() {
        move_layer(layers.get_mut(at), by, groups);
    }
}

#[cycle(values)]
fn move_layer(layer: &mut Layer, by: Move, groups: usize)
    requires keep { Each (λ d. Each (KeepsTileset by.low by.end by.to) (values_of d)) (tree groups layer_tier layer.old) }
    requires limit { by.end ≤ base_limit }
    ensures { layer.new ≡ one_with_values groups (value_moved by.low by.end by.to) layer.old }
{
    move_body(&mut layer.body, by);
    if groups == 0 {
        return;
    }
    move_inside(&mut layer.body, by, groups - 1);
}

#[cycle(values)]
fn move_inside(body: &mut Body, by: Move, groups: usize)
    requires keep { Each (λ d. Each (KeepsTileset by.low by.end by.to) (values_of d)) (drawn groups layer_tier (or_empty (group_in body.old))) }
    requires limit { by.end ≤ base_limit }
    ensures { body.new ≡ body_with_layers (layers_with_values groups (value_moved by.low by.end by.to)) body.old }
{
    match body {
        Body::Group(layers) => move_layers(layers, by, groups),
        Body::Tiles(_, _) => {}
        Body::Objects(_) => {}
        Body::Other => {}
    }
}

/// The range of bases whose values would lose their tileset: from one number up to another.
pub fn losses(range: Move) -> (u32, u32)
    requires from { range.low < range.end }
    requires to { range.to < range.end }
    ensures { (value : ℕ) → is_between result.0 result.1 value ≡ loses_tileset range.low range.end range.to value }
{
    if range.to < range.low {
        (range.to, range.low)
    } else {
        (range.end - (range.to - range.low), range.end)
    }
}
