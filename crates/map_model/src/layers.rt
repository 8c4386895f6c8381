// Changes of the layer with an id in the layers of a map.
ghost use Rattle.std.specs.Prelude.{◌≡◌, ◌<◌, ◌≤◌, ◌+◌, ◌^◌, length, Some, IsSome, IsSomeAnd, option_map, option_and_then, slice_get};
ghost use Rattle.std.specs.List.{insert, remove};
ghost use Rattle.map_model.specs.declared.limits.TheConstants.{MAX_GROUPS};
ghost use Rattle.map_model.specs.Bodies.{IsTiles};
ghost use Rattle.map_model.specs.Alike.{AreAlike};
ghost use Rattle.map_model.specs.CellEdits.{AreInRowOrder, HaveRange, IsBelow, put_values, with_value};
ghost use Rattle.map_model.specs.Groups.{body_with_layers, change_among, group_in, layer_among};
ghost use Rattle.map_model.specs.Heads.{layer_head, layer_with_head};
ghost use Rattle.map_model.specs.Layers.{IsPlaceIn, layer_at, layer_name, layer_visible, layer_with_name, layer_with_visible, siblings_of, with_layer_at, without_layer_at};
ghost use Rattle.map_model.specs.Lists.{Distinct, Each};
ghost use Rattle.map_model.specs.Lookups.{tiles_of_layer, layer_with_tiles};
ghost use Rattle.map_model.specs.WellFormed.{layer_ids};

use crate::contents::MapText;
use crate::edit::{CellEdit, Side};
use crate::groups::change_layer;
use crate::heads::LayerHead;
use crate::parts::{Body, Layer, MapParts};
use crate::place::LayerPlace;
use link_chain::{Chain, Loose};
use std::mem;
use tile_id::Gid;

/// Sets a value of the tile layer with an id.
pub fn set_in(layers: &mut Chain<Layer>, id: u32, at: usize, value: Gid)
    requires distinct { Distinct (layer_ids layers.old) }
    requires tiles { IsSomeAnd (layer_among id MAX_GROUPS layers.old) (λ l. IsTiles l.body) }
    requires number { at < length (tiles_of_layer (layer_among id MAX_GROUPS layers.old)) }
    ensures { layers.new ≡ change_among id MAX_GROUPS (layer_with_tiles (with_value at value)) layers.old }
{
    change_layer(layers, id, move |layer| layer.body.set_tile(at, value));
}

/// Sets the cells of a list, in the tile layer with an id, to their values on a side.
#[inline(never)]
pub fn put_in(layers: &mut Chain<Layer>, id: u32, width: usize, edits: &[CellEdit], side: Side)
    requires distinct { Distinct (layer_ids layers.old) }
    requires tiles { IsSomeAnd (layer_among id MAX_GROUPS layers.old) (λ l. IsTiles l.body) }
    requires numbers { Each (IsBelow width (length (tiles_of_layer (layer_among id MAX_GROUPS layers.old)))) edits.now }
    ensures layers { layers.new ≡ change_among id MAX_GROUPS (layer_with_tiles (put_values width side edits.now)) layers.old }
    ensures range { HaveRange side edits.now }
{
    change_layer(layers, id, |layer| layer.body.put_tiles(width, edits, side));
}

/// Does what `put_in` does, with cells that all have one value before and one after.
#[inline(never)]
pub fn put_alike_in(
    layers: &mut Chain<Layer>,
    id: u32,
    width: usize,
    edits: &[CellEdit],
    side: Side,
)
    requires distinct { Distinct (layer_ids layers.old) }
    requires tiles { IsSomeAnd (layer_among id MAX_GROUPS layers.old) (λ l. IsTiles l.body) }
    requires numbers { Each (IsBelow width (length (tiles_of_layer (layer_among id MAX_GROUPS layers.old)))) edits.now }
    requires ordered { AreInRowOrder edits.now }
    requires alike { AreAlike edits.now }
    ensures layers { layers.new ≡ change_among id MAX_GROUPS (layer_with_tiles (put_values width side edits.now)) layers.old }
    ensures range { HaveRange side edits.now }
{
    change_layer(layers, id, |layer| layer.body.put_alike(width, edits, side));
}

/// Exchanges the name of the layer with an id and another name.
pub fn rename_in(layers: &mut Chain<Layer>, id: u32, name: &mut MapText)
    requires distinct { Distinct (layer_ids layers.old) }
    requires there { IsSome (layer_among id MAX_GROUPS layers.old) }
    ensures given { option_map layer_name (layer_among id MAX_GROUPS layers.old) ≡ Some name.new }
    ensures held { layers.new ≡ change_among id MAX_GROUPS (layer_with_name name.old) layers.old }
{
    let new = name.take();
    *name = change_layer(layers, id, |layer| mem::replace(&mut layer.name, new));
}

/// Shows or hides the layer with an id, and hands back whether it was shown before.
pub fn show_in(layers: &mut Chain<Layer>, id: u32, visible: bool) -> bool
    requires distinct { Distinct (layer_ids layers.old) }
    requires there { IsSome (layer_among id MAX_GROUPS layers.old) }
    ensures given { option_map layer_visible (layer_among id MAX_GROUPS layers.old) ≡ Some result }
    ensures layers { layers.new ≡ change_among id MAX_GROUPS (layer_with_visible visible) layers.old }
{
    change_layer(layers, id, |layer| {
        mem::replace(&mut layer.visible, visible)
    })
}

/// Gives the layer with an id another head, and hands the old one back.
pub fn head_layer_in(layers: &mut Chain<Layer>, id: u32, head: LayerHead) -> LayerHead
    requires distinct { Distinct (layer_ids layers.old) }
    requires there { IsSome (layer_among id MAX_GROUPS layers.old) }
    ensures given { option_map layer_head (layer_among id MAX_GROUPS layers.old) ≡ Some result }
    ensures layers { layers.new ≡ change_among id MAX_GROUPS (layer_with_head head) layers.old }
{
    change_layer(layers, id, |layer| layer.replace_head(head))
}

/// Puts a layer in at a place.
#[inline(never)]
pub fn insert_layer_in(parts: &mut MapParts, place: LayerPlace, layer: Loose<Layer>)
    requires distinct { Distinct (layer_ids parts.old.layers) }
    requires place { IsPlaceIn parts.old place }
    requires few { IsSomeAnd (siblings_of parts.old place.parent) (λ ls. length ls + 1 < 2 ^ 63) }
    ensures { IsSomeAnd layer (λ l. parts.new ≡ with_layer_at place l parts.old) }
{
    match place.parent {
        None => parts.layers.insert(place.at, layer),
        Some(group) => change_layer(&mut parts.layers, group, |group| {
            group.body.insert_layer(place.at, layer)
        }),
    }
}

/// Takes the layer at a place out.
#[inline(never)]
pub fn take_layer_in(parts: &mut MapParts, place: LayerPlace) -> Loose<Layer>
    requires distinct { Distinct (layer_ids parts.old.layers) }
    requires there { IsSome (layer_at parts.old place) }
    ensures layer { result ≡ layer_at parts.old place }
    ensures parts { parts.new ≡ without_layer_at place parts.old }
{
    match place.parent {
        None => parts.layers.take(place.at),
        Some(group) => {
            change_layer(
                &mut parts.layers,
                group,
                |group| group.body.take_layer(place.at),
            )
        }
    }
}

impl Body {
    // Puts a layer in at a place of a group.
    fn insert_layer(&mut self, at: usize, layer: Loose<Layer>)
        requires place { IsSomeAnd (group_in self.old) (λ ls. at ≤ length ls) }
        requires few { IsSomeAnd (group_in self.old) (λ ls. length ls + 1 < 2 ^ 63) }
        ensures { IsSomeAnd layer (λ l. self.new ≡ body_with_layers (λ ls. insert ls at l) self.old) }
    {
        match self {
            Body::Group(layers) => layers.insert(at, layer),
            Body::Tiles(_, _) => unreachable!(),
            Body::Objects(_) => unreachable!(),
            Body::Other => unreachable!(),
        }
    }

    // Takes the layer at a place of a group out.
    fn take_layer(&mut self, at: usize) -> Loose<Layer>
        requires { IsSomeAnd (group_in self.old) (λ ls. at < length ls) }
        ensures layer { result ≡ option_and_then (λ ls. slice_get ls at) (group_in self.old) }
        ensures body { self.new ≡ body_with_layers (λ ls. remove ls at) self.old }
    {
        match self {
            Body::Group(layers) => layers.take(at),
            Body::Tiles(_, _) => unreachable!(),
            Body::Objects(_) => unreachable!(),
            Body::Other => unreachable!(),
        }
    }
}
