// Layers in groups: where one stands, and how it is reached and changed.
//
// A walk looks at layer after layer. A way is the places that lead to a layer, from group to group. In each list one place
// stands "here": that which was last changed or gone to.
//
// | Name           | Starts from           | Gives                                     | May walk       |
// |----------------|-----------------------|-------------------------------------------|----------------|
// | find_in        | a list                | the layer with an id                      | yes            |
// | find_way       | a list                | the way to the layer with an id           | yes            |
// | find_way_here  | a list                | that way, if it leads by what stands here | no             |
// | find_place     | a list and its parent | the parent and place of the layer         | yes            |
// | find_tier      | a list and its tier   | the tier of the layer                     | yes            |
// | own_place      | a list                | the place of the layer in that list       | the list alone |
// | count_in       | a list                | how many layers, those in groups too      | all            |
// | count_under    | a layer               | it, and how many stand in it              | all            |
// | change_layer   | a map's layers        | the layer with an id, changed             | if not here    |
// | change_found   | a map's layers        | the layer with an id, changed             | if not here    |
// | change_along   | a list and a way      | the layer at its end, changed             | no             |
// | change_inside  | a body and a way      | the layer at its end, changed             | no             |
// | changed        | the layer             | the layer, changed                        | no             |
// | walk_to        | a map's layers        | nothing; goes to the layer                | yes            |
//
// In `here.rt`:
//
// | find_here      | a list                | the layer with an id, if it stands here   | no             |
// | innermost_here | a list                | the innermost layer that stands here      | no             |
ghost use Rattle.std.specs.Prelude.{◌≡◌, ◌^◌, ◌<◌, ◌≤◌, ◌+◌, ◌*◌, [], Some, IfSome, IsFalse, IsSome, IsSomeAnd, IsTrue, None, find, is_some, length, option_and_then, option_map, position, slice_get};
ghost use Rattle.std.specs.Fn.{FnOnceReturnsAtMut, FnOnceTakesAtMut};
ghost use Rattle.std.specs.Option.{option_copied};
ghost use mathlib.Core.List.{reverse};
ghost use Rattle.arrayvec.specs.ArrayVec.{array_vec_len};
ghost use Rattle.map_model.specs.declared.limits.TheConstants.{MAX_GROUPS};
ghost use Rattle.map_model.specs.declared.parts.Layer.{Layer};
ghost use Rattle.map_model.specs.Changing.{ChangesInside, ChangesLayer};
ghost use Rattle.map_model.specs.Groups.{drawn, find_one, group_in, has_id, holds, layer_among, tree};
ghost use Rattle.map_model.specs.Keeping.{layer_tier};
ghost use Rattle.map_model.specs.Layers.{place_among, place_inside};
ghost use Rattle.map_model.specs.Lists.{Distinct, first_some};
ghost use Rattle.map_model.specs.Properties.{is_drawn_with};
ghost use Rattle.map_model.specs.Ways.{IsWay, LeadsFrom, ArrivesIn};
ghost use Rattle.map_model.specs.WellFormed.{layer_ids};

use crate::limits::MAX_GROUPS;
use crate::parts::{Body, Layer};
use crate::place::LayerPlace;
use arrayvec::ArrayVec;
use link_chain::Chain;

/// The most places on the way to a layer: one in each group, and one among the map's layers.
const MAX_PLACES: usize = MAX_GROUPS + 1;

/// The places on the way to a layer, those in the innermost group first.
pub type Way = ArrayVec<usize, MAX_PLACES>;

impl Body {
    /// The layers of a group, or `None` for another kind of layer.
    pub fn layers(&self) -> Option<&Chain<Layer>>
        ensures { option_copied result ≡ group_in self.now }
    {
        match self {
            Body::Group(layers) => Some(layers),
            Body::Tiles(_, _) => None,
            Body::Objects(_) => None,
            Body::Other => None,
        }
    }
}

impl Layer {
    /// Whether this layer has the id, or one that stands in it.
    pub fn holds(&self, id: u32) -> bool
        ensures { result ≡ holds id MAX_GROUPS self.now }
    {
        if self.id == id {
            return true;
        }
        match self.body.layers() {
            Some(inside) => find_in(inside, id, MAX_GROUPS - 1).is_some(),
            None => false,
        }
    }
}

/// Finds the way to the layer with an id, where there is one: the place in the innermost group first, and the place among these
/// layers last.
pub fn find_way(layers: &Chain<Layer>, id: u32, groups: usize, way: &mut Way) -> bool
    requires empty { way.old.items ≡ [] }
    requires groups { groups ≤ MAX_GROUPS }
    ensures way { IsTrue result → IsWay id groups (reverse way.new.items) layers.now }
    ensures none { IsFalse result → (position (holds id groups) layers.now ≡ None) × (way.new.items ≡ []) }
    ensures short { array_vec_len way.new ≤ groups + 1 }
{
    // That a length is a `usize` bounds the places.
    if layers.len() == 0 {
        return false;
    }
    for (at, layer) in layers.iter().enumerate() {
        let leads = layer.id == id
            || match layer.body.layers() {
                Some(inside) if groups > 0 => find_way(inside, id, groups - 1, way),
                _ => false,
            };
        if leads {
            way.push(at);
            return true;
        }
    }
    false
}

/// The layer with an id, in layers that may have so many groups in one another.
pub fn find_in(layers: &Chain<Layer>, id: u32, groups: usize) -> Option<&Layer>
    ensures { option_copied result ≡ layer_among id groups layers.now }
{
    for layer in layers.iter() {
        if layer.id == id {
            return Some(layer);
        }
        if groups == 0 {
            continue;
        }
        if let Some(inside) = layer.body.layers() {
            if let Some(found) = find_in(inside, id, groups - 1) {
                return Some(found);
            }
        }
    }
    None
}

/// The place of the layer with an id: among these layers, which have this parent, or else in one that stands in them.
pub fn find_place(
    layers: &Chain<Layer>,
    id: u32,
    parent: Option<u32>,
    groups: usize,
) -> Option<LayerPlace>
    ensures { result ≡ place_among id groups parent layers.now }
{
    if let Some(at) = own_place(layers, id) {
        return Some(LayerPlace { parent, at });
    }
    if groups == 0 {
        return None;
    }
    for layer in layers.iter() {
        if let Some(inside) = layer.body.layers() {
            if let Some(place) = find_place(inside, id, Some(layer.id), groups - 1) {
                return Some(place);
            }
        }
    }
    None
}

/// The tier of the layer with an id, in layers at a tier that may have so many groups in one another.
pub fn find_tier(layers: &Chain<Layer>, id: u32, tier: usize, groups: usize) -> Option<usize>
    requires { tier + 2 * groups < 2 ^ 32 }
    ensures { result ≡ option_map (λ d. d.0) (find (is_drawn_with id) (drawn groups tier layers.now)) }
{
    for layer in layers.iter() {
        if layer.id == id {
            return Some(tier);
        }
        if groups == 0 {
            continue;
        }
        if let Some(inside) = layer.body.layers() {
            if let Some(found) = find_tier(inside, id, tier + 2, groups - 1) {
                return Some(found);
            }
        }
    }
    None
}

// The place of the layer with an id among these layers alone.
fn own_place(layers: &Chain<Layer>, id: u32) -> Option<usize>
    ensures { result ≡ position (has_id id) layers.now }
{
    layers.iter().position(|layer| layer.id == id)
}

/// How many layers these are, those that stand in them too.
#[cycle(count)]
pub fn count_in(layers: &Chain<Layer>, groups: usize) -> usize
    requires { length (drawn groups layer_tier layers.now) < 2 ^ 32 }
    ensures { result ≡ length (drawn groups layer_tier layers.now) }
{
    let mut count = 0;
    for layer in layers.iter() {
        count += count_under(layer, groups);
    }
    count
}

// A layer, and how many stand in it.
#[cycle(count)]
fn count_under(layer: &Layer, groups: usize) -> usize
    requires { length (tree groups layer_tier layer.now) < 2 ^ 32 }
    ensures { result ≡ length (tree groups layer_tier layer.now) }
{
    if groups == 0 {
        return 1;
    }
    match layer.body.layers() {
        Some(inside) => 1 + count_in(inside, groups - 1),
        None => 1,
    }
}

// Changes the layer to which a way leads, from layers that may have so many groups in one another.
#[cycle(change)]
fn change_along<R, F: FnOnce(&mut Layer) -> R>(
    layers: &mut Chain<Layer>,
    way: &[usize],
    id: u32,
    groups: usize,
    change: F,
) -> R
    requires way { IsWay id groups (reverse way.now) layers.old }
    requires callable { (l : Layer) → layer_among id groups layers.old ≡ Some l → FnOnceTakesAtMut F.FnOnce change l }
    ensures { ChangesLayer F.FnOnce change id groups layers.old result layers.new }
{
    let (at, rest) = way.split_last().unwrap();
    let layer = layers.get_mut(*at);
    if layer.id == id {
        return changed(layer, change);
    }
    change_inside(&mut layer.body, rest, id, groups - 1, change)
}

// Changes a layer.
#[inline(always)]
fn changed<R, F: FnOnce(&mut Layer) -> R>(layer: &mut Layer, change: F) -> R
    requires { FnOnceTakesAtMut F.FnOnce change layer.old }
    ensures { FnOnceReturnsAtMut F.FnOnce change layer.old result layer.new }
{
    change(layer)
}

// Changes the layer to which a way leads, from the layers that stand in a group.
#[cycle(change)]
fn change_inside<R, F: FnOnce(&mut Layer) -> R>(
    body: &mut Body,
    way: &[usize],
    id: u32,
    groups: usize,
    change: F,
) -> R
    requires way { IsSomeAnd (group_in body.old) (IsWay id groups (reverse way.now)) }
    requires callable { (l : Layer) → option_and_then (layer_among id groups) (group_in body.old) ≡ Some l → FnOnceTakesAtMut F.FnOnce change l }
    ensures { ChangesInside F.FnOnce change id groups body.old result body.new }
{
    match body {
        Body::Group(layers) => change_along(layers, way, id, groups, change),
        Body::Tiles(_, _) => unreachable!(),
        Body::Objects(_) => unreachable!(),
        Body::Other => unreachable!(),
    }
}

// Finds the way to the layer with an id, where it leads by the places that were last changed.
#[cycle(near)]
fn find_way_here(layers: &Chain<Layer>, id: u32, groups: usize, way: &mut Way) -> bool
    requires empty { way.old.items ≡ [] }
    requires groups { groups ≤ MAX_GROUPS }
    ensures way { IsTrue result → ArrivesIn id (reverse way.new.items) layers.now }
    ensures none { IsFalse result → way.new.items ≡ [] }
    ensures short { array_vec_len way.new ≤ groups + 1 }
{
    let Some((at, layer)) = layers.here() else {
        return false;
    };
    if layer.id != id {
        let Some(inside) = layer.body.layers() else {
            return false;
        };
        if groups == 0 || !find_way_here(inside, id, groups - 1, way) {
            return false;
        }
    }
    way.push(at);
    true
}

// Changes the layer with an id, to which the way is found first. Out of line, so that a change where the layers were last
// changed is inlined.
#[inline(never)]
fn change_found<R, F: FnOnce(&mut Layer) -> R>(layers: &mut Chain<Layer>, id: u32, change: F) -> R
    requires distinct { Distinct (layer_ids layers.old) }
    requires there { IsSome (layer_among id MAX_GROUPS layers.old) }
    requires callable { (l : Layer) → layer_among id MAX_GROUPS layers.old ≡ Some l → FnOnceTakesAtMut F.FnOnce change l }
    ensures { ChangesLayer F.FnOnce change id MAX_GROUPS layers.old result layers.new }
{
    let mut way = Way::new();
    if !find_way_here(layers, id, MAX_GROUPS, &mut way) {
        find_way(layers, id, MAX_GROUPS, &mut way);
    }
    change_along(layers, way.as_slice(), id, MAX_GROUPS, change)
}

/// Changes the layer with an id: at once where the layers were last changed there, or else by a walk.
pub fn change_layer<R, F: FnOnce(&mut Layer) -> R>(
    layers: &mut Chain<Layer>,
    id: u32,
    change: F,
) -> R
    requires distinct { Distinct (layer_ids layers.old) }
    requires there { IsSome (layer_among id MAX_GROUPS layers.old) }
    requires callable { (l : Layer) → layer_among id MAX_GROUPS layers.old ≡ Some l → FnOnceTakesAtMut F.FnOnce change l }
    ensures { ChangesLayer F.FnOnce change id MAX_GROUPS layers.old result layers.new }
{
    match layers.here() {
        Some((at, layer)) if layer.id == id => changed(layers.get_mut(at), change),
        _ => change_found(layers, id, change),
    }
}

/// Goes to the layer with an id by a walk, where there is one, so that it is found and changed at once. No layer changes.
#[inline(never)]
pub fn walk_to(layers: &mut Chain<Layer>, id: u32)
    ensures { layers.new ≡ layers.old }
{
    let mut way = Way::new();
    if find_way(layers, id, MAX_GROUPS, &mut way) {
        // A change goes to what it changes, also one that does nothing.
        change_along(layers, way.as_slice(), id, MAX_GROUPS, |_layer| {});
    }
}
