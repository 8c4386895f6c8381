// The objects of a layer's body, and changes of the objects in a list of layers.
ghost use Rattle.std.specs.Prelude.{◌≡◌, ◌<◌, ◌≤◌, Some, IfSome, IsSomeAnd, length, slice_get, option_and_then, position};
ghost use Rattle.std.specs.Option.{option_copied, option_map};
ghost use Rattle.std.specs.List.{insert, remove};
ghost use Rattle.std.specs.Fn.{FnOnceTakesAtMut};
ghost use Rattle.map_model.specs.declared.limits.TheConstants.{MAX_GROUPS, MAX_OBJECTS};
ghost use Rattle.map_model.specs.declared.parts.Object.{Object};
ghost use Rattle.map_model.specs.Bodies.{body_with_objects, objects_in};
ghost use Rattle.map_model.specs.Changing.{ChangesObject, ChangesObjectIn};
ghost use Rattle.map_model.specs.Heads.{object_head, object_with_head};
ghost use Rattle.map_model.specs.Lists.{Distinct, change_at, first_some};
ghost use Rattle.map_model.specs.Objects.{found_in_layer, has_object_id, layer_with_objects, object_placing, object_with_placing, objects_of};
ghost use Rattle.map_model.specs.Groups.{change_among, drawn, layer_among, tree};
ghost use Rattle.map_model.specs.Keeping.{layer_tier};
ghost use Rattle.map_model.specs.WellFormed.{layer_ids};

use crate::groups::change_layer;
use crate::heads::ObjectHead;
use crate::parts::{Body, Layer, Object, Placing};
use crate::place::ObjectPlace;
use link_chain::Chain;
use link_tree::{LinkTree, Loose};
use std::mem;

impl Body {
    /// The objects of an object layer, or `None` for another kind of layer.
    pub fn objects(&self) -> Option<&LinkTree<Object>>
        ensures { option_copied result ≡ objects_in self.now }
    {
        match self {
            Body::Tiles(_, _) => None,
            Body::Objects(objects) => Some(objects),
            Body::Other => None,
            Body::Group(_) => None,
        }
    }

    // Puts an object in at a place of an object layer.
    fn insert_object(&mut self, at: usize, object: Loose<Object>)
        requires place { IsSomeAnd (objects_in self.old) (λ os. at ≤ length os) }
        requires few { IsSomeAnd (objects_in self.old) (λ os. length os ≤ MAX_OBJECTS) }
        ensures { IsSomeAnd object (λ o. self.new ≡ body_with_objects (λ os. insert os at o) self.old) }
    {
        match self {
            Body::Objects(objects) => objects.insert(at, object),
            Body::Tiles(_, _) => unreachable!(),
            Body::Other => unreachable!(),
            Body::Group(_) => unreachable!(),
        }
    }

    // Takes the object at a place of an object layer out.
    fn take_object(&mut self, at: usize) -> Loose<Object>
        requires { IsSomeAnd (objects_in self.old) (λ os. at < length os) }
        ensures object { result ≡ option_and_then (λ os. slice_get os at) (objects_in self.old) }
        ensures body { self.new ≡ body_with_objects (λ os. remove os at) self.old }
    {
        match self {
            Body::Objects(objects) => objects.take(at),
            Body::Tiles(_, _) => unreachable!(),
            Body::Other => unreachable!(),
            Body::Group(_) => unreachable!(),
        }
    }
}

/// Puts an object in at a place.
#[inline(never)]
pub fn insert_object_in(layers: &mut Chain<Layer>, place: ObjectPlace, object: Loose<Object>)
    requires distinct { Distinct (layer_ids layers.old) }
    requires place { IsSomeAnd (option_and_then objects_of (layer_among place.layer MAX_GROUPS layers.old)) (λ os. place.at ≤ length os) }
    requires few { IsSomeAnd (option_and_then objects_of (layer_among place.layer MAX_GROUPS layers.old)) (λ os. length os ≤ MAX_OBJECTS) }
    ensures { IsSomeAnd object (λ o. layers.new ≡ change_among place.layer MAX_GROUPS (layer_with_objects (λ os. insert os place.at o)) layers.old) }
{
    change_layer(
        layers,
        place.layer,
        |layer| layer.body.insert_object(place.at, object),
    );
}

/// Takes the object at a place out.
#[inline(never)]
pub fn take_object_in(layers: &mut Chain<Layer>, place: ObjectPlace) -> Loose<Object>
    requires distinct { Distinct (layer_ids layers.old) }
    requires there { IsSomeAnd (option_and_then objects_of (layer_among place.layer MAX_GROUPS layers.old)) (λ os. place.at < length os) }
    ensures object { result ≡ option_and_then (λ os. slice_get os place.at) (option_and_then objects_of (layer_among place.layer MAX_GROUPS layers.old)) }
    ensures layers { layers.new ≡ change_among place.layer MAX_GROUPS (layer_with_objects (λ os. remove os place.at)) layers.old }
{
    change_layer(
        layers,
        place.layer,
        |layer| layer.body.take_object(place.at),
    )
}

// Changes the object at a place of an object layer.
fn change_in_body<R, F: FnOnce(&mut Object) -> R>(body: &mut Body, at: usize, change: F) -> R
    requires place { IsSomeAnd (objects_in body.old) (λ os. at < length os) }
    requires callable { (o : Object) → option_and_then (λ os. slice_get os at) (objects_in body.old) ≡ Some o → FnOnceTakesAtMut F.FnOnce change o }
    ensures { ChangesObjectIn F.FnOnce change at body.old result body.new }
{
    match body {
        Body::Objects(objects) => objects.change_at(at, change),
        Body::Tiles(_, _) => unreachable!(),
        Body::Other => unreachable!(),
        Body::Group(_) => unreachable!(),
    }
}

/// Changes the object at a place.
pub fn change_object<R, F: FnOnce(&mut Object) -> R>(
    layers: &mut Chain<Layer>,
    place: ObjectPlace,
    change: F,
) -> R
    requires distinct { Distinct (layer_ids layers.old) }
    requires there { IsSomeAnd (option_and_then objects_of (layer_among place.layer MAX_GROUPS layers.old)) (λ os. place.at < length os) }
    requires callable { (o : Object) → option_and_then (λ os. slice_get os place.at) (option_and_then objects_of (layer_among place.layer MAX_GROUPS layers.old)) ≡ Some o
        → FnOnceTakesAtMut F.FnOnce change o }
    ensures { ChangesObject F.FnOnce change place layers.old result layers.new }
{
    change_layer(
        layers,
        place.layer,
        |layer: &mut Layer| -> R
            requires place { IsSomeAnd (objects_of layer.old) (λ os. place.at < length os) }
            requires callable { (o : Object) → option_and_then (λ os. slice_get os place.at) (objects_of layer.old) ≡ Some o → FnOnceTakesAtMut F.FnOnce change o }
            ensures body { ChangesObjectIn F.FnOnce change place.at layer.old.body result layer.new.body }
            ensures keeps { layer.new ≡ record layer.old { body = layer.new.body } }
        { change_in_body(&mut layer.body, place.at, change) },
    )
}

/// Gives the object at a place another placing, and hands the old one back.
pub fn place_object_in(layers: &mut Chain<Layer>, place: ObjectPlace, placing: Placing) -> Placing
    requires distinct { Distinct (layer_ids layers.old) }
    requires there { IsSomeAnd (option_and_then objects_of (layer_among place.layer MAX_GROUPS layers.old)) (λ os. place.at < length os) }
    ensures given { option_map object_placing (option_and_then (λ os. slice_get os place.at) (option_and_then objects_of (layer_among place.layer MAX_GROUPS layers.old))) ≡ Some result }
    ensures layers { layers.new ≡ change_among place.layer MAX_GROUPS (layer_with_objects (change_at place.at (object_with_placing placing))) layers.old }
{
    change_object(layers, place, |object| {
        mem::replace(&mut object.placing, placing)
    })
}

/// Gives the object at a place another head, and hands the old one back.
pub fn head_object_in(layers: &mut Chain<Layer>, place: ObjectPlace, head: ObjectHead) -> ObjectHead
    requires distinct { Distinct (layer_ids layers.old) }
    requires there { IsSomeAnd (option_and_then objects_of (layer_among place.layer MAX_GROUPS layers.old)) (λ os. place.at < length os) }
    ensures given { option_map object_head (option_and_then (λ os. slice_get os place.at) (option_and_then objects_of (layer_among place.layer MAX_GROUPS layers.old))) ≡ Some result }
    ensures layers { layers.new ≡ change_among place.layer MAX_GROUPS (layer_with_objects (change_at place.at (object_with_head head))) layers.old }
{
    change_object(layers, place, |object| object.replace_head(head))
}

// The object with an id in a list of objects, behind its place there: one walk.
fn find_object(objects: &LinkTree<Object>, id: u32) -> Option<(usize, &Object)>
    ensures place { option_map (λ found. found.0) result ≡ position (has_object_id id) objects.now }
    ensures object { IfSome result (λ found. slice_get objects.now found.0 ≡ Some found.1.now) }
{
    objects.find(move |object| object.id == id)
}

/// The object with an id in a layer, behind its place.
pub fn find_in_layer(layer: &Layer, id: u32) -> Option<(ObjectPlace, &Object)>
    ensures { option_map (λ found. (found.0, found.1.now)) result ≡ found_in_layer id (layer_tier, layer.now) }
{
    let (at, object) = find_object(layer.body.objects()?, id)?;
    let place = ObjectPlace {
        layer: layer.id,
        at,
    };
    Some((place, object))
}

/// The object with an id, behind its place, found by a walk through layers that may have so many groups in one another.
#[inline(never)]
#[cycle(found)]
pub fn find_in_layers(
    layers: &Chain<Layer>,
    id: u32,
    groups: usize,
) -> Option<(ObjectPlace, &Object)>
    ensures { option_map (λ found. (found.0, found.1.now)) result ≡ first_some (found_in_layer id) (drawn groups layer_tier layers.now) }
{
    for layer in layers.iter() {
        if let Some(found) = find_under(layer, id, groups) {
            return Some(found);
        }
    }
    None
}

// The object with an id, behind its place, in a layer and those that stand in it.
#[cycle(found)]
fn find_under(layer: &Layer, id: u32, groups: usize) -> Option<(ObjectPlace, &Object)>
    ensures { option_map (λ found. (found.0, found.1.now)) result ≡ first_some (found_in_layer id) (tree groups layer_tier layer.now) }
{
    if let Some(found) = find_in_layer(layer, id) {
        return Some(found);
    }
    if groups == 0 {
        return None;
    }
    match layer.body.layers() {
        Some(inside) => find_in_layers(inside, id, groups - 1),
        None => None,
    }
}
