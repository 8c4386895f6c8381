// Whether what must differ does, and ids are below the next one. The trail of what is not so stands at the fault.
ghost use Rattle.std.specs.Prelude.{◌≡◌, ◌==◌, ◌++◌, ◌&&◌, [], ◌∷◌, nat_lt, is_none, IfOk, OnOk};
ghost use Rattle.std.specs.List.{list_all, flat_map};
ghost use Rattle.std.specs.Ordering.{is_eq};
ghost use Rattle.map_model.specs.WellFormed.{ids_of, layer_ids, object_ids, object_ids_in, object_ids_of, first_ids_of};
ghost use Rattle.map_json.specs.Distinctness.{are_distinct, ids_are_unique, are_below_next, lists_in, lists_of_drawn, lists_of_layer, are_named_apart};
ghost use Rattle.map_model.specs.declared.parts.Body.TheVariants.{Objects};
ghost use Rattle.map_model.specs.Groups.{drawn};
ghost use Rattle.map_model.specs.Keeping.{layer_tier};

use link_chain::Chain;
use link_tree::LinkTree;
use map_model::limits::MAX_GROUPS;
use map_model::{Body, Layer, MapParts, Object, Property, Tileset, names};
use map_values::{Segment, Trail};
use std::alloc::{AllocError, Global};
use std::collections::BTreeSet;

// The place of the first key that is there before, by a set of those that were met.
fn second_place<K: Ord + Copy + Drop>(
    alloc: Global,
    keys: &[K],
) -> Result<Option<usize>, AllocError>
    ensures { IfOk result (λ place. is_none place ≡ are_distinct (λ a b. is_eq (K.cmp a b)) keys.now) }
{
    let mut met = BTreeSet::new(alloc);
    for (at, key) in keys.iter().enumerate() {
        if !met.insert(*key)? {
            return Ok(Some(at));
        }
    }
    Ok(None)
}

// The place of the first number that is there before.
fn second_number(alloc: Global, numbers: &[u32]) -> Result<Option<usize>, AllocError>
    ensures { IfOk result (λ place. is_none place ≡ are_distinct (λ a b. a == b) numbers.now) }
{
    second_place(alloc, numbers)
}

fn push_ids(objects: &LinkTree<Object>, ids: &mut Vec<u32>) -> Result<(), AllocError>
    ensures { OnOk result (ids.new.items ≡ ids.old.items ++ object_ids_in (Objects objects.now)) }
{
    for object in objects.iter() {
        ids.push(object.id)?;
    }
    Ok(())
}

/// The ids of all layers of a map, and of all their objects.
#[derive(Drop)]
pub struct Ids {
    pub layers: Vec<u32>,
    pub objects: Vec<u32>,
}

// Puts the ids of a layer and of its objects behind those that are there.
fn push_layer(layer: &Layer, ids: &mut Ids) -> Result<(), AllocError>
    ensures layers { OnOk result (ids.new.layers.items ≡ ids.old.layers.items ++ layer.now.id ∷ []) }
    ensures objects { OnOk result (ids.new.objects.items ≡ ids.old.objects.items ++ object_ids_in layer.now.body) }
{
    ids.layers.push(layer.id)?;
    if let Body::Objects(objects) = &layer.body {
        push_ids(objects, &mut ids.objects)?;
    }
    Ok(())
}

// Puts the ids of layers, and of those in them, behind those that are there.
fn push_layers(layers: &Chain<Layer>, groups: usize, ids: &mut Ids) -> Result<(), AllocError>
    ensures layers { OnOk result (ids.new.layers.items ≡ ids.old.layers.items ++ flat_map ids_of (drawn groups layer_tier layers.now)) }
    ensures objects { OnOk result (ids.new.objects.items ≡ ids.old.objects.items ++ flat_map object_ids_of (drawn groups layer_tier layers.now)) }
{
    for layer in layers.iter() {
        push_layer(layer, ids)?;
        if groups > 0 {
            if let Some(inside) = layer.body.layers() {
                push_layers(inside, groups - 1, ids)?;
            }
        }
    }
    Ok(())
}

/// The ids of all these layers and of their objects, in drawing order.
pub fn ids_of(alloc: Global, layers: &Chain<Layer>) -> Result<Ids, AllocError>
    ensures layers { IfOk result (λ ids. ids.layers.items ≡ layer_ids layers.now) }
    ensures objects { IfOk result (λ ids. ids.objects.items ≡ object_ids layers.now) }
{
    let mut ids = Ids {
        layers: Vec::new(alloc),
        objects: Vec::new(alloc),
    };
    push_layers(layers, MAX_GROUPS, &mut ids)?;
    Ok(ids)
}

/// Whose ids a list of ids has.
#[derive(Clone, Copy)]
enum Owners {
    Layers,
    Objects,
}

// Goes to an id in a layer, that of the layer or one of its objects, where there are more than so many; else counts them.
fn enter_id_in<T: Trail>(layer: &Layer, owners: Owners, before: &mut usize, trail: &mut T) -> bool {
    let count = match (owners, &layer.body) {
        (Owners::Layers, _) => 1,
        (Owners::Objects, Body::Objects(objects)) => objects.len(),
        (Owners::Objects, _) => 0,
    };
    if *before >= count {
        *before -= count;
        return false;
    }
    if let Owners::Objects = owners {
        trail.enter(Segment::Member(names::OBJECTS));
        trail.enter(Segment::Element(*before));
    }
    trail.enter(Segment::Member(names::ID));
    true
}

// Goes to the id that has so many before it in drawing order; stays where there are not so many.
fn enter_id<T: Trail>(
    layers: &Chain<Layer>,
    groups: usize,
    owners: Owners,
    before: &mut usize,
    trail: &mut T,
) -> bool {
    // That a length is a `usize` bounds the places.
    if layers.len() == 0 {
        return false;
    }
    trail.enter(Segment::Member(names::LAYERS));
    for (at, layer) in layers.iter().enumerate() {
        trail.enter(Segment::Element(at));
        if enter_id_in(layer, owners, before, trail) {
            return true;
        }
        if groups > 0 {
            if let Some(inside) = layer.body.layers() {
                if enter_id(inside, groups - 1, owners, before, trail) {
                    return true;
                }
            }
        }
        trail.leave();
    }
    trail.leave();
    false
}

// Whether no id is at fault; else goes to that at this place in drawing order.
fn is_none_at_fault<T: Trail>(
    layers: &Chain<Layer>,
    owners: Owners,
    place: Option<usize>,
    trail: &mut T,
) -> bool
    ensures { result ≡ is_none place }
{
    match place {
        Some(mut before) => {
            enter_id(layers, MAX_GROUPS, owners, &mut before, trail);
            false
        }
        None => true,
    }
}

fn first_ids(alloc: Global, tilesets: &Chain<Tileset>) -> Result<Vec<u32>, AllocError>
    ensures { IfOk result (λ ids. ids.items ≡ flat_map first_ids_of tilesets.now) }
{
    let mut ids = Vec::new(alloc);
    for tileset in tilesets.iter() {
        ids.push(tileset.first_id)?;
    }
    Ok(ids)
}

// Whether no tileset has the first id of another one.
fn first_ids_are_distinct<T: Trail>(
    alloc: Global,
    tilesets: &Chain<Tileset>,
    trail: &mut T,
) -> Result<bool, AllocError>
    ensures { IfOk result (λ answer. answer ≡ are_distinct (λ a b. a == b) (flat_map first_ids_of tilesets.now)) }
{
    let ids = first_ids(alloc, tilesets)?;
    match second_number(alloc, &ids)? {
        Some(at) => {
            trail.enter(Segment::Member(names::TILESETS));
            trail.enter(Segment::Element(at));
            trail.enter(Segment::Member(names::FIRST_ID));
            Ok(false)
        }
        None => Ok(true),
    }
}

/// Whether no name stands twice among the properties of an owner. Else the trail stands at the second.
pub fn names_are_distinct<T: Trail>(
    alloc: Global,
    properties: &Chain<Property>,
    trail: &mut T,
) -> Result<bool, AllocError>
    ensures { IfOk result (λ answer. answer
        ≡ are_named_apart properties.now) }
{
    let mut names = Vec::new(alloc);
    for property in properties.iter() {
        names.push(property.name.as_str())?;
    }
    match second_place(alloc, &names)? {
        Some(at) => {
            trail.enter(Segment::Member(names::PROPERTIES));
            trail.enter(Segment::Element(at));
            trail.enter(Segment::Member(names::NAME));
            Ok(false)
        }
        None => Ok(true),
    }
}

fn object_names_are_distinct<T: Trail>(
    alloc: Global,
    objects: &LinkTree<Object>,
    trail: &mut T,
) -> Result<bool, AllocError>
    ensures { IfOk result (λ answer. answer ≡ list_all are_named_apart (lists_in (Objects objects.now))) }
{
    // That a length is a `usize` bounds the places.
    if objects.len() == 0 {
        return Ok(true);
    }
    trail.enter(Segment::Member(names::OBJECTS));
    for (at, object) in objects.iter().enumerate() {
        trail.enter(Segment::Element(at));
        if !names_are_distinct(alloc, &object.properties, trail)? {
            return Ok(false);
        }
        trail.leave();
    }
    trail.leave();
    Ok(true)
}

fn names_in_body_are_distinct<T: Trail>(
    alloc: Global,
    body: &Body,
    trail: &mut T,
) -> Result<bool, AllocError>
    ensures { IfOk result (λ answer. answer ≡ list_all are_named_apart (lists_in body.now)) }
{
    match body {
        Body::Objects(objects) => object_names_are_distinct(alloc, objects, trail),
        Body::Tiles(_, _) | Body::Other | Body::Group(_) => Ok(true),
    }
}

fn names_in_layer_are_distinct<T: Trail>(
    alloc: Global,
    layer: &Layer,
    trail: &mut T,
) -> Result<bool, AllocError>
    ensures { IfOk result (λ answer. answer ≡ list_all are_named_apart (lists_of_layer layer.now)) }
{
    Ok(
        names_are_distinct(alloc, &layer.properties, trail)?
            && names_in_body_are_distinct(alloc, &layer.body, trail)?,
    )
}

/// Whether no name stands twice among the properties of a layer, of an object, or of those in the groups among them.
pub fn layer_names_are_distinct<T: Trail>(
    alloc: Global,
    layers: &Chain<Layer>,
    groups: usize,
    trail: &mut T,
) -> Result<bool, AllocError>
    ensures { IfOk result (λ answer. answer
        ≡ list_all are_named_apart (flat_map lists_of_drawn (drawn groups layer_tier layers.now))) }
{
    // That a length is a `usize` bounds the places.
    if layers.len() == 0 {
        return Ok(true);
    }
    trail.enter(Segment::Member(names::LAYERS));
    for (at, layer) in layers.iter().enumerate() {
        trail.enter(Segment::Element(at));
        if !names_in_layer_are_distinct(alloc, layer, trail)? {
            return Ok(false);
        }
        if groups > 0 {
            if let Some(inside) = layer.body.layers() {
                if !layer_names_are_distinct(alloc, inside, groups - 1, trail)? {
                    return Ok(false);
                }
            }
        }
        trail.leave();
    }
    trail.leave();
    Ok(true)
}

/// Whether no id and no first id is used twice, nor a name within one owner. Else the trail stands at the second one.
pub fn ids_are_unique<T: Trail>(
    alloc: Global,
    parts: &MapParts,
    ids: &Ids,
    trail: &mut T,
) -> Result<bool, AllocError>
    requires layers { ids.now.layers.items ≡ layer_ids parts.now.layers }
    requires objects { ids.now.objects.items ≡ object_ids parts.now.layers }
    ensures { IfOk result (λ answer. answer ≡ ids_are_unique parts.now) }
{
    let layer = second_number(alloc, &ids.layers)?;
    if !is_none_at_fault(&parts.layers, Owners::Layers, layer, trail) {
        return Ok(false);
    }
    let object = second_number(alloc, &ids.objects)?;
    if !is_none_at_fault(&parts.layers, Owners::Objects, object, trail) {
        return Ok(false);
    }
    Ok(
        first_ids_are_distinct(alloc, &parts.tilesets, trail)?
            && names_are_distinct(alloc, &parts.properties, trail)?
            && layer_names_are_distinct(alloc, &parts.layers, MAX_GROUPS, trail)?,
    )
}

// The place of the first id that is not below the next one.
pub fn late_place(ids: &[u32], next: u32) -> Option<usize>
    ensures { is_none result ≡ list_all (λ id. nat_lt id next) ids.now }
{
    for (at, id) in ids.iter().enumerate() {
        if *id >= next {
            return Some(at);
        }
    }
    None
}

/// Whether each id is below the next one. Else the trail stands at the first that is not.
pub fn are_below_next<T: Trail>(parts: &MapParts, ids: &Ids, trail: &mut T) -> bool
    requires layers { ids.now.layers.items ≡ layer_ids parts.now.layers }
    requires objects { ids.now.objects.items ≡ object_ids parts.now.layers }
    ensures { result ≡ are_below_next parts.now }
{
    let layer = late_place(&ids.layers, parts.next_layer_id);
    if !is_none_at_fault(&parts.layers, Owners::Layers, layer, trail) {
        return false;
    }
    let object = late_place(&ids.objects, parts.next_object_id);
    is_none_at_fault(&parts.layers, Owners::Objects, object, trail)
}

/// Whether no id stands twice among these and those of a map.
pub fn are_new_ids(alloc: Global, ids: &Ids, map: &MapParts) -> Result<bool, AllocError>
    ensures { IfOk result (λ answer. answer
        ≡ (are_distinct (λ a b. a == b) (ids.now.layers.items ++ layer_ids map.now.layers)
        && are_distinct (λ a b. a == b) (ids.now.objects.items ++ object_ids map.now.layers))) }
{
    let mut all = Ids {
        layers: ids.layers.clone()?,
        objects: ids.objects.clone()?,
    };
    push_layers(&map.layers, MAX_GROUPS, &mut all)?;
    Ok(
        second_number(alloc, &all.layers)?.is_none()
            && second_number(alloc, &all.objects)?.is_none(),
    )
}
