// The ids of objects.
ghost use Rattle.std.specs.Prelude.{◌≡◌, ◌++◌, IfOk, OnOk};
ghost use Rattle.std.specs.List.{flat_map};
ghost use Rattle.std.specs.Option.{option_map};
ghost use Rattle.map_model.specs.Groups.{drawn, tree};
ghost use Rattle.map_model.specs.Keeping.{layer_tier};
ghost use Rattle.map_model.specs.Objects.{objects_of_layer};
ghost use Rattle.map_model.specs.WellFormed.{ids_of_object, object_ids, object_ids_in, object_ids_of};

use link_chain::Chain;
use link_tree::LinkTree;
use map_model::limits::MAX_GROUPS;
use map_model::{Body, Layer, Map, Object};
use std::alloc::{AllocError, Global};

// Puts the ids of objects behind others.
fn push_ids(ids: &mut Vec<u32>, objects: &LinkTree<Object>) -> Result<(), AllocError>
    ensures { OnOk result (ids.new.items ≡ ids.old.items ++ flat_map ids_of_object objects.now) }
{
    for object in objects.iter() {
        ids.push(object.id)?;
    }
    Ok(())
}

// Puts the ids of the objects of a layer alone behind others.
fn push_ids_of(ids: &mut Vec<u32>, body: &Body) -> Result<(), AllocError>
    ensures { OnOk result (ids.new.items ≡ ids.old.items ++ object_ids_in body.now) }
{
    match body.objects() {
        Some(objects) => push_ids(ids, objects),
        None => Ok(()),
    }
}

// The same of layers that may have so many groups in one another, and of those that stand in them.
#[cycle(ids)]
fn push_ids_in(ids: &mut Vec<u32>, groups: usize, layers: &Chain<Layer>) -> Result<(), AllocError>
    ensures { OnOk result (ids.new.items ≡ ids.old.items ++ flat_map object_ids_of (drawn groups layer_tier layers.now)) }
{
    for layer in layers.iter() {
        push_ids_under(ids, groups, layer)?;
    }
    Ok(())
}

// The same of a layer and those that stand in it.
#[cycle(ids)]
fn push_ids_under(ids: &mut Vec<u32>, groups: usize, layer: &Layer) -> Result<(), AllocError>
    ensures { OnOk result (ids.new.items ≡ ids.old.items ++ flat_map object_ids_of (tree groups layer_tier layer.now)) }
{
    push_ids_of(ids, &layer.body)?;
    if groups == 0 {
        return Ok(());
    }
    match layer.body.layers() {
        Some(inside) => push_ids_in(ids, groups - 1, inside),
        None => Ok(()),
    }
}

/// The ids of all objects of a map: layer after layer in drawing order, and those of a layer in order. It fails only out of memory.
pub fn all_object_ids(alloc: Global, map: &Map) -> Result<Vec<u32>, AllocError>
    ensures { IfOk result (λ ids. ids.items ≡ object_ids map.now.layers) }
{
    let mut ids = Vec::new(alloc);
    push_ids_in(&mut ids, MAX_GROUPS, &map.parts().layers)?;
    Ok(ids)
}

/// The ids of the objects of the object layer with an id, in order, and `None` where the map has no such object layer. It fails
/// only out of memory.
pub fn object_ids_of_layer(
    alloc: Global,
    map: &Map,
    layer: u32,
) -> Result<Option<Vec<u32>>, AllocError>
    ensures { IfOk result (λ ids. option_map (λ v. v.items) ids ≡ option_map (flat_map ids_of_object) (objects_of_layer map.now layer)) }
{
    let Some(layer) = map.layer(layer) else {
        return Ok(None);
    };
    let Some(objects) = layer.body.objects() else {
        return Ok(None);
    };
    let mut ids = Vec::with_capacity(alloc, objects.len())?;
    push_ids(&mut ids, objects)?;
    Ok(Some(ids))
}
