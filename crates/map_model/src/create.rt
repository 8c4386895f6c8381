// What is made new: layers, objects, and the first parts of a map.
ghost use Rattle.std.specs.Prelude.{◌≡◌, ◌∷◌, [], codes, IfOk, IsSome, Some};
ghost use Rattle.serde_json.specs.Find.{as_object};
ghost use Rattle.serde_json.specs.View.{view as data_of};
ghost use Rattle.map_model.specs.NewMap.{new_layer, new_more_layer, empty_layer, empty_object_layer, empty_group, empty_image_layer, new_object, tile_layer_members, object_layer_members, image_layer_members, object_members, map_members};

use crate::contents::{Cells, Kept, MapText};
use crate::parts::{Body, Encoding, Layer, LayerKind, MoreLayerKind, Object, Placing};
use link_chain::{Chain, Loose};
use link_tree::LinkTree;
use serde_json::{Value, json};
use std::alloc::{AllocError, Global};
use tile_id::Gid;

// The members of an object.
fn kept_of(object: Value) -> Kept
    requires { IsSome (as_object (data_of object)) }
    ensures { Some result ≡ as_object (data_of object) }
{
    match object {
        Value::Object(members) => Kept::new(members),
        Value::Null => unreachable!(),
        Value::Bool(_) => unreachable!(),
        Value::Number(_) => unreachable!(),
        Value::String(_) => unreachable!(),
        Value::Array(_) => unreachable!(),
    }
}

// What a new tile layer keeps.
fn kept_by_tile_layer(alloc: Global) -> Result<Kept, AllocError>
    ensures { IfOk result (λ kept. kept ≡ tile_layer_members) }
{
    let object = json!(in alloc; {"opacity": 1u32, "x": 0u32, "y": 0u32})?;
    Ok(kept_of(object))
}

// What a new object layer keeps.
fn kept_by_object_layer(alloc: Global) -> Result<Kept, AllocError>
    ensures { IfOk result (λ kept. kept ≡ object_layer_members) }
{
    let object = json!(in alloc; {"draworder": "topdown", "opacity": 1u32, "x": 0u32, "y": 0u32})?;
    Ok(kept_of(object))
}

// What a new image layer keeps.
fn kept_by_image_layer(alloc: Global) -> Result<Kept, AllocError>
    ensures { IfOk result (λ kept. kept ≡ image_layer_members) }
{
    let object = json!(in alloc; {"image": "", "opacity": 1u32, "x": 0u32, "y": 0u32})?;
    Ok(kept_of(object))
}

/// What a new map keeps.
pub fn kept_by_map(alloc: Global) -> Result<Kept, AllocError>
    ensures { IfOk result (λ kept. kept ≡ map_members) }
{
    let object = json!(in alloc; {"orientation": "orthogonal", "renderorder": "right-down"})?;
    Ok(kept_of(object))
}

// A tile layer of so many empty cells.
fn tile_layer(alloc: Global, id: u32, name: MapText, size: usize) -> Result<Layer, AllocError>
    ensures { IfOk result (λ layer. layer ≡ empty_layer id name size) }
{
    let values = vec![in alloc; Gid(0); size]?;
    Ok(Layer {
        id,
        name,
        visible: true,
        properties: Chain::new(alloc),
        kept: kept_by_tile_layer(alloc)?,
        body: Body::Tiles(Encoding::Array, Cells::new(values)),
    })
}

// An object layer without objects.
fn object_layer(alloc: Global, id: u32, name: MapText) -> Result<Layer, AllocError>
    ensures { IfOk result (λ layer. layer ≡ empty_object_layer id name) }
{
    Ok(Layer {
        id,
        name,
        visible: true,
        properties: Chain::new(alloc),
        kept: kept_by_object_layer(alloc)?,
        body: Body::Objects(LinkTree::new(alloc)),
    })
}

// A group in which no layer stands.
fn group_layer(alloc: Global, id: u32, name: MapText) -> Result<Layer, AllocError>
    ensures { IfOk result (λ layer. layer ≡ empty_group id name) }
{
    Ok(Layer {
        id,
        name,
        visible: true,
        properties: Chain::new(alloc),
        kept: kept_by_tile_layer(alloc)?,
        body: Body::Group(Chain::new(alloc)),
    })
}

// An image layer that shows no image.
fn image_layer(alloc: Global, id: u32, name: MapText) -> Result<Layer, AllocError>
    ensures { IfOk result (λ layer. layer ≡ empty_image_layer id name) }
{
    Ok(Layer {
        id,
        name,
        visible: true,
        properties: Chain::new(alloc),
        kept: kept_by_image_layer(alloc)?,
        body: Body::Other,
    })
}

impl Layer {
    /// A visible layer with no properties and nothing on it, for a map of so many cells.
    pub fn new(
        alloc: Global,
        kind: LayerKind,
        id: u32,
        name: MapText,
        size: usize,
    ) -> Result<Layer, AllocError>
        ensures { IfOk result (λ layer. layer ≡ new_layer kind id name size) }
    {
        match kind {
            LayerKind::Tile => tile_layer(alloc, id, name, size),
            LayerKind::Object => object_layer(alloc, id, name),
        }
    }

    /// A visible layer of a further kind with no properties, and with no layers in it or no image.
    pub fn new_more(
        alloc: Global,
        kind: MoreLayerKind,
        id: u32,
        name: MapText,
    ) -> Result<Layer, AllocError>
        ensures { IfOk result (λ layer. layer ≡ new_more_layer kind id name) }
    {
        match kind {
            MoreLayerKind::Group => group_layer(alloc, id, name),
            MoreLayerKind::Image => image_layer(alloc, id, name),
        }
    }
}

// What a new object keeps.
fn kept_by_object(alloc: Global) -> Result<Kept, AllocError>
    ensures { IfOk result (λ kept. kept ≡ object_members) }
{
    let object = json!(in alloc; {"rotation": 0u32, "type": ""})?;
    Ok(kept_of(object))
}

impl Object {
    /// A visible object that shows no tile and has no properties.
    pub fn new(
        alloc: Global,
        id: u32,
        placing: Placing,
        name: MapText,
    ) -> Result<Object, AllocError>
        ensures { IfOk result (λ object. object ≡ new_object id placing name) }
    {
        Ok(Object {
            id,
            placing,
            name: Some(name),
            visible: Some(true),
            gid: None,
            properties: Chain::new(alloc),
            kept: kept_by_object(alloc)?,
        })
    }
}

/// The layer of a new map of so many cells.
pub fn first_layer(alloc: Global, size: usize) -> Result<Layer, AllocError>
    ensures { IfOk result (λ layer. layer ≡ empty_layer 1 (codes "Tile Layer 1") size) }
{
    let name = MapText::new(String::from_str(alloc, "Tile Layer 1")?);
    tile_layer(alloc, 1, name, size)
}

/// A chain of one item.
pub fn one<T: Drop>(alloc: Global, item: T) -> Result<Chain<T>, AllocError>
    ensures { IfOk result (λ chain. chain ≡ item ∷ []) }
{
    let mut chain = Chain::new(alloc);
    match Loose::new(alloc, item) {
        Ok(loose) => chain.insert(0, loose),
        Err(_) => return Err(AllocError),
    }
    Ok(chain)
}
