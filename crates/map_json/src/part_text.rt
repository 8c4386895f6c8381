// The text of one thing of a map.
ghost use Rattle.std.specs.Prelude.{◌≡◌, IfOk};
ghost use Rattle.std.specs.Option.{option_map};
ghost use Rattle.map_json.specs.PartTexts.{layer_head_text, map_head_text, object_text, properties_text, property_text, tileset_text};

use crate::size::Size;
use crate::writing::{Tree, array_by, layer_head, map_head};
use map_model::{Map, Owner};
use std::alloc::{AllocError, Global};

/// The text of the object with an id, as it stands in the map's text, and `None` where the map has no such object. Out of memory
/// it fails, and nothing is left.
pub fn write_object(alloc: Global, map: &Map, id: u32) -> Result<Option<Vec<u8>>, AllocError>
    ensures { IfOk result (λ text. option_map (λ bytes. bytes.items) text ≡ object_text map.now id) }
{
    let Some((_, object)) = map.object(id) else {
        return Ok(None);
    };
    let tree = object.tree(alloc, Size::of_map(map.parts()))?;
    Ok(Some(tree.to_vec(alloc)?))
}

/// The text of the layer with an id, without its cells and what tells how they are written, without its objects and without its
/// layers, and `None` where the map has no such layer. Out of memory it fails, and nothing is left.
pub fn write_layer_head(alloc: Global, map: &Map, id: u32) -> Result<Option<Vec<u8>>, AllocError>
    ensures { IfOk result (λ text. option_map (λ bytes. bytes.items) text ≡ layer_head_text map.now id) }
{
    let parts = map.parts();
    let Some(layer) = map.layer(id) else {
        return Ok(None);
    };
    let tree = layer_head(alloc, Size::of_map(parts), layer)?.into_value();
    Ok(Some(tree.to_vec(alloc)?))
}

/// The text of the array of an owner's properties, which is `[]` where it has none, and `None` where the map has no such owner.
/// Out of memory it fails, and nothing is left.
pub fn write_properties(
    alloc: Global,
    map: &Map,
    owner: Owner,
) -> Result<Option<Vec<u8>>, AllocError>
    ensures { IfOk result (λ text. option_map (λ bytes. bytes.items) text ≡ properties_text map.now owner) }
{
    let parts = map.parts();
    let Some(place) = map.owner_place(owner) else {
        return Ok(None);
    };
    let Some(properties) = map.properties(place) else {
        return Ok(None);
    };
    let tree = array_by(alloc, Size::of_map(parts), properties)?;
    Ok(Some(tree.to_vec(alloc)?))
}

/// The text of the property with a name of an owner, as it stands in the map's text, and `None` where the map has no such owner,
/// or that owner no such property. Out of memory it fails, and nothing is left.
pub fn write_property(
    alloc: Global,
    map: &Map,
    owner: Owner,
    name: &str,
) -> Result<Option<Vec<u8>>, AllocError>
    ensures { IfOk result (λ text. option_map (λ bytes. bytes.items) text ≡ property_text map.now owner name.now) }
{
    let Some(place) = map.owner_place(owner) else {
        return Ok(None);
    };
    let Some((_, property)) = map.property(place, name) else {
        return Ok(None);
    };
    let tree = property.tree(alloc, Size::of_map(map.parts()))?;
    Ok(Some(tree.to_vec(alloc)?))
}

/// The text of the tileset with a first id, as it stands in the map's text, and `None` where the map has no such tileset. Out of
/// memory it fails, and nothing is left.
pub fn write_tileset(alloc: Global, map: &Map, first_id: u32) -> Result<Option<Vec<u8>>, AllocError>
    ensures { IfOk result (λ text. option_map (λ bytes. bytes.items) text ≡ tileset_text map.now first_id) }
{
    let Some(at) = map.tileset_place(first_id) else {
        return Ok(None);
    };
    let parts = map.parts();
    let tileset = parts.tilesets.get(at);
    let tree = tileset.tree(alloc, Size::of_map(parts))?;
    Ok(Some(tree.to_vec(alloc)?))
}

/// The text of a map without its layers and its tilesets. Out of memory it fails, and nothing is left.
pub fn write_map_head(alloc: Global, map: &Map) -> Result<Vec<u8>, AllocError>
    ensures { IfOk result (λ text. text.items ≡ map_head_text map.now) }
{
    let tree = map_head(alloc, map.parts())?.into_value();
    tree.to_vec(alloc)
}
