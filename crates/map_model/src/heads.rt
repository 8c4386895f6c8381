// The heads of owners: what an owner is beside its id, its size and its lists.
ghost use Rattle.std.specs.Prelude.{◌≡◌};
ghost use Rattle.map_model.specs.Heads.{layer_head, layer_with_head, map_head, map_with_head, object_head, object_with_head};
ghost use Rattle.map_model.specs.Heads.{tileset_head, tileset_with_head};

use crate::contents::{Kept, MapText};
use crate::parts::{Layer, MapParts, Object, Placing, Tileset};
use std::mem;
use tile_id::Gid;

/// What an object is beside its id and its properties.
#[derive(Drop)]
pub struct ObjectHead {
    pub placing: Placing,
    pub name: Option<MapText>,
    pub visible: Option<bool>,
    pub gid: Option<Gid>,
    pub kept: Kept,
}

impl Object {
    // Gives the object another head, and hands the old one back.
    pub(crate) fn replace_head(&mut self, head: ObjectHead) -> ObjectHead
        ensures given { result ≡ object_head self.old }
        ensures object { self.new ≡ object_with_head head self.old }
    {
        ObjectHead {
            placing: mem::replace(&mut self.placing, head.placing),
            name: mem::replace(&mut self.name, head.name),
            visible: mem::replace(&mut self.visible, head.visible),
            gid: mem::replace(&mut self.gid, head.gid),
            kept: mem::replace(&mut self.kept, head.kept),
        }
    }
}

/// What a layer is beside its id, its properties and what it holds.
#[derive(Drop)]
pub struct LayerHead {
    pub name: MapText,
    pub visible: bool,
    pub kept: Kept,
}

impl Layer {
    // Gives the layer another head, and hands the old one back.
    pub(crate) fn replace_head(&mut self, head: LayerHead) -> LayerHead
        ensures given { result ≡ layer_head self.old }
        ensures layer { self.new ≡ layer_with_head head self.old }
    {
        LayerHead {
            name: mem::replace(&mut self.name, head.name),
            visible: mem::replace(&mut self.visible, head.visible),
            kept: mem::replace(&mut self.kept, head.kept),
        }
    }
}

/// What a map is beside its size in cells and its lists.
#[derive(Drop)]
pub struct MapHead {
    pub tile_width: u32,
    pub tile_height: u32,
    pub next_layer_id: u32,
    pub next_object_id: u32,
    pub kept: Kept,
}

impl MapParts {
    // Gives the map another head, and hands the old one back.
    pub(crate) fn replace_head(&mut self, head: MapHead) -> MapHead
        ensures given { result ≡ map_head self.old }
        ensures map { self.new ≡ map_with_head head self.old }
    {
        MapHead {
            tile_width: mem::replace(&mut self.tile_width, head.tile_width),
            tile_height: mem::replace(&mut self.tile_height, head.tile_height),
            next_layer_id: mem::replace(&mut self.next_layer_id, head.next_layer_id),
            next_object_id: mem::replace(&mut self.next_object_id, head.next_object_id),
            kept: mem::replace(&mut self.kept, head.kept),
        }
    }
}

/// What a tileset is beside its first id.
#[derive(Drop)]
pub struct TilesetHead {
    pub source: Option<MapText>,
    pub kept: Kept,
}

impl Tileset {
    // Gives the tileset another head, and hands the old one back.
    pub(crate) fn replace_head(&mut self, head: TilesetHead) -> TilesetHead
        ensures given { result ≡ tileset_head self.old }
        ensures tileset { self.new ≡ tileset_with_head head self.old }
    {
        TilesetHead {
            source: mem::replace(&mut self.source, head.source),
            kept: mem::replace(&mut self.kept, head.kept),
        }
    }
}
