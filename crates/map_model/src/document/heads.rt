// Changes of heads. Those of objects stand with the changes of objects.
ghost use Rattle.std.specs.Prelude.{◌≡◌, Some, IsSome};
ghost use Rattle.std.specs.Option.{option_map};
ghost use Rattle.map_model.specs.Document.{with_map, IsDocument};
ghost use Rattle.map_model.specs.Heads.{layer_head, layer_with_head, map_head, map_with_head, tileset_head, tileset_value, tileset_with_head};
ghost use Rattle.map_model.specs.Lens.{put};
ghost use Rattle.map_model.specs.Lookups.{layer_of, with_layer};
ghost use Rattle.map_model.specs.Tilesets.{tileset_with, with_tileset};
ghost use Rattle.map_model.specs.WellFormed.{IsWellFormed};

use crate::contents::JsonValue;
use crate::document::Document;
use crate::heads::{LayerHead, MapHead, TilesetHead};
use crate::layers::head_layer_in;
use crate::tilesets::{head_tileset_in, value_tileset_in};

impl Document {
    /// Gives the layer with an id another head, and hands the old one back. The map is well formed with it.
    pub fn set_layer_head(&mut self, layer: u32, head: LayerHead) -> LayerHead
        requires there { IsSome (layer_of self.old.map layer) }
        requires well_formed { IsWellFormed (with_layer layer (layer_with_head head) self.old.map) }
        ensures given { option_map layer_head (layer_of self.old.map layer) ≡ Some result }
        ensures document { self.new ≡ with_map (with_layer layer (layer_with_head head)) self.old }
        ensures well_formed { IsDocument self.new }
    {
        head_layer_in(&mut self.map.parts.layers, layer, head)
    }

    /// Gives the tileset with a first id another head, and hands the old one back. The map is well formed with it.
    pub fn set_tileset_head(&mut self, first_id: u32, head: TilesetHead) -> TilesetHead
        requires there { IsSome (tileset_with self.old.map first_id) }
        requires well_formed { IsWellFormed (with_tileset first_id (tileset_with_head head) self.old.map) }
        ensures given { option_map tileset_head (tileset_with self.old.map first_id) ≡ Some result }
        ensures document { self.new ≡ with_map (with_tileset first_id (tileset_with_head head)) self.old }
        ensures well_formed { IsDocument self.new }
    {
        head_tileset_in(&mut self.map.parts.tilesets, first_id, head)
    }

    /// Gives the kept member of a name, which the tileset with a first id has, another value, and hands the old one back. The map is
    /// well formed with it.
    pub fn set_tileset_value(&mut self, first_id: u32, name: &str, value: JsonValue) -> JsonValue
        requires there { IsSome ((tileset_value first_id name.now).get self.old) }
        requires well_formed { IsWellFormed (put (tileset_value first_id name.now) value self.old).map }
        ensures given { (tileset_value first_id name.now).get self.old ≡ Some result }
        ensures document { self.new ≡ put (tileset_value first_id name.now) value self.old }
        ensures well_formed { IsDocument self.new }
    {
        value_tileset_in(&mut self.map.parts.tilesets, first_id, name, value)
    }

    /// Gives the map another head, and hands the old one back. The map is well formed with it.
    pub fn set_map_head(&mut self, head: MapHead) -> MapHead
        requires { IsWellFormed (map_with_head head self.old.map) }
        ensures given { result ≡ map_head self.old.map }
        ensures document { self.new ≡ with_map (map_with_head head) self.old }
        ensures well_formed { IsDocument self.new }
    {
        self.map.parts.replace_head(head)
    }
}
