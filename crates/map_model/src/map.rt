ghost use Rattle.std.specs.Prelude.{◌≡◌, ◌+◌, ◌*◌, ◌<◌, length, None, IfOk, IfSome, IfNone};
ghost use Rattle.std.specs.Option.{option_copied};
ghost use Rattle.map_model.specs.Groups.{all_drawn};
ghost use Rattle.map_model.specs.Layers.{last_place, layer_place, sibling_count};
ghost use Rattle.map_model.specs.NewMap.{new_map};
ghost use Rattle.map_model.specs.Lookups.{layer_of, cell_of};
ghost use Rattle.map_model.specs.Tilesets.{tileset_of, better, best_of, IsTilesetOf, HasNoTileset};
ghost use Rattle.map_model.specs.WellFormed.{IsWellFormed, IsSize, IsTileSize};

mod moving;
mod objects;
mod properties;

use crate::contents::MapText;
use crate::create::{first_layer, kept_by_map, one};
use crate::groups::{count_in, find_in, find_place};
use crate::here::find_here;
use crate::limits::MAX_GROUPS;
use crate::parts::{Layer, MapParts, Tileset};
use crate::place::LayerPlace;
use link_chain::Chain;
use std::alloc::{AllocError, Global};
use std::marker::Model;
use tile_id::Gid;

/// A well-formed map, seen as the record of its parts.
#[derive(Drop)]
pub struct Map {
    pub(crate) parts: MapParts,
}

impl Model for Map {
    ghost use Rattle.map_model.specs.declared.parts.MapParts.{MapParts};
    ghost use Rattle.map_model.specs.WellFormed.{IsWellFormed};
    ghost use Rattle.map_model.specs.contracts.parts.MapParts.{the_row};

    ghost Value = { MapParts };

    ghost coded = { the_row.coded };

    ghost view = { λ a. a.parts };

    ghost invariant = { λ a. IsWellFormed a.parts };
}

impl Map {
    /// The map of these parts.
    pub fn from_parts(parts: MapParts) -> Map
        requires { IsWellFormed parts }
        ensures { result ≡ parts }
    {
        Map { parts }
    }

    /// The parts.
    pub fn parts(&self) -> &MapParts
        ensures value { result.now ≡ self.now }
        ensures well_formed { IsWellFormed self.now }
    {
        &self.parts
    }

    /// The layer with an id: at once where the layers were last changed there or gone to, or else by a walk.
    pub fn layer(&self, id: u32) -> Option<&Layer>
        ensures { option_copied result ≡ layer_of self.now id }
    {
        match find_here(&self.parts.layers, id, MAX_GROUPS) {
            Some(layer) => Some(layer),
            None => find_in(&self.parts.layers, id, MAX_GROUPS),
        }
    }

    /// The place of the layer with an id.
    pub fn layer_place(&self, id: u32) -> Option<LayerPlace>
        ensures place { result ≡ layer_place self.now id }
        ensures well_formed { IsWellFormed self.now }
    {
        find_place(&self.parts.layers, id, None, MAX_GROUPS)
    }

    /// The tileset of a value: the one with the greatest first id that is not above the value's base.
    pub fn tileset_of(&self, value: Gid) -> Option<&Tileset>
        ensures value { option_copied result ≡ tileset_of self.now value }
        ensures found { IfSome (tileset_of self.now value) (IsTilesetOf self.now value) }
        ensures none { IfNone (tileset_of self.now value) (HasNoTileset self.now value) }
    {
        if value.base() == 0 {
            return None;
        }
        best_tileset(&self.parts.tilesets, value.base())
    }

    /// The value of a cell in a tile layer; `None` where the map has no such cell or no such tile layer.
    pub fn cell(&self, layer: u32, x: u32, y: u32) -> Option<Gid>
        ensures { result ≡ cell_of self.now layer x y }
    {
        if x >= self.parts.width || y >= self.parts.height {
            return None;
        }
        let at = self.index(x, y);
        self.layer(layer)?.body.tile_at(at)
    }

    // The number of a cell, row by row.
    pub(crate) fn index(&self, x: u32, y: u32) -> usize
        requires column { x < self.now.width }
        requires row { y < self.now.height }
        ensures { result ≡ y * self.now.width + x }
    {
        y as usize * self.parts.width as usize + x as usize
    }

    /// The place behind the last layer that stands in no group.
    pub fn last_place(&self) -> LayerPlace
        ensures { result ≡ last_place self.now }
    {
        LayerPlace {
            parent: None,
            at: self.parts.layers.len(),
        }
    }

    /// How many layers the map has, those in groups and the groups among them.
    pub fn layer_count(&self) -> usize
        ensures count { result ≡ length (all_drawn self.now.layers) }
        ensures well_formed { IsWellFormed self.now }
    {
        count_in(&self.parts.layers, MAX_GROUPS)
    }

    /// How many layers stand among those of a place, its own included; none where the map has no such group.
    pub fn sibling_count(&self, place: LayerPlace) -> usize
        ensures { result ≡ sibling_count self.now place }
    {
        let Some(parent) = place.parent else {
            return self.parts.layers.len();
        };
        match self.layer(parent) {
            Some(group) => group.body.layers().map_or(0, |layers| layers.len()),
            None => 0,
        }
    }

    /// A map of one empty tile layer, "Tile Layer 1", and one external tileset, whose first id is 1.
    ///
    /// Sizes are in cells and, for a tile, in pixels. Where there is no memory nothing is left.
    pub fn create(
        alloc: Global,
        width: u32,
        height: u32,
        tile_width: u32,
        tile_height: u32,
        source: MapText,
    ) -> Result<Map, AllocError>
        requires size { IsSize width height }
        requires tile_size { IsTileSize tile_width tile_height }
        ensures { IfOk result (λ m. m ≡ new_map width height tile_width tile_height source) }
    {
        source.text_is_utf8();
        let layer = first_layer(alloc, width as usize * height as usize)?;
        let tileset = Tileset::external(alloc, 1, source);
        Ok(Map {
            parts: MapParts {
                width,
                height,
                tile_width,
                tile_height,
                layers: one(alloc, layer)?,
                tilesets: one(alloc, tileset)?,
                properties: Chain::new(alloc),
                next_layer_id: 2,
                next_object_id: 1,
                kept: kept_by_map(alloc)?,
            },
        })
    }
}

// Of the best tileset so far and another, the one with the greater first id that is not above the base.
fn better_tileset<'a>(
    base: u32,
    best: Option<&'a Tileset>,
    tileset: &'a Tileset,
) -> Option<&'a Tileset>
    ensures { option_copied result ≡ better base (option_copied best.entry) tileset.now }
{
    if base < tileset.first_id {
        return best;
    }
    match best {
        Some(other) => {
            if other.first_id < tileset.first_id {
                Some(tileset)
            } else {
                best
            }
        }
        None => Some(tileset),
    }
}

// The tileset with the greatest first id that is not above the base.
fn best_tileset(tilesets: &Chain<Tileset>, base: u32) -> Option<&Tileset>
    ensures { option_copied result ≡ best_of base None tilesets.now }
{
    let mut best: Option<&Tileset> = None;
    for tileset in tilesets.iter() {
        best = better_tileset(base, best, tileset);
    }
    best
}
