ghost use Rattle.std.specs.Prelude.{◌≡◌, ◌<◌, Some, IsSome, IsSomeAnd, option_map};
ghost use Rattle.map_model.specs.Alike.{AreAlike};
ghost use Rattle.map_model.specs.CellEdits.{AreInRowOrder};
ghost use Rattle.map_model.specs.Document.{document_of, painted, with_map, with_selection, IsDocument, IsSelectionOf};
ghost use Rattle.map_model.specs.Layers.{IsPlaceIn, layer_at, layer_name, layer_visible, layer_with_name, layer_with_visible, with_layer_at, with_next_ids, without_layer_at};
ghost use Rattle.map_model.specs.Lists.{Each};
ghost use Rattle.map_model.specs.Lookups.{HasTiles, IsWithin, layer_of, with_cell, with_layer};
ghost use Rattle.map_model.specs.WellFormed.{IsWellFormed};

mod canvas;
mod heads;
mod objects;
mod properties;
mod tilesets;

use crate::contents::MapText;
use crate::edit::{CellEdit, Side};
use crate::groups::walk_to;
use crate::here::find_here;
use crate::layers::{
    insert_layer_in, put_alike_in, put_in, rename_in, set_in, show_in, take_layer_in,
};
use crate::limits::MAX_GROUPS;
use crate::map::Map;
use crate::parts::Layer;
use crate::place::LayerPlace;
use link_chain::Loose;
use region::Region;
use std::alloc::Global;
use std::marker::Model;
use std::mem;
use tile_id::Gid;

/// A document, seen as the record of its parts: a map, and a selection, which is a set of cells of the map. An empty
/// selection limits nothing.
#[derive(Drop)]
pub struct Document {
    map: Map,
    selection: Region,
}

impl Model for Document {
    ghost use Rattle.map_model.specs.Document.{DocumentParts, IsDocument, document_code};

    ghost Value = { DocumentParts };

    ghost coded = { document_code };

    ghost view = { λ a. record { map = a.map; selection = a.selection } };

    ghost invariant = { λ a. IsDocument (record { map = a.map; selection = a.selection }) };
}

impl Document {
    /// The document of a map, with no cell selected. It takes no memory; the selection keeps the allocator.
    pub fn new(alloc: Global, map: Map) -> Document
        ensures { result ≡ document_of map }
    {
        Document {
            map,
            selection: Region::empty(alloc),
        }
    }

    /// The map.
    pub fn map(&self) -> &Map
        ensures { result.now ≡ self.now.map }
    {
        &self.map
    }

    /// The selected cells.
    pub fn selection(&self) -> &Region
        ensures selection { result.now ≡ self.now.selection }
        ensures well_formed { IsDocument self.now }
    {
        &self.selection
    }

    /// Exchanges the selection and another set of cells of the map. It takes no memory.
    pub fn swap_selection(&mut self, selection: &mut Region)
        requires { IsSelectionOf self.old.map selection.old }
        ensures given { selection.new ≡ self.old.selection }
        ensures back { IsSelectionOf self.new.map selection.new }
        ensures document { self.new ≡ with_selection selection.old self.old }
        ensures well_formed { IsDocument self.new }
    {
        mem::swap(&mut self.selection, selection);
    }

    /// Sets the value of a cell of a tile layer.
    pub fn put_cell(&mut self, layer: u32, x: u32, y: u32, value: Gid)
        requires tiles { HasTiles self.old.map layer }
        requires column { x < self.old.map.width }
        requires row { y < self.old.map.height }
        ensures document { self.new ≡ with_map (λ m. with_cell m layer x y value) self.old }
        ensures well_formed { IsDocument self.new }
    {
        let at = self.map.index(x, y);
        set_in(&mut self.map.parts.layers, layer, at, value);
    }

    /// Sets the cells of a list, in a tile layer, to their values on a side: one look-up for all of them.
    pub fn put_edits(&mut self, layer: u32, edits: &[CellEdit], side: Side)
        requires tiles { HasTiles self.old.map layer }
        requires inside { Each (IsWithin self.old.map) edits.now }
        ensures document { self.new ≡ painted layer edits.now side self.old }
        ensures well_formed { IsDocument self.new }
    {
        match edits {
            [edit] => self.put_cell(layer, edit.x.into(), edit.y.into(), edit.value(side)),
            _ => {
                let width = self.map.parts.width as usize;
                put_in(&mut self.map.parts.layers, layer, width, edits, side);
            }
        }
    }

    /// Does what `put_edits` does, with cells that all have one value before and one after. It looks at the ends of what stands
    /// side by side, and not at each cell there.
    pub fn put_alike(&mut self, layer: u32, edits: &[CellEdit], side: Side)
        requires tiles { HasTiles self.old.map layer }
        requires inside { Each (IsWithin self.old.map) edits.now }
        requires ordered { AreInRowOrder edits.now }
        requires alike { AreAlike edits.now }
        ensures document { self.new ≡ painted layer edits.now side self.old }
        ensures well_formed { IsDocument self.new }
    {
        match edits {
            [edit] => self.put_cell(layer, edit.x.into(), edit.y.into(), edit.value(side)),
            _ => {
                let width = self.map.parts.width as usize;
                put_alike_in(&mut self.map.parts.layers, layer, width, edits, side);
            }
        }
    }

    /// Puts a layer in at a place; those from there on stand one place higher. The map is well formed with it.
    pub fn insert_layer(&mut self, place: LayerPlace, layer: Loose<Layer>)
        requires place { IsPlaceIn self.old.map place }
        requires well_formed { IsSomeAnd layer (λ l. IsWellFormed (with_layer_at place l self.old.map)) }
        ensures document { IsSomeAnd layer (λ l. self.new ≡ with_map (with_layer_at place l) self.old) }
        ensures well_formed { IsDocument self.new }
    {
        insert_layer_in(&mut self.map.parts, place, layer);
    }

    /// Takes the layer at a place out; those behind it stand one place lower.
    pub fn take_layer(&mut self, place: LayerPlace) -> Loose<Layer>
        requires { IsSome (layer_at self.old.map place) }
        ensures layer { result ≡ layer_at self.old.map place }
        ensures document { self.new ≡ with_map (without_layer_at place) self.old }
        ensures well_formed { IsDocument self.new }
    {
        take_layer_in(&mut self.map.parts, place)
    }

    /// Goes to the layer with an id, so that it is then found and changed at once. The document stays as it is.
    pub fn seek_layer(&mut self, id: u32)
        ensures document { self.new ≡ self.old }
        ensures well_formed { IsDocument self.new }
    {
        let layers = &mut self.map.parts.layers;
        if find_here(layers, id, MAX_GROUPS).is_none() {
            walk_to(layers, id);
        }
    }

    /// Exchanges the name of the layer with an id and another name.
    pub fn swap_layer_name(&mut self, layer: u32, name: &mut MapText)
        requires { IsSome (layer_of self.old.map layer) }
        ensures given { option_map layer_name (layer_of self.old.map layer) ≡ Some name.new }
        ensures document { self.new ≡ with_map (with_layer layer (layer_with_name name.old)) self.old }
        ensures well_formed { IsDocument self.new }
    {
        name.text_is_utf8();
        rename_in(&mut self.map.parts.layers, layer, name);
    }

    /// Shows or hides the layer with an id, and hands back whether it was shown before.
    pub fn set_visible(&mut self, layer: u32, visible: bool) -> bool
        requires { IsSome (layer_of self.old.map layer) }
        ensures given { option_map layer_visible (layer_of self.old.map layer) ≡ Some result }
        ensures document { self.new ≡ with_map (with_layer layer (layer_with_visible visible)) self.old }
        ensures well_formed { IsDocument self.new }
    {
        show_in(&mut self.map.parts.layers, layer, visible)
    }

    /// Sets the next ids, of a layer and of an object. The map is well formed with them.
    pub fn set_next_ids(&mut self, layer: u32, object: u32)
        requires { IsWellFormed (with_next_ids layer object self.old.map) }
        ensures document { self.new ≡ with_map (with_next_ids layer object) self.old }
        ensures well_formed { IsDocument self.new }
    {
        self.map.parts.next_layer_id = layer;
        self.map.parts.next_object_id = object;
    }
}
