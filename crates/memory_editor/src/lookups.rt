// What there is: of the active document's map numbers, lists, and each thing as the text of its tree; and the open documents.
ghost use Rattle.std.specs.Prelude.{◌≡◌, IfOk, length, slice_get};
ghost use Rattle.std.specs.List.{flat_map};
ghost use Rattle.std.specs.Option.{option_copied, option_map};
ghost use Rattle.map_model.specs.WellFormed.{first_ids_of, object_ids};
ghost use Rattle.map_lists.specs.Rows.{layer_rows};
ghost use Rattle.map_lists.specs.Sizes.{sizes_of};
ghost use Rattle.map_json.specs.PartTexts.{map_head_text};
ghost use Rattle.undo_group.specs.Groups.{active_place};
ghost use Rattle.memory_editor.specs.Lookups.{id_of_name_in, layer_in, object_in, object_ids_in, object_layer, properties_in, property_in, status_at, tileset_in};
ghost use Rattle.memory_editor.specs.Parts.{active_map};

use crate::memory_editor::MemoryEditor;
use map_json::{
    write_layer_head, write_map_head, write_object, write_properties, write_property, write_tileset,
};
use map_lists::{
    LayerRow, Sizes, Subject, all_object_ids, first_ids_of, id_of_name, object_ids_of_layer,
    rows_of_layers, sizes_of,
};
use map_model::Owner;
use std::alloc::AllocError;

/// How a document stands, as `status` tells it of the active one.
#[derive(Clone, Copy, Debug, PartialEq, Eq)]
pub struct Status {
    /// How many steps are done.
    pub index: usize,
    /// How many steps there are, those done and those undone, and an open macro.
    pub count: usize,
    /// How many macros are open.
    pub depth: usize,
    pub is_clean: bool,
    pub is_active: bool,
}

// Numbers and lists.
impl MemoryEditor {
    /// The sizes of the active document's map, and `None` where no document is active.
    pub fn sizes(&self) -> Option<Sizes>
        ensures { result ≡ option_map sizes_of (active_map self.now.machine) }
    {
        match self.active_map() {
            Some(map) => Some(sizes_of(map)),
            None => None,
        }
    }

    /// All layers of the active document's map in drawing order, a group before those that stand in it, and `None` where no document
    /// is active. It fails only out of memory.
    pub fn layers(&self) -> Result<Option<Vec<LayerRow>>, AllocError>
        ensures { IfOk result (λ rows. option_map (λ v. v.items) rows ≡ option_map layer_rows (active_map self.now.machine)) }
    {
        match self.active_map() {
            Some(map) => Ok(Some(rows_of_layers(self.alloc, map)?)),
            None => Ok(None),
        }
    }

    /// The ids of all objects of the active document's map: layer after layer in drawing order, and those of a layer in order. `None`
    /// where no document is active. It fails only out of memory.
    pub fn object_ids(&self) -> Result<Option<Vec<u32>>, AllocError>
        ensures { IfOk result (λ ids. option_map (λ v. v.items) ids ≡ option_map (λ m. object_ids m.layers) (active_map self.now.machine)) }
    {
        match self.active_map() {
            Some(map) => Ok(Some(all_object_ids(self.alloc, map)?)),
            None => Ok(None),
        }
    }

    /// The ids of the objects of the object layer with an id, in order. `None` where no document is active or its map has no such
    /// object layer. It fails only out of memory.
    pub fn object_ids_of_layer(&self, layer: u32) -> Result<Option<Vec<u32>>, AllocError>
        ensures { IfOk result (λ ids. option_map (λ v. v.items) ids ≡ object_ids_in layer (active_map self.now.machine)) }
    {
        match self.active_map() {
            Some(map) => object_ids_of_layer(self.alloc, map, layer),
            None => Ok(None),
        }
    }

    /// The first ids of the tilesets of the active document's map, in order, and `None` where no document is active. It fails only
    /// out of memory.
    pub fn tilesets(&self) -> Result<Option<Vec<u32>>, AllocError>
        ensures { IfOk result (λ ids. option_map (λ v. v.items) ids ≡ option_map (λ m. flat_map first_ids_of m.tilesets) (active_map self.now.machine)) }
    {
        match self.active_map() {
            Some(map) => Ok(Some(first_ids_of(self.alloc, map)?)),
            None => Ok(None),
        }
    }

    /// The id of the layer of the object with an id, and `None` where no document is active or its map has no such object.
    pub fn object_layer(&self, id: u32) -> Option<u32>
        ensures { result ≡ object_layer id (active_map self.now.machine) }
    {
        match self.active_map() {
            Some(map) => match map.object(id) {
                Some((place, _)) => Some(place.layer),
                None => None,
            },
            None => None,
        }
    }

    /// The id of the first layer or object in drawing order that has a name, and `None` where no document is active or its map has no
    /// such one. It walks, and writes no text.
    pub fn id_of_name(&self, subject: Subject, name: &str) -> Option<u32>
        ensures { result ≡ id_of_name_in subject name.now (active_map self.now.machine) }
    {
        match self.active_map() {
            Some(map) => id_of_name(map, subject, name),
            None => None,
        }
    }
}

// The texts of single things, each as it stands in the text of the active document's map.
impl MemoryEditor {
    /// The text of the object with an id, and `None` where no document is active or its map has no such object. It fails only out
    /// of memory.
    pub fn object(&self, id: u32) -> Result<Option<Vec<u8>>, AllocError>
        ensures { IfOk result (λ text. option_map (λ bytes. bytes.items) text ≡ object_in id (active_map self.now.machine)) }
    {
        match self.active_map() {
            Some(map) => write_object(self.alloc, map, id),
            None => Ok(None),
        }
    }

    /// The text of the layer with an id without its cells and what tells how they are written, its objects and its layers. `None`
    /// where no document is active or its map has no such layer. It fails only out of memory.
    pub fn layer(&self, id: u32) -> Result<Option<Vec<u8>>, AllocError>
        ensures { IfOk result (λ text. option_map (λ bytes. bytes.items) text ≡ layer_in id (active_map self.now.machine)) }
    {
        match self.active_map() {
            Some(map) => write_layer_head(self.alloc, map, id),
            None => Ok(None),
        }
    }

    /// The text of the tileset with a first id, and `None` where no document is active or its map has no such tileset. It fails
    /// only out of memory.
    pub fn tileset(&self, first_id: u32) -> Result<Option<Vec<u8>>, AllocError>
        ensures { IfOk result (λ text. option_map (λ bytes. bytes.items) text ≡ tileset_in first_id (active_map self.now.machine)) }
    {
        match self.active_map() {
            Some(map) => write_tileset(self.alloc, map, first_id),
            None => Ok(None),
        }
    }

    /// The text of the map without its layers and its tilesets, and `None` where no document is active. It fails only out of memory.
    pub fn map_head(&self) -> Result<Option<Vec<u8>>, AllocError>
        ensures { IfOk result (λ text. option_map (λ bytes. bytes.items) text ≡ option_map map_head_text (active_map self.now.machine)) }
    {
        match self.active_map() {
            Some(map) => Ok(Some(write_map_head(self.alloc, map)?)),
            None => Ok(None),
        }
    }

    /// The text of the array of an owner's properties, `[]` where it has none, and `None` where no document is active or its map has
    /// no such owner. It fails only out of memory.
    pub fn properties(&self, owner: Owner) -> Result<Option<Vec<u8>>, AllocError>
        ensures { IfOk result (λ text. option_map (λ bytes. bytes.items) text ≡ properties_in owner (active_map self.now.machine)) }
    {
        match self.active_map() {
            Some(map) => write_properties(self.alloc, map, owner),
            None => Ok(None),
        }
    }

    /// The text of the property with a name of an owner. `None` where no document is active, its map has no such owner, or that owner
    /// no such property. It fails only out of memory.
    pub fn property(&self, owner: Owner, name: &str) -> Result<Option<Vec<u8>>, AllocError>
        ensures { IfOk result (λ text. option_map (λ bytes. bytes.items) text ≡ property_in owner name.now (active_map self.now.machine)) }
    {
        match self.active_map() {
            Some(map) => write_property(self.alloc, map, owner, name),
            None => Ok(None),
        }
    }
}

// Where look-ups go to first.
impl MemoryEditor {
    /// Goes to the object with an id in the active document, so that the next look-up finds it at once where ids rise along its layer.
    /// It is for speed alone: nothing that is told changes.
    pub fn seek_object(&mut self, id: u32)
        ensures { self.new ≡ self.old }
    {
        self.editor.seek_object(id);
    }

    /// Goes to an owner of properties in the same way, where it is an object.
    pub fn seek_owner(&mut self, owner: Owner)
        ensures { self.new ≡ self.old }
    {
        match owner {
            Owner::Object(id) => self.seek_object(id),
            Owner::Layer(_) => {}
            Owner::Map => {}
        }
    }
}

// The open documents, in order of opening.
impl MemoryEditor {
    /// How many documents are open.
    pub fn document_count(&self) -> usize
        ensures { result ≡ length self.now.machine.group.documents }
    {
        self.editor.group().count()
    }

    /// The name of the document at a place, where the first one has 0, and `None` past the last one.
    pub fn document_name(&self, place: usize) -> Option<&str>
        ensures { option_copied result ≡ option_map (λ d. d.name) (slice_get self.now.machine.group.documents place) }
    {
        self.editor.group().name_at(place)
    }

    /// The place of the active document, and `None` where none is active.
    pub fn active_place(&self) -> Option<usize>
        ensures { result ≡ active_place self.now.machine.group }
    {
        self.editor.group().active_place()
    }

    /// How the document at a place stands, and `None` past the last one. No line is done, and none becomes active.
    pub fn status_of(&self, place: usize) -> Option<Status>
        ensures { result ≡ status_at place self.now.machine.group }
    {
        let group = self.editor.group();
        let stack = group.stack_at(place)?;
        Some(Status {
            index: stack.index(),
            count: stack.count(),
            depth: stack.depth(),
            is_clean: stack.is_clean(),
            is_active: group.active_place() == Some(place),
        })
    }
}
