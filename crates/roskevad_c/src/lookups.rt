// The calls that tell what there is: of the active document's map one thing at a time, and of the open documents.
ghost use Rattle.std.specs.Prelude.{◌≡◌, IsUtf8, List, ℕ, None, Some, length, slice_get};
ghost use Rattle.std.specs.Option.{option_map};
ghost use Rattle.map_json.specs.PartTexts.{map_head_text};
ghost use Rattle.undo_group.specs.Groups.{active_place};
ghost use Rattle.memory_editor.specs.Parts.{active_map};
ghost use Rattle.roskevad_c.specs.Answers.{told_bytes, told_number, told_size};
ghost use Rattle.roskevad_c.specs.Things.{document_status_at, first_ids_at, layer_at, named_at, object_at, object_ids_at, object_layer_at, properties_at, property_at, rows_at, sizes_at, tileset_at, Tells, TellsOne, TellsRows};

use crate::answers::{CLOSED, DONE, NONE};
use crate::c_editor::CEditor;
use crate::copies::copy_bytes;
use crate::things::{CLayerRow, DocumentStatus, MapSizes, owner_of, subject_of};
use crate::told::{copy_told, copy_told_ids, copy_told_rows};
use std::alloc::Global;

/// Gives out the sizes of the active document's map. Answers `DONE`, `NONE` where no document is active, or `CLOSED`; but for `DONE`
/// the sizes are as they were.
#[unsafe(no_mangle)]
pub extern "C" fn roskevad_sizes_of_map(
    alloc: Global,
    editor: &mut CEditor,
    sizes: &mut MapSizes,
) -> usize
    ensures unchanged { editor.new.held.held_editor ≡ editor.old.held.held_editor }
    ensures told { TellsOne (option_map sizes_at editor.old.held.held_editor) result sizes.old sizes.new }
{
    let Some(boxed) = editor.take(alloc) else {
        return CLOSED;
    };
    let answer = match boxed.sizes() {
        Some(found) => {
            *sizes = MapSizes::of(found);
            DONE
        }
        None => NONE,
    };
    *editor = CEditor::of_box(boxed);
    answer
}

/// Copies the rows of all layers of the active document's map, in drawing order, a group before those that stand in it. Answers how
/// many they are, `NONE` where no document is active, `NO_MEMORY` or `CLOSED`.
#[unsafe(no_mangle)]
pub extern "C" fn roskevad_layers(
    alloc: Global,
    editor: &mut CEditor,
    rows: &mut [CLayerRow],
) -> usize
    ensures unchanged { editor.new.held.held_editor ≡ editor.old.held.held_editor }
    ensures told { TellsRows (option_map rows_at editor.old.held.held_editor) result rows.old rows.new }
{
    let Some(boxed) = editor.take(alloc) else {
        return CLOSED;
    };
    let count = copy_told_rows(alloc, boxed.layers(), rows);
    *editor = CEditor::of_box(boxed);
    count
}

/// Copies the ids of the objects of the object layer with this id of the active document's map, in order, or at 0 those of all layers
/// in drawing order. Answers how many they are, `NONE` where no document is active or its map has no such object layer, `NO_MEMORY`
/// or `CLOSED`.
#[unsafe(no_mangle)]
pub extern "C" fn roskevad_object_ids(
    alloc: Global,
    editor: &mut CEditor,
    layer: u32,
    ids: &mut [u32],
) -> usize
    ensures unchanged { editor.new.held.held_editor ≡ editor.old.held.held_editor }
    ensures told { Tells (option_map (object_ids_at layer) editor.old.held.held_editor) result ids.old ids.new }
{
    let Some(boxed) = editor.take(alloc) else {
        return CLOSED;
    };
    let count = if layer == 0 {
        copy_told_ids(boxed.object_ids(), ids)
    } else {
        copy_told_ids(boxed.object_ids_of_layer(layer), ids)
    };
    *editor = CEditor::of_box(boxed);
    count
}

/// Copies the first ids of the tilesets of the active document's map, in order. Answers how many they are, `NONE` where no document is
/// active, `NO_MEMORY` or `CLOSED`.
#[unsafe(no_mangle)]
pub extern "C" fn roskevad_tilesets(
    alloc: Global,
    editor: &mut CEditor,
    first_ids: &mut [u32],
) -> usize
    ensures unchanged { editor.new.held.held_editor ≡ editor.old.held.held_editor }
    ensures told { Tells (option_map first_ids_at editor.old.held.held_editor) result first_ids.old first_ids.new }
{
    let Some(boxed) = editor.take(alloc) else {
        return CLOSED;
    };
    let count = copy_told_ids(boxed.tilesets(), first_ids);
    *editor = CEditor::of_box(boxed);
    count
}

/// Copies the text of the object with this id of the active document's map, as it stands in the map's text. Answers its size, `NONE`
/// where no document is active or its map has no such object, `NO_MEMORY` or `CLOSED`.
#[unsafe(no_mangle)]
pub extern "C" fn roskevad_object(
    alloc: Global,
    editor: &mut CEditor,
    id: u32,
    text: &mut [u8],
) -> usize
    ensures unchanged { editor.new.held.held_editor ≡ editor.old.held.held_editor }
    ensures told { Tells (option_map (object_at id) editor.old.held.held_editor) result text.old text.new }
{
    let Some(mut boxed) = editor.take(alloc) else {
        return CLOSED;
    };
    boxed.seek_object(id);
    let size = copy_told(boxed.object(id), text);
    *editor = CEditor::of_box(boxed);
    size
}

/// The id of the layer of the object with this id of the active document's map, `NONE` where no document is active or its map has no
/// such object, or `CLOSED`.
#[unsafe(no_mangle)]
pub extern "C" fn roskevad_object_layer(alloc: Global, editor: &mut CEditor, id: u32) -> usize
    ensures unchanged { editor.new.held.held_editor ≡ editor.old.held.held_editor }
    ensures told { result ≡ told_number (option_map (object_layer_at id) editor.old.held.held_editor) }
{
    let Some(mut boxed) = editor.take(alloc) else {
        return CLOSED;
    };
    boxed.seek_object(id);
    let answer = match boxed.object_layer(id) {
        Some(layer) => layer as usize,
        None => NONE,
    };
    *editor = CEditor::of_box(boxed);
    answer
}

/// Copies the text of the layer with this id of the active document's map, without its cells and what tells how they are written, its
/// objects and its layers. Answers its size, `NONE` where no document is active or its map has no such layer, `NO_MEMORY` or `CLOSED`.
#[unsafe(no_mangle)]
pub extern "C" fn roskevad_layer(
    alloc: Global,
    editor: &mut CEditor,
    id: u32,
    text: &mut [u8],
) -> usize
    ensures unchanged { editor.new.held.held_editor ≡ editor.old.held.held_editor }
    ensures told { Tells (option_map (layer_at id) editor.old.held.held_editor) result text.old text.new }
{
    let Some(boxed) = editor.take(alloc) else {
        return CLOSED;
    };
    let size = copy_told(boxed.layer(id), text);
    *editor = CEditor::of_box(boxed);
    size
}

/// Copies the text of the tileset with this first id of the active document's map, as it stands in the map's text. Answers its size,
/// `NONE` where no document is active or its map has no such tileset, `NO_MEMORY` or `CLOSED`.
#[unsafe(no_mangle)]
pub extern "C" fn roskevad_tileset(
    alloc: Global,
    editor: &mut CEditor,
    first_id: u32,
    text: &mut [u8],
) -> usize
    ensures unchanged { editor.new.held.held_editor ≡ editor.old.held.held_editor }
    ensures told { Tells (option_map (tileset_at first_id) editor.old.held.held_editor) result text.old text.new }
{
    let Some(boxed) = editor.take(alloc) else {
        return CLOSED;
    };
    let size = copy_told(boxed.tileset(first_id), text);
    *editor = CEditor::of_box(boxed);
    size
}

/// Copies the text of the active document's map without its layers and its tilesets. Answers its size, `NONE` where no document is
/// active, `NO_MEMORY` or `CLOSED`.
#[unsafe(no_mangle)]
pub extern "C" fn roskevad_map_head(alloc: Global, editor: &mut CEditor, text: &mut [u8]) -> usize
    ensures unchanged { editor.new.held.held_editor ≡ editor.old.held.held_editor }
    ensures told { Tells (option_map (λ s. option_map map_head_text (active_map s.machine)) editor.old.held.held_editor) result text.old text.new }
{
    let Some(boxed) = editor.take(alloc) else {
        return CLOSED;
    };
    let size = copy_told(boxed.map_head(), text);
    *editor = CEditor::of_box(boxed);
    size
}

/// Copies the text of the array of an owner's properties, `[]` where it has none. The owner is the map (1), the layer (2) or the object
/// (3) with this id; a map has no id. Answers the size, `NONE` where no document is active or its map has no such owner, `NO_MEMORY`
/// or `CLOSED`.
#[unsafe(no_mangle)]
pub extern "C" fn roskevad_properties(
    alloc: Global,
    editor: &mut CEditor,
    owner: u32,
    id: u32,
    text: &mut [u8],
) -> usize
    ensures unchanged { editor.new.held.held_editor ≡ editor.old.held.held_editor }
    ensures told { Tells (option_map (properties_at owner id) editor.old.held.held_editor) result text.old text.new }
{
    let Some(mut boxed) = editor.take(alloc) else {
        return CLOSED;
    };
    let size = match owner_of(owner, id) {
        Some(found) => {
            boxed.seek_owner(found);
            copy_told(boxed.properties(found), text)
        }
        None => NONE,
    };
    *editor = CEditor::of_box(boxed);
    size
}

/// Copies the text of the property of this name of an owner, which is given as for `roskevad_properties`. Answers its size, `NONE` where
/// no document is active, its map has no such owner, that owner no such property, or the name is no UTF-8, `NO_MEMORY` or `CLOSED`.
#[unsafe(no_mangle)]
pub extern "C" fn roskevad_property(
    alloc: Global,
    editor: &mut CEditor,
    owner: u32,
    id: u32,
    name: &[u8],
    text: &mut [u8],
) -> usize
    ensures unchanged { editor.new.held.held_editor ≡ editor.old.held.held_editor }
    ensures told { IsUtf8 name.now → Tells (option_map (property_at owner id name.now) editor.old.held.held_editor) result text.old text.new }
    ensures no_text { ¬ IsUtf8 name.now → Tells (option_map (λ s. None) editor.old.held.held_editor) result text.old text.new }
{
    let Some(mut boxed) = editor.take(alloc) else {
        return CLOSED;
    };
    let size = match (owner_of(owner, id), str::from_utf8(name)) {
        (Some(found), Ok(name)) => {
            boxed.seek_owner(found);
            copy_told(boxed.property(found, name), text)
        }
        _ => NONE,
    };
    *editor = CEditor::of_box(boxed);
    size
}

/// The id of the first layer (2) or object (3) in drawing order that has this name, `NONE` where no document is active, its map has no
/// such one, or the name is no UTF-8, or `CLOSED`.
#[unsafe(no_mangle)]
pub extern "C" fn roskevad_find(
    alloc: Global,
    editor: &mut CEditor,
    subject: u32,
    name: &[u8],
) -> usize
    ensures unchanged { editor.new.held.held_editor ≡ editor.old.held.held_editor }
    ensures told { IsUtf8 name.now → result ≡ told_number (option_map (named_at subject name.now) editor.old.held.held_editor) }
    ensures no_text { ¬ IsUtf8 name.now → result ≡ told_number (option_map (λ s. None) editor.old.held.held_editor) }
{
    let Some(boxed) = editor.take(alloc) else {
        return CLOSED;
    };
    let found = match (subject_of(subject), str::from_utf8(name)) {
        (Some(subject), Ok(name)) => boxed.id_of_name(subject, name),
        _ => None,
    };
    *editor = CEditor::of_box(boxed);
    match found {
        Some(id) => id as usize,
        None => NONE,
    }
}

/// How many documents are open, or `CLOSED`.
#[unsafe(no_mangle)]
pub extern "C" fn roskevad_document_count(alloc: Global, editor: &mut CEditor) -> usize
    ensures unchanged { editor.new.held.held_editor ≡ editor.old.held.held_editor }
    ensures told { result ≡ told_number (option_map (λ s. Some (length s.machine.group.documents)) editor.old.held.held_editor) }
{
    let Some(boxed) = editor.take(alloc) else {
        return CLOSED;
    };
    let count = boxed.document_count();
    *editor = CEditor::of_box(boxed);
    count
}

/// Copies the name of the document at a place in order of opening, where the first has 0. Answers its size, `NONE` past the last one,
/// or `CLOSED`.
#[unsafe(no_mangle)]
pub extern "C" fn roskevad_document_name(
    alloc: Global,
    editor: &mut CEditor,
    at: usize,
    name: &mut [u8],
) -> usize
    ensures unchanged { editor.new.held.held_editor ≡ editor.old.held.held_editor }
    ensures size { result ≡ told_size (option_map (λ s. option_map (λ d. d.name) (slice_get s.machine.group.documents at)) editor.old.held.held_editor) }
    ensures copied { name.new ≡ told_bytes (option_map (λ s. option_map (λ d. d.name) (slice_get s.machine.group.documents at)) editor.old.held.held_editor) name.old }
{
    let Some(boxed) = editor.take(alloc) else {
        return CLOSED;
    };
    let size = match boxed.document_name(at) {
        Some(found) => copy_bytes(Some(found.as_bytes()), name),
        None => NONE,
    };
    *editor = CEditor::of_box(boxed);
    size
}

/// The place of the active document in order of opening, where the first has 0, `NONE` where none is active, or `CLOSED`.
#[unsafe(no_mangle)]
pub extern "C" fn roskevad_active(alloc: Global, editor: &mut CEditor) -> usize
    ensures unchanged { editor.new.held.held_editor ≡ editor.old.held.held_editor }
    ensures told { result ≡ told_number (option_map (λ s. active_place s.machine.group) editor.old.held.held_editor) }
{
    let Some(boxed) = editor.take(alloc) else {
        return CLOSED;
    };
    let answer = boxed.active_place().unwrap_or(NONE);
    *editor = CEditor::of_box(boxed);
    answer
}

/// Gives out how the document at a place stands, where the first has 0. No line is done, and none becomes active. Answers `DONE`, `NONE`
/// past the last one, or `CLOSED`; but for `DONE` the status is as it was.
#[unsafe(no_mangle)]
pub extern "C" fn roskevad_status_of(
    alloc: Global,
    editor: &mut CEditor,
    at: usize,
    status: &mut DocumentStatus,
) -> usize
    ensures unchanged { editor.new.held.held_editor ≡ editor.old.held.held_editor }
    ensures told { TellsOne (option_map (document_status_at at) editor.old.held.held_editor) result status.old status.new }
{
    let Some(boxed) = editor.take(alloc) else {
        return CLOSED;
    };
    let answer = match boxed.status_of(at) {
        Some(found) => {
            *status = DocumentStatus::of(found);
            DONE
        }
        None => NONE,
    };
    *editor = CEditor::of_box(boxed);
    answer
}
