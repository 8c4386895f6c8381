// Notes of a map and of its layers: heads, each of which changes places with the one that its owner has.
ghost use Rattle.std.specs.Prelude.{◌≡◌, ◌++◌, IfOk, OnOk};
ghost use Rattle.std.specs.List.{flat_map};
ghost use Rattle.infinite_maps.specs.Margins.{layer_with, map_with};
ghost use Rattle.map_model.specs.Groups.{drawn, tree};
ghost use Rattle.map_model.specs.Heads.{layer_head, map_head};
ghost use Rattle.map_model.specs.Keeping.{layer_tier};
ghost use Rattle.layer_commands.specs.Extending.{layer_notes, moved_head, moved_map_head, notes_of};
ghost use Rattle.layer_commands.specs.Notes.{FitNotes, FitsNote, notes_back, own_note, own_notes, with_note, with_notes};

use infinite_maps::{Margin, has_note, moved_layer_note, moved_notes};
use json_members::found;
use json_trees::RESERVED_NAME;
use link_chain::Chain;
use map_model::limits::MAX_GROUPS;
use map_model::{Document, Kept, Layer, LayerHead, MapHead, MapParts, MapText};
use map_values::JsonObject;
use std::alloc::{AllocError, Global};

/// A head that has the notes of its owner.
#[derive(Drop)]
pub enum Note {
    /// One of the map.
    Map(MapHead),
    /// One of the layer with this id.
    Layer(u32, LayerHead),
}

fn exchange_note(note: &mut Option<Note>, document: &mut Document)
    requires { FitsNote note.old document.old }
    ensures note { note.new ≡ own_note note.old document.old }
    ensures document { document.new ≡ with_note note.old document.old }
{
    match note.take() {
        Some(Note::Map(head)) => *note = Some(Note::Map(document.set_map_head(head))),
        Some(Note::Layer(layer, head)) => {
            *note = Some(Note::Layer(layer, document.set_layer_head(layer, head)));
        }
        None => {}
    }
}

fn exchange_each(notes: &mut [Option<Note>], document: &mut Document)
    requires { FitNotes notes.old document.old }
    ensures notes { notes.new ≡ own_notes notes.old document.old }
    ensures document { document.new ≡ with_notes notes.old document.old }
{
    for at in 0..notes.len() {
        exchange_note(&mut notes[at], document);
    }
}

/// Gives owners these heads one after another, and takes theirs, the last one first, so that the same call then puts them back.
pub fn exchange_notes(notes: &mut Vec<Option<Note>>, document: &mut Document)
    requires { FitNotes notes.old.items document.old }
    ensures notes { notes.new.items ≡ notes_back notes.old.items document.old }
    ensures document { document.new ≡ with_notes notes.old.items document.old }
{
    let notes = notes.as_mut_slice();
    exchange_each(notes, document);
    notes.reverse();
}

fn kept_of_map(alloc: Global, by: Margin, kept: &Kept) -> Result<Kept, AllocError>
    ensures { IfOk result (λ moved. moved ≡ map_with by kept.now) }
{
    let mut members = JsonObject::from_kept(alloc, kept)?;
    if let Some(notes) = found(kept.members(), RESERVED_NAME) {
        members.put(alloc, RESERVED_NAME, moved_notes(alloc, by, notes)?)?;
    }
    Ok(members.into_kept())
}

fn kept_of_layer(alloc: Global, by: Margin, kept: &Kept) -> Result<Kept, AllocError>
    ensures { IfOk result (λ moved. moved ≡ layer_with by kept.now) }
{
    let mut members = JsonObject::from_kept(alloc, kept)?;
    if let Some(note) = found(kept.members(), RESERVED_NAME) {
        members.put(alloc, RESERVED_NAME, moved_layer_note(alloc, by, note)?)?;
    }
    Ok(members.into_kept())
}

fn moved_map_head(alloc: Global, by: Margin, parts: &MapParts) -> Result<MapHead, AllocError>
    ensures { IfOk result (λ head. head ≡ moved_map_head by (map_head parts.now)) }
{
    Ok(MapHead {
        tile_width: parts.tile_width,
        tile_height: parts.tile_height,
        next_layer_id: parts.next_layer_id,
        next_object_id: parts.next_object_id,
        kept: kept_of_map(alloc, by, &parts.kept)?,
    })
}

fn moved_head(alloc: Global, by: Margin, layer: &Layer) -> Result<LayerHead, AllocError>
    ensures { IfOk result (λ head. head ≡ moved_head by (layer_head layer.now)) }
{
    Ok(LayerHead {
        name: MapText::new(String::from_str(alloc, layer.name.as_str())?),
        visible: layer.visible,
        kept: kept_of_layer(alloc, by, &layer.kept)?,
    })
}

// Adds the note of a layer, where it is a tile layer.
fn push_note(
    alloc: Global,
    notes: &mut Vec<Option<Note>>,
    layer: &Layer,
    by: Margin,
) -> Result<(), AllocError>
    ensures { OnOk result (notes.new.items ≡ notes.old.items ++ layer_notes by (layer_tier, layer.now)) }
{
    if layer.body.tiles().is_none() {
        return Ok(());
    }
    notes.push(Some(Note::Layer(layer.id, moved_head(alloc, by, layer)?)))?;
    Ok(())
}

// Adds the notes of some layers, and of those that stand in them in as many groups as there is room for.
#[cycle(push)]
fn push_layers(
    alloc: Global,
    notes: &mut Vec<Option<Note>>,
    layers: &Chain<Layer>,
    by: Margin,
    groups: usize,
) -> Result<(), AllocError>
    ensures { OnOk result (notes.new.items ≡ notes.old.items ++ flat_map (layer_notes by) (drawn groups layer_tier layers.now)) }
{
    for layer in layers.iter() {
        push_layer(alloc, notes, layer, by, groups)?;
    }
    Ok(())
}

// Adds the notes of one layer, and of those that stand in it.
#[cycle(push)]
fn push_layer(
    alloc: Global,
    notes: &mut Vec<Option<Note>>,
    layer: &Layer,
    by: Margin,
    groups: usize,
) -> Result<(), AllocError>
    ensures { OnOk result (notes.new.items ≡ notes.old.items ++ flat_map (layer_notes by) (tree groups layer_tier layer.now)) }
{
    push_note(alloc, notes, layer, by)?;
    if groups == 0 {
        return Ok(());
    }
    match layer.body.layers() {
        Some(inside) => push_layers(alloc, notes, inside, by, groups - 1),
        None => Ok(()),
    }
}

/// The heads of a map and of its tile layers whose notes are those of a map that has got a margin; none, where it was not infinite.
pub fn notes_of(
    alloc: Global,
    parts: &MapParts,
    by: Margin,
) -> Result<Vec<Option<Note>>, AllocError>
    ensures { IfOk result (λ notes. notes.items ≡ notes_of by parts.now) }
{
    let mut notes = Vec::new(alloc);
    if !has_note(parts.kept.members()) {
        return Ok(notes);
    }
    notes.push(Some(Note::Map(moved_map_head(alloc, by, parts)?)))?;
    push_layers(alloc, &mut notes, &parts.layers, by, MAX_GROUPS)?;
    Ok(notes)
}
