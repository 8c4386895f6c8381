// The edits that lines ask for. Each but a stamp is planned in a frame of its own: a function pays at its entry for the size of
// its locals.
ghost use Rattle.std.specs.Prelude.{◌≡◌, [], OnOk};
ghost use Rattle.edits.specs.Filling.{after_fill};
ghost use Rattle.edits.specs.LayerEdits.{after_add, after_move, after_remove, after_rename, after_show};
ghost use Rattle.edits.specs.ObjectEdits.{after_add_object, after_move_object, after_remove_object, after_resize_object};
ghost use Rattle.edits.specs.PropertyEdits.{after_remove_property, after_set_property};
ghost use Rattle.edits.specs.Resizing.{after_resize};
ghost use Rattle.edits.specs.Selecting.{after_select};
ghost use Rattle.edits.specs.Stamping.{after_erase, after_stamp};
ghost use Rattle.edits.specs.TilesetEdits.{after_add_tileset, after_remove_tileset};
ghost use Rattle.layer_commands.specs.Names.{add_names, move_names, remove_names, rename_names, resize_names, show_names};
ghost use Rattle.object_commands.specs.Names.{add_object_names, move_object_names, remove_object_names, resize_object_names};
ghost use Rattle.paint_commands.specs.Names.{erase_names, fill_names, stamp_names, select_names};
ghost use Rattle.property_commands.specs.Names.{remove_property_names, set_property_names, add_tileset_names, remove_tileset_names};
ghost use Rattle.session.specs.Spelling.{CanBeSpelled};
ghost use Rattle.session.specs.TypedValues.{property_value, type_name};
ghost use Rattle.session.specs.declared.line.Line.TheVariants as lines;
ghost use Rattle.document_lines.specs.Acts.{answer_of};
ghost use Rattle.document_lines.specs.Planning.{PlansEdit};

use crate::planned::{Edit, Planned};
use crate::planning::{planned, refused};
use edits::{Area, Block, Selecting};
use layer_commands::{AddLayer, MoveLayer, RemoveLayer, RenameLayer, ResizeMap, ShowLayer};
use map_model::{Document, LayerKind, Owner};
use object_commands::{AddObject, PlaceObject, RemoveObject};
use paint_commands::{PaintCommand, SelectCommand};
use property_commands::{AddTileset, RemoveProperty, RemoveTileset, SetProperty};
use refusals::Refusal;
use session::{Gids, Text, TypedValue};
use smallvec::SmallVec;
use std::alloc::{AllocError, Global};
use tile_id::Gid;

// So many values of a stamp take no memory.
const FEW_VALUES: usize = 16;

// Collects the values of a line, one after another; where they are not few, room for them is taken once. They are put where they
// stay, since a value that is handed back is copied.
fn collect(values: &Gids<'_>, collected: &mut SmallVec<Gid, FEW_VALUES>) -> Result<(), AllocError>
    requires { collected.old.items ≡ [] }
    ensures { OnOk result (collected.new.items ≡ values.now) }
{
    collected.reserve(values.len())?;
    for value in values.values() {
        collected.push_reserved(value);
    }
    Ok(())
}

/// The block of a stamp, its values as they stand in the line.
#[derive(Clone, Copy)]
pub struct SpelledBlock<'a> {
    pub x: i32,
    pub y: i32,
    pub width: u32,
    pub values: &'a Gids<'a>,
}

// ---- cells and the selection

pub fn plan_stamp(
    alloc: Global,
    document: &Document,
    layer: u32,
    block: &SpelledBlock<'_>,
    follows: bool,
) -> Planned
    requires { CanBeSpelled (lines.Stamp layer block.now.x block.now.y block.now.width block.now.values.now follows) }
    ensures { PlansEdit (answer_of (stamp_names layer follows) (after_stamp document.now layer
        (record { x = block.now.x; y = block.now.y; width = block.now.width; values = block.now.values.now }))) document.now result }
{
    let mut values = SmallVec::new(alloc);
    let Ok(()) = collect(block.values, &mut values) else {
        return refused(Refusal::NoMemory);
    };
    let block = Block {
        x: block.x,
        y: block.y,
        width: block.width,
        values: values.as_slice(),
    };
    planned(PaintCommand::stamp(alloc, document, layer, &block, follows).map(Edit::Paint))
}

#[inline(never)]
pub fn plan_erase(
    alloc: Global,
    document: &Document,
    layer: u32,
    area: &Area,
    follows: bool,
) -> Planned
    ensures { PlansEdit (answer_of (erase_names layer follows) (after_erase document.now layer area.now)) document.now result }
{
    planned(PaintCommand::erase(alloc, document, layer, area, follows).map(Edit::Paint))
}

#[inline(never)]
pub fn plan_fill(
    alloc: Global,
    document: &Document,
    layer: u32,
    x: i32,
    y: i32,
    value: Gid,
) -> Planned
    ensures { PlansEdit (answer_of fill_names (after_fill document.now layer x y value)) document.now result }
{
    planned(PaintCommand::fill(alloc, document, layer, x, y, value).map(Edit::Paint))
}

#[inline(never)]
pub fn plan_select(alloc: Global, document: &Document, selecting: Selecting) -> Planned
    ensures { PlansEdit (answer_of select_names (after_select document.now selecting)) document.now result }
{
    planned(SelectCommand::new(alloc, document, selecting).map(Edit::Select))
}

// ---- layers and the map's size

#[inline(never)]
pub fn plan_add_layer(
    alloc: Global,
    document: &Document,
    kind: LayerKind,
    name: &Text<'_>,
) -> Planned
    ensures { PlansEdit (answer_of add_names (after_add document.now kind name.now)) document.now result }
{
    planned(AddLayer::new(alloc, document, kind, name.as_str()).map(Edit::AddLayer))
}

#[inline(never)]
pub fn plan_remove_layer(document: &Document, layer: u32) -> Planned
    ensures { PlansEdit (answer_of remove_names (after_remove document.now layer)) document.now result }
{
    planned(RemoveLayer::new(document, layer).map(Edit::RemoveLayer))
}

#[inline(never)]
pub fn plan_rename_layer(alloc: Global, document: &Document, layer: u32, name: &Text<'_>) -> Planned
    ensures { PlansEdit (answer_of rename_names (after_rename document.now layer name.now)) document.now result }
{
    planned(RenameLayer::new(alloc, document, layer, name.as_str()).map(Edit::RenameLayer))
}

#[inline(never)]
pub fn plan_show_layer(document: &Document, layer: u32, visible: bool) -> Planned
    ensures { PlansEdit (answer_of show_names (after_show document.now layer visible)) document.now result }
{
    planned(ShowLayer::new(document, layer, visible).map(Edit::ShowLayer))
}

#[inline(never)]
pub fn plan_move_layer(document: &Document, layer: u32, place: u32) -> Planned
    ensures { PlansEdit (answer_of move_names (after_move document.now layer place)) document.now result }
{
    planned(MoveLayer::new(document, layer, place).map(Edit::MoveLayer))
}

#[inline(never)]
pub fn plan_resize(
    alloc: Global,
    document: &Document,
    width: u32,
    height: u32,
    dx: i32,
    dy: i32,
) -> Planned
    requires { CanBeSpelled (lines.Resize width height dx dy) }
    ensures { PlansEdit (answer_of resize_names (after_resize document.now width height dx dy)) document.now result }
{
    planned(ResizeMap::new(alloc, document, width, height, dx, dy).map(Edit::ResizeMap))
}

// ---- objects

#[inline(never)]
pub fn plan_add_object(
    alloc: Global,
    document: &Document,
    layer: u32,
    area: &Area,
    name: &Text<'_>,
) -> Planned
    requires { CanBeSpelled (lines.AddObject layer area.now.x area.now.y area.now.width area.now.height name.now) }
    ensures { PlansEdit (answer_of add_object_names (after_add_object document.now layer area.now.x area.now.y area.now.width area.now.height name.now)) document.now result }
{
    let (x, y, width, height) = (area.x, area.y, area.width, area.height);
    let name = name.as_str();
    planned(AddObject::new(alloc, document, layer, x, y, width, height, name).map(Edit::AddObject))
}

#[inline(never)]
pub fn plan_move_object(document: &Document, object: u32, x: i32, y: i32, follows: bool) -> Planned
    requires { CanBeSpelled (lines.MoveObject object x y follows) }
    ensures { PlansEdit (answer_of (move_object_names object follows) (after_move_object document.now object x y)) document.now result }
{
    planned(PlaceObject::moved(document, object, x, y, follows).map(Edit::PlaceObject))
}

#[inline(never)]
pub fn plan_resize_object(document: &Document, object: u32, width: u32, height: u32) -> Planned
    ensures { PlansEdit (answer_of resize_object_names (after_resize_object document.now object width height)) document.now result }
{
    planned(PlaceObject::resized(document, object, width, height).map(Edit::PlaceObject))
}

#[inline(never)]
pub fn plan_remove_object(document: &Document, object: u32) -> Planned
    ensures { PlansEdit (answer_of remove_object_names (after_remove_object document.now object)) document.now result }
{
    planned(RemoveObject::new(document, object).map(Edit::RemoveObject))
}

// ---- properties and tilesets

#[inline(never)]
pub fn plan_set_property(
    alloc: Global,
    document: &Document,
    owner: Owner,
    name: &Text<'_>,
    value: &TypedValue<'_>,
    follows: bool,
) -> Planned
    ensures { PlansEdit (answer_of (set_property_names owner name.now follows) (after_set_property document.now owner name.now (type_name value.now) (property_value value.now))) document.now result }
{
    let (name, kind, value) = (name.as_str(), value.type_name(), value.scalar());
    let command = SetProperty::new(alloc, document, owner, name, kind, value, follows);
    planned(command.map(Edit::SetProperty))
}

#[inline(never)]
pub fn plan_remove_property(document: &Document, owner: Owner, name: &Text<'_>) -> Planned
    ensures { PlansEdit (answer_of remove_property_names (after_remove_property document.now owner name.now)) document.now result }
{
    planned(RemoveProperty::new(document, owner, name.as_str()).map(Edit::RemoveProperty))
}

#[inline(never)]
pub fn plan_add_tileset(
    alloc: Global,
    document: &Document,
    first_id: u32,
    source: &Text<'_>,
) -> Planned
    ensures { PlansEdit (answer_of add_tileset_names (after_add_tileset document.now first_id source.now)) document.now result }
{
    planned(AddTileset::new(alloc, document, first_id, source.as_str()).map(Edit::AddTileset))
}

#[inline(never)]
pub fn plan_remove_tileset(document: &Document, first_id: u32) -> Planned
    ensures { PlansEdit (answer_of remove_tileset_names (after_remove_tileset document.now first_id)) document.now result }
{
    planned(RemoveTileset::new(document, first_id).map(Edit::RemoveTileset))
}
