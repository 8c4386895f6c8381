// The edits that give an object or a layer another place in the map, a tileset another first id, or the map more room around it.
ghost use Rattle.std.specs.Prelude.{◌≡◌, ◌+◌, ◌≤◌, false, IfErr, IfNone, IfOk, IfSome};
ghost use Rattle.command_api.specs.Making.{IsRefusalOf, Makes};
ghost use Rattle.edits.specs.LayerEdits.{after_layer_into};
ghost use Rattle.edits.specs.ObjectEdits.{after_object_into};
ghost use Rattle.edits.specs.TilesetEdits.{after_number_tileset};
ghost use Rattle.layer_commands.specs.Changes.{resize_change};
ghost use Rattle.layer_commands.specs.Names.{move_names, resize_names};
ghost use Rattle.map_model.specs.declared.limits.TheConstants.{MAX_SIDE};
ghost use Rattle.map_model.specs.Sizes.{is_side};
ghost use Rattle.object_commands.specs.Names.{reparent_object_names};
ghost use Rattle.property_commands.specs.Names.{number_tileset_names};
ghost use Rattle.document_lines.specs.GivenEdits.{made};
ghost use Rattle.document_lines.specs.MoreRules.{more_answer_of};
ghost use Rattle.document_lines.specs.PlaceEdits.{after_extend, after_longer, parent_of};
ghost use Rattle.document_lines.specs.Planning.{PlansEdit};

use crate::planned::{Edit, Planned};
use crate::planning::planned;
use fractions::Fractions;
use layer_commands::{MoveLayer, ResizeMap};
use map_model::Document;
use map_model::limits::MAX_SIDE;
use object_commands::ReparentObject;
use property_commands::NumberTileset;
use refusals::EditFault;
use std::alloc::Global;

#[inline(never)]
pub fn plan_reparent_object(document: &Document, object: u32, layer: u32, place: u32) -> Planned
    ensures { PlansEdit (more_answer_of reparent_object_names (made (after_object_into document.now object layer place))) document.now result }
{
    planned(ReparentObject::new(document, object, layer, place).map(Edit::ReparentObject))
}

#[inline(never)]
pub fn plan_number_tileset(document: &Document, first_id: u32, number: u32) -> Planned
    ensures { PlansEdit (more_answer_of number_tileset_names (made (after_number_tileset document.now first_id number))) document.now result }
{
    planned(NumberTileset::new(document, first_id, number).map(Edit::NumberTileset))
}

/// The group that a line names: none where the number is 0.
pub fn parent_of(group: u32) -> Option<u32>
    ensures { result ≡ parent_of group }
{
    if group == 0 { None } else { Some(group) }
}

#[inline(never)]
pub fn plan_reparent_layer(document: &Document, layer: u32, group: u32, place: u32) -> Planned
    ensures { PlansEdit (more_answer_of move_names (made (after_layer_into document.now layer (parent_of group) place))) document.now result }
{
    planned(MoveLayer::reparent(document, layer, parent_of(group), place).map(Edit::MoveLayer))
}

// The length of a side of a map that gets so many columns or rows more before it and behind it. None where no map may be so long.
fn longer_side(side: u32, before: u32, behind: u32) -> Option<u32>
    ensures length { IfSome result (λ longer. longer ≡ side + before + behind) }
    ensures before { IfSome result (λ longer. before ≤ MAX_SIDE) }
    ensures none { IfNone result (is_side (side + before + behind) MAX_SIDE ≡ false) }
{
    let longer = u64::from(side) + u64::from(before) + u64::from(behind);
    if longer > u64::from(MAX_SIDE) {
        return None;
    }
    Some(longer as u32)
}

// The command that gives the map this width and height, so that it gets so many columns and rows at its left and top.
fn resized(
    alloc: Global,
    document: &Document,
    width: u32,
    height: u32,
    left: u32,
    top: u32,
    fractions: Fractions,
) -> Result<ResizeMap, EditFault>
    requires left { left ≤ MAX_SIDE }
    requires top { top ≤ MAX_SIDE }
    ensures command { IfOk result (λ c. Makes resize_names document.now (after_longer fractions document.now width height left top) (resize_change c)) }
    ensures refusal { IfErr result (IsRefusalOf (after_longer fractions document.now width height left top)) }
{
    match fractions {
        Fractions::Refused => {
            ResizeMap::new(alloc, document, width, height, left as i32, top as i32)
        }
        Fractions::SetAside => ResizeMap::extend(alloc, document, width, height, left, top),
    }
}

#[inline(never)]
pub fn plan_extend(
    alloc: Global,
    document: &Document,
    left: u32,
    top: u32,
    right: u32,
    bottom: u32,
    fractions: Fractions,
) -> Planned
    ensures { PlansEdit (more_answer_of resize_names (made (after_extend fractions document.now left top right bottom))) document.now result }
{
    let parts = document.map().parts();
    let Some(width) = longer_side(parts.width, left, right) else {
        return planned(Err(EditFault::OutOfRange));
    };
    let Some(height) = longer_side(parts.height, top, bottom) else {
        return planned(Err(EditFault::OutOfRange));
    };
    let resized = resized(alloc, document, width, height, left, top, fractions);
    planned(resized.map(Edit::ResizeMap))
}
