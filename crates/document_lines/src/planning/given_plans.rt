// The edits that put in what a JSON text says, as a file would say it, or that take out what one names, and layers of further kinds.
ghost use Rattle.std.specs.Prelude.{◌≡◌, false, IfOk, IfErr};
ghost use Rattle.command_api.specs.Making.{Makes};
ghost use Rattle.edits.specs.LayerEdits.{after_add_more};
ghost use Rattle.layer_commands.specs.Changes.{add_change};
ghost use Rattle.layer_commands.specs.Names.{add_names};
ghost use Rattle.member_commands.specs.Edits.{IsMoreRefusalOf};
ghost use Rattle.object_commands.specs.Changes.{add_object_change};
ghost use Rattle.object_commands.specs.Names.{add_object_names};
ghost use Rattle.property_commands.specs.Names.{add_tileset_names, put_property_names, remove_property_names};
ghost use Rattle.property_commands.specs.PropertyChanges.{put_property_change, remove_property_change};
ghost use Rattle.property_commands.specs.TilesetChanges.{add_tileset_change};
ghost use Rattle.document_lines.specs.GivenEdits.{after_layer_text, after_object_text, after_property_text, after_take_property, after_tileset_text, made};
ghost use Rattle.document_lines.specs.MoreRules.{more_answer_of};
ghost use Rattle.document_lines.specs.PlaceEdits.{parent_of};
ghost use Rattle.document_lines.specs.Planning.{PlansEdit, more_plan_of};

use crate::planned::{Edit, Planned};
use crate::planning::place_plans::parent_of;
use crate::planning::{planned, refused};
use fractions::Fractions;
use layer_commands::{AddLayer, siblings};
use map_json::{given_layer, given_object, given_property, given_text, given_tileset};
use map_model::{Document, MoreLayerKind, Owner};
use member_commands::more_fault;
use object_commands::{AddObject, objects_of_layer};
use property_commands::{AddTileset, PutProperty, RemoveProperty, place_of};
use refusals::{MapRefusal, MoreFault, Refusal};
use session::Text;
use std::alloc::Global;

// The plan of an edit: its command, or its refusal.
fn planned_more(edit: Result<Edit, MoreFault>) -> Planned
    ensures { result ≡ more_plan_of edit }
{
    match edit {
        Ok(edit) => Planned::Push(edit),
        Err(fault) => refused(Refusal::from(fault)),
    }
}

#[inline(never)]
pub fn plan_add_more_layer(
    alloc: Global,
    document: &Document,
    kind: MoreLayerKind,
    name: &Text<'_>,
) -> Planned
    ensures { PlansEdit (more_answer_of add_names (made (after_add_more document.now kind name.now))) document.now result }
{
    planned(AddLayer::new_more(alloc, document, kind, name.as_str()).map(Edit::AddLayer))
}

// The command that puts in the object that a JSON text says.
fn put_object(
    alloc: Global,
    document: &Document,
    layer: u32,
    json: &str,
    fractions: Fractions,
) -> Result<AddObject, MoreFault>
    ensures command { IfOk result (λ c. Makes add_object_names document.now (after_object_text fractions document.now layer json.now) (add_object_change c)) }
    ensures refusal { IfErr result (IsMoreRefusalOf (λ fault. false) (after_object_text fractions document.now layer json.now)) }
{
    let map = document.map();
    if let Err(fault) = objects_of_layer(map, layer) {
        return Err(MoreFault::Edit(fault));
    }
    let given = match given_object(alloc, fractions, map, json) {
        Ok(given) => given,
        Err(fault) => return Err(more_fault(fault)),
    };
    if given.has_id && map.object(given.object.id).is_some() {
        return Err(MoreFault::Map(MapRefusal::IdUsedTwice));
    }
    match AddObject::put(alloc, document, layer, given.object, given.has_id) {
        Ok(command) => Ok(command),
        Err(fault) => Err(MoreFault::Edit(fault)),
    }
}

#[inline(never)]
pub fn plan_put_object(
    alloc: Global,
    document: &Document,
    layer: u32,
    json: &Text<'_>,
    fractions: Fractions,
) -> Planned
    ensures { PlansEdit (more_answer_of add_object_names (after_object_text fractions document.now layer json.now)) document.now result }
{
    planned_more(put_object(alloc, document, layer, json.as_str(), fractions).map(Edit::AddObject))
}

// The command that puts in the layer that a JSON text says.
fn put_layer(
    alloc: Global,
    document: &Document,
    parent: Option<u32>,
    place: u32,
    json: &str,
    fractions: Fractions,
) -> Result<AddLayer, MoreFault>
    ensures command { IfOk result (λ c. Makes add_names document.now (after_layer_text fractions document.now parent place json.now) (add_change c)) }
    ensures refusal { IfErr result (IsMoreRefusalOf (λ fault. false) (after_layer_text fractions document.now parent place json.now)) }
{
    let map = document.map();
    if let Err(fault) = siblings(map, parent) {
        return Err(MoreFault::Edit(fault));
    }
    let given = match given_layer(alloc, fractions, map, json) {
        Ok(given) => given,
        Err(fault) => return Err(more_fault(fault)),
    };
    match AddLayer::put(alloc, document, parent, place, given) {
        Ok(command) => Ok(command),
        Err(fault) => Err(MoreFault::Edit(fault)),
    }
}

#[inline(never)]
pub fn plan_put_layer(
    alloc: Global,
    document: &Document,
    group: u32,
    place: u32,
    json: &Text<'_>,
    fractions: Fractions,
) -> Planned
    ensures { PlansEdit (more_answer_of add_names (after_layer_text fractions document.now (parent_of group) place json.now)) document.now result }
{
    let command = put_layer(
        alloc,
        document,
        parent_of(group),
        place,
        json.as_str(),
        fractions,
    );
    planned_more(command.map(Edit::AddLayer))
}

// The command that puts in the tileset that a JSON text says.
fn put_tileset(
    alloc: Global,
    document: &Document,
    json: &str,
    fractions: Fractions,
) -> Result<AddTileset, MoreFault>
    ensures command { IfOk result (λ c. Makes add_tileset_names document.now (after_tileset_text fractions document.now json.now) (add_tileset_change c)) }
    ensures refusal { IfErr result (IsMoreRefusalOf (λ fault. false) (after_tileset_text fractions document.now json.now)) }
{
    let tileset = match given_tileset(alloc, fractions, json) {
        Ok(tileset) => tileset,
        Err(fault) => return Err(more_fault(fault)),
    };
    match AddTileset::put(alloc, document, tileset) {
        Ok(command) => Ok(command),
        Err(fault) => Err(MoreFault::Edit(fault)),
    }
}

#[inline(never)]
pub fn plan_put_tileset(
    alloc: Global,
    document: &Document,
    json: &Text<'_>,
    fractions: Fractions,
) -> Planned
    ensures { PlansEdit (more_answer_of add_tileset_names (after_tileset_text fractions document.now json.now)) document.now result }
{
    planned_more(put_tileset(alloc, document, json.as_str(), fractions).map(Edit::AddTileset))
}

// The command that puts in the property that a JSON text says.
fn put_property(
    alloc: Global,
    document: &Document,
    owner: Owner,
    json: &str,
    fractions: Fractions,
) -> Result<PutProperty, MoreFault>
    ensures command { IfOk result (λ c. Makes put_property_names document.now (after_property_text fractions document.now owner json.now) (put_property_change c)) }
    ensures refusal { IfErr result (IsMoreRefusalOf (λ fault. false) (after_property_text fractions document.now owner json.now)) }
{
    if let Err(fault) = place_of(document.map(), owner) {
        return Err(MoreFault::Edit(fault));
    }
    let property = match given_property(alloc, fractions, json) {
        Ok(property) => property,
        Err(fault) => return Err(more_fault(fault)),
    };
    match PutProperty::new(alloc, document, owner, property) {
        Ok(command) => Ok(command),
        Err(fault) => Err(MoreFault::Edit(fault)),
    }
}

#[inline(never)]
pub fn plan_put_property(
    alloc: Global,
    document: &Document,
    owner: Owner,
    json: &Text<'_>,
    fractions: Fractions,
) -> Planned
    ensures { PlansEdit (more_answer_of put_property_names (after_property_text fractions document.now owner json.now)) document.now result }
{
    planned_more(put_property(alloc, document, owner, json.as_str(), fractions).map(
        Edit::PutProperty,
    ))
}

// The command that takes out the property whose name a JSON text says.
fn take_property(
    alloc: Global,
    document: &Document,
    owner: Owner,
    json: &str,
    fractions: Fractions,
) -> Result<RemoveProperty, MoreFault>
    ensures command { IfOk result (λ c. Makes remove_property_names document.now (after_take_property fractions document.now owner json.now) (remove_property_change c)) }
    ensures refusal { IfErr result (IsMoreRefusalOf (λ fault. false) (after_take_property fractions document.now owner json.now)) }
{
    if let Err(fault) = place_of(document.map(), owner) {
        return Err(MoreFault::Edit(fault));
    }
    let name = match given_text(alloc, fractions, json) {
        Ok(name) => name,
        Err(fault) => return Err(more_fault(fault)),
    };
    match RemoveProperty::new(document, owner, name.as_str()) {
        Ok(command) => Ok(command),
        Err(fault) => Err(MoreFault::Edit(fault)),
    }
}

#[inline(never)]
pub fn plan_take_property(
    alloc: Global,
    document: &Document,
    owner: Owner,
    json: &Text<'_>,
    fractions: Fractions,
) -> Planned
    ensures { PlansEdit (more_answer_of remove_property_names (after_take_property fractions document.now owner json.now)) document.now result }
{
    planned_more(take_property(alloc, document, owner, json.as_str(), fractions).map(
        Edit::RemoveProperty,
    ))
}
