// Layers.
ghost use Rattle.std.specs.Prelude.{◌≡◌, ◌*◌, ◌≤◌, IfOk, length};
ghost use Rattle.serde_json.specs.Find.{get_member};
ghost use Rattle.serde_json.specs.View.{view as data_of, items_view};
ghost use Rattle.map_model.specs.declared.names.TheConstants.{LAYERS};
ghost use Rattle.map_model.specs.Format.{body_names, common_names};
ghost use Rattle.map_model.specs.declared.limits.TheConstants.{MAX_CELLS, MAX_LAYERS};
ghost use Rattle.json_members.specs.Members.{without, without_all};
ghost use Rattle.map_values.specs.Presence.{Gives, GivesBy, required};
ghost use Rattle.map_json.specs.Elements.{each_counted};
ghost use Rattle.map_json.specs.Reading.{body_by, head_of, layer_by, layers_at, lone_layer_at, map_layers_at};

use crate::body::{LayerType, NoData, objects, required_type, tiles};
use crate::elements::{ElementList, array_of};
use crate::property::properties_or_none;
use crate::size::Size;
use link_chain::Chain;
use map_model::limits::{MAX_GROUPS, MAX_LAYERS};
use map_model::{Body, Layer, MapText, Property, names};
use map_values::{JsonObject, MapFault, NoTrail, Segment, Trail, required_id, text_or, truth_or};
use refusals::MapRefusal;
use serde_json::Value;
use std::alloc::Global;

// What a layer of this type holds; its members are taken out.
#[cycle(layers)]
fn body<T: Trail>(
    alloc: Global,
    size: Size,
    no_data: NoData,
    groups: usize,
    kind: LayerType,
    members: &mut JsonObject,
    count: &mut usize,
    trail: &mut T,
) -> Result<Body, MapFault>
    requires size { size.width * size.height ≤ MAX_CELLS }
    requires few { count.old ≤ MAX_LAYERS }
    ensures value { GivesBy (λ body. (count.new, body)) result
        (body_by no_data (layers_at no_data groups size.width size.height) kind size.width size.height count.old members.old) }
    ensures kept { IfOk result (λ body. members.new ≡ without_all (body_names body) members.old) }
    ensures few { IfOk result (λ body. count.new ≤ MAX_LAYERS) }
{
    match kind {
        LayerType::TileLayer => tiles(alloc, size, no_data, members, trail),
        LayerType::ObjectGroup => objects(alloc, size, members, trail),
        LayerType::ImageLayer => Ok(Body::Other),
        LayerType::GroupLayer => {
            let value = members
                .enter(names::LAYERS, trail)
                .ok_or(MapRefusal::MemberMissing)?;
            let layers = layers_in(alloc, size, no_data, groups, value, count, trail)?;
            trail.leave();
            Ok(Body::Group(layers))
        }
    }
}

// The members of a layer of any kind.
#[derive(Drop)]
struct Head {
    kind: LayerType,
    id: u32,
    name: MapText,
    visible: bool,
    properties: Chain<Property>,
}

#[tactic(auto, using(crate::proofs::Lacking::takes), unfolding(crate::specs::Reading::head_of))]
fn read_head<T: Trail>(
    alloc: Global,
    size: Size,
    members: &mut JsonObject,
    trail: &mut T,
) -> Result<Head, MapFault>
    requires { size.width * size.height ≤ MAX_CELLS }
    ensures value { Gives result (head_of members.old) }
    ensures left { IfOk result (λ head. members.new ≡ without_all common_names members.old) }
{
    let kind = required_type(members, trail)?;
    let id = required_id(members, trail)?;
    let name = text_or(alloc, members, names::NAME, "", trail)?;
    let visible = truth_or(members, names::VISIBLE, true, trail)?;
    let properties = properties_or_none(alloc, size, members, trail)?;
    Ok(Head {
        kind,
        id,
        name,
        visible,
        properties,
    })
}

#[cycle(layers)]
fn layer<T: Trail>(
    alloc: Global,
    size: Size,
    no_data: NoData,
    groups: usize,
    value: Value,
    count: &mut usize,
    trail: &mut T,
) -> Result<Layer, MapFault>
    requires size { size.width * size.height ≤ MAX_CELLS }
    requires few { count.old ≤ MAX_LAYERS }
    ensures value { GivesBy (λ layer. (count.new, layer)) result
        (layer_by no_data (layers_at no_data groups size.width size.height) size.width size.height count.old (data_of value)) }
    ensures few { IfOk result (λ layer. count.new ≤ MAX_LAYERS) }
{
    let mut members = JsonObject::from_value(value).ok_or(MapRefusal::MemberOfAnotherKind)?;
    let head = read_head(alloc, size, &mut members, trail)?;
    let body = body(
        alloc,
        size,
        no_data,
        groups,
        head.kind,
        &mut members,
        count,
        trail,
    )?;
    Ok(Layer {
        id: head.id,
        name: head.name,
        visible: head.visible,
        properties: head.properties,
        kept: members.into_kept(),
        body,
    })
}

// The layers of an array, one after the other, where so many arrays may stand in one another in each.
#[cycle(layers)]
fn each_layer<T: Trail>(
    alloc: Global,
    size: Size,
    no_data: NoData,
    groups: usize,
    values: Vec<Value>,
    count: &mut usize,
    trail: &mut T,
) -> Result<Chain<Layer>, MapFault>
    requires size { size.width * size.height ≤ MAX_CELLS }
    requires few { count.old ≤ MAX_LAYERS }
    requires short { length values.items ≤ MAX_LAYERS }
    ensures value { GivesBy (λ layers. (count.new, layers)) result
        (each_counted (layer_by no_data (layers_at no_data groups size.width size.height) size.width size.height) count.old (items_view values.items)) }
    ensures few { IfOk result (λ layers. count.new ≤ MAX_LAYERS) }
{
    let mut found = Chain::new(alloc);
    for value in values {
        trail.enter(Segment::Element(found.len()));
        let layer = layer(alloc, size, no_data, groups, value, count, trail)?;
        found.add(alloc, layer)?;
        trail.leave();
    }
    Ok(found)
}

// The layers of an array, where so many arrays may stand in one another and so many layers were counted.
#[cycle(layers)]
#[tactic(auto, using(crate::proofs::Loops::lengths))]
fn layers_in<T: Trail>(
    alloc: Global,
    size: Size,
    no_data: NoData,
    groups: usize,
    value: Value,
    count: &mut usize,
    trail: &mut T,
) -> Result<Chain<Layer>, MapFault>
    requires size { size.width * size.height ≤ MAX_CELLS }
    requires few { count.old ≤ MAX_LAYERS }
    ensures value { GivesBy (λ layers. (count.new, layers)) result
        (layers_at no_data groups size.width size.height count.old (data_of value)) }
    ensures few { IfOk result (λ layers. count.new ≤ MAX_LAYERS) }
{
    let values = array_of(value).ok_or(MapRefusal::MemberOfAnotherKind)?;
    if groups == 0 || values.len() > MAX_LAYERS - *count {
        return Err(MapFault::Refused(MapRefusal::OverLimit));
    }
    *count += values.len();
    each_layer(alloc, size, no_data, groups - 1, values, count, trail)
}

/// The layers of a map, which must be there. They are taken out.
pub fn map_layers<T: Trail>(
    alloc: Global,
    size: Size,
    members: &mut JsonObject,
    trail: &mut T,
) -> Result<Chain<Layer>, MapFault>
    requires { size.width * size.height ≤ MAX_CELLS }
    ensures value { Gives result
        (required (map_layers_at size.width size.height) (get_member LAYERS.now members.old)) }
    ensures left { members.new ≡ without LAYERS.now members.old }
{
    let value = members
        .enter(names::LAYERS, trail)
        .ok_or(MapRefusal::MemberMissing)?;
    let mut count = 0;
    let layers = layers_in(
        alloc,
        size,
        NoData::Refused,
        MAX_GROUPS + 1,
        value,
        &mut count,
        trail,
    )?;
    trail.leave();
    Ok(layers)
}

/// A layer that is all layers of a map of that size, with those that stand in it. A tile layer may lack its values: it is empty
/// then.
pub fn lone_layer(alloc: Global, size: Size, value: Value) -> Result<Layer, MapFault>
    requires { size.width * size.height ≤ MAX_CELLS }
    ensures { Gives result (lone_layer_at size.width size.height (data_of value)) }
{
    let mut count = 1;
    layer(
        alloc,
        size,
        NoData::Empty,
        MAX_GROUPS,
        value,
        &mut count,
        &mut NoTrail,
    )
}
