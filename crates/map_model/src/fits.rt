// Whether an object or a layer would fit at a tier: what a file kept of it may nest too deep there.
ghost use Rattle.std.specs.Prelude.{◌≡◌, ◌+◌, ◌*◌, ◌≤◌, nat_le};
ghost use Rattle.std.specs.List.{list_all};
ghost use Rattle.serde_json.specs.Data.{depth};
ghost use Rattle.map_model.specs.declared.limits.TheConstants.{MAX_DEPTH};
ghost use Rattle.map_model.specs.Groups.{drawn, tree};
ghost use Rattle.map_model.specs.Keeping.{property_tier};
ghost use Rattle.map_model.specs.Moving.{body_fits, members_fit, object_fits, own_fits, properties_fit, property_fits, value_fits};

use crate::contents::{JsonValue, Kept};
use crate::limits::{MAX_DEPTH, MAX_GROUPS};
use crate::parts::{Body, Layer, Object, PropValue, Property};
use json_trees::{is_within, members_are_within};
use link_chain::Chain;
use link_tree::LinkTree;

/// The tier of a layer that stands in no group.
pub const LAYER_TIER: usize = 3;

/// How many tiers a layer stands below its group, an object below its layer, and a property below its owner: a list, and the
/// thing in the list.
pub const STEP: usize = 2;

// The tier of a layer that stands in as many groups as may stand in one another.
const DEEPEST_TIER: usize = LAYER_TIER + STEP * MAX_GROUPS;

// How many tiers are left below a tier.
fn tiers_below(tier: usize) -> u8
    requires { tier ≤ MAX_DEPTH }
    ensures { result + tier ≡ MAX_DEPTH }
{
    (MAX_DEPTH - tier) as u8
}

fn members_fit(kept: &Kept, tier: usize) -> bool
    requires { tier ≤ MAX_DEPTH }
    ensures { result ≡ members_fit tier kept.now }
{
    members_are_within(tiers_below(tier), kept.members())
}

fn json_fits(value: &JsonValue, tier: usize) -> bool
    requires { tier ≤ MAX_DEPTH }
    ensures { result ≡ nat_le (tier + depth value.now) MAX_DEPTH }
{
    is_within(tiers_below(tier), value.value())
}

fn value_fits(value: &PropValue, tier: usize) -> bool
    requires { tier ≤ MAX_DEPTH }
    ensures { result ≡ value_fits tier value.now }
{
    match value {
        PropValue::Other(value) => json_fits(value, tier),
        PropValue::Text(_) => true,
        PropValue::Whole(_) => true,
        PropValue::Truth(_) => true,
    }
}

fn property_fits(property: &Property, tier: usize) -> bool
    requires { tier ≤ MAX_DEPTH }
    ensures { result ≡ property_fits tier property.now }
{
    members_fit(&property.kept, tier) && value_fits(&property.value, tier)
}

// Whether the properties of an owner at a tier fit.
fn properties_fit(properties: &Chain<Property>, tier: usize) -> bool
    requires { property_tier tier ≤ MAX_DEPTH }
    ensures { result ≡ properties_fit tier properties.now }
{
    let own = tier + STEP;
    properties
        .iter()
        .all(|property| property_fits(property, own))
}

/// Whether an object fits at a tier.
pub fn object_fits(object: &Object, tier: usize) -> bool
    requires { property_tier tier ≤ MAX_DEPTH }
    ensures { result ≡ object_fits tier object.now }
{
    members_fit(&object.kept, tier) && properties_fit(&object.properties, tier)
}

fn objects_fit(objects: &LinkTree<Object>, tier: usize) -> bool
    requires { property_tier tier ≤ MAX_DEPTH }
    ensures { result ≡ list_all (object_fits tier) objects.now }
{
    objects.iter().all(|object| object_fits(object, tier))
}

// Whether what a layer at a tier holds fits, beside the layers of a group.
fn body_fits(body: &Body, tier: usize) -> bool
    requires { tier + 4 ≤ MAX_DEPTH }
    ensures { result ≡ body_fits tier body.now }
{
    match body {
        Body::Objects(objects) => objects_fit(objects, tier + STEP),
        Body::Group(_) => tier < DEEPEST_TIER,
        Body::Tiles(_, _) => true,
        Body::Other => true,
    }
}

// Whether a layer fits at a tier, without those that stand in it.
fn own_fits(layer: &Layer, tier: usize) -> bool
    requires { tier + 4 ≤ MAX_DEPTH }
    ensures { result ≡ own_fits (tier, layer.now) }
{
    members_fit(&layer.kept, tier)
        && properties_fit(&layer.properties, tier)
        && body_fits(&layer.body, tier)
}

// Whether layers fit at a tier, with those that stand in them in as many groups as there is room for.
#[cycle(fits)]
fn layers_fit(layers: &Chain<Layer>, tier: usize, groups: usize) -> bool
    requires { tier + 2 * groups + 4 ≤ MAX_DEPTH }
    ensures { result ≡ list_all own_fits (drawn groups tier layers.now) }
{
    for layer in layers.iter() {
        if !layer_fits(layer, tier, groups) {
            return false;
        }
    }
    true
}

/// Whether a layer fits at a tier, with those that stand in it in as many groups as there is room for.
#[cycle(fits)]
pub fn layer_fits(layer: &Layer, tier: usize, groups: usize) -> bool
    requires { tier + 2 * groups + 4 ≤ MAX_DEPTH }
    ensures { result ≡ list_all own_fits (tree groups tier layer.now) }
{
    if !own_fits(layer, tier) {
        return false;
    }
    if groups == 0 {
        return true;
    }
    match layer.body.layers() {
        Some(inside) => layers_fit(inside, tier + STEP, groups - 1),
        None => true,
    }
}
