// Look-ups for things that go to another place: the layers there, and whether a thing fits.
ghost use Rattle.std.specs.Prelude.{◌≡◌, ◌≤◌};
ghost use Rattle.std.specs.Option.{option_copied};
ghost use Rattle.map_model.specs.Keeping.{deepest_tier, inner_tier, object_tier};
ghost use Rattle.map_model.specs.Layers.{layer_at, siblings_of};
ghost use Rattle.map_model.specs.Moving.{layer_fits, object_fits, tier_in};
ghost use Rattle.map_model.specs.Properties.{tier_of};

use crate::fits::{LAYER_TIER, STEP, layer_fits, object_fits};
use crate::groups::find_tier;
use crate::limits::MAX_GROUPS;
use crate::map::Map;
use crate::parts::{Layer, Object};
use crate::place::LayerPlace;
use link_chain::Chain;

impl Map {
    /// The layers of a parent: those of a group, or those that stand in no group; `None` where the map has no such group.
    pub fn siblings(&self, parent: Option<u32>) -> Option<&Chain<Layer>>
        ensures { option_copied result ≡ siblings_of self.now parent }
    {
        match parent {
            None => Some(&self.parts.layers),
            Some(group) => self.layer(group)?.body.layers(),
        }
    }

    /// The layer at a place.
    pub fn layer_at(&self, place: LayerPlace) -> Option<&Layer>
        ensures { option_copied result ≡ layer_at self.now place }
    {
        let layers = self.siblings(place.parent)?;
        if place.at < layers.len() {
            Some(layers.get(place.at))
        } else {
            None
        }
    }

    /// Whether an object fits in the layer with an id: what a file kept of it nests no deeper there than a map's tree may.
    pub fn object_fits(&self, layer: u32, object: &Object) -> bool
        ensures { result ≡ object_fits (object_tier (tier_of self.now layer)) object.now }
    {
        object_fits(object, self.tier_of(layer) + STEP)
    }

    /// Whether a layer fits among the layers of a parent: none of it stands in more groups there than a map may have in one
    /// another, and what a file kept of it nests no deeper than a map's tree may.
    pub fn layer_fits(&self, parent: Option<u32>, layer: &Layer) -> bool
        ensures { result ≡ layer_fits (tier_in self.now parent) layer.now }
    {
        layer_fits(layer, self.tier_in(parent), MAX_GROUPS)
    }

    // The tier of the layers of a parent.
    fn tier_in(&self, parent: Option<u32>) -> usize
        ensures tier { result ≡ tier_in self.now parent }
        ensures low { result ≤ inner_tier deepest_tier }
    {
        match parent {
            Some(group) => self.tier_of(group) + STEP,
            None => LAYER_TIER,
        }
    }

    // The tier of the layer with an id, or of one that stands in no group where the map has no such layer.
    fn tier_of(&self, id: u32) -> usize
        ensures tier { result ≡ tier_of self.now id }
        ensures low { result ≤ deepest_tier }
    {
        match find_tier(&self.parts.layers, id, LAYER_TIER, MAX_GROUPS) {
            Some(tier) => tier,
            None => LAYER_TIER,
        }
    }
}
