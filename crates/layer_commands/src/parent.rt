// The layers of a parent: those of a group, or those that stand in no group.
ghost use Rattle.std.specs.Prelude.{◌≡◌, Err, MatchResult, Ok};
ghost use Rattle.map_model.specs.Moving.{is_parent_in, is_same_parent, other_layers};
ghost use Rattle.edits.specs.LayerEdits.{siblings_or_fault};

use edits::EditFault;
use link_chain::Chain;
use map_model::{Layer, LayerPlace, Map};

/// The layers of a parent.
///
/// Refused where there is no layer with the parent's id, and then where it is no group.
pub fn siblings(map: &Map, parent: Option<u32>) -> Result<&Chain<Layer>, EditFault>
    ensures { MatchResult result (λ layers. siblings_or_fault map.now parent ≡ Ok layers.now) (λ fault. siblings_or_fault map.now parent ≡ Err fault) }
{
    let Some(id) = parent else {
        return Ok(&map.parts().layers);
    };
    let Some(group) = map.layer(id) else {
        return Err(EditFault::NoSuchLayer);
    };
    match group.body.layers() {
        Some(layers) => Ok(layers),
        None => Err(EditFault::LayerOfAnotherKind),
    }
}

/// Whether a parent is the layer, or stands in it.
pub fn is_parent_in(layer: &Layer, parent: Option<u32>) -> bool
    ensures { result ≡ is_parent_in layer.now parent }
{
    match parent {
        Some(id) => layer.holds(id),
        None => false,
    }
}

/// How many layers a parent has beside the one at a place.
pub fn other_layers(place: LayerPlace, parent: Option<u32>, layers: &Chain<Layer>) -> usize
    ensures { result ≡ other_layers place parent layers.now }
{
    let count = layers.len();
    if is_same_parent(place.parent, parent) && count > 0 {
        count - 1
    } else {
        count
    }
}

fn is_same_parent(one: Option<u32>, other: Option<u32>) -> bool
    ensures { result ≡ is_same_parent one other }
{
    match (one, other) {
        (Some(one), Some(other)) => one == other,
        (Some(_), None) => false,
        (None, Some(_)) => false,
        (None, None) => true,
    }
}
