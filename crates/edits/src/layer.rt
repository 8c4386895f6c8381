// The tile layer that an edit changes, and the values that an edit sets.
ghost use Rattle.std.specs.Prelude.{◌≡◌, ℕ, MatchResult, Ok, Err};
ghost use Rattle.std.specs.List.{list_all};
ghost use Rattle.map_model.specs.Lookups.{layer_of};
ghost use Rattle.edits.specs.Refusals.{is_known, is_known_from, tiles_or_fault};

use command_api::EditFault;
use map_model::Map;
use tile_id::Gid;

/// The values of the tile layer with an id, row by row.
///
/// Refused where there is no layer with the id, and then where it is not a tile layer.
pub fn tiles_of_layer(map: &Map, layer: u32) -> Result<&[Gid], EditFault>
    ensures { MatchResult result
        (λ tiles. tiles_or_fault (layer_of map.now layer) ≡ Ok tiles.now)
        (λ fault. tiles_or_fault (layer_of map.now layer) ≡ Err fault) }
{
    let Some(layer) = map.layer(layer) else {
        return Err(EditFault::NoSuchLayer);
    };
    match layer.body.tiles() {
        Some(tiles) => Ok(tiles),
        None => Err(EditFault::LayerOfAnotherKind),
    }
}

// The lowest first id of the tilesets of a map; above the base of each value where it has none.
fn lowest_first_id(map: &Map) -> u32
    ensures { (value : ℕ) → is_known_from result value ≡ is_known map.now value }
{
    let mut lowest = u32::MAX;
    for tileset in map.parts().tilesets.iter() {
        lowest = lowest.min(tileset.first_id);
    }
    lowest
}

// Whether a value is 0, or its base is not below a first id.
fn is_known_from(first_id: u32, value: Gid) -> bool
    ensures { result ≡ is_known_from first_id value }
{
    value.is_empty() || first_id <= value.base()
}

/// Whether a value is 0 or has a tileset.
pub fn is_known_value(map: &Map, value: Gid) -> bool
    ensures { result ≡ is_known map.now value }
{
    is_known_from(lowest_first_id(map), value)
}

/// Whether each value is 0 or has a tileset.
pub fn are_known_values(map: &Map, values: &[Gid]) -> bool
    ensures { result ≡ list_all (is_known map.now) values.now }
{
    let lowest = lowest_first_id(map);
    values.iter().all(|value| is_known_from(lowest, *value))
}
