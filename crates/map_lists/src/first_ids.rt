// The first ids of tilesets.
ghost use Rattle.std.specs.Prelude.{◌≡◌, IfOk};
ghost use Rattle.std.specs.List.{flat_map};
ghost use Rattle.map_model.specs.WellFormed.{first_ids_of};

use map_model::Map;
use std::alloc::{AllocError, Global};

/// The first ids of a map's tilesets, in order. It fails only out of memory.
pub fn first_ids_of(alloc: Global, map: &Map) -> Result<Vec<u32>, AllocError>
    ensures { IfOk result (λ ids. ids.items ≡ flat_map first_ids_of map.now.tilesets) }
{
    let tilesets = &map.parts().tilesets;
    let mut ids = Vec::with_capacity(alloc, tilesets.len())?;
    for tileset in tilesets.iter() {
        ids.push(tileset.first_id)?;
    }
    Ok(ids)
}
