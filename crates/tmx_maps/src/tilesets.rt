// A tileset in XML as a text of JSON.
ghost use Rattle.std.specs.Prelude.{◌≡◌, Some, None, IfOk, IfErr};
ghost use Rattle.serde_json.specs.View.{view as data_of};
ghost use Rattle.tmx_maps.specs.declared.fault.Fault.TheVariants.{Memory};
ghost use Rattle.tmx_maps.specs.Tilesets.{tsx_data, IsTilesetJsonOf};

use crate::fault::Fault;
use serde_json::Value;
use std::alloc::Global;

// The tree of a tileset in XML.
fn tileset_in(alloc: Global, bytes: &[u8]) -> Result<Value, Fault>
    ensures tree { IfOk result (λ value. tsx_data bytes.now ≡ Some (data_of value)) }
    ensures refused { IfErr result (λ fault. (fault ≡ Memory → ⊥) → tsx_data bytes.now ≡ None) }
{
    let root = xml_text::read(alloc, bytes)?;
    let tree = tmx_tree::tileset_tree(alloc, &root)?;
    Ok(tree)
}

/// The text of JSON that a tileset in XML has, which is a file of its own: that of Tiled's own export.
///
/// `NotXml` and `NotAMap` say why there is none. The caller bounds how long the text may be.
pub fn tileset_json_of(alloc: Global, bytes: &[u8]) -> Result<Vec<u8>, Fault>
    ensures tree { IfOk result (λ text. IsTilesetJsonOf bytes.now text.items) }
    ensures refused { IfErr result (λ fault. (fault ≡ Memory → ⊥) → tsx_data bytes.now ≡ None) }
{
    let tree = tileset_in(alloc, bytes)?;
    let text = tree.to_vec(alloc)?;
    Ok(text)
}
