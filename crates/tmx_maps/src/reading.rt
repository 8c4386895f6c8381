// A map in XML as a text of JSON.
ghost use Rattle.std.specs.Prelude.{◌≡◌, Some, None, IfOk, IfErr};
ghost use Rattle.serde_json.specs.View.{view as data_of};
ghost use Rattle.tmx_maps.specs.declared.fault.Fault.TheVariants.{Memory};
ghost use Rattle.serde_json.specs.Data.{depth};
ghost use Rattle.serde_json.specs.Read.{max_depth};
ghost use Rattle.tmx_maps.specs.Maps.{tmx_data};
ghost use Rattle.tmx_maps.specs.Texts.{IsJsonOf};

use crate::fault::Fault;
use serde_json::Value;
use std::alloc::Global;

/// The tree of a map in XML.
pub fn tree_in(alloc: Global, bytes: &[u8]) -> Result<Value, Fault>
    ensures tree { IfOk result (λ value. tmx_data bytes.now ≡ Some (data_of value)) }
    ensures refused { IfErr result (λ fault. (fault ≡ Memory → ⊥) → tmx_data bytes.now ≡ None) }
{
    let root = xml_text::read(alloc, bytes)?;
    let tree = tmx_tree::tree(alloc, &root)?;
    Ok(tree)
}

/// The text of JSON that a map in XML has: that of Tiled's own export, and what JSON can't say in members `roskevad_tmx`.
///
/// `NotXml` and `NotAMap` say why there is none. The caller bounds how long the text may be.
pub fn json_of(alloc: Global, bytes: &[u8]) -> Result<Vec<u8>, Fault>
    ensures tree { IfOk result (λ text. IsJsonOf bytes.now text.items) }
    ensures refused { IfErr result (λ fault. (fault ≡ Memory → ⊥) → tmx_data bytes.now ≡ None) }
{
    let tree = tree_in(alloc, bytes)?;
    let text = tree.to_vec(alloc)?;
    Ok(text)
}
