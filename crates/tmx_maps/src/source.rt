// A source in XML, which is read once.
ghost use Rattle.std.specs.Prelude.{◌≡◌, option_map, IfOk, IfErr};
ghost use Rattle.serde_json.specs.View.{view as data_of};
ghost use Rattle.tmx_maps.specs.declared.fault.Fault.TheVariants.{Memory};
ghost use Rattle.tmx_maps.specs.Maps.{tmx_data};

use crate::fault::Fault;
use serde_json::Value;
use std::alloc::Global;
use xml_text::Element;

/// What is read of a source that is a map in XML: its elements, and its tree.
#[derive(Drop)]
pub struct TmxSource {
    pub root: Element,
    pub tree: Value,
}

/// Reads a source, if it is a map in XML. Of faults only `Memory` comes.
pub fn read_source(alloc: Global, bytes: &[u8]) -> Result<Option<TmxSource>, Fault>
    ensures read { IfOk result (λ read. tmx_data bytes.now ≡ option_map (λ r. data_of r.tree) read) }
    ensures memory { IfErr result (λ fault. fault ≡ Memory) }
{
    let root = match xml_text::read(alloc, bytes) {
        Ok(root) => root,
        Err(xml_text::Fault::Memory) => return Err(Fault::Memory),
        Err(_) => return Ok(None),
    };
    match tmx_tree::tree(alloc, &root) {
        Ok(tree) => Ok(Some(TmxSource { root, tree })),
        Err(tmx_tree::Fault::Memory) => Err(Fault::Memory),
        Err(_) => Ok(None),
    }
}
