// The text of JSON that the file of a tileset has.
ghost use Rattle.tiled_files.specs.Tilesets.{HasTileset, HasTilesetJson, HasTilesetXml};

use crate::fault::FileFault;
use crate::kind::is_xml;
use map_layout::read_tree;
use serde_json::Value;
use std::alloc::Global;
use tiled_maps::Fault;
use tmx_maps::tileset_json_of;

fn tileset_in_xml(alloc: Global, bytes: &[u8]) -> Result<Option<Vec<u8>>, FileFault>
    ensures { HasTilesetXml bytes.now result }
{
    match tileset_json_of(alloc, bytes) {
        Ok(json) => Ok(Some(json)),
        Err(fault) => Err(FileFault::Xml(fault)),
    }
}

fn tileset_in_json(alloc: Global, bytes: &[u8]) -> Result<Option<Vec<u8>>, FileFault>
    ensures { HasTilesetJson bytes.now result }
{
    match read_tree(alloc, bytes) {
        Ok(Some(Value::Object(_))) => Ok(None),
        Ok(_) => Err(FileFault::Aside(Fault::NotJson)),
        Err(_) => Err(FileFault::Aside(Fault::Memory)),
    }
}

/// The JSON text of the file of a tileset, or `None`: then the bytes themselves are that text.
///
/// Of XML it is what `tmx_maps::tileset_json_of` makes. Bytes that are no XML are that text if they are an object of JSON, whatever its
/// members are. The caller bounds how long the text may be.
///
/// `Aside(NotJson)` comes where the bytes are neither XML nor an object of JSON, and for no XML.
pub fn tileset_text(alloc: Global, bytes: &[u8]) -> Result<Option<Vec<u8>>, FileFault>
    ensures { HasTileset bytes.now result }
{
    if is_xml(bytes) {
        tileset_in_xml(alloc, bytes)
    } else {
        tileset_in_json(alloc, bytes)
    }
}
