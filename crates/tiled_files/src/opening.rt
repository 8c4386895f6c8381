// What is opened of a file.
ghost use Rattle.std.specs.Prelude.{◌≡◌, ℕ, List, Err, true};
ghost use Rattle.tiled_files.specs.Kinds.{is_xml};
ghost use Rattle.tiled_files.specs.Opening.{HasJson, Opens, OpensXml};
ghost use Rattle.tiled_files.specs.declared.fault.FileFault.TheVariants.{Aside};
ghost use Rattle.tiled_maps.specs.declared.fault.Fault.TheVariants as fault;
ghost use Rattle.tmx_maps.specs.Texts.{IsJsonOf};

use crate::fault::FileFault;
use crate::kind::is_xml;
use std::alloc::Global;
use tiled_maps::set_aside;
use tmx_maps::json_of;

/// The JSON text that says what the bytes of a file say, if they are XML; or `None`, if they are none.
pub fn json_in(alloc: Global, bytes: &[u8]) -> Result<Option<Vec<u8>>, FileFault>
    ensures { HasJson bytes.now result }
{
    if !is_xml(bytes) {
        return Ok(None);
    }
    match json_of(alloc, bytes) {
        Ok(json) => Ok(Some(json)),
        Err(fault) => Err(FileFault::Xml(fault)),
    }
}

// The text of a map in XML, by the JSON that says the same.
fn opened_json(alloc: Global, json: Vec<u8>) -> Result<Option<Vec<u8>>, FileFault>
    ensures opened { (bytes : List ℕ) → IsJsonOf bytes json.items → OpensXml bytes result }
    ensures json { (bytes : List ℕ) → IsJsonOf bytes json.items → result ≡ Err (Aside fault.NotJson) → ⊥ }
{
    match set_aside(alloc, json.as_slice()) {
        Ok(Some(own)) => Ok(Some(own)),
        Ok(None) => Ok(Some(json)),
        Err(fault) => Err(FileFault::Aside(fault)),
    }
}

/// The text of the map of a file, for a reader of the editor's format; or `None`: then the bytes themselves can be read.
///
/// Of JSON it is what `tiled_maps::set_aside` answers. Of XML it is what that answers of the JSON that says the same, or this JSON
/// itself. The caller bounds how long the text may be.
///
/// `Aside(NotJson)` comes where the bytes are neither XML nor JSON, and for no XML.
pub fn opened(alloc: Global, bytes: &[u8]) -> Result<Option<Vec<u8>>, FileFault>
    ensures opened { Opens bytes.now result }
    ensures json { is_xml bytes.now ≡ true → result ≡ Err (Aside fault.NotJson) → ⊥ }
{
    match json_in(alloc, bytes)? {
        Some(json) => opened_json(alloc, json),
        None => match set_aside(alloc, bytes) {
            Ok(own) => Ok(own),
            Err(fault) => Err(FileFault::Aside(fault)),
        },
    }
}
