// A map's tree as XML.
ghost use Rattle.std.specs.Prelude.{◌≡◌, option_map, Some, IfOk, IfSome, IsTrue};
ghost use Rattle.serde_json.specs.View.{view as data_of};
ghost use Rattle.tmx_maps.specs.Maps.{tmx_data};
ghost use Rattle.tmx_maps.specs.SameMap.{IsSameMap};
ghost use Rattle.tmx_maps.specs.Texts.{IsTold, IsToldAs};

use crate::fault::Fault;
use crate::reading::tree_in;
use crate::same_map::is_same_map;
use crate::source::TmxSource;
use map_layout::discard;
use serde_json::Value;
use std::alloc::Global;
use tmx_writer::{Ids, Source, written, written_into};

// Whether a text is read as a map.
fn is_told(alloc: Global, map: &Value, text: &[u8]) -> Result<bool, Fault>
    ensures { IfOk result (λ told. IsTrue told → IsTold (data_of map.now) text.now) }
{
    match tree_in(alloc, text) {
        Ok(tree) => {
            let is_same = is_same_map(map, &tree);
            discard(tree);
            Ok(is_same)
        }
        Err(Fault::Memory) => Err(Fault::Memory),
        Err(_) => Ok(false),
    }
}

// The map told in the bytes of its source, if that is read as the map.
fn told_in(
    alloc: Global,
    map: &Value,
    bytes: &[u8],
    read: &TmxSource,
    ids: Ids,
) -> Result<Option<Vec<u8>>, Fault>
    ensures { IfOk result (λ text. IfSome text (λ t. IsTold (data_of map.now) t.items)) }
{
    let source = Source {
        bytes,
        root: &read.root,
        tree: &read.tree,
    };
    let text = written_into(alloc, map, &source, ids)?;
    if is_told(alloc, map, &text)? {
        Ok(Some(text))
    } else {
        Ok(None)
    }
}

// The map told in the bytes of its source, also with all its ids.
fn told_in_source(
    alloc: Global,
    map: &Value,
    bytes: &[u8],
    read: &TmxSource,
) -> Result<Option<Vec<u8>>, Fault>
    ensures { IfOk result (λ text. IfSome text (λ t. IsTold (data_of map.now) t.items)) }
{
    match told_in(alloc, map, bytes, read, Ids::AsTheyStand)? {
        Some(text) => Ok(Some(text)),
        None => told_in(alloc, map, bytes, read, Ids::All),
    }
}

// The map told anew.
fn told_anew(alloc: Global, map: &Value, source: &[u8]) -> Result<Vec<u8>, Fault>
    ensures { IfOk result (λ text. IsTold (data_of map.now) text.items) }
{
    let text = written(alloc, map, source)?;
    if is_told(alloc, map, &text)? {
        Ok(text)
    } else {
        Err(Fault::NoTmx)
    }
}

// The map of a source that is read, told as another, in its bytes if it can be.
fn told_over(alloc: Global, map: &Value, source: &[u8], read: &TmxSource) -> Result<Vec<u8>, Fault>
    requires { tmx_data source.now ≡ Some (data_of read.now.tree) }
    ensures told { IfOk result (λ text. IsTold (data_of map.now) text.items) }
    ensures kept { IfOk result (λ text. IsSameMap (data_of map.now) (data_of read.now.tree) → text.items ≡ source.now) }
{
    if is_same_map(map, &read.tree) {
        return Ok(Vec::from_slice(alloc, source)?);
    }
    match told_in_source(alloc, map, source, read)? {
        Some(text) => Ok(text),
        None => told_anew(alloc, map, source),
    }
}

/// A map's tree as XML, in the bytes of a source as far as these stay: where the map is the source's, the source itself. What is read
/// of the source is given beside it. A source that is no map in XML counts for nothing: then all is told anew, in Tiled's layout.
///
/// The text is read again, and compared. `NoTmx` comes where it is another map: where this one says what XML can't. `Memory` comes as
/// well, and no other fault. The caller bounds how long both texts may be.
pub fn tmx_of_tree(
    alloc: Global,
    map: &Value,
    source: &[u8],
    read: Option<&TmxSource>,
) -> Result<Vec<u8>, Fault>
    requires { tmx_data source.now ≡ option_map (λ r. data_of r.now.tree) read }
    ensures told { IfOk result (λ text. IsTold (data_of map.now) text.items) }
    ensures kept { IfOk result (λ text. IsToldAs (data_of map.now) source.now text.items) }
{
    match read {
        Some(read) => told_over(alloc, map, source, read),
        None => told_anew(alloc, map, source),
    }
}
