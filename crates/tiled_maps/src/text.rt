// From text to text.
ghost use Rattle.std.specs.Prelude.{◌≡◌, ◌≤◌, ◌||◌, IfOk, option_map};
ghost use Rattle.serde_json.specs.Data.{depth};
ghost use Rattle.serde_json.specs.Read.{max_depth};
ghost use Rattle.serde_json.specs.View.{view as data_of};
ghost use Rattle.tiled_maps.specs.Likeness.{IsSource, if_map, PutsBackBy, PutsBackLike, PutsLike, PutsTreeBack};
ghost use Rattle.fractions.specs.Aside.{reserved_name};
ghost use Rattle.json_trees.specs.Names.{has_name};
ghost use Rattle.json_trees.specs.Texts.{IsTreeOf};
ghost use Rattle.tiled_maps.specs.Packed.{note_name};
ghost use Rattle.tiled_maps.specs.Texts.{Reads, SetsAside, SetsAsidePlain, SetsAsideUnpacked, PutsBack};

use crate::fault::Fault;
use crate::packed_layers::{has_packed, packed_cells};
use crate::packing::{MOST_PACKED, packed};
use crate::shape::{has_name, is_within};
use crate::sources::{as_in, is_map};
use crate::tree::{MAX_DEPTH, finite, infinite, whole};
use crate::unpacking::{NOTE, unpacked};
use fractions::{Place, back, has_few_fractions, has_fraction};
use json_trees::RESERVED_NAME;
use map_layout::{LaidText, discard, read_tree, value_laid_out_like};
use serde_json::Value;
use std::alloc::{AllocError, Global};

/// The bytes of the longest text that a caller is to take from these calls, or to give them: as of a file that is loaded.
pub const LONGEST: usize = 67_108_864;

// The tree that the bytes have.
fn read(alloc: Global, bytes: &[u8]) -> Result<Value, Fault>
    ensures { Reads bytes.now result }
{
    match read_tree(alloc, bytes)? {
        Some(value) => Ok(value),
        None => Err(Fault::NotJson),
    }
}

// Whether a member has one of the names of notes.
fn has_note(value: &Value) -> bool
    ensures { result ≡ (has_name reserved_name (data_of value.now) || has_name note_name (data_of value.now)) }
{
    has_name(RESERVED_NAME, value) || has_name(NOTE, value)
}

// The text of a map without packed layers, with its fractions set aside and, if it is infinite, made finite; or `None` if it has no
// fraction and is not infinite.
fn aside_of(alloc: Global, bytes: &[u8], value: Value) -> Result<Option<Vec<u8>>, Fault>
    requires { IsTreeOf bytes.now (data_of value) }
    ensures { SetsAsidePlain bytes.now result }
{
    if has_name(RESERVED_NAME, &value) {
        return Err(Fault::NameTaken);
    }
    if !has_few_fractions(&value) {
        return Err(Fault::TooManyFractions);
    }
    let is_whole = !has_fraction(Place::Map, &value);
    let whole = whole(alloc, is_whole, value)?;
    match finite(alloc, &whole)? {
        Some(finite) => {
            drop(whole);
            Ok(Some(finite.to_vec(alloc)?))
        }
        None => if is_whole {
            Ok(None)
        } else {
            Ok(Some(whole.to_vec(alloc)?))
        },
    }
}

// The same of a map whose layers were unpacked.
fn aside_of_unpacked(alloc: Global, plain: Value) -> Result<Option<Vec<u8>>, Fault>
    requires { depth (data_of plain) ≤ max_depth }
    ensures { SetsAsideUnpacked (data_of plain) result }
{
    let text = plain.to_vec(alloc)?;
    match aside_of(alloc, &text, plain)? {
        Some(own) => Ok(Some(own)),
        None => Ok(Some(text)),
    }
}

/// The text of a map with its packed layers unpacked, its fractions set aside and, if it is infinite, made finite; or `None` if it
/// has none of these: then the bytes can be read as they are.
///
/// A layer is packed if its data are base64 and its `compression` is zlib or gzip. Its data, and those of its chunks, become base64
/// of what they unpack to, four bytes a cell. Data that do not unpack to that become a text of nothing; so does a whole layer, in
/// place of its chunks, if one of them does not. So a reader refuses them. A member `roskevad_packed` takes the place of its
/// `compression`.
///
/// A fraction is a number that is no whole number of 64 bits; the version of the map is none. In the text a stand-in takes its
/// place: an object whose one member, `roskevad`, has the halves of the number's 64 bits. The `x`, `y`, `width` and `height` of
/// an object of an object layer keep their whole part in its place, rounded down and as far as 64 bits reach; the object gets a
/// member `roskevad`, which has the stand-in of each of them that is a fraction. Then the map is made finite as by
/// `infinite_maps::made_finite`; a map above its limits gets its sizes alone.
///
/// `NotJson` where the bytes have no tree, `NameTaken` where a member has one of the two names already, `TooManyFractions` where the
/// map has more than 200,000, `TooDeep` where the text would nest too deep, and `Memory` where there was not enough. `BadChunk`,
/// `Overlap` and `Unlike` come for infinite maps alone, `TooLarge` for these or where packed layers have too many cells in all. What
/// `put_back` makes of the text unpacks to what the bytes unpack to. The caller bounds how long the text may be.
pub fn set_aside(alloc: Global, bytes: &[u8]) -> Result<Option<Vec<u8>>, Fault>
    ensures { SetsAside bytes.now result }
{
    let value = read(alloc, bytes)?;
    if has_name(NOTE, &value) {
        return Err(Fault::NameTaken);
    }
    if !has_packed(&value) {
        return aside_of(alloc, bytes, value);
    }
    if packed_cells(&value) > MOST_PACKED {
        return Err(Fault::TooLarge);
    }
    let plain = unpacked(alloc, value)?;
    if !is_within(MAX_DEPTH, &plain) {
        return Err(Fault::TooDeep);
    }
    aside_of_unpacked(alloc, plain)
}

/// The text of a map in which what was set aside is put back, or `None` if nothing was: then the bytes are the text.
///
/// A map that was infinite is made infinite, as by `infinite_maps::made_infinite`. A stand-in becomes its number. A coordinate of
/// an object becomes the number that the object's note of it has, if it still is that number's whole part; else an edit has
/// changed it, and it stays. Notes go, and anything else under `roskevad` stays. Layers that note how they were packed are packed.
/// Those that were added note nothing, and stay arrays: there is no source that says how others are written.
///
/// `NotJson` where the bytes have no tree, `TooDeep` where the text would nest too deep, and `Memory` where there was not enough.
/// No other fault comes, and of what `set_aside` gave only `Memory`. The caller bounds how long the text may be.
pub fn put_back(alloc: Global, bytes: &[u8]) -> Result<Option<Vec<u8>>, Fault>
    ensures { PutsBack bytes.now result }
{
    let value = read(alloc, bytes)?;
    if !has_note(&value) {
        return Ok(None);
    }
    let map = infinite(alloc, value)?;
    let exact = back(alloc, &map)?;
    drop(map);
    if !is_within(MAX_DEPTH, &exact) {
        return Err(Fault::TooDeep);
    }
    let packed = packed(alloc, None, exact)?;
    let text = packed.to_vec(alloc)?;
    Ok(Some(text))
}

// The tree of a map in which what was set aside is put back.
fn put_back_tree(alloc: Global, bytes: &[u8]) -> Result<Value, Fault>
    ensures { PutsTreeBack bytes.now result }
{
    let value = read(alloc, bytes)?;
    if !has_name(RESERVED_NAME, &value) {
        return Ok(value);
    }
    let map = infinite(alloc, value)?;
    let exact = back(alloc, &map)?;
    Ok(exact)
}

// The tree of a source, if it is a map.
fn source_tree(alloc: Global, source: &[u8]) -> Result<Option<Value>, AllocError>
    ensures { IfOk result (λ tree. IsSource source.now (option_map data_of tree)) }
{
    match read_tree(alloc, source)? {
        Some(value) => if is_map(&value) {
            Ok(Some(value))
        } else {
            Ok(None)
        },
        None => Ok(None),
    }
}

// A map as its source has it, with those layers packed that note how they were.
fn put_like(alloc: Global, source: Option<&Value>, exact: Value) -> Result<Value, Fault>
    ensures { PutsLike (option_map (λ s. data_of s.now) source.entry) (data_of exact) result }
{
    let map = as_in(alloc, source, exact)?;
    if !is_within(MAX_DEPTH, &map) {
        return Err(Fault::TooDeep);
    }
    let packed = packed(alloc, source, map)?;
    Ok(packed)
}

/// The text of a map in which what was set aside is put back, as `put_back` does, laid out as its source is: the bytes of the file
/// that the map was, or that it replaces.
///
/// The version of the map, and the empty compression of a layer, are as the source has them. A layer that was packed is packed; where
/// its cells are the source's, it has the source's text of them. A tile layer that is an array is written as the source has it or, where
/// the source has no such layer, as the source's first one: it stays an array, becomes base64, or is packed by zlib or gzip. It stays
/// an array, too, beside one that is packed in another way, if a cell is no whole number of 32 bits, and, without one of its own in the
/// source, if the tile layers of the map have more than 8,388,608 cells.
///
/// Where the map is the source's, or that is what the source unpacks to, the source itself is given. Else each value that the source
/// has, too, keeps its bytes, and what is new is laid out as its neighbours are. A source that is no map counts for nothing: then the
/// text is in Tiled's layout.
///
/// `NotJson`, `TooDeep` and `Memory` come, as of `put_back`. The caller bounds how long the text may be.
pub fn put_back_like(alloc: Global, bytes: &[u8], source: &[u8]) -> Result<LaidText, Fault>
    ensures { PutsBackLike bytes.now source.now result }
{
    let exact = put_back_tree(alloc, bytes)?;
    let tree = source_tree(alloc, source)?;
    let map = put_like(alloc, tree.as_ref(), exact)?;
    let laid = value_laid_out_like(alloc, &map, source, tree)?;
    discard(map);
    Ok(laid)
}

// A source, if it is a map.
fn if_map(source: Option<&Value>) -> Option<&Value>
    ensures { option_map (λ s. data_of s.now) result ≡ if_map (option_map (λ s. data_of s.now) source.entry) }
{
    match source {
        Some(source) if is_map(source) => Some(source),
        _ => None,
    }
}

/// The tree of a map in which what was set aside is put back, as `put_back_like` puts it, by the tree of a source.
///
/// `NotJson`, `TooDeep` and `Memory` come, as of `put_back_like`.
pub fn put_back_by(alloc: Global, bytes: &[u8], source: Option<&Value>) -> Result<Value, Fault>
    ensures { PutsBackBy bytes.now (if_map (option_map (λ s. data_of s.now) source.entry)) result }
{
    let exact = put_back_tree(alloc, bytes)?;
    put_like(alloc, if_map(source), exact)
}
