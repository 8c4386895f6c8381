// What a layer holds, by its type: a tile layer and an object layer. The members are taken out, and read at their places.
ghost use Rattle.std.specs.Prelude.{◌≡◌, ◌*◌, ◌≤◌, IfOk};
ghost use Rattle.serde_json.specs.Find.{get_member};
ghost use Rattle.serde_json.specs.View.{view as data_of};
ghost use Rattle.map_model.specs.Format.{body_names};
ghost use Rattle.map_model.specs.declared.limits.TheConstants.{MAX_CELLS};
ghost use Rattle.map_model.specs.declared.names.TheConstants.{CHUNKS, TYPE, ENCODING, COMPRESSION, DATA};
ghost use Rattle.map_model.specs.declared.parts.Encoding.TheVariants.{Array};
ghost use Rattle.json_members.specs.Members.{without, without_all};
ghost use Rattle.map_values.specs.Presence.{Gives, required, absent_means};
ghost use Rattle.map_json.specs.Reading.{type_at, encoding_at, compression_at, same_at, cells_at, cells_or_empty, tile_values, tiles_of, objects_of};

use crate::elements::required_elements;
use crate::size::Size;
use map_model::limits::MAX_OBJECTS;
use map_model::{Body, Cells, Encoding, names};
use map_values::{JsonObject, MapFault, Trail, array_cells, base64_cells};
use refusals::MapRefusal;
use serde_json::Value;
use std::alloc::Global;
use tile_id::Gid;

/// What becomes of a tile layer whose `data` is absent.
#[derive(Clone, Copy)]
pub enum NoData {
    /// It is refused.
    Refused,
    /// It is empty, unless it has chunks.
    Empty,
}

/// The types of layers.
#[derive(Clone, Copy)]
pub enum LayerType {
    TileLayer,
    ObjectGroup,
    ImageLayer,
    GroupLayer,
}

#[tactic(auto, unfolding(crate::specs::Reading::type_at))]
fn layer_type(value: &Value) -> Result<LayerType, MapRefusal>
    ensures { result ≡ type_at (data_of value.now) }
{
    let text = value.as_str().ok_or(MapRefusal::MemberOfAnotherKind)?;
    if text == "tilelayer" {
        Ok(LayerType::TileLayer)
    } else if text == "objectgroup" {
        Ok(LayerType::ObjectGroup)
    } else if text == "imagelayer" {
        Ok(LayerType::ImageLayer)
    } else if text == "group" {
        Ok(LayerType::GroupLayer)
    } else {
        Err(MapRefusal::MemberOfAnotherKind)
    }
}

/// The type of a layer, which must be there.
pub fn required_type<T: Trail>(
    members: &mut JsonObject,
    trail: &mut T,
) -> Result<LayerType, MapRefusal>
    ensures value { result ≡ required type_at (get_member TYPE.now members.old) }
    ensures left { members.new ≡ without TYPE.now members.old }
{
    let value = members
        .enter(names::TYPE, trail)
        .ok_or(MapRefusal::MemberMissing)?;
    let found = layer_type(&value)?;
    trail.leave();
    Ok(found)
}

#[tactic(auto, unfolding(crate::specs::Reading::encoding_at))]
fn encoding(value: &Value) -> Result<Encoding, MapRefusal>
    ensures { result ≡ encoding_at (data_of value.now) }
{
    let text = value.as_str().ok_or(MapRefusal::MemberOfAnotherKind)?;
    if text == "csv" {
        Ok(Encoding::Array)
    } else if text == "base64" {
        Ok(Encoding::Base64)
    } else {
        Err(MapRefusal::MemberOfAnotherKind)
    }
}

fn encoding_or_array<T: Trail>(
    members: &mut JsonObject,
    trail: &mut T,
) -> Result<Encoding, MapRefusal>
    ensures value { result ≡ absent_means Array encoding_at (get_member ENCODING.now members.old) }
    ensures left { members.new ≡ without ENCODING.now members.old }
{
    let found = match members.enter(names::ENCODING, trail) {
        Some(value) => encoding(&value)?,
        None => Encoding::Array,
    };
    trail.leave();
    Ok(found)
}

// Refuses what names a compression.
#[tactic(auto, unfolding(crate::specs::Reading::compression_at))]
fn compression(value: &Value) -> Result<(), MapRefusal>
    ensures { result ≡ compression_at (data_of value.now) }
{
    let text = value.as_str().ok_or(MapRefusal::MemberOfAnotherKind)?;
    if text == "" {
        Ok(())
    } else {
        Err(MapRefusal::Compressed)
    }
}

fn no_compression<T: Trail>(members: &mut JsonObject, trail: &mut T) -> Result<(), MapRefusal>
    ensures value { result ≡ absent_means tt compression_at (get_member COMPRESSION.now members.old) }
    ensures left { members.new ≡ without COMPRESSION.now members.old }
{
    if let Some(value) = members.enter(names::COMPRESSION, trail) {
        compression(&value)?;
    }
    trail.leave();
    Ok(())
}

// Refuses what is not the map's width or height.
#[tactic(auto, unfolding(crate::specs::Reading::same_at))]
fn same(value: &Value, wanted: u32) -> Result<(), MapRefusal>
    ensures { result ≡ same_at wanted (data_of value.now) }
{
    let number = value.as_number().ok_or(MapRefusal::MemberOfAnotherKind)?;
    let whole = number.as_u64().ok_or(MapRefusal::BadData)?;
    if whole == u64::from(wanted) {
        Ok(())
    } else {
        Err(MapRefusal::BadData)
    }
}

// A width or a height of a layer, which is the map's.
fn same_or_absent<T: Trail>(
    members: &mut JsonObject,
    name: &str,
    wanted: u32,
    trail: &mut T,
) -> Result<(), MapRefusal>
    ensures value { result ≡ absent_means tt (same_at wanted) (get_member name.now members.old) }
    ensures left { members.new ≡ without name.now members.old }
{
    if let Some(value) = members.enter(name, trail) {
        same(&value, wanted)?;
    }
    trail.leave();
    Ok(())
}

fn cells<T: Trail>(
    alloc: Global,
    encoding: Encoding,
    count: usize,
    value: &Value,
    trail: &mut T,
) -> Result<Cells, MapFault>
    requires { count ≤ MAX_CELLS }
    ensures { Gives result (cells_at encoding count (data_of value.now)) }
{
    match encoding {
        Encoding::Array => array_cells(alloc, value, count, trail),
        Encoding::Base64 => base64_cells(alloc, value, count),
    }
}

fn required_cells<T: Trail>(
    alloc: Global,
    encoding: Encoding,
    count: usize,
    members: &mut JsonObject,
    trail: &mut T,
) -> Result<Cells, MapFault>
    requires { count ≤ MAX_CELLS }
    ensures value { Gives result (required (cells_at encoding count) (get_member DATA.now members.old)) }
    ensures left { members.new ≡ without DATA.now members.old }
{
    let value = members
        .enter(names::DATA, trail)
        .ok_or(MapRefusal::MemberMissing)?;
    let found = cells(alloc, encoding, count, &value, trail)?;
    trail.leave();
    Ok(found)
}

// The values of a tile layer that may lack them: it is empty then, unless it has chunks.
fn cells_or_empty<T: Trail>(
    alloc: Global,
    encoding: Encoding,
    count: usize,
    members: &mut JsonObject,
    trail: &mut T,
) -> Result<Cells, MapFault>
    requires { count ≤ MAX_CELLS }
    ensures value { Gives result
        (cells_or_empty encoding count (get_member CHUNKS.now members.old) (get_member DATA.now members.old)) }
    ensures left { members.new ≡ without DATA.now members.old }
{
    let has_chunks = members.get(names::CHUNKS).is_some();
    let Some(value) = members.enter(names::DATA, trail) else {
        if has_chunks {
            return Err(MapFault::Refused(MapRefusal::MemberMissing));
        }
        trail.leave();
        return Ok(Cells::new(vec![in alloc; Gid(0); count]?));
    };
    let found = cells(alloc, encoding, count, &value, trail)?;
    trail.leave();
    Ok(found)
}

fn tile_values<T: Trail>(
    alloc: Global,
    no_data: NoData,
    encoding: Encoding,
    count: usize,
    members: &mut JsonObject,
    trail: &mut T,
) -> Result<Cells, MapFault>
    requires { count ≤ MAX_CELLS }
    ensures value { Gives result (tile_values no_data encoding count members.old) }
    ensures left { members.new ≡ without DATA.now members.old }
{
    match no_data {
        NoData::Refused => required_cells(alloc, encoding, count, members, trail),
        NoData::Empty => cells_or_empty(alloc, encoding, count, members, trail),
    }
}

/// What a tile layer holds.
#[tactic(auto, using(crate::proofs::Lacking::takes), unfolding(crate::specs::Reading::tiles_of))]
pub fn tiles<T: Trail>(
    alloc: Global,
    size: Size,
    no_data: NoData,
    members: &mut JsonObject,
    trail: &mut T,
) -> Result<Body, MapFault>
    requires { size.width * size.height ≤ MAX_CELLS }
    ensures value { Gives result (tiles_of no_data size.width size.height members.old) }
    ensures kept { IfOk result (λ body. members.new ≡ without_all (body_names body) members.old) }
{
    let encoding = encoding_or_array(members, trail)?;
    no_compression(members, trail)?;
    same_or_absent(members, names::WIDTH, size.width, trail)?;
    same_or_absent(members, names::HEIGHT, size.height, trail)?;
    let count = size.width as usize * size.height as usize;
    let cells = tile_values(alloc, no_data, encoding, count, members, trail)?;
    Ok(Body::Tiles(encoding, cells))
}

/// What an object layer holds.
#[tactic(auto, unfolding(crate::specs::Reading::objects_of))]
pub fn objects<T: Trail>(
    alloc: Global,
    size: Size,
    members: &mut JsonObject,
    trail: &mut T,
) -> Result<Body, MapFault>
    requires { size.width * size.height ≤ MAX_CELLS }
    ensures value { Gives result (objects_of members.old) }
    ensures kept { IfOk result (λ body. members.new ≡ without_all (body_names body) members.old) }
{
    let objects = required_elements(alloc, size, MAX_OBJECTS, members, names::OBJECTS, trail)?;
    Ok(Body::Objects(objects))
}
