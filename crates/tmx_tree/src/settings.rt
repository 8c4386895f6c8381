// The settings of Tiled's editor that a map keeps.
ghost use Rattle.std.specs.Prelude.{◌≡◌, map, option_map, IfOk};
ghost use Rattle.serde_json.specs.View.{view as data_of, members_view};
ghost use Rattle.xml_text.specs.Xml.{attribute_view, node_view, children_of};
ghost use Rattle.tmx_tree.specs.Maps.{chunk_side, side_of_chunk, size_data, chunk_size, unless_no_members, export_of, export_in, chunk_size_in, settings_in};
ghost use Rattle.tmx_tree.specs.Maps.{settings};

use crate::element::{attribute_value, attributes, children, first_named};
use crate::number::unsigned_of;
use crate::objects::text_unless;
use crate::plain_value::text_at;
use crate::property::{are_none, put_unless_empty};
use crate::row::put_some;
use serde_json::{Map, Value};
use std::alloc::{AllocError, Global};
use xml_text::{Attribute, Node};

fn chunk_side(side: Option<u32>) -> u32
    ensures { result ≡ chunk_side side }
{
    match side {
        Some(side) => if side == 0 { 16 } else { side.max(4) },
        None => 16,
    }
}

fn side_of_chunk(attributes: &Vec<Attribute>, name: &str) -> u32
    ensures { result ≡ side_of_chunk name.now (map attribute_view attributes.now.items) }
{
    match attribute_value(attributes, name) {
        Some(text) => chunk_side(unsigned_of(text)),
        None => 16,
    }
}

fn size_data(alloc: Global, width: u32, height: u32) -> Result<Value, AllocError>
    ensures { IfOk result (λ v. data_of v ≡ size_data width height) }
{
    let mut members = Map::new(alloc);
    serde_json::put(&mut members, alloc, "height", Value::from(height))?;
    serde_json::put(&mut members, alloc, "width", Value::from(width))?;
    Ok(Value::from(members))
}

fn chunk_size(alloc: Global, attributes: &Vec<Attribute>) -> Result<Option<Value>, AllocError>
    ensures { IfOk result (λ o. option_map data_of o ≡ chunk_size (map attribute_view attributes.now.items)) }
{
    let width = side_of_chunk(attributes, "width");
    let height = side_of_chunk(attributes, "height");
    if width == 16 && height == 16 {
        return Ok(None);
    }
    Ok(Some(size_data(alloc, width, height)?))
}

fn unless_no_members(members: Map<String, Value>) -> Option<Value>
    ensures { option_map data_of result ≡ unless_no_members (members_view members.entries) }
{
    if are_none(&members) {
        None
    } else {
        Some(Value::from(members))
    }
}

fn export_of(alloc: Global, attributes: &Vec<Attribute>) -> Result<Option<Value>, AllocError>
    ensures { IfOk result (λ o. option_map data_of o ≡ export_of (map attribute_view attributes.now.items)) }
{
    let mut members = Map::new(alloc);
    put_unless_empty(alloc, &mut members, "format", text_at(attributes, "format"))?;
    let target = text_unless(alloc, &["", "."], text_at(attributes, "target"))?;
    put_some(alloc, &mut members, "target", target)?;
    Ok(unless_no_members(members))
}

fn export_in(alloc: Global, nodes: &Vec<Node>) -> Result<Option<Value>, AllocError>
    ensures { IfOk result (λ o. option_map data_of o ≡ export_in (children_of (map node_view nodes.now.items))) }
{
    match first_named(nodes, "export") {
        Some(element) => export_of(alloc, attributes(element)),
        None => Ok(None),
    }
}

fn chunk_size_in(alloc: Global, nodes: &Vec<Node>) -> Result<Option<Value>, AllocError>
    ensures { IfOk result (λ o. option_map data_of o ≡ chunk_size_in (children_of (map node_view nodes.now.items))) }
{
    match first_named(nodes, "chunksize") {
        Some(element) => chunk_size(alloc, attributes(element)),
        None => Ok(None),
    }
}

fn settings_in(alloc: Global, nodes: &Vec<Node>) -> Result<Option<Value>, AllocError>
    ensures { IfOk result (λ o. option_map data_of o ≡ settings_in (children_of (map node_view nodes.now.items))) }
{
    let mut members = Map::new(alloc);
    let export = export_in(alloc, nodes)?;
    put_some(alloc, &mut members, "export", export)?;
    let size = chunk_size_in(alloc, nodes)?;
    put_some(alloc, &mut members, "chunksize", size)?;
    Ok(unless_no_members(members))
}

/// The settings of the editor, if there are any.
pub fn settings(alloc: Global, nodes: &Vec<Node>) -> Result<Option<Value>, AllocError>
    ensures { IfOk result (λ o. option_map data_of o ≡ settings (children_of (map node_view nodes.now.items))) }
{
    match first_named(nodes, "editorsettings") {
        Some(element) => settings_in(alloc, children(element)),
        None => Ok(None),
    }
}
