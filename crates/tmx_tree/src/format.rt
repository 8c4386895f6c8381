// In which format a map's first tile layer is.
ghost use Rattle.std.specs.Prelude.{◌≡◌, map, option_map, string_bytes, IfOk};
ghost use Rattle.serde_json.specs.View.{view as data_of};
ghost use Rattle.xml_text.specs.Xml.{attribute_view, node_view, view};
ghost use Rattle.tmx_tree.specs.Elements.{kids_of};
ghost use Rattle.tmx_tree.specs.Maps.{format_of, format_data, format_in, first_format, own_format};

use crate::element::{attributes, children, first_named};
use crate::plain_value::text_at;
use serde_json::Value;
use std::alloc::{AllocError, Global};
use xml_text::{Attribute, Element, Node};

fn format_of(alloc: Global, encoding: &str, packing: &str) -> Result<String, AllocError>
    ensures { IfOk result (λ text. string_bytes text ≡ format_of encoding.now packing.now) }
{
    if encoding.is_empty() {
        return String::from_str(alloc, "xml");
    }
    let mut format = String::from_str(alloc, encoding)?;
    if !packing.is_empty() {
        format.push_str("-")?;
        format.push_str(packing)?;
    }
    Ok(format)
}

fn format_data(alloc: Global, attributes: &Vec<Attribute>) -> Result<Value, AllocError>
    ensures { IfOk result (λ v. data_of v ≡ format_data (map attribute_view attributes.now.items)) }
{
    let format = format_of(
        alloc,
        text_at(attributes, "encoding"),
        text_at(attributes, "compression"),
    )?;
    Ok(Value::String(format))
}

fn format_in(alloc: Global, element: Option<&Element>) -> Result<Option<Value>, AllocError>
    ensures { IfOk result (λ o. option_map data_of o ≡ format_in (option_map (λ e. view e.now) element.entry)) }
{
    match element {
        Some(element) => Ok(Some(format_data(alloc, attributes(element))?)),
        None => Ok(None),
    }
}

/// The format of the first tile layer in a map or a group that has data.
#[cycle(formats)]
pub fn first_format(alloc: Global, element: &Element) -> Result<Option<Value>, AllocError>
    ensures { IfOk result (λ o. option_map data_of o ≡ first_format (kids_of (view element.now))) }
{
    for node in &element.children {
        if let Some(format) = own_format(alloc, node)? {
            return Ok(Some(format));
        }
    }
    Ok(None)
}

#[cycle(formats)]
fn own_format(alloc: Global, node: &Node) -> Result<Option<Value>, AllocError>
    ensures { IfOk result (λ o. option_map data_of o ≡ own_format (node_view node.now)) }
{
    match node {
        Node::Element(element) => if element.name.as_str() == "layer" {
            format_in(alloc, first_named(children(element), "data"))
        } else if element.name.as_str() == "group" {
            first_format(alloc, element)
        } else {
            Ok(None)
        },
        Node::Text(_) => Ok(None),
    }
}
