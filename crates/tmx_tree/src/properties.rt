// The properties of an owner.
ghost use Rattle.std.specs.Prelude.{◌≡◌, map, option_map, OnOk};
ghost use Rattle.serde_json.specs.View.{view as data_of, members_view};
ghost use Rattle.xml_text.specs.Xml.{node_view, view, children_of};
ghost use Rattle.tmx_tree.specs.Answers.{Leaves};
ghost use Rattle.tmx_tree.specs.Properties.{with_property_of, with_property, with_properties, with_properties_of, properties_in, own_properties, has_none};
ghost use Rattle.tmx_tree.specs.Properties.{unless_none};

use crate::element::{children, named};
use crate::fault::Fault;
use crate::property::property_of;
use crate::row::put_some;
use serde_json::{Map, Value};
use std::alloc::Global;
use xml_text::{Element, Node};

fn push_property_of(alloc: Global, element: &Element, found: &mut Vec<Value>) -> Result<(), Fault>
    ensures { Leaves result (map data_of found.new.items)
        (with_property_of (view element.now) (map data_of found.old.items)) }
{
    let value = property_of(alloc, element)?;
    found.push(value)?;
    Ok(())
}

fn push_property(alloc: Global, node: &Node, found: &mut Vec<Value>) -> Result<(), Fault>
    ensures { Leaves result (map data_of found.new.items)
        (with_property (node_view node.now) (map data_of found.old.items)) }
{
    match named(node, "property") {
        Some(element) => push_property_of(alloc, element, found),
        None => Ok(()),
    }
}

fn push_properties(alloc: Global, nodes: &Vec<Node>, found: &mut Vec<Value>) -> Result<(), Fault>
    ensures { Leaves result (map data_of found.new.items)
        (with_properties (children_of (map node_view nodes.now.items)) (map data_of found.old.items)) }
{
    for node in nodes {
        push_property(alloc, node, found)?;
    }
    Ok(())
}

fn push_properties_of(alloc: Global, node: &Node, found: &mut Vec<Value>) -> Result<(), Fault>
    ensures { Leaves result (map data_of found.new.items)
        (with_properties_of (node_view node.now) (map data_of found.old.items)) }
{
    match named(node, "properties") {
        Some(element) => push_properties(alloc, children(element), found),
        None => Ok(()),
    }
}

fn properties_in(alloc: Global, nodes: &Vec<Node>, found: &mut Vec<Value>) -> Result<(), Fault>
    ensures { Leaves result (map data_of found.new.items)
        (properties_in (children_of (map node_view nodes.now.items)) (map data_of found.old.items)) }
{
    for node in nodes {
        push_properties_of(alloc, node, found)?;
    }
    Ok(())
}

fn has_none(found: &[Value]) -> bool
    ensures { result ≡ has_none (map data_of found.now) }
{
    found.is_empty()
}

/// Values as an array, if there are any.
pub fn unless_none(found: Vec<Value>) -> Option<Value>
    ensures { option_map data_of result ≡ unless_none (map data_of found.items) }
{
    if has_none(&found) {
        None
    } else {
        Some(Value::from(found))
    }
}

/// Puts the properties among nodes into the members of their owner.
pub fn put_properties(
    alloc: Global,
    nodes: &Vec<Node>,
    members: &mut Map<String, Value>,
) -> Result<(), Fault>
    ensures { Leaves result (members_view members.new.entries)
        (own_properties (children_of (map node_view nodes.now.items)) (members_view members.old.entries)) }
{
    let mut found = Vec::new(alloc);
    properties_in(alloc, nodes, &mut found)?;
    put_some(alloc, members, "properties", unless_none(found))?;
    Ok(())
}
