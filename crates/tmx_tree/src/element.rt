// What an element has: its attributes, its text, its children.
ghost use Rattle.std.specs.Prelude.{◌≡◌, ◌++◌, map, option_map, OnOk, IfOk, string_bytes, if◌then◌else◌};
ghost use Rattle.xml_text.specs.Xml.{attribute_view, node_view, view, children_of};
ghost use Rattle.tmx_tree.specs.Elements.{attribute, attributes_of, kids_of, is_named, first_named, own_text, text_in};

use std::alloc::{AllocError, Global};
use xml_text::{Attribute, Element, Node};

/// The value of an attribute.
pub fn attribute_value<'a>(attributes: &'a Vec<Attribute>, name: &str) -> Option<&'a str>
    ensures { option_map (λ value. value.now) result
        ≡ attribute name.now (map attribute_view attributes.now.items) }
{
    for attribute in attributes {
        if attribute.name.as_str() == name {
            return Some(attribute.value.as_str());
        }
    }
    None
}

/// The attributes of an element.
pub fn attributes(element: &Element) -> &Vec<Attribute>
    ensures { map attribute_view result.now.items ≡ attributes_of (view element.now) }
{
    &element.attributes
}

/// The children of an element.
pub fn children(element: &Element) -> &Vec<Node>
    ensures { children_of (map node_view result.now.items) ≡ kids_of (view element.now) }
{
    &element.children
}

/// Whether an element has this name.
pub fn has_name(element: &Element, name: &str) -> bool
    ensures { result ≡ is_named name.now (view element.now) }
{
    element.name.as_str() == name
}

/// Whether a node is an element of this name.
pub fn is_named(node: &Node, name: &str) -> bool
    ensures { result ≡ is_named name.now (node_view node.now) }
{
    match node {
        Node::Element(element) => has_name(element, name),
        Node::Text(_) => false,
    }
}

/// The element that a node is, if it has this name.
pub fn named<'a>(node: &'a Node, name: &str) -> Option<&'a Element>
    ensures { option_map (λ e. view e.now) result
        ≡ (if is_named name.now (node_view node.now) then Some (node_view node.now) else None) }
{
    match node {
        Node::Element(element) => if has_name(element, name) {
            Some(element)
        } else {
            None
        },
        Node::Text(_) => None,
    }
}

/// The first element of a name among nodes.
pub fn first_named<'a>(nodes: &'a Vec<Node>, name: &str) -> Option<&'a Element>
    ensures { option_map (λ e. view e.now) result
        ≡ first_named name.now (children_of (map node_view nodes.now.items)) }
{
    for node in nodes {
        if let Some(element) = named(node, name) {
            return Some(element);
        }
    }
    None
}

fn push_text(node: &Node, text: &mut String) -> Result<(), AllocError>
    ensures { OnOk result (string_bytes text.new ≡ string_bytes text.old ++ own_text (node_view node.now)) }
{
    match node {
        Node::Element(_) => Ok(()),
        Node::Text(own) => text.push_str(own.text.as_str()),
    }
}

/// The text among nodes.
pub fn text_in(alloc: Global, nodes: &Vec<Node>) -> Result<String, AllocError>
    ensures { IfOk result (λ text. string_bytes text ≡ text_in (children_of (map node_view nodes.now.items))) }
{
    let mut text = String::new(alloc);
    for node in nodes {
        push_text(node, &mut text)?;
    }
    Ok(text)
}
