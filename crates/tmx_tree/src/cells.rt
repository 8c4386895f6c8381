// The cells of a layer or a chunk.
ghost use Rattle.std.specs.Prelude.{◌≡◌, ◌++◌, map, option_map, replicate, OnOk, IfOk};
ghost use Rattle.serde_json.specs.Data.{string};
ghost use Rattle.serde_json.specs.View.{view as data_of};
ghost use Rattle.xml_text.specs.Xml.{attribute_view, node_view, view, children_of};
ghost use Rattle.tmx_tree.specs.Answers.{GivesBy};
ghost use Rattle.tmx_tree.specs.Elements.{text_in};
ghost use Rattle.std.specs.Str.{trim};
ghost use Rattle.tmx_tree.specs.Cells.{form_of, is_space, cell, csv_from, if_fine, csv_cells, counted, element_cell, with_tile, with_tiles, padded, side};
ghost use Rattle.tmx_tree.specs.Cells.{whole_at, cell_count, cells_in};

use crate::element::{attribute_value, attributes, named, text_in};
use crate::fault::{Fault, Refusal};
use crate::number::{is_digit, unsigned_of, whole_of};
use crate::property::is_blank;
use crate::texts::is_one_of;
use serde_json::Value;
use std::alloc::{AllocError, Global};
use xml_text::{Attribute, Element, Node};

/// The most cells of a layer or a chunk.
pub const MOST_CELLS: u64 = 16_777_216;

/// How the cells of a layer are written.
#[derive(Clone, Copy)]
pub enum Form {
    /// Each an element.
    Elements,
    /// As numbers between commas.
    Csv,
    /// In base64, packed or not.
    Base64,
}

/// The form that `encoding` and `compression` say.
pub fn form_of(encoding: &str, packing: &str) -> Result<Form, Refusal>
    ensures { result ≡ form_of encoding.now packing.now }
{
    if encoding.is_empty() {
        Ok(Form::Elements)
    } else if encoding == "csv" {
        Ok(Form::Csv)
    } else if encoding == "base64" {
        if is_one_of(&["", "zlib", "gzip", "zstd"], packing) {
            Ok(Form::Base64)
        } else {
            Err(Refusal::Encoding)
        }
    } else {
        Err(Refusal::Encoding)
    }
}

/// Whether a byte is a blank.
pub fn is_space(byte: u8) -> bool
    ensures { result ≡ is_space byte }
{
    byte == b' ' || byte == b'\t' || byte == b'\n' || byte == b'\r'
}

// Pushes the cells that a text spells behind those found, and says whether it is fine.
fn push_csv(text: &[u8], found: &mut Vec<Value>) -> Result<bool, AllocError>
    ensures { IfOk result (λ fine. if_fine fine (map data_of found.new.items)
        ≡ csv_from (map data_of found.old.items) 0 text.now) }
{
    let mut number: u64 = 0;
    for byte in text {
        if is_space(*byte) {
            continue;
        }
        if *byte == b',' {
            found.push(Value::from(number))?;
            number = 0;
        } else if is_digit(*byte) {
            number = (10 * number + (*byte - b'0') as u64) % 0x1_0000_0000;
        } else {
            return Ok(false);
        }
    }
    found.push(Value::from(number))?;
    Ok(true)
}

/// The numbers of a text with commas in between; none if it is blank.
pub fn csv_cells(alloc: Global, text: &str) -> Result<Option<Vec<Value>>, AllocError>
    ensures { IfOk result (λ o. option_map (λ v. map data_of v.items) o ≡ csv_cells text.now) }
{
    let mut found = Vec::new(alloc);
    if is_blank(text) {
        return Ok(Some(found));
    }
    let fine = push_csv(text.as_bytes(), &mut found)?;
    Ok(if_fine(fine, found))
}

fn if_fine(fine: bool, found: Vec<Value>) -> Option<Vec<Value>>
    ensures { option_map (λ v. map data_of v.items) result ≡ if_fine fine (map data_of found.items) }
{
    if fine { Some(found) } else { None }
}

// The cells that are found, if there are just so many.
fn counted(count: u64, found: Option<Vec<Value>>) -> Result<Vec<Value>, Fault>
    ensures { GivesBy (λ v. map data_of v.items) result (counted count (option_map (λ v. map data_of v.items) found)) }
{
    match found {
        Some(cells) => if cells.len() as u64 == count {
            Ok(cells)
        } else {
            Err(Fault::Refused(Refusal::Cells))
        },
        None => Err(Fault::Refused(Refusal::Cells)),
    }
}

fn element_cell(element: &Element) -> Value
    ensures { data_of result ≡ element_cell (view element.now) }
{
    match attribute_value(attributes(element), "gid") {
        Some(text) => Value::from(unsigned_of(text).unwrap_or(0)),
        None => Value::from(0u32),
    }
}

fn push_tile(node: &Node, found: &mut Vec<Value>) -> Result<(), AllocError>
    ensures { OnOk result (map data_of found.new.items
        ≡ with_tile (node_view node.now) (map data_of found.old.items)) }
{
    match named(node, "tile") {
        Some(element) => {
            found.push(element_cell(element))?;
            Ok(())
        }
        None => Ok(()),
    }
}

fn push_tiles(nodes: &Vec<Node>, found: &mut Vec<Value>) -> Result<(), AllocError>
    ensures { OnOk result (map data_of found.new.items
        ≡ with_tiles (children_of (map node_view nodes.now.items)) (map data_of found.old.items)) }
{
    for node in nodes {
        push_tile(node, found)?;
    }
    Ok(())
}

fn push_zeros(count: u64, found: &mut Vec<Value>) -> Result<(), AllocError>
    ensures { OnOk result (map data_of found.new.items
        ≡ map data_of found.old.items ++ replicate count (cell 0)) }
{
    for _done in 0..count {
        found.push(Value::from(0u32))?;
    }
    Ok(())
}

/// The cells that are found, and zeros behind them, so many in all.
pub fn padded(count: u64, mut found: Vec<Value>) -> Result<Vec<Value>, Fault>
    ensures { GivesBy (λ v. map data_of v.items) result (padded count (map data_of found.items)) }
{
    let length = found.len() as u64;
    if length > count {
        return Err(Fault::Refused(Refusal::Cells));
    }
    push_zeros(count - length, &mut found)?;
    Ok(found)
}

/// A number that an attribute says, 0 where it says none.
pub fn side(attributes: &Vec<Attribute>, name: &str) -> u32
    ensures { result ≡ side name.now (map attribute_view attributes.now.items) }
{
    match attribute_value(attributes, name) {
        Some(text) => unsigned_of(text).unwrap_or(0),
        None => 0,
    }
}

/// A number that an attribute says, 0 where it says none; it may have a sign.
pub fn whole_at(attributes: &Vec<Attribute>, name: &str) -> i32
    ensures { result ≡ whole_at name.now (map attribute_view attributes.now.items) }
{
    match attribute_value(attributes, name) {
        Some(text) => whole_of(text).unwrap_or(0),
        None => 0,
    }
}

/// How many cells a layer or a chunk has by its width and height.
pub fn cell_count(attributes: &Vec<Attribute>) -> Result<u64, Refusal>
    ensures { result ≡ cell_count (map attribute_view attributes.now.items) }
{
    let (width, height) = (side(attributes, "width"), side(attributes, "height"));
    let count = width as u64 * height as u64;
    if count <= MOST_CELLS {
        Ok(count)
    } else {
        Err(Refusal::Cells)
    }
}

fn base64_text(alloc: Global, nodes: &Vec<Node>) -> Result<Value, AllocError>
    ensures { IfOk result (λ v. data_of v ≡ string (trim (text_in (children_of (map node_view nodes.now.items))))) }
{
    let text = text_in(alloc, nodes)?;
    Ok(Value::String(String::from_str(alloc, text.as_str().trim())?))
}

/// The cells that stand in an element.
pub fn cells_in(alloc: Global, form: Form, count: u64, nodes: &Vec<Node>) -> Result<Value, Fault>
    ensures { GivesBy data_of result
        (cells_in form count (children_of (map node_view nodes.now.items))) }
{
    match form {
        Form::Elements => {
            let mut found = Vec::new(alloc);
            push_tiles(nodes, &mut found)?;
            Ok(Value::from(padded(count, found)?))
        }
        Form::Csv => {
            let text = text_in(alloc, nodes)?;
            let found = csv_cells(alloc, text.as_str())?;
            Ok(Value::from(counted(count, found)?))
        }
        Form::Base64 => Ok(base64_text(alloc, nodes)?),
    }
}
