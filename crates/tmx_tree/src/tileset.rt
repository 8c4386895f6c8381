// What a tileset has, be it a file or in the map itself.
ghost use Rattle.std.specs.Prelude.{◌≡◌, map, option_map, option_and_then, OnOk, IfOk};
ghost use Rattle.serde_json.specs.View.{view as data_of, members_view};
ghost use Rattle.xml_text.specs.Xml.{attribute_view, node_view, view, children_of};
ghost use Rattle.tmx_tree.specs.Answers.{GivesBy, Leaves};
ghost use Rattle.tmx_tree.specs.Elements.{attributes_of, kids_of};
ghost use Rattle.tmx_tree.specs.Tilesets.{unless_zero, picture, with_picture, point, are_zero, offset_of, grid_orientation, is_own_grid, grid_data, grid_of};
ghost use Rattle.tmx_tree.specs.Tilesets.{is_set, is_turning, turning, turning_in};
ghost use Rattle.tmx_tree.specs.Tilesets.{with_places, alignment, with_drawing, with_lists, with_parts, with_attributes, with_whole, offset_in, grid_in};

use crate::cells::whole_at;
use crate::counts::put_counts;
use crate::element::{attributes, children, first_named};
use crate::fault::Fault;
use crate::layers::transparent;
use crate::objects::text_unless;
use crate::plain_value::text_at;
use crate::properties::{put_properties, unless_none};
use crate::property::put_text;
use crate::row::put_some;
use crate::tables::{Table, put_table};
use crate::texts::one_of;
use crate::tiles::push_tiles;
use crate::wangs::wang_sets;
use serde_json::{Map, Value};
use std::alloc::{AllocError, Global};
use xml_text::{Attribute, Element, Node};

fn unless_zero(number: i32) -> Option<Value>
    ensures { option_map data_of result ≡ unless_zero number }
{
    if number == 0 {
        None
    } else {
        Some(Value::from(number))
    }
}

fn put_picture_of(
    alloc: Global,
    attributes: &Vec<Attribute>,
    members: &mut Map<String, Value>,
) -> Result<(), AllocError>
    ensures { OnOk result (members_view members.new.entries
        ≡ picture (map attribute_view attributes.now.items) (members_view members.old.entries)) }
{
    let height = unless_zero(whole_at(attributes, "height"));
    put_some(alloc, members, "imageheight", height)?;
    let width = unless_zero(whole_at(attributes, "width"));
    put_some(alloc, members, "imagewidth", width)?;
    let color = transparent(alloc, text_at(attributes, "trans"))?;
    put_some(alloc, members, "transparentcolor", color)?;
    put_text(alloc, members, "image", text_at(attributes, "source"))
}

/// Puts a picture among the members, if there is one.
pub fn put_picture(
    alloc: Global,
    image: Option<&Element>,
    members: &mut Map<String, Value>,
) -> Result<(), AllocError>
    ensures { OnOk result (members_view members.new.entries
        ≡ with_picture (option_map (λ e. view e.now) image.entry) (members_view members.old.entries)) }
{
    match image {
        Some(element) => put_picture_of(alloc, attributes(element), members),
        None => Ok(()),
    }
}

fn point(alloc: Global, x: i32, y: i32) -> Result<Value, AllocError>
    ensures { IfOk result (λ v. data_of v ≡ point x y) }
{
    let mut members = Map::new(alloc);
    serde_json::put(&mut members, alloc, "y", Value::from(y))?;
    serde_json::put(&mut members, alloc, "x", Value::from(x))?;
    Ok(Value::from(members))
}

fn offset_of(alloc: Global, attributes: &Vec<Attribute>) -> Result<Option<Value>, AllocError>
    ensures { IfOk result (λ o. option_map data_of o ≡ offset_of (map attribute_view attributes.now.items)) }
{
    let (x, y) = (whole_at(attributes, "x"), whole_at(attributes, "y"));
    if x == 0 && y == 0 {
        return Ok(None);
    }
    Ok(Some(point(alloc, x, y)?))
}

fn offset_in(alloc: Global, element: &Element) -> Result<Option<Value>, AllocError>
    ensures { IfOk result (λ o. option_map data_of o ≡ offset_in (view element.now)) }
{
    match first_named(children(element), "tileoffset") {
        Some(offset) => offset_of(alloc, attributes(offset)),
        None => Ok(None),
    }
}

fn grid_orientation(attributes: &Vec<Attribute>) -> &str
    ensures { result.now ≡ grid_orientation (map attribute_view attributes.now.items) }
{
    one_of(
        &["isometric"],
        "orthogonal",
        text_at(attributes, "orientation"),
    )
}

// Whether a grid is that of the tiles, which need not be said.
fn is_own_grid(own: &Vec<Attribute>, grid: &Vec<Attribute>) -> bool
    ensures { result ≡ is_own_grid (map attribute_view own.now.items) (map attribute_view grid.now.items) }
{
    grid_orientation(grid) == "orthogonal"
        && whole_at(grid, "width") == whole_at(own, "tilewidth")
        && whole_at(grid, "height") == whole_at(own, "tileheight")
}

fn grid_data(alloc: Global, grid: &Vec<Attribute>) -> Result<Value, AllocError>
    ensures { IfOk result (λ v. data_of v ≡ grid_data (map attribute_view grid.now.items)) }
{
    let mut members = Map::new(alloc);
    let height = Value::from(whole_at(grid, "height"));
    serde_json::put(&mut members, alloc, "height", height)?;
    let width = Value::from(whole_at(grid, "width"));
    serde_json::put(&mut members, alloc, "width", width)?;
    put_text(alloc, &mut members, "orientation", grid_orientation(grid))?;
    Ok(Value::from(members))
}

fn grid_of(
    alloc: Global,
    own: &Vec<Attribute>,
    grid: &Vec<Attribute>,
) -> Result<Option<Value>, AllocError>
    ensures { IfOk result (λ o. option_map data_of o
        ≡ grid_of (map attribute_view own.now.items) (map attribute_view grid.now.items)) }
{
    if is_own_grid(own, grid) {
        return Ok(None);
    }
    Ok(Some(grid_data(alloc, grid)?))
}

fn grid_in(alloc: Global, element: &Element) -> Result<Option<Value>, AllocError>
    ensures { IfOk result (λ o. option_map data_of o ≡ grid_in (view element.now)) }
{
    match first_named(children(element), "grid") {
        Some(grid) => grid_of(alloc, attributes(element), attributes(grid)),
        None => Ok(None),
    }
}

fn is_set(attributes: &Vec<Attribute>, name: &str) -> bool
    ensures { result ≡ is_set name.now (map attribute_view attributes.now.items) }
{
    whole_at(attributes, name) != 0
}

fn is_turning(attributes: &Vec<Attribute>) -> bool
    ensures { result ≡ is_turning (map attribute_view attributes.now.items) }
{
    is_set(attributes, "hflip")
        || is_set(attributes, "vflip")
        || is_set(attributes, "rotate")
        || is_set(attributes, "preferuntransformed")
}

fn turning(alloc: Global, attributes: &Vec<Attribute>) -> Result<Option<Value>, Fault>
    ensures { GivesBy (option_map data_of) result (turning (map attribute_view attributes.now.items)) }
{
    if !is_turning(attributes) {
        return Ok(None);
    }
    let mut members = Map::new(alloc);
    put_table(alloc, Table::Turning, attributes, &mut members)?;
    Ok(Some(Value::from(members)))
}

fn turning_in(alloc: Global, element: Option<&Element>) -> Result<Option<Value>, Fault>
    ensures { GivesBy (option_map data_of) result (turning_in (option_map (λ e. view e.now) element.entry)) }
{
    match element {
        Some(element) => turning(alloc, attributes(element)),
        None => Ok(None),
    }
}

fn put_places(
    alloc: Global,
    element: &Element,
    members: &mut Map<String, Value>,
) -> Result<(), AllocError>
    ensures { OnOk result (members_view members.new.entries
        ≡ with_places (view element.now) (members_view members.old.entries)) }
{
    let grid = grid_in(alloc, element)?;
    put_some(alloc, members, "grid", grid)?;
    let offset = offset_in(alloc, element)?;
    put_some(alloc, members, "tileoffset", offset)
}

fn alignment(alloc: Global, element: &Element) -> Result<Option<Value>, AllocError>
    ensures { IfOk result (λ o. option_map data_of o ≡ alignment (view element.now)) }
{
    text_unless(
        alloc,
        &["", "unspecified"],
        text_at(attributes(element), "objectalignment"),
    )
}

fn put_drawing(
    alloc: Global,
    element: &Element,
    members: &mut Map<String, Value>,
) -> Result<(), AllocError>
    ensures { OnOk result (members_view members.new.entries
        ≡ with_drawing (view element.now) (members_view members.old.entries)) }
{
    put_picture(alloc, first_named(children(element), "image"), members)?;
    put_places(alloc, element, members)?;
    let alignment = alignment(alloc, element)?;
    put_some(alloc, members, "objectalignment", alignment)
}

#[tactic(auto, unfolding(crate::specs::Tilesets::with_lists))]
fn put_lists(
    alloc: Global,
    nodes: &Vec<Node>,
    members: &mut Map<String, Value>,
) -> Result<(), Fault>
    ensures { Leaves result (members_view members.new.entries)
        (with_lists (children_of (map node_view nodes.now.items)) (members_view members.old.entries)) }
{
    let mut tiles = Vec::new(alloc);
    push_tiles(alloc, nodes, &mut tiles)?;
    let sets = wang_sets(alloc, first_named(nodes, "wangsets"))?;
    put_some(alloc, members, "tiles", unless_none(tiles))?;
    put_some(alloc, members, "wangsets", unless_none(sets))?;
    Ok(())
}

#[tactic(auto, unfolding(crate::specs::Tilesets::with_parts))]
fn put_parts(
    alloc: Global,
    element: &Element,
    members: &mut Map<String, Value>,
) -> Result<(), Fault>
    ensures { Leaves result (members_view members.new.entries)
        (with_parts (view element.now) (members_view members.old.entries)) }
{
    put_drawing(alloc, element, members)?;
    let turned = turning_in(alloc, first_named(children(element), "transformations"))?;
    put_some(alloc, members, "transformations", turned)?;
    put_lists(alloc, children(element), members)?;
    put_properties(alloc, children(element), members)
}

#[tactic(auto, unfolding(crate::specs::Tilesets::with_attributes))]
fn put_attributes(
    alloc: Global,
    element: &Element,
    members: &mut Map<String, Value>,
) -> Result<(), Fault>
    ensures { Leaves result (members_view members.new.entries)
        (with_attributes (view element.now) (members_view members.old.entries)) }
{
    put_table(alloc, Table::Tileset, attributes(element), members)?;
    put_counts(alloc, element, members)?;
    Ok(())
}

/// Puts all that a tileset has among its members.
#[tactic(auto, unfolding(crate::specs::Tilesets::with_whole))]
pub fn put_whole(
    alloc: Global,
    element: &Element,
    members: &mut Map<String, Value>,
) -> Result<(), Fault>
    ensures { Leaves result (members_view members.new.entries)
        (with_whole (view element.now) (members_view members.old.entries)) }
{
    put_attributes(alloc, element, members)?;
    put_parts(alloc, element, members)
}
