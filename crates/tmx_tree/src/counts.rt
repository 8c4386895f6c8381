// How many columns and tiles a tileset has that does not say it.
ghost use Rattle.std.specs.Prelude.{◌≡◌, map, option_map, OnOk};
ghost use Rattle.serde_json.specs.View.{members_view};
ghost use Rattle.xml_text.specs.Xml.{attribute_view, view};
ghost use Rattle.tmx_tree.specs.Counts.{tiles_along, across, down, has_area, is_sized, tile_count, put_absent, with_count, counted_in, is_counted_in};
ghost use Rattle.tmx_tree.specs.Counts.{says_counts, has_counts, with_counts};

use crate::cells::side;
use crate::element::{attribute_value, attributes, children, first_named};
use serde_json::{Map, Value};
use std::alloc::{AllocError, Global};
use xml_text::{Attribute, Element};

/// The most tiles that are counted in a picture.
pub const MOST_TILES: u128 = 2_147_483_647;

fn tiles_along(whole: u32, tile: u32, margin: u32, spacing: u32) -> u64
    ensures { result ≡ tiles_along whole tile margin spacing }
{
    let room = (whole as u64 + spacing as u64).saturating_sub(margin as u64);
    room / (tile as u64 + spacing as u64).max(1)
}

// How many columns of tiles a picture has room for.
#[tactic(auto, unfolding(crate::specs::Counts::across))]
fn across(attributes: &Vec<Attribute>, image: &Vec<Attribute>) -> u64
    ensures { result ≡ across (map attribute_view attributes.now.items) (map attribute_view image.now.items) }
{
    tiles_along(
        side(image, "width"),
        side(attributes, "tilewidth"),
        side(attributes, "margin"),
        side(attributes, "spacing"),
    )
}

// How many rows of tiles a picture has room for.
#[tactic(auto, unfolding(crate::specs::Counts::down))]
fn down(attributes: &Vec<Attribute>, image: &Vec<Attribute>) -> u64
    ensures { result ≡ down (map attribute_view attributes.now.items) (map attribute_view image.now.items) }
{
    tiles_along(
        side(image, "height"),
        side(attributes, "tileheight"),
        side(attributes, "margin"),
        side(attributes, "spacing"),
    )
}

fn has_area(attributes: &Vec<Attribute>, first: &str, second: &str) -> bool
    ensures { result ≡ has_area first.now second.now (map attribute_view attributes.now.items) }
{
    side(attributes, first) > 0 && side(attributes, second) > 0
}

fn is_sized(attributes: &Vec<Attribute>, image: &Vec<Attribute>) -> bool
    ensures { result ≡ is_sized (map attribute_view attributes.now.items) (map attribute_view image.now.items) }
{
    has_area(image, "width", "height") && has_area(attributes, "tilewidth", "tileheight")
}

fn tile_count(attributes: &Vec<Attribute>, image: &Vec<Attribute>) -> Option<u64>
    ensures { result ≡ tile_count (map attribute_view attributes.now.items) (map attribute_view image.now.items) }
{
    let count = across(attributes, image) as u128 * down(attributes, image) as u128;
    if is_sized(attributes, image) && count <= MOST_TILES {
        Some(count as u64)
    } else {
        None
    }
}

// Puts a number among the members, if no attribute says it.
fn put_absent(
    alloc: Global,
    name: &str,
    number: u64,
    attributes: &Vec<Attribute>,
    members: &mut Map<String, Value>,
) -> Result<(), AllocError>
    ensures { OnOk result (members_view members.new.entries
        ≡ put_absent name.now number (map attribute_view attributes.now.items) (members_view members.old.entries)) }
{
    match attribute_value(attributes, name) {
        Some(_) => Ok(()),
        None => serde_json::put(members, alloc, name, Value::from(number)),
    }
}

fn put_count(
    alloc: Global,
    count: Option<u64>,
    attributes: &Vec<Attribute>,
    image: &Vec<Attribute>,
    members: &mut Map<String, Value>,
) -> Result<(), AllocError>
    ensures { OnOk result (members_view members.new.entries
        ≡ with_count count (map attribute_view attributes.now.items) (map attribute_view image.now.items) (members_view members.old.entries)) }
{
    match count {
        Some(count) => {
            put_absent(alloc, "tilecount", count, attributes, members)?;
            let columns = across(attributes, image);
            put_absent(alloc, "columns", columns, attributes, members)
        }
        None => Ok(()),
    }
}

fn put_counted(
    alloc: Global,
    own: &Vec<Attribute>,
    image: Option<&Element>,
    members: &mut Map<String, Value>,
) -> Result<(), AllocError>
    ensures { OnOk result (members_view members.new.entries
        ≡ counted_in (map attribute_view own.now.items) (option_map (λ e. view e.now) image.entry) (members_view members.old.entries)) }
{
    match image {
        Some(image) => {
            let count = tile_count(own, attributes(image));
            put_count(alloc, count, own, attributes(image), members)
        }
        None => Ok(()),
    }
}

fn is_counted_in(own: &Vec<Attribute>, image: Option<&Element>) -> bool
    ensures { result ≡ is_counted_in (map attribute_view own.now.items) (option_map (λ e. view e.now) image.entry) }
{
    match image {
        Some(image) => tile_count(own, attributes(image)).is_some(),
        None => false,
    }
}

fn says_counts(attributes: &Vec<Attribute>) -> bool
    ensures { result ≡ says_counts (map attribute_view attributes.now.items) }
{
    attribute_value(attributes, "tilecount").is_some()
        && attribute_value(attributes, "columns").is_some()
}

/// Whether it is known how many columns and tiles a tileset has.
pub fn has_counts(element: &Element) -> bool
    ensures { result ≡ has_counts (view element.now) }
{
    says_counts(attributes(element))
        || is_counted_in(attributes(element), first_named(children(element), "image"))
}

/// Puts how many columns and tiles a tileset has among its members, where it does not say it, and it is known.
#[tactic(auto, unfolding(crate::specs::Counts::with_counts))]
pub fn put_counts(
    alloc: Global,
    element: &Element,
    members: &mut Map<String, Value>,
) -> Result<(), AllocError>
    ensures { OnOk result (members_view members.new.entries
        ≡ with_counts (view element.now) (members_view members.old.entries)) }
{
    if says_counts(attributes(element)) {
        return Ok(());
    }
    put_counted(
        alloc,
        attributes(element),
        first_named(children(element), "image"),
        members,
    )
}
