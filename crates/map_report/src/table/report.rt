// What is in a map.
use crate::listing::write_sizes;
use crate::table::answers::{answer_of, read_back};
use link_chain::Chain;
use link_tree::LinkTree;
use map_faults::Output;
use map_json::{read_map, write_map};
use map_model::limits::MAX_GROUPS;
use map_model::{Body, Encoding, Layer, Map, MapParts, Object, PropValue, Property, Tileset};
use std::alloc::Global;
use std::io::Write;
use tile_id::Gid;

fn write_property<W: Write>(property: &Property, out: &mut Output<'_, W>) {
    out.text("\n    property \"");
    out.text(property.name.as_str());
    out.text("\", ");
    out.text(property.kind.as_str());
    match &property.value {
        PropValue::Text(_) => out.text(", a text"),
        PropValue::Whole(whole) => out.value(", ", whole),
        PropValue::Truth(truth) => out.value(", ", truth),
        PropValue::Other(_) => out.text(", kept"),
    }
}

fn write_properties<W: Write>(properties: &Chain<Property>, out: &mut Output<'_, W>) {
    for property in properties.iter() {
        write_property(property, out);
    }
}

// Writes a number that may be absent.
fn write_number<W: Write>(before: &str, number: Option<i32>, out: &mut Output<'_, W>) {
    if let Some(number) = number {
        out.value(before, &number);
    }
}

// Writes a name in quotes.
fn write_name<W: Write>(name: &str, out: &mut Output<'_, W>) {
    out.text(" \"");
    out.text(name);
    out.text("\"");
}

fn write_object<W: Write>(object: &Object, out: &mut Output<'_, W>) {
    out.value("\n  object ", &object.id);
    if let Some(name) = &object.name {
        write_name(name.as_str(), out);
    }
    write_number(", x ", object.placing.x, out);
    write_number(", y ", object.placing.y, out);
    write_number(", width ", object.placing.width, out);
    write_number(", height ", object.placing.height, out);
    if let Some(Gid(value)) = object.gid {
        out.value(", tile ", &value);
    }
    if object.visible == Some(false) {
        out.text(", hidden");
    }
    write_properties(&object.properties, out);
}

fn write_objects<W: Write>(objects: &LinkTree<Object>, out: &mut Output<'_, W>) {
    out.value("", &objects.len());
    out.text(" objects");
    for object in objects.iter() {
        write_object(object, out);
    }
}

// Writes how many cells there are, and the values of the first row.
fn write_cells<W: Write>(width: u32, encoding: Encoding, cells: &[Gid], out: &mut Output<'_, W>) {
    out.value("", &cells.len());
    out.text(match encoding {
        Encoding::Array => " cells as numbers",
        Encoding::Base64 => " cells in base64",
    });
    out.text("\n    first row");
    for cell in cells.iter().take(width as usize) {
        out.value(" ", &cell.0);
    }
}

fn write_body<W: Write>(width: u32, body: &Body, out: &mut Output<'_, W>) {
    match body {
        Body::Tiles(encoding, cells) => write_cells(width, *encoding, cells.as_slice(), out),
        Body::Objects(objects) => write_objects(objects, out),
        Body::Other => out.text("an image"),
        Body::Group(layers) => {
            out.value("a group of ", &layers.len());
            out.text(" layers");
        }
    }
}

// Writes a layer, and in which group it stands.
fn write_layer<W: Write>(width: u32, layer: &Layer, group: Option<u32>, out: &mut Output<'_, W>) {
    out.value("\nlayer ", &layer.id);
    write_name(layer.name.as_str(), out);
    if let Some(group) = group {
        out.value(" in layer ", &group);
    }
    out.text(if layer.visible {
        ", shown, "
    } else {
        ", hidden, "
    });
    write_body(width, &layer.body, out);
    write_properties(&layer.properties, out);
}

// Writes layers and those in them, where so many groups may stand in one another.
fn write_layers<W: Write>(
    width: u32,
    layers: &Chain<Layer>,
    group: Option<u32>,
    groups: usize,
    out: &mut Output<'_, W>,
) {
    for layer in layers.iter() {
        write_layer(width, layer, group, out);
        if let Some(inside) = layer.body.layers() {
            if groups > 0 {
                write_layers(width, inside, Some(layer.id), groups - 1, out);
            }
        }
    }
}

fn write_tileset<W: Write>(tileset: &Tileset, out: &mut Output<'_, W>) {
    out.value("\ntileset from ", &tileset.first_id);
    out.text(": ");
    match &tileset.source {
        Some(source) => out.text(source.as_str()),
        None => out.text("in the map"),
    }
}

fn write_parts<W: Write>(map: &MapParts, out: &mut Output<'_, W>) {
    out.text("\n");
    write_sizes(map, out);
    write_properties(&map.properties, out);
    write_layers(map.width, &map.layers, None, MAX_GROUPS, out);
    for tileset in map.tilesets.iter() {
        write_tileset(tileset, out);
    }
}

// Whether two texts are the same, in words.
fn sameness(text: &[u8], again: &[u8]) -> &'static str {
    if again == text {
        "which read as the same"
    } else {
        "which read as another map"
    }
}

// Writes how long the map's text is, and whether it reads as a map with the same text.
fn write_again<W: Write>(alloc: Global, text: &[u8], out: &mut Output<'_, W>) {
    out.value("\nwritten in ", &text.len());
    out.text(" bytes, ");
    match read_back(alloc, text) {
        Ok(Ok(again)) => out.text(sameness(text, &again)),
        Ok(Err(fault)) => out.text(answer_of(fault)),
        Err(_) => out.lose(),
    }
}

fn write_map_report<W: Write>(alloc: Global, map: &Map, out: &mut Output<'_, W>) {
    write_parts(map.parts(), out);
    match write_map(alloc, map) {
        Ok(text) => write_again(alloc, &text, out),
        Err(_) => out.lose(),
    }
}

/// Writes what is in the map that some bytes spell, or why there is none.
pub fn write_report<W: Write>(alloc: Global, bytes: &[u8], out: &mut Output<'_, W>) {
    match read_map(alloc, bytes) {
        Ok(map) => write_map_report(alloc, &map, out),
        Err(fault) => {
            out.text(" => ");
            out.text(answer_of(fault));
        }
    }
}
