// What is in a map: a line for each thing, indented under what it belongs to.
use link_chain::Chain;
use link_tree::LinkTree;
use map_faults::{Output, is_shown_plain};
use map_model::limits::MAX_GROUPS;
use map_model::{Body, Layer, MapParts, Object, PropValue, Property, Tileset};
use std::io::Write;
use tile_id::Gid;

// Begins the line of a thing that stands so far below the map.
fn write_indent<W: Write>(indent: usize, out: &mut Output<'_, W>) {
    for _ in 0..indent {
        out.text("  ");
    }
}

// Writes the name of a property and its type, which is mostly a word.
fn write_key<W: Write>(name: &str, kind: &str, out: &mut Output<'_, W>) {
    out.quoted("property ", name);
    if is_shown_plain(kind) {
        out.value(", ", &kind);
    } else {
        out.quoted(", ", kind);
    }
    out.text(": ");
}

// Writes the value of a property, and ends its line.
fn write_value<W: Write>(value: &PropValue, out: &mut Output<'_, W>) {
    match value {
        PropValue::Text(text) => out.quoted("", text.as_str()),
        PropValue::Whole(whole) => out.value("", whole),
        PropValue::Truth(truth) => out.value("", truth),
        PropValue::Other(other) => out.value("", other.value()),
    }
    out.text("\n");
}

fn write_properties<W: Write>(
    indent: usize,
    properties: &Chain<Property>,
    out: &mut Output<'_, W>,
) {
    for property in properties.iter() {
        write_indent(indent, out);
        write_key(property.name.as_str(), property.kind.as_str(), out);
        write_value(&property.value, out);
    }
}

// Writes an object; a place that the file leaves out is 0.
fn write_object<W: Write>(indent: usize, object: &Object, out: &mut Output<'_, W>) {
    write_indent(indent, out);
    out.value("object ", &object.id);
    if let Some(name) = &object.name {
        out.quoted(" ", name.as_str());
    }
    out.value(" at ", &object.placing.x.unwrap_or(0));
    out.value(", ", &object.placing.y.unwrap_or(0));
    out.text("\n");
    write_properties(indent.saturating_add(1), &object.properties, out);
}

fn write_objects<W: Write>(indent: usize, objects: &LinkTree<Object>, out: &mut Output<'_, W>) {
    for object in objects.iter() {
        write_object(indent, object, out);
    }
}

fn kind_of(body: &Body) -> &'static str {
    match body {
        Body::Tiles(_, _) => "tile layer",
        Body::Objects(_) => "object layer",
        Body::Other => "image layer",
        Body::Group(_) => "group",
    }
}

// Writes how many cells of a tile layer are set.
fn write_cells<W: Write>(cells: &[Gid], out: &mut Output<'_, W>) {
    let set = cells.iter().filter(|cell| cell.0 != 0).count();
    out.value(", ", &set);
    out.value(" of ", &cells.len());
    out.text(" cells set");
}

// Writes the line of a layer.
fn write_head<W: Write>(indent: usize, layer: &Layer, out: &mut Output<'_, W>) {
    write_indent(indent, out);
    out.text(kind_of(&layer.body));
    out.value(" ", &layer.id);
    out.quoted(" ", layer.name.as_str());
    if let Some(cells) = layer.body.tiles() {
        write_cells(cells, out);
    }
    out.text("\n");
}

// Writes a layer without the layers in it.
fn write_layer<W: Write>(indent: usize, layer: &Layer, out: &mut Output<'_, W>) {
    write_head(indent, layer, out);
    let inside = indent.saturating_add(1);
    write_properties(inside, &layer.properties, out);
    if let Body::Objects(objects) = &layer.body {
        write_objects(inside, objects, out);
    }
}

// Writes layers and those in them, where so many groups may stand in one another.
fn write_layers<W: Write>(
    indent: usize,
    layers: &Chain<Layer>,
    groups: usize,
    out: &mut Output<'_, W>,
) {
    for layer in layers.iter() {
        write_layer(indent, layer, out);
        if let Some(inside) = layer.body.layers() {
            if groups > 0 {
                write_layers(indent.saturating_add(1), inside, groups - 1, out);
            }
        }
    }
}

fn write_tileset<W: Write>(tileset: &Tileset, out: &mut Output<'_, W>) {
    out.value("  tileset from ", &tileset.first_id);
    match &tileset.source {
        Some(source) => out.quoted(": ", source.as_str()),
        None => out.text(": in the map"),
    }
    out.text("\n");
}

/// Writes the sizes of a map and of its tiles, and the ids that come next.
pub fn write_sizes<W: Write>(map: &MapParts, out: &mut Output<'_, W>) {
    out.value("", &map.width);
    out.value(" by ", &map.height);
    out.value(" cells of ", &map.tile_width);
    out.value(" by ", &map.tile_height);
    out.value(" pixels, next layer ", &map.next_layer_id);
    out.value(", next object ", &map.next_object_id);
}

/// Writes what is in the map of a file.
pub fn write_listing<W: Write>(file: &str, map: &MapParts, out: &mut Output<'_, W>) {
    out.text(file);
    out.text(": ");
    write_sizes(map, out);
    out.text("\n");
    write_properties(1, &map.properties, out);
    write_layers(1, &map.layers, MAX_GROUPS, out);
    for tileset in map.tilesets.iter() {
        write_tileset(tileset, out);
    }
}
