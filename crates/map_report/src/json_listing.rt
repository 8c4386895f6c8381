// What is in a map, as members of an object of JSON. A member has Tiled's name where Tiled has one.
use link_chain::Chain;
use link_tree::LinkTree;
use map_faults::Members;
use map_model::limits::MAX_GROUPS;
use map_model::{Body, Layer, MapParts, MapText, Object, PropValue, Property, Tileset, names};
use serde_json::{Map, Number, Value};
use tile_id::Gid;
use tiled_maps::number_in;

// Puts pixels, which are 0 where the file leaves them out.
fn put_pixels(out: &mut Members, name: &str, pixels: Option<i32>) {
    out.key(name);
    out.i64(i64::from(pixels.unwrap_or(0)));
}

// ---- properties

fn put_json_number(out: &mut Members, number: &Number) {
    if let Some(whole) = number.as_i64() {
        return out.i64(whole);
    }
    match (number.as_u64(), number.as_f64()) {
        (Some(whole), _) => out.u64(whole),
        (None, Some(fraction)) => out.f64(fraction),
        (None, None) => out.null(),
    }
}

// Puts a tree. It comes first: it gets less deep.
#[cycle(trees)]
fn put_tree(tree: &Value, out: &mut Members) {
    match tree {
        Value::Null => out.null(),
        Value::Bool(truth) => out.boolean(*truth),
        Value::Number(number) => put_json_number(out, number),
        Value::String(text) => out.string(text.as_str()),
        Value::Array(items) => put_items(items, out),
        Value::Object(members) => put_members(members, out),
    }
}

#[cycle(trees)]
fn put_items(items: &Vec<Value>, out: &mut Members) {
    out.begin_array();
    for item in items.iter() {
        put_tree(item, out);
    }
    out.end_array();
}

// A stand-in is put as the fraction that was set aside.
#[cycle(trees)]
fn put_members(members: &Map<String, Value>, out: &mut Members) {
    if let Some(number) = number_in(members) {
        return put_json_number(out, &number);
    }
    out.begin_object();
    for (name, member) in members.iter() {
        out.key(name.as_str());
        put_tree(member, out);
    }
    out.end_object();
}

fn put_value(out: &mut Members, value: &PropValue) {
    out.key(names::VALUE);
    match value {
        PropValue::Text(text) => out.string(text.as_str()),
        PropValue::Whole(whole) => out.i64(*whole),
        PropValue::Truth(truth) => out.boolean(*truth),
        PropValue::Other(other) => put_tree(other.value(), out),
    }
}

fn put_properties(out: &mut Members, properties: &Chain<Property>) {
    out.begin_list(names::PROPERTIES);
    for property in properties.iter() {
        out.begin_object();
        out.text(names::NAME, property.name.as_str());
        out.text(names::TYPE, property.kind.as_str());
        put_value(out, &property.value);
        out.end_object();
    }
    out.end_array();
}

// ---- objects

// A text that the editor keeps; empty where the file has none.
fn kept_text<'a>(kept: &'a Map<String, Value>, name: &str) -> &'a str {
    match kept.get(name) {
        Some(value) => value.as_str().unwrap_or(""),
        None => "",
    }
}

// The class of an object, which one version of Tiled called so and all others its type.
fn class_of(kept: &Map<String, Value>) -> &str {
    let class = kept_text(kept, "class");
    if class.is_empty() {
        kept_text(kept, "type")
    } else {
        class
    }
}

// What an object is drawn as.
fn shape_of(object: &Object) -> &'static str {
    if object.gid.is_some() {
        return "tile";
    }
    let kept = object.kept.members();
    for shape in ["ellipse", "point", "polygon", "polyline", "text"] {
        if kept.get(shape).is_some() {
            return shape;
        }
    }
    "rectangle"
}

// Puts by how much an object is turned, in degrees.
fn put_rotation(out: &mut Members, kept: &Map<String, Value>) {
    out.key("rotation");
    match kept.get("rotation") {
        Some(rotation) => put_tree(rotation, out),
        None => out.i64(0),
    }
}

// Puts an object, with the id of its layer.
fn put_object(out: &mut Members, layer: u32, object: &Object) {
    let name = match &object.name {
        Some(name) => name.as_str(),
        None => "",
    };
    out.begin_object();
    out.number(names::ID, object.id);
    out.number("layer", layer);
    out.text(names::NAME, name);
    out.text("class", class_of(object.kept.members()));
    out.text("shape", shape_of(object));
    put_rotation(out, object.kept.members());
    put_pixels(out, names::X, object.placing.x);
    put_pixels(out, names::Y, object.placing.y);
    put_pixels(out, names::WIDTH, object.placing.width);
    put_pixels(out, names::HEIGHT, object.placing.height);
    out.truth(names::VISIBLE, object.visible.unwrap_or(true));
    out.number_or_null(names::GID, object.gid.map(|gid| gid.0));
    put_properties(out, &object.properties);
    out.end_object();
}

// Puts the objects of layers and of those in them, where so many groups may stand in one another.
fn put_objects(out: &mut Members, layers: &Chain<Layer>, groups: usize) {
    for layer in layers.iter() {
        match &layer.body {
            Body::Objects(objects) => put_objects_of(out, layer.id, objects),
            Body::Group(inside) if groups > 0 => put_objects(out, inside, groups - 1),
            _ => {}
        }
    }
}

fn put_objects_of(out: &mut Members, layer: u32, objects: &LinkTree<Object>) {
    for object in objects.iter() {
        put_object(out, layer, object);
    }
}

// ---- layers

fn type_of(body: &Body) -> &'static str {
    match body {
        Body::Tiles(_, _) => "tilelayer",
        Body::Objects(_) => "objectgroup",
        Body::Other => "imagelayer",
        Body::Group(_) => "group",
    }
}

// Puts how many cells a tile layer has, and how many of them are set.
fn put_cells(out: &mut Members, cells: &[Gid]) {
    let set = cells.iter().filter(|cell| cell.0 != 0).count();
    out.count("cells", cells.len());
    out.count("set", set);
}

// Puts a layer, with the id of the group that it stands in.
fn put_layer(out: &mut Members, group: Option<u32>, layer: &Layer) {
    out.begin_object();
    out.number(names::ID, layer.id);
    out.text(names::TYPE, type_of(&layer.body));
    out.text(names::NAME, layer.name.as_str());
    out.number_or_null("group", group);
    out.truth(names::VISIBLE, layer.visible);
    if let Some(cells) = layer.body.tiles() {
        put_cells(out, cells);
    }
    put_properties(out, &layer.properties);
    out.end_object();
}

// Puts layers and those in them, where so many groups may stand in one another.
fn put_layers(out: &mut Members, group: Option<u32>, layers: &Chain<Layer>, groups: usize) {
    for layer in layers.iter() {
        put_layer(out, group, layer);
        if let Some(inside) = layer.body.layers() {
            if groups > 0 {
                put_layers(out, Some(layer.id), inside, groups - 1);
            }
        }
    }
}

// ---- maps

fn put_source(out: &mut Members, source: &Option<MapText>) {
    out.key(names::SOURCE);
    match source {
        Some(source) => out.string(source.as_str()),
        None => out.null(),
    }
}

fn put_tilesets(out: &mut Members, tilesets: &Chain<Tileset>) {
    out.begin_list(names::TILESETS);
    for tileset in tilesets.iter() {
        out.begin_object();
        out.number(names::FIRST_ID, tileset.first_id);
        put_source(out, &tileset.source);
        out.end_object();
    }
    out.end_array();
}

fn put_sizes(out: &mut Members, map: &MapParts) {
    out.number(names::WIDTH, map.width);
    out.number(names::HEIGHT, map.height);
    out.number(names::TILE_WIDTH, map.tile_width);
    out.number(names::TILE_HEIGHT, map.tile_height);
    out.number(names::NEXT_LAYER_ID, map.next_layer_id);
    out.number(names::NEXT_OBJECT_ID, map.next_object_id);
}

/// Puts the members that tell what is in a map. Layers come in drawing order, a group before the layers in it; objects in the
/// order of their layers.
pub fn put_map(out: &mut Members, map: &MapParts) {
    put_sizes(out, map);
    out.text("orientation", kept_text(map.kept.members(), "orientation"));
    put_properties(out, &map.properties);
    out.begin_list(names::LAYERS);
    put_layers(out, None, &map.layers, MAX_GROUPS);
    out.end_array();
    out.begin_list(names::OBJECTS);
    put_objects(out, &map.layers, MAX_GROUPS);
    out.end_array();
    put_tilesets(out, &map.tilesets);
}
