// The fractions of a map that is refused for one: each with its place, and the layer or the object that has it.
use map_faults::{Output, Place, write_short};
use map_json::{Segment, Trail};
use serde_json::{Map, Value};
use std::alloc::Global;
use std::io::Write;

/// What a value of the tree is.
#[derive(Clone, Copy, PartialEq, Eq)]
enum Part {
    Map,
    Layers,
    Layer,
    Objects,
    Object,
    Other,
}

impl Part {
    // What an entry of an array is.
    fn entry(self) -> Part {
        match self {
            Part::Layers => Part::Layer,
            Part::Objects => Part::Object,
            _ => Part::Other,
        }
    }

    // What a member is.
    fn member(self, name: &str) -> Part {
        match self {
            Part::Map | Part::Layer if name == "layers" => Part::Layers,
            Part::Layer if name == "objects" => Part::Objects,
            _ => Part::Other,
        }
    }
}

/// The layer or the object that a value stands in.
#[derive(Clone, Copy)]
pub enum Owner<'a> {
    Map,
    Layer(&'a Value),
    Object(&'a Value),
}

impl<'a> Owner<'a> {
    // The owner of what is in a value.
    fn within(self, part: Part, value: &'a Value) -> Owner<'a> {
        match part {
            Part::Layer => Owner::Layer(value),
            Part::Object => Owner::Object(value),
            _ => self,
        }
    }
}

// Writes what an owner is, with its id and its name, where it has them.
fn write_kind<W: Write>(alloc: Global, kind: &str, owner: &Value, out: &mut Output<'_, W>) {
    out.text(kind);
    if let Some(id) = owner.get("id").and_then(Value::as_u64) {
        out.value(" ", &id);
    }
    let name = owner.get("name").and_then(Value::as_str).unwrap_or("");
    if !name.is_empty() {
        out.text(" ");
        write_short(alloc, name, out);
    }
    out.text(": ");
}

/// Writes what a fraction stands in, where that is a layer or an object.
pub fn write_owner<W: Write>(alloc: Global, owner: Owner<'_>, out: &mut Output<'_, W>) {
    match owner {
        Owner::Map => {}
        Owner::Layer(layer) => write_kind(alloc, "layer", layer, out),
        Owner::Object(object) => write_kind(alloc, "object", object, out),
    }
}

/// What takes the fractions of a map, one after the other.
pub trait Fractions {
    /// Takes the fraction at a place in the tree of a map.
    fn take(&mut self, root: &Value, owner: Owner<'_>, place: &Place);

    /// Is told that there was no memory for a place.
    fn lose_place(&mut self);
}

fn take_fraction<F: Fractions>(root: &Value, owner: Owner<'_>, place: &Place, fractions: &mut F) {
    if place.is_lost() {
        fractions.lose_place();
    } else {
        fractions.take(root, owner, place);
    }
}

// Takes each fraction in a value at a place, and gives how many there are. The value comes first: it gets less deep.
#[cycle(fractions)]
fn find_in_value<F: Fractions>(
    value: &Value,
    root: &Value,
    part: Part,
    owner: Owner<'_>,
    place: &mut Place,
    fractions: &mut F,
) -> u64 {
    let owner = owner.within(part, value);
    match value {
        Value::Null | Value::Bool(_) | Value::String(_) => 0,
        Value::Number(number) => {
            if !number.is_f64() {
                return 0;
            }
            take_fraction(root, owner, place, fractions);
            1
        }
        Value::Array(items) => { find_in_items(items, root, part.entry(), owner, place, fractions) }
        Value::Object(members) => { find_in_members(members, root, part, owner, place, fractions) }
    }
}

#[cycle(fractions)]
fn find_in_items<F: Fractions>(
    items: &Vec<Value>,
    root: &Value,
    part: Part,
    owner: Owner<'_>,
    place: &mut Place,
    fractions: &mut F,
) -> u64 {
    let mut count = 0u64;
    for (at, item) in items.iter().enumerate() {
        place.enter(Segment::Element(at));
        let more = find_in_value(item, root, part, owner, place, fractions);
        count = count.saturating_add(more);
        place.leave();
    }
    count
}

#[cycle(fractions)]
fn find_in_members<F: Fractions>(
    members: &Map<String, Value>,
    root: &Value,
    part: Part,
    owner: Owner<'_>,
    place: &mut Place,
    fractions: &mut F,
) -> u64 {
    let mut count = 0u64;
    for (name, member) in members.iter() {
        let name = name.as_str();
        // The version of the map comes last.
        if part != Part::Map || name != "version" {
            place.enter(Segment::Member(name));
            let inner = part.member(name);
            let more = find_in_value(member, root, inner, owner, place, fractions);
            count = count.saturating_add(more);
            place.leave();
        }
    }
    count
}

// Takes the fractions in a version that is no number.
fn find_in_version<F: Fractions>(alloc: Global, root: &Value, fractions: &mut F) -> u64 {
    let mut place = Place::new(alloc);
    match root.get("version") {
        None | Some(Value::Number(_)) => 0,
        Some(version) => {
            place.enter(Segment::Member("version"));
            find_in_value(
                version,
                root,
                Part::Other,
                Owner::Map,
                &mut place,
                fractions,
            )
        }
    }
}

/// Hands on each fraction of a map's tree, in the order in which the reader seeks them, and gives how many there are.
pub fn find_fractions<F: Fractions>(alloc: Global, root: &Value, fractions: &mut F) -> u64 {
    let mut place = Place::new(alloc);
    let count = find_in_value(root, root, Part::Map, Owner::Map, &mut place, fractions);
    let more = find_in_version(alloc, root, fractions);
    count.saturating_add(more)
}
