// The way to an object whose layer has its ids in rising order, as it has them where objects were only added and removed.
ghost use Rattle.std.specs.Prelude.{◌≡◌, ◌<◌, IfSome, length};

use crate::parts::{Body, Layer, Object};
use link_chain::Chain;
use link_tree::LinkTree;

/// Goes to the object with an id in the layer that was last changed or gone to, in layers that may have so many groups in one
/// another, and tells whether it did. That layer notes it, so that next time it need not look the object up. No layer changes.
#[cycle(here)]
pub fn seek_here(layers: &mut Chain<Layer>, id: u32, groups: usize) -> bool
    ensures { layers.new ≡ layers.old }
{
    match layer_here(layers) {
        Some(at) => layers.get_mut(at).body.seek_object_here(id, groups),
        None => false,
    }
}

// The place of the layer that was last changed or gone to.
fn layer_here(layers: &Chain<Layer>) -> Option<usize>
    ensures { IfSome result (λ at. at < length layers.now) }
{
    let (at, _) = layers.here()?;
    Some(at)
}

// Goes to the object with an id, and tells whether it did: by the ids, if they rise, or else by the numbers noted for the objects.
fn seek_numbered(objects: &mut LinkTree<Object>, id: u32) -> bool
    ensures { objects.new ≡ objects.old }
{
    if let Some(at) = place_of_id(objects, id) {
        objects.go_to(at, id);
        return true;
    }
    objects.note_places(|object| object.id);
    match objects.noted_place(id) {
        Some(at) if objects.get(at).id == id => {
            objects.go_to(at, id);
            true
        }
        _ => false,
    }
}

// Goes to the object with an id, if it is the one that was last changed or gone to, or else by the ids, and notes that it did.
fn seek_listed(objects: &mut LinkTree<Object>, id: u32) -> bool
    ensures { objects.new ≡ objects.old }
{
    if objects.is_noted(id) {
        return true;
    }
    let place = match objects.here() {
        Some((at, object)) if object.id == id => Some(at),
        _ => place_of_id(objects, id),
    };
    match place {
        Some(at) => {
            objects.go_to(at, id);
            true
        }
        None => false,
    }
}

/// Goes to the object with an id, so that it is found and changed at once, in layers that may have so many groups in one
/// another, and tells whether it did. No layer changes.
#[inline(never)]
#[cycle(seek)]
pub fn seek_in_layers(layers: &mut Chain<Layer>, id: u32, groups: usize) -> bool
    ensures { layers.new ≡ layers.old }
{
    match likely_layer(layers, id, groups) {
        Some(at) => layers.get_mut(at).body.seek_object(id, groups),
        None => false,
    }
}

/// The same, where the ids of a layer do not rise, or those of several layers overlap: by a number noted for each object.
#[inline(never)]
#[cycle(noted)]
pub fn seek_noted(layers: &mut Chain<Layer>, id: u32, groups: usize) -> bool
    ensures { layers.new ≡ layers.old }
{
    for at in 0..layers.len() {
        if layers.get_mut(at).body.seek_noted_object(id, groups) {
            return true;
        }
    }
    false
}

// The place of a layer of which an object may have the id, or one that stands in it: the layer that was last changed, or
// else the first such one.
fn likely_layer(layers: &Chain<Layer>, id: u32, groups: usize) -> Option<usize>
    ensures { IfSome result (λ at. at < length layers.now) }
{
    match layers.here() {
        Some((at, layer)) if is_likely(layer, id, groups) => Some(at),
        _ => layers.iter().position(|layer| is_likely(layer, id, groups)),
    }
}

// Whether an object of a layer may have the id, or one of a layer that stands in it.
fn is_likely(layer: &Layer, id: u32, groups: usize) -> bool {
    let Some(inside) = layer.body.layers() else {
        return layer.body.may_have(id);
    };
    if groups == 0 {
        return false;
    }
    for layer in inside.iter() {
        if is_likely(layer, id, groups - 1) {
            return true;
        }
    }
    false
}

// The place of the object with an id, if the ids rise. Where they do not, a search finds some other object: to go there
// would make each later look-up of the object that was gone to before a walk.
fn place_of_id(objects: &LinkTree<Object>, id: u32) -> Option<usize> {
    let (at, object) = objects.search(|object| id <= object.id)?;
    if object.id == id { Some(at) } else { None }
}

impl Body {
    // Goes to the object with an id, or in a group to that in the layer here, and tells whether it did.
    #[cycle(here)]
    fn seek_object_here(&mut self, id: u32, groups: usize) -> bool
        ensures { self.new ≡ self.old }
    {
        match self {
            Body::Objects(objects) => seek_listed(objects, id),
            Body::Group(layers) => {
                if groups > 0 {
                    seek_here(layers, id, groups - 1)
                } else {
                    false
                }
            }
            Body::Tiles(_, _) => false,
            Body::Other => false,
        }
    }

    // Whether an object may have the id, if the ids rise.
    fn may_have(&self, id: u32) -> bool {
        let Some(objects) = self.objects() else {
            return false;
        };
        match (objects.first(), objects.last()) {
            (Some(first), Some(last)) => first.id <= id && id <= last.id,
            _ => false,
        }
    }

    // Goes to the object with an id, or in a group to the layer that may have it first, and tells whether it did.
    #[cycle(seek)]
    fn seek_object(&mut self, id: u32, groups: usize) -> bool
        ensures { self.new ≡ self.old }
    {
        match self {
            Body::Objects(objects) => match place_of_id(objects, id) {
                Some(at) => {
                    objects.go_to(at, id);
                    true
                }
                None => false,
            },
            Body::Group(layers) => groups > 0 && seek_in_layers(layers, id, groups - 1),
            Body::Tiles(_, _) => false,
            Body::Other => false,
        }
    }

    // Goes to the object with an id, or in a group to the one in the first layer that has it, and tells whether it did.
    #[cycle(noted)]
    fn seek_noted_object(&mut self, id: u32, groups: usize) -> bool
        ensures { self.new ≡ self.old }
    {
        match self {
            Body::Objects(objects) => seek_numbered(objects, id),
            Body::Group(layers) => groups > 0 && seek_noted(layers, id, groups - 1),
            Body::Tiles(_, _) => false,
            Body::Other => false,
        }
    }
}
