// The first thing of a name.
ghost use Rattle.std.specs.Prelude.{◌≡◌, find};
ghost use Rattle.std.specs.Option.{option_map};
ghost use Rattle.map_model.specs.Groups.{drawn, tree};
ghost use Rattle.map_model.specs.Keeping.{layer_tier};
ghost use Rattle.map_model.specs.Lists.{first_some};
ghost use Rattle.map_lists.specs.Named.{has_name, id_in_layer, id_of_name, id_of_named};

use link_chain::Chain;
use link_tree::LinkTree;
use map_model::limits::MAX_GROUPS;
use map_model::{Layer, Map, Object};

/// What is looked for by its name.
#[derive(Clone, Copy, Debug, PartialEq, Eq)]
pub enum Subject {
    Layer,
    Object,
}

fn has_name(object: &Object, name: &str) -> bool
    ensures { result ≡ has_name name.now object.now }
{
    match &object.name {
        Some(own) => own.as_str() == name,
        None => false,
    }
}

// The id of the first of these objects that has a name.
fn id_among(objects: &LinkTree<Object>, name: &str) -> Option<u32>
    ensures { result ≡ id_of_named name.now objects.now }
{
    for object in objects.iter() {
        if has_name(object, name) {
            return Some(object.id);
        }
    }
    None
}

// The id of a layer, or of the first of its objects, that has a name.
fn id_in_layer(subject: Subject, layer: &Layer, name: &str) -> Option<u32>
    ensures { result ≡ id_in_layer subject name.now (layer_tier, layer.now) }
{
    match subject {
        Subject::Layer => {
            if layer.name.as_str() == name {
                Some(layer.id)
            } else {
                None
            }
        }
        Subject::Object => match layer.body.objects() {
            Some(objects) => id_among(objects, name),
            None => None,
        },
    }
}

// The same of layers that may have so many groups in one another, and of those that stand in them.
#[cycle(named)]
fn id_in_layers(subject: Subject, layers: &Chain<Layer>, name: &str, groups: usize) -> Option<u32>
    ensures { result ≡ first_some (id_in_layer subject name.now) (drawn groups layer_tier layers.now) }
{
    for layer in layers.iter() {
        if let Some(found) = id_under(subject, layer, name, groups) {
            return Some(found);
        }
    }
    None
}

// The same of a layer and those that stand in it.
#[cycle(named)]
fn id_under(subject: Subject, layer: &Layer, name: &str, groups: usize) -> Option<u32>
    ensures { result ≡ first_some (id_in_layer subject name.now) (tree groups layer_tier layer.now) }
{
    if let Some(found) = id_in_layer(subject, layer, name) {
        return Some(found);
    }
    if groups == 0 {
        return None;
    }
    match layer.body.layers() {
        Some(inside) => id_in_layers(subject, inside, name, groups - 1),
        None => None,
    }
}

/// The id of the first layer or object in drawing order that has a name, and `None` where the map has no such one. An object that
/// has no name is not found by an empty one.
pub fn id_of_name(map: &Map, subject: Subject, name: &str) -> Option<u32>
    ensures { result ≡ id_of_name subject name.now map.now }
{
    id_in_layers(subject, &map.parts().layers, name, MAX_GROUPS)
}
