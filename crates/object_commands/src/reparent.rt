ghost use Rattle.std.specs.Prelude.{◌≡◌, Err, IfOk, IfErr, refl};
ghost use Rattle.command_api.specs.Making.{Makes};
ghost use Rattle.edits.specs.ObjectEdits.{after_object_into};
ghost use Rattle.map_model.specs.Moving.{other_objects};
ghost use Rattle.object_commands.specs.Changes.{reparent_object_change, reparent_object_exchange};
ghost use Rattle.object_commands.specs.Names.{reparent_object_names};

use crate::add::objects_of_layer;
use command_api::{Exchange, Label, Lone};
use edits::EditFault;
use link_tree::LinkTree;
use map_model::limits::MAX_OBJECTS;
use map_model::{Document, Object, ObjectPlace};
use std::mem;

/// An object is moved to another place, of its own layer or of another one.
#[derive(Drop)]
pub struct ReparentObject {
    from: ObjectPlace,
    to: ObjectPlace,
    id: u32,
}

impl ReparentObject {
    /// The command that takes the object with an id out and puts it in at a zero-based place among the other objects of a
    /// layer, which may be its own; not made yet. The document stays as it is.
    ///
    /// Refused, in this order: where there is no such object; where there is no layer with the id; where it is not an object
    /// layer; where the place is above the number of the layer's other objects; where the layer has 4,096 other objects; and
    /// where what a file kept of the object nests too deep for the layer.
    pub fn new(
        document: &Document,
        object: u32,
        layer: u32,
        place: u32,
    ) -> Result<ReparentObject, EditFault>
        ensures command { IfOk result (λ c. Makes reparent_object_names document.now (after_object_into document.now object layer place) (reparent_object_change c)) }
        ensures refusal { IfErr result (λ fault. after_object_into document.now object layer place ≡ Err fault) }
        ensures id { IfOk result (λ c. c.id ≡ object) }
    {
        let map = document.map();
        let Some((from, moved)) = map.object(object) else {
            return Err(EditFault::NoSuchObject);
        };
        let objects = objects_of_layer(map, layer)?;
        let others = other_objects(from, layer, objects);
        let at = place as usize;
        if at > others {
            return Err(EditFault::OutOfRange);
        }
        if others >= MAX_OBJECTS {
            return Err(EditFault::TooMany);
        }
        if !map.object_fits(layer, moved) {
            return Err(EditFault::OutOfRange);
        }
        Ok(ReparentObject {
            from,
            to: ObjectPlace { layer, at },
            id: object,
        })
    }

    /// The id of the object.
    pub fn object(&self) -> u32
        ensures { result ≡ self.now.id }
    {
        self.id
    }
}

// How many objects a layer has beside the one at a place.
fn other_objects(place: ObjectPlace, layer: u32, objects: &LinkTree<Object>) -> usize
    ensures { result ≡ other_objects place layer objects.now }
{
    let count = objects.len();
    if place.layer == layer && count > 0 {
        count - 1
    } else {
        count
    }
}

impl Exchange for ReparentObject {
    ghost exchange_parts = { reparent_object_exchange };

    fn label(&self) -> Label {
        Label::untagged("Move Object", "move object")
    }

    fn is_obsolete(&self) -> bool {
        false
    }

    fn exchange(&mut self, document: &mut Document) {
        let object = document.take_object(self.from);
        document.insert_object(self.to, object);
        mem::swap(&mut self.from, &mut self.to);
    }
}

impl Lone for ReparentObject {
    ghost alone = { λ x. record { tag = refl; follows = refl; bound = refl } };
}
