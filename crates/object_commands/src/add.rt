ghost use Rattle.std.specs.Prelude.{◌≡◌, ◌<◌, IsTrue, Some, None, Ok, Err, IfOk, IfErr, MatchResult, if◌then◌else◌, refl};
ghost use Rattle.map_model.specs.declared.limits.TheConstants.{MAX_NEXT_ID};
ghost use Rattle.map_model.specs.Keeping.{object_tier};
ghost use Rattle.map_model.specs.NewMap.{new_object};
ghost use Rattle.map_model.specs.Lookups.{layer_of};
ghost use Rattle.map_model.specs.Objects.{object_place};
ghost use Rattle.map_model.specs.Properties.{tier_of};
ghost use Rattle.map_model.specs.WellFormed.{IsId, IsObject, IsPixels};
ghost use Rattle.command_api.specs.Making.{IsRefusalOf, Makes};
ghost use Rattle.edits.specs.ObjectEdits.{after_add_object, after_put_object, has_given_room, is_object_size, next_above, objects_or_fault, placing_of};
ghost use Rattle.object_commands.specs.Changes.{add_object_change, add_object_exchange};
ghost use Rattle.object_commands.specs.Names.{add_object_names};

use crate::size::sizes;
use command_api::{Exchange, Label, Lone};
use edits::EditFault;
use link_tree::{LinkTree, Loose};
use map_model::limits::{MAX_NEXT_ID, MAX_OBJECTS};
use map_model::{Document, Map, MapText, Object, Placing};
use std::alloc::{AllocError, Global};

/// An object is added behind the last one of its layer. While it is not in the map, the command owns it.
#[derive(Drop)]
pub struct AddObject {
    layer: u32,
    id: u32,
    // The next object id while the object is not in the map, and while it is.
    next: u32,
    raised: u32,
    object: Option<Loose<Object>>,
}

impl AddObject {
    /// The command that adds an object to an object layer, not made yet. It takes the next object id, and all the memory
    /// that its turns will need. The place and the size are in pixels. The document stays as it is.
    ///
    /// Refused, in this order: where there is no layer with the id; where it is not an object layer; where the width or
    /// the height is above 1,000,000,000; where the layer has 4,096 objects, or the next object id is 2,147,483,647; and
    /// then where there is no memory.
    pub fn new(
        alloc: Global,
        document: &Document,
        layer: u32,
        x: i32,
        y: i32,
        width: u32,
        height: u32,
        name: &str,
    ) -> Result<AddObject, EditFault>
        requires x { IsPixels x }
        requires y { IsPixels y }
        ensures command { IfOk result (λ c. Makes add_object_names document.now (after_add_object document.now layer x y width height name.now) (add_object_change c)) }
        ensures refusal { IfErr result (IsRefusalOf (after_add_object document.now layer x y width height name.now)) }
    {
        let map = document.map();
        let objects = objects_of_layer(map, layer)?;
        let Some(placing) = new_placing(x, y, width, height) else {
            return Err(EditFault::OutOfRange);
        };
        let id = map.parts().next_object_id;
        if objects.len() >= MAX_OBJECTS || id >= MAX_NEXT_ID {
            return Err(EditFault::TooMany);
        }
        match loose_object(alloc, id, placing, name) {
            Ok(object) => Ok(AddObject {
                layer,
                id,
                next: id,
                raised: id + 1,
                object: Some(object),
            }),
            Err(_) => Err(EditFault::NoMemory),
        }
    }

    /// The command that adds an object as it is given to an object layer, not made yet. Where it has no id, it takes the next
    /// object id. The document stays as it is.
    ///
    /// Refused, in this order: where there is no layer with the id; where it is not an object layer; where the layer has
    /// 4,096 objects, or the object has no id and the next object id is 2,147,483,647; and then where there is no memory.
    pub fn put(
        alloc: Global,
        document: &Document,
        layer: u32,
        object: Object,
        has_id: bool,
    ) -> Result<AddObject, EditFault>
        requires object { IsObject (object_tier (tier_of document.now.map layer)) object }
        requires id { IsTrue has_id → IsId MAX_NEXT_ID object.id }
        requires free { IsTrue has_id → object_place document.now.map object.id ≡ None }
        ensures command { IfOk result (λ c. Makes add_object_names document.now (after_put_object document.now layer has_id object) (add_object_change c)) }
        ensures refusal { IfErr result (IsRefusalOf (after_put_object document.now layer has_id object)) }
    {
        let map = document.map();
        let objects = objects_of_layer(map, layer)?;
        let next = map.parts().next_object_id;
        if !has_given_room(map, objects, has_id) {
            return Err(EditFault::TooMany);
        }
        let object = with_own_id(object, has_id, next);
        let id = object.id;
        match Loose::new(alloc, object) {
            Ok(object) => Ok(AddObject {
                layer,
                id,
                next,
                raised: next_above(id, next),
                object: Some(object),
            }),
            Err(_) => Err(EditFault::NoMemory),
        }
    }
}

// Whether there may be one more object beside these, and one more id where it has none.
fn has_given_room(map: &Map, objects: &LinkTree<Object>, has_id: bool) -> bool
    ensures { result ≡ has_given_room map.now has_id objects.now }
{
    objects.len() < MAX_OBJECTS && (has_id || map.parts().next_object_id < MAX_NEXT_ID)
}

// An object that has an id, or gets the next one.
fn with_own_id(object: Object, has_id: bool, next: u32) -> Object
    ensures { result ≡ if has_id then object else record object { id = next } }
{
    if has_id {
        object
    } else {
        Object { id: next, ..object }
    }
}

// The next id, above an id too.
fn next_above(id: u32, next: u32) -> u32
    requires { id < MAX_NEXT_ID }
    ensures { result ≡ next_above id next }
{
    if id < next { next } else { id + 1 }
}

/// The objects of the layer with an id.
///
/// Refused where there is no such layer, and then where it is not an object layer.
pub fn objects_of_layer(map: &Map, layer: u32) -> Result<&LinkTree<Object>, EditFault>
    ensures { MatchResult result (λ objects. objects_or_fault (layer_of map.now layer) ≡ Ok objects.now) (λ fault. objects_or_fault (layer_of map.now layer) ≡ Err fault) }
{
    let Some(layer) = map.layer(layer) else {
        return Err(EditFault::NoSuchLayer);
    };
    match layer.body.objects() {
        Some(objects) => Ok(objects),
        None => Err(EditFault::LayerOfAnotherKind),
    }
}

// The placing of a new object.
fn new_placing(x: i32, y: i32, width: u32, height: u32) -> Option<Placing>
    ensures { result ≡ if is_object_size width height then Some (placing_of x y width height) else None }
{
    let (width, height) = sizes(width, height)?;
    Some(Placing {
        x: Some(x),
        y: Some(y),
        width: Some(width),
        height: Some(height),
    })
}

// A new object in a link of its own.
fn loose_object(
    alloc: Global,
    id: u32,
    placing: Placing,
    name: &str,
) -> Result<Loose<Object>, AllocError>
    ensures { IfOk result (λ loose. loose ≡ Some (new_object id placing name.now)) }
{
    let name = MapText::new(String::from_str(alloc, name)?);
    let object = Object::new(alloc, id, placing, name)?;
    Loose::new(alloc, object).map_err(|_| AllocError)
}

impl AddObject {
    /// The id of the object.
    pub fn object(&self) -> u32
        ensures { result ≡ self.now.id }
    {
        self.id
    }
}

impl Exchange for AddObject {
    ghost exchange_parts = { add_object_exchange };

    fn label(&self) -> Label {
        Label::untagged("Add Object", "add object")
    }

    fn is_obsolete(&self) -> bool {
        false
    }

    fn exchange(&mut self, document: &mut Document) {
        let map = document.map();
        let next_layer = map.parts().next_layer_id;
        let Some(place) = map.last_object_place(self.layer) else {
            unreachable!();
        };
        match self.object.take() {
            Some(object) => {
                document.set_next_ids(next_layer, self.raised);
                document.insert_object(place, object);
            }
            None => {
                let last = place.sibling(place.at - 1);
                self.object = Some(document.take_object(last));
                document.set_next_ids(next_layer, self.next);
            }
        }
    }
}

impl Lone for AddObject {
    ghost alone = { λ x. record { tag = refl; follows = refl; bound = refl } };
}
