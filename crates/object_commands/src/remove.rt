ghost use Rattle.std.specs.Prelude.{◌≡◌, Err, IfOk, IfErr, refl};
ghost use Rattle.command_api.specs.Making.{Makes};
ghost use Rattle.edits.specs.ObjectEdits.{after_remove_object};
ghost use Rattle.object_commands.specs.Changes.{remove_object_change, remove_object_exchange};
ghost use Rattle.object_commands.specs.Names.{remove_object_names};

use command_api::{Exchange, Label, Lone};
use edits::EditFault;
use link_tree::Loose;
use map_model::{Document, Object, ObjectPlace};

/// An object is removed. While it is not in the map, the command owns it, and puts it back at its old place.
#[derive(Drop)]
pub struct RemoveObject {
    place: ObjectPlace,
    object: Option<Loose<Object>>,
    id: u32,
}

impl RemoveObject {
    /// The command that removes the object with an id, not made yet. The document stays as it is.
    ///
    /// Refused where there is no such object.
    pub fn new(document: &Document, object: u32) -> Result<RemoveObject, EditFault>
        ensures command { IfOk result (λ c. Makes remove_object_names document.now (after_remove_object document.now object) (remove_object_change c)) }
        ensures refusal { IfErr result (λ fault. after_remove_object document.now object ≡ Err fault) }
        ensures id { IfOk result (λ c. c.id ≡ object) }
    {
        match document.map().object(object) {
            Some((place, _)) => Ok(RemoveObject {
                place,
                object: None,
                id: object,
            }),
            None => Err(EditFault::NoSuchObject),
        }
    }

    /// The id of the object.
    pub fn object(&self) -> u32
        ensures { result ≡ self.now.id }
    {
        self.id
    }
}

impl Exchange for RemoveObject {
    ghost exchange_parts = { remove_object_exchange };

    fn label(&self) -> Label {
        Label::untagged("Remove Object", "remove object")
    }

    fn is_obsolete(&self) -> bool {
        false
    }

    fn exchange(&mut self, document: &mut Document) {
        match self.object.take() {
            Some(object) => document.insert_object(self.place, object),
            None => self.object = Some(document.take_object(self.place)),
        }
    }
}

impl Lone for RemoveObject {
    ghost alone = { λ x. record { tag = refl; follows = refl; bound = refl } };
}
