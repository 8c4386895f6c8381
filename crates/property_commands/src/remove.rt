ghost use Rattle.std.specs.Prelude.{◌≡◌, Err, IfOk, IfErr, refl};
ghost use Rattle.command_api.specs.Making.{Makes};
ghost use Rattle.edits.specs.PropertyEdits.{after_remove_property};
ghost use Rattle.property_commands.specs.PropertyChanges.{remove_property_change, remove_property_exchange};
ghost use Rattle.property_commands.specs.Names.{remove_property_names};
ghost use Rattle.property_commands.specs.Owners.{object_id, owner_at};

use crate::link::exchange_property;
use crate::owners::place_of;
use command_api::{Exchange, Label, Lone};
use edits::EditFault;
use link_chain::Loose;
use map_model::{Document, Owner, OwnerPlace, Property};

/// A property is removed. While it is not in the map, the command owns it, kept members and all, and puts it back at its
/// old place.
#[derive(Drop)]
pub struct RemoveProperty {
    owner: OwnerPlace,
    // Below 256, so that the command is not larger than others.
    at: u32,
    // The id of the owner, where it is an object, and else 0: the place of an object names its layer alone.
    object: u32,
    property: Option<Loose<Property>>,
}

impl RemoveProperty {
    /// The command that removes the owner's property with a name, not made yet. The document stays as it is.
    ///
    /// Refused where there is no such layer or object, and then where it has no such property.
    pub fn new(document: &Document, owner: Owner, name: &str) -> Result<RemoveProperty, EditFault>
        ensures command { IfOk result (λ c. Makes remove_property_names document.now (after_remove_property document.now owner name.now) (remove_property_change c)) }
        ensures refusal { IfErr result (λ fault. after_remove_property document.now owner name.now ≡ Err fault) }
        ensures owner { IfOk result (λ c. owner_at c.owner c.object ≡ owner) }
    {
        let map = document.map();
        let object = object_of(owner);
        let owner = place_of(map, owner)?;
        match map.property(owner, name) {
            Some((at, _)) => Ok(RemoveProperty {
                owner,
                at: at as u32,
                object,
                property: None,
            }),
            None => Err(EditFault::NoSuchProperty),
        }
    }

    /// The owner of the property.
    pub fn owner(&self) -> Owner
        ensures { result ≡ owner_at self.now.owner self.now.object }
    {
        match self.owner {
            OwnerPlace::Map => Owner::Map,
            OwnerPlace::Layer(layer) => Owner::Layer(layer),
            OwnerPlace::Object(_) => Owner::Object(self.object),
        }
    }
}

// The id of an owner that is an object, and 0 of any other.
fn object_of(owner: Owner) -> u32
    ensures { result ≡ object_id owner }
{
    match owner {
        Owner::Object(object) => object,
        Owner::Map | Owner::Layer(_) => 0,
    }
}

impl Exchange for RemoveProperty {
    ghost exchange_parts = { remove_property_exchange };

    fn label(&self) -> Label {
        Label::untagged("Remove Property", "remove property")
    }

    fn is_obsolete(&self) -> bool {
        false
    }

    fn exchange(&mut self, document: &mut Document) {
        exchange_property(document, self.owner, self.at as usize, &mut self.property);
    }
}

impl Lone for RemoveProperty {
    ghost alone = { λ x. record { tag = refl; follows = refl; bound = refl } };
}
