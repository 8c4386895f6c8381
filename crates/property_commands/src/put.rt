ghost use Rattle.std.specs.Prelude.{◌≡◌, ◌≤◌, ℕ, IfOk, IfErr};
ghost use Rattle.map_model.specs.Keeping.{deepest_tier, object_tier, property_tier};
ghost use Rattle.map_model.specs.WellFormed.{IsProperty};
ghost use Rattle.command_api.specs.Making.{IsRefusalOf, Makes};
ghost use Rattle.property_commands.specs.PropertyChanges.{put_property-alone, put_property_change, put_property_exchange};
ghost use Rattle.property_commands.specs.PutEdits.{after_put_property};
ghost use Rattle.property_commands.specs.Names.{put_property_names};

use crate::link::{exchange_property, replace_property};
use crate::owners::place_of;
use crate::same::is_same_property;
use command_api::{Exchange, Label, Lone};
use edits::EditFault;
use link_chain::Loose;
use map_model::limits::MAX_PROPERTIES;
use map_model::{Document, Owner, OwnerPlace, Property};
use std::alloc::Global;

/// How a property is put in.
#[derive(Drop)]
enum PutKind {
    /// Of two properties with one name the one that the owner does not have, whether the command is made, and whether the
    /// two are the same.
    Replace {
        property: Option<Loose<Property>>,
        is_made: bool,
        is_same: bool,
    },
    /// A new property, while it is not in the map.
    Add(Option<Loose<Property>>),
}

/// A property is set whole, with the members that it keeps. One with its name that is there gives it its place; a new one
/// goes last.
#[derive(Drop)]
pub struct PutProperty {
    owner: Owner,
    place: OwnerPlace,
    at: usize,
    kind: PutKind,
}

impl PutProperty {
    /// The command that gives the owner this property, not made yet. Any owner can have it. The command takes all the memory
    /// that its turns will need. The document stays as it is.
    ///
    /// Refused where there is no such layer or object; then where the property would be new and there are 256; and then
    /// where there is no memory.
    pub fn new(
        alloc: Global,
        document: &Document,
        owner: Owner,
        property: Property,
    ) -> Result<PutProperty, EditFault>
        requires { (tier : ℕ) → tier ≤ object_tier deepest_tier → IsProperty (property_tier tier) property }
        ensures command { IfOk result (λ c. Makes put_property_names document.now (after_put_property document.now owner property) (put_property_change c)) }
        ensures refusal { IfErr result (IsRefusalOf (after_put_property document.now owner property)) }
        ensures owner { IfOk result (λ c. c.owner ≡ owner) }
    {
        let map = document.map();
        let place = place_of(map, owner)?;
        match map.property(place, property.name.as_str()) {
            Some((at, own)) => {
                let is_same = is_same_property(own, &property);
                match Loose::new(alloc, property) {
                    Ok(property) => Ok(PutProperty {
                        owner,
                        place,
                        at,
                        kind: PutKind::Replace {
                            property: Some(property),
                            is_made: false,
                            is_same,
                        },
                    }),
                    Err(_) => Err(EditFault::NoMemory),
                }
            }
            None => {
                let Some(properties) = map.properties(place) else {
                    unreachable!();
                };
                let at = properties.len();
                if at >= MAX_PROPERTIES {
                    return Err(EditFault::TooMany);
                }
                match Loose::new(alloc, property) {
                    Ok(property) => Ok(PutProperty {
                        owner,
                        place,
                        at,
                        kind: PutKind::Add(Some(property)),
                    }),
                    Err(_) => Err(EditFault::NoMemory),
                }
            }
        }
    }

    /// The owner of the property.
    pub fn owner(&self) -> Owner
        ensures { result ≡ self.now.owner }
    {
        self.owner
    }
}

impl Exchange for PutProperty {
    ghost exchange_parts = { put_property_exchange };

    fn label(&self) -> Label {
        Label::untagged("Set Property", "set property")
    }

    fn is_obsolete(&self) -> bool {
        match &self.kind {
            PutKind::Replace { is_same, .. } => *is_same,
            PutKind::Add(_) => false,
        }
    }

    fn exchange(&mut self, document: &mut Document) {
        match &mut self.kind {
            PutKind::Replace {
                property,
                is_made,
                ..
            } => {
                let Some(held) = property.take() else {
                    unreachable!();
                };
                *property = Some(replace_property(document, self.place, self.at, held));
                *is_made = !*is_made;
            }
            PutKind::Add(held) => exchange_property(document, self.place, self.at, held),
        }
    }
}

impl Lone for PutProperty {
    ghost alone = { put_property-alone };
}
