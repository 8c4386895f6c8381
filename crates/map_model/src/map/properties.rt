// Look-ups of properties and of their owners.
ghost use Rattle.std.specs.Prelude.{◌≡◌, Some, IfSome, IsSome};
ghost use Rattle.std.specs.Option.{option_copied, option_map};
ghost use Rattle.map_model.specs.Objects.{object_at};
ghost use Rattle.map_model.specs.Properties.{owner_place, properties_of, property_at, property_place};
ghost use Rattle.map_model.specs.WellFormed.{IsWellFormed};

use crate::map::Map;
use crate::owner::Owner;
use crate::parts::{Object, Property};
use crate::place::{ObjectPlace, OwnerPlace};
use crate::properties::find_property;
use link_chain::Chain;

impl Map {
    /// Where an owner stands; `None` where the map has no such layer or object.
    pub fn owner_place(&self, owner: Owner) -> Option<OwnerPlace>
        ensures place { result ≡ owner_place self.now owner }
        ensures there { IfSome result (λ place. IsSome (properties_of self.now place)) }
    {
        match owner {
            Owner::Map => Some(OwnerPlace::Map),
            Owner::Layer(id) => match self.layer(id) {
                Some(_) => Some(OwnerPlace::Layer(id)),
                None => None,
            },
            Owner::Object(id) => match self.object(id) {
                Some((place, _)) => Some(OwnerPlace::Object(place)),
                None => None,
            },
        }
    }

    /// The properties of the owner at a place; `None` where the map has no such layer or object.
    pub fn properties(&self, owner: OwnerPlace) -> Option<&Chain<Property>>
        ensures { option_copied result ≡ properties_of self.now owner }
    {
        match owner {
            OwnerPlace::Map => Some(&self.parts.properties),
            OwnerPlace::Layer(id) => Some(&self.layer(id)?.properties),
            OwnerPlace::Object(place) => Some(&self.object_at(place)?.properties),
        }
    }

    /// The property with a name, behind its place among its owner's: one walk.
    pub fn property(&self, owner: OwnerPlace, name: &str) -> Option<(usize, &Property)>
        ensures place { option_map (λ found. found.0) result ≡ property_place self.now owner name.now }
        ensures property { IfSome result (λ found. property_at self.now owner found.0 ≡ Some found.1.now) }
        ensures well_formed { IsWellFormed self.now }
    {
        let _ = &self.parts;
        find_property(self.properties(owner)?, name)
    }

    // The object at a place.
    fn object_at(&self, place: ObjectPlace) -> Option<&Object>
        ensures { option_copied result ≡ object_at self.now place }
    {
        let objects = self.layer(place.layer)?.body.objects()?;
        if place.at < objects.len() {
            Some(objects.get(place.at))
        } else {
            None
        }
    }
}
