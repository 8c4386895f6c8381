// Changes of properties.
ghost use Rattle.std.specs.Prelude.{◌≡◌, ◌≤◌, Some, IsSome, IsSomeAnd, length};
ghost use Rattle.std.specs.Option.{option_map};
ghost use Rattle.map_model.specs.Document.{with_map, IsDocument};
ghost use Rattle.map_model.specs.Properties.{properties_of, property_at, property_with_setting, setting_of, with_property, with_property_at, without_property_at, IsSetting};
ghost use Rattle.map_model.specs.WellFormed.{IsWellFormed};

use crate::document::Document;
use crate::parts::Property;
use crate::place::OwnerPlace;
use crate::properties::{insert_in, swap_in, take_in};
use crate::setting::Setting;
use link_chain::Loose;

impl Document {
    /// Puts a property in at a place among its owner's; those from there on stand one place higher. The map is well
    /// formed with it.
    pub fn insert_property(&mut self, owner: OwnerPlace, at: usize, property: Loose<Property>)
        requires place { IsSomeAnd (properties_of self.old.map owner) (λ ps. at ≤ length ps) }
        requires well_formed { IsSomeAnd property (λ p. IsWellFormed (with_property_at owner at p self.old.map)) }
        ensures document { IsSomeAnd property (λ p. self.new ≡ with_map (with_property_at owner at p) self.old) }
        ensures well_formed { IsDocument self.new }
    {
        insert_in(&mut self.map.parts, owner, at, property);
    }

    /// Takes the property at a place among its owner's out; those behind it stand one place lower.
    pub fn take_property(&mut self, owner: OwnerPlace, at: usize) -> Loose<Property>
        requires { IsSome (property_at self.old.map owner at) }
        ensures property { result ≡ property_at self.old.map owner at }
        ensures document { self.new ≡ with_map (without_property_at owner at) self.old }
        ensures well_formed { IsDocument self.new }
    {
        take_in(&mut self.map.parts, owner, at)
    }

    /// Exchanges the type and the value of the property at a place among its owner's and others. It takes no memory.
    pub fn swap_setting(&mut self, owner: OwnerPlace, at: usize, setting: &mut Setting)
        requires there { IsSome (property_at self.old.map owner at) }
        requires value { IsSetting self.old.map owner setting.old }
        ensures given { option_map setting_of (property_at self.old.map owner at) ≡ Some setting.new }
        ensures back { IsSetting self.new.map owner setting.new }
        ensures document { self.new ≡ with_map (with_property owner at (property_with_setting setting.old)) self.old }
        ensures well_formed { IsDocument self.new }
    {
        swap_in(&mut self.map.parts, owner, at, setting);
    }
}
