// The properties of an owner.
ghost use Rattle.std.specs.Prelude.{◌≡◌, ◌<◌, ◌≤◌, position, IfSome, IsSome, IsSomeAnd, Some, option_and_then, length, slice_get};
ghost use Rattle.std.specs.List.{insert, remove};
ghost use Rattle.std.specs.Option.{option_map};
ghost use Rattle.map_model.specs.declared.limits.TheConstants.{MAX_PROPERTIES};
ghost use Rattle.map_model.specs.Lists.{change_at};
ghost use Rattle.map_model.specs.Properties.{has_name, properties_of, property_at, property_with_setting, setting_of, with_property, with_property_at, without_property_at};
ghost use Rattle.map_model.specs.WellFormed.{IsWellFormed};

use crate::groups::change_layer;
use crate::objects::change_object;
use crate::parts::{Layer, MapParts, Object, Property};
use crate::place::OwnerPlace;
use crate::setting::Setting;
use link_chain::{Chain, Loose};
use std::mem;

/// Puts a property in at a place among its owner's.
pub fn insert_in(parts: &mut MapParts, owner: OwnerPlace, at: usize, property: Loose<Property>)
    requires well_formed { IsWellFormed parts.old }
    requires place { IsSomeAnd (properties_of parts.old owner) (λ ps. at ≤ length ps) }
    ensures { IsSomeAnd property (λ p. parts.new ≡ with_property_at owner at p parts.old) }
{
    match owner {
        OwnerPlace::Map => parts.properties.insert(at, property),
        OwnerPlace::Layer(id) => change_layer(
            &mut parts.layers,
            id,
            |layer: &mut Layer|
                requires { (at ≤ length layer.old.properties) × (length layer.old.properties ≤ MAX_PROPERTIES) }
            { layer.properties.insert(at, property) },
        ),
        OwnerPlace::Object(place) => change_object(
            &mut parts.layers,
            place,
            |object: &mut Object|
                requires { (at ≤ length object.old.properties) × (length object.old.properties ≤ MAX_PROPERTIES) }
            { object.properties.insert(at, property) },
        ),
    }
}

/// Takes the property at a place among its owner's out.
pub fn take_in(parts: &mut MapParts, owner: OwnerPlace, at: usize) -> Loose<Property>
    requires well_formed { IsWellFormed parts.old }
    requires there { IsSome (property_at parts.old owner at) }
    ensures property { result ≡ property_at parts.old owner at }
    ensures parts { parts.new ≡ without_property_at owner at parts.old }
{
    match owner {
        OwnerPlace::Map => parts.properties.take(at),
        OwnerPlace::Layer(id) => {
            change_layer(&mut parts.layers, id, |layer| layer.properties.take(at))
        }
        OwnerPlace::Object(place) => change_object(&mut parts.layers, place, |object| {
            object.properties.take(at)
        }),
    }
}

// Gives the property at a place another type and value, and hands the old ones back.
fn replace_at(properties: &mut Chain<Property>, at: usize, setting: Setting) -> Setting
    requires { at < length properties.old }
    ensures given { option_map setting_of (slice_get properties.old at) ≡ Some result }
    ensures held { properties.new ≡ change_at at (property_with_setting setting) properties.old }
{
    let property = properties.get_mut(at);
    Setting {
        kind: mem::replace(&mut property.kind, setting.kind),
        value: mem::replace(&mut property.value, setting.value),
    }
}

// Gives the property at a place among its owner's another type and value, and hands the old ones back.
fn replace_in(parts: &mut MapParts, owner: OwnerPlace, at: usize, setting: Setting) -> Setting
    requires well_formed { IsWellFormed parts.old }
    requires there { IsSome (property_at parts.old owner at) }
    ensures given { option_map setting_of (property_at parts.old owner at) ≡ Some result }
    ensures parts { parts.new ≡ with_property owner at (property_with_setting setting) parts.old }
{
    match owner {
        OwnerPlace::Map => replace_at(&mut parts.properties, at, setting),
        OwnerPlace::Layer(id) => change_layer(&mut parts.layers, id, |layer| {
            replace_at(&mut layer.properties, at, setting)
        }),
        OwnerPlace::Object(place) => change_object(&mut parts.layers, place, |object| {
            replace_at(&mut object.properties, at, setting)
        }),
    }
}

/// Exchanges the type and the value of the property at a place among its owner's and others.
pub fn swap_in(parts: &mut MapParts, owner: OwnerPlace, at: usize, setting: &mut Setting)
    requires well_formed { IsWellFormed parts.old }
    requires there { IsSome (property_at parts.old owner at) }
    ensures given { option_map setting_of (property_at parts.old owner at) ≡ Some setting.new }
    ensures parts { parts.new ≡ with_property owner at (property_with_setting setting.old) parts.old }
{
    let new = setting.take();
    *setting = replace_in(parts, owner, at, new);
}

/// The property with a name, behind its place: one walk.
pub fn find_property<'a>(
    properties: &'a Chain<Property>,
    name: &str,
) -> Option<(usize, &'a Property)>
    requires { length properties.now ≤ MAX_PROPERTIES }
    ensures place { option_map (λ found. found.0) result ≡ position (has_name name.now) properties.now }
    ensures property { IfSome result (λ found. slice_get properties.now found.0 ≡ Some found.1.now) }
{
    for (at, property) in properties.iter().enumerate() {
        if property.name.as_str() == name {
            return Some((at, property));
        }
    }
    None
}
