// The type and the value of a property, and new properties.
ghost use Rattle.std.specs.Prelude.{◌≡◌, IfOk, IsTrue, ◌↔◌};
ghost use Rattle.map_model.specs.Properties.{new_property, scalar_value, setting_of, setting_with, IsSetting};
ghost use Rattle.map_model.specs.Given.{given_setting, owned_value};
ghost use Rattle.map_model.specs.declared.place.OwnerPlace.{OwnerPlace};
ghost use Rattle.map_model.specs.declared.parts.MapParts.{MapParts};

use crate::contents::{Kept, MapText};
use crate::parts::{PropValue, Property};
use std::alloc::{AllocError, Global};
use std::mem;

/// The type and the value of a property.
#[derive(Drop)]
pub struct Setting {
    pub kind: MapText,
    pub value: PropValue,
}

/// A value that a line can give a property.
#[derive(Clone, Copy, PartialEq, Eq, Debug)]
pub enum Scalar<'a> {
    Text(&'a str),
    Whole(i64),
    Truth(bool),
}

impl Setting {
    /// A type, and a value that a line gives. Where there is no memory nothing is left.
    pub fn new(alloc: Global, kind: &str, value: Scalar<'_>) -> Result<Setting, AllocError>
        ensures setting { IfOk result (λ setting. setting ≡ setting_with kind.now (scalar_value value.entry)) }
        ensures value { IfOk result (λ setting. (m : MapParts) (owner : OwnerPlace) → IsSetting m owner setting) }
    {
        let kind = MapText::new(String::from_str(alloc, kind)?);
        let value = match value {
            Scalar::Text(text) => PropValue::Text(MapText::new(String::from_str(alloc, text)?)),
            Scalar::Whole(number) => PropValue::Whole(number),
            Scalar::Truth(truth) => PropValue::Truth(truth),
        };
        Ok(Setting { kind, value })
    }

    /// Takes the type and the value out, and leaves others. It takes no memory.
    pub(crate) fn take(&mut self) -> Setting
        ensures { result ≡ self.old }
    {
        Setting {
            kind: self.kind.take(),
            value: mem::replace(&mut self.value, PropValue::Truth(false)),
        }
    }
}

impl PropValue {
    /// Whether the value is the one that a line gives.
    pub fn is_scalar(&self, value: Scalar<'_>) -> bool
        ensures { IsTrue result ↔ self.now ≡ scalar_value value.entry }
    {
        match (self, value) {
            (PropValue::Text(own), Scalar::Text(text)) => own.as_str() == text,
            (PropValue::Whole(own), Scalar::Whole(number)) => *own == number,
            (PropValue::Truth(own), Scalar::Truth(truth)) => *own == truth,
            _ => false,
        }
    }
}

impl Property {
    /// A property that keeps no members. It takes no memory; the members keep the allocator.
    pub fn new(alloc: Global, name: MapText, setting: Setting) -> Property
        ensures { result ≡ new_property name setting }
    {
        let Setting { kind, value } = setting;
        Property {
            name,
            kind,
            value,
            kept: Kept::new(serde_json::Map::new(alloc)),
        }
    }

    /// Whether the type and the value are these.
    pub fn has_setting(&self, kind: &str, value: Scalar<'_>) -> bool
        ensures { IsTrue result ↔ setting_of self.now ≡ setting_with kind.now (scalar_value value.entry) }
    {
        self.value.is_scalar(value) && self.kind.as_str() == kind
    }
}

/// A value that a line gave a property, with a text of its own.
#[derive(Drop)]
pub enum OwnedScalar {
    Text(MapText),
    Whole(i64),
    Truth(bool),
}

/// A type and a value that a line gave a property: what a command keeps to show them.
#[derive(Drop)]
pub struct GivenSetting {
    kind: MapText,
    value: OwnedScalar,
}

impl OwnedScalar {
    /// A copy of a value that a line gives. Where there is no memory nothing is left.
    pub fn new(alloc: Global, value: Scalar<'_>) -> Result<OwnedScalar, AllocError>
        ensures { IfOk result (λ owned. owned_value owned ≡ scalar_value value.entry) }
    {
        match value {
            Scalar::Text(text) => {
                let text = MapText::new(String::from_str(alloc, text)?);
                Ok(OwnedScalar::Text(text))
            }
            Scalar::Whole(number) => Ok(OwnedScalar::Whole(number)),
            Scalar::Truth(truth) => Ok(OwnedScalar::Truth(truth)),
        }
    }

    /// The value as a line gives it.
    pub fn as_scalar(&self) -> Scalar<'_>
        ensures { scalar_value result ≡ owned_value self.now }
    {
        match self {
            OwnedScalar::Text(text) => Scalar::Text(text.as_str()),
            OwnedScalar::Whole(number) => Scalar::Whole(*number),
            OwnedScalar::Truth(truth) => Scalar::Truth(*truth),
        }
    }
}

impl GivenSetting {
    /// A copy of a type, and of a value that a line gives. Where there is no memory nothing is left.
    pub fn new(alloc: Global, kind: &str, value: Scalar<'_>) -> Result<GivenSetting, AllocError>
        ensures { IfOk result (λ given. given_setting given ≡ setting_with kind.now (scalar_value value.entry)) }
    {
        let kind = MapText::new(String::from_str(alloc, kind)?);
        let value = OwnedScalar::new(alloc, value)?;
        Ok(GivenSetting { kind, value })
    }

    /// The type.
    pub fn kind(&self) -> &str
        ensures { result.now ≡ (given_setting self.now).kind }
    {
        self.kind.as_str()
    }

    /// The value.
    pub fn value(&self) -> Scalar<'_>
        ensures { scalar_value result ≡ (given_setting self.now).value }
    {
        self.value.as_scalar()
    }
}

impl Setting {
    /// Whether the type and the value are these.
    pub fn is_given(&self, kind: &str, value: Scalar<'_>) -> bool
        ensures { IsTrue result ↔ self.now ≡ setting_with kind.now (scalar_value value.entry) }
    {
        self.value.is_scalar(value) && self.kind.as_str() == kind
    }
}
