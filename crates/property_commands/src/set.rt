ghost use Rattle.std.specs.Prelude.{◌≡◌, ◌↔◌, Some, IfOk, IfErr, IsTrue};
ghost use Rattle.std.specs.Option.{option_copied};
ghost use Rattle.map_model.specs.declared.parts.MapParts.{MapParts};
ghost use Rattle.map_model.specs.declared.place.OwnerPlace.{OwnerPlace};
ghost use Rattle.map_model.specs.Given.{given_setting};
ghost use Rattle.map_model.specs.Properties.{new_property, scalar_value, setting_with, IsSetting};
ghost use Rattle.command_api.specs.declared.ids.TheConstants.{SET_ID};
ghost use Rattle.command_api.specs.Law.{IsSame};
ghost use Rattle.command_api.specs.Making.{IsRefusalOf, Makes};
ghost use Rattle.command_api.specs.Tag.{OfName};
ghost use Rattle.edits.specs.PropertyEdits.{after_set_property};
ghost use Rattle.property_commands.specs.PropertyChanges.{IsKindFor, before_of, property_set_change, property_set_exchange, property_set_shown, set_property_change, set_property_shown};
ghost use Rattle.property_commands.specs.Names.{set_property_names};

use crate::link::exchange_property;
use crate::owners::place_of;
use command_api::ids::SET_ID;
use command_api::{Command, Exchange, Label, Offer};
use edits::EditFault;
use link_chain::Loose;
use map_model::limits::MAX_PROPERTIES;
use map_model::{Document, GivenSetting, MapText, Owner, OwnerPlace, Property, Scalar, Setting};
use std::alloc::{AllocError, Global};

/// How a property is set.
#[derive(Drop)]
enum SetKind {
    /// The type and the value that the property does not have, whether the command is made, and whether they are those
    /// that it gives.
    Replace {
        setting: Setting,
        is_made: bool,
        is_same: bool,
    },
    /// A new property, while it is not in the map.
    Add(Option<Loose<Property>>),
}

impl SetKind {
    // The type and the value from before, where the property was there.
    fn before(&self) -> Option<&Setting>
        ensures { option_copied result ≡ before_of self.now }
    {
        match self {
            SetKind::Replace { setting, .. } => Some(setting),
            SetKind::Add(_) => None,
        }
    }
}

/// What is set, and how: the command that a `SetProperty` holds in its box.
#[derive(Drop)]
pub struct PropertySet {
    owner: Owner,
    name: MapText,
    follows: bool,
    place: OwnerPlace,
    at: usize,
    // The type and the value that the property gets.
    shown: GivenSetting,
    kind: SetKind,
}

/// A property gets a type and a value. One that is there keeps its place and its kept members; a new one goes last.
///
/// What it holds stands in a box of its own, since it is larger than what other commands hold.
#[derive(Drop)]
pub struct SetProperty {
    set: Box<PropertySet>,
}

impl SetProperty {
    /// The command that gives the owner's property with a name this type and value, not made yet. It takes all the
    /// memory that its turns will need. The document stays as it is.
    ///
    /// Refused where there is no such layer or object; then where the property would be new and there are 256; and then
    /// where there is no memory.
    pub fn new(
        alloc: Global,
        document: &Document,
        owner: Owner,
        name: &str,
        kind: &str,
        value: Scalar<'_>,
        follows: bool,
    ) -> Result<SetProperty, EditFault>
        ensures command { IfOk result (λ c. Makes (set_property_names owner name.now follows) document.now (after_set_property document.now owner name.now kind.now (scalar_value value.entry)) (set_property_change c)) }
        ensures refusal { IfErr result (IsRefusalOf (after_set_property document.now owner name.now kind.now (scalar_value value.entry))) }
    {
        let set = PropertySet::new(alloc, document, owner, name, kind, value, follows)?;
        match Box::new(alloc, set) {
            Ok(set) => Ok(SetProperty { set }),
            Err(_) => Err(EditFault::NoMemory),
        }
    }

    /// The owner of the property.
    pub fn owner(&self) -> Owner
        ensures { result ≡ self.now.set.value.owner }
    {
        self.set.owner
    }

    /// The box that it holds, with a command that does the same.
    pub fn into_box(self) -> Box<PropertySet>
        ensures { IsSame (set_property_change self) (property_set_change result.value) }
    {
        self.set
    }
}

impl PropertySet {
    // What gives the owner's property with a name this type and value.
    fn new(
        alloc: Global,
        document: &Document,
        owner: Owner,
        name: &str,
        kind: &str,
        value: Scalar<'_>,
        follows: bool,
    ) -> Result<PropertySet, EditFault>
        ensures command { IfOk result (λ c. Makes (set_property_names owner name.now follows) document.now (after_set_property document.now owner name.now kind.now (scalar_value value.entry)) (property_set_change c)) }
        ensures refusal { IfErr result (IsRefusalOf (after_set_property document.now owner name.now kind.now (scalar_value value.entry))) }
    {
        let map = document.map();
        let place = place_of(map, owner)?;
        match map.property(place, name) {
            Some((at, property)) => {
                let is_same = property.has_setting(kind, value);
                let Ok(setting) = Setting::new(alloc, kind, value) else {
                    return Err(EditFault::NoMemory);
                };
                let Ok(shown) = GivenSetting::new(alloc, kind, value) else {
                    return Err(EditFault::NoMemory);
                };
                let kind = SetKind::Replace {
                    setting,
                    is_made: false,
                    is_same,
                };
                named(alloc, owner, name, follows, place, at, shown, kind)
            }
            None => {
                let Some(properties) = map.properties(place) else {
                    unreachable!();
                };
                let at = properties.len();
                if at >= MAX_PROPERTIES {
                    return Err(EditFault::TooMany);
                }
                let Ok(property) = loose_property(alloc, name, kind, value) else {
                    return Err(EditFault::NoMemory);
                };
                let Ok(shown) = GivenSetting::new(alloc, kind, value) else {
                    return Err(EditFault::NoMemory);
                };
                let kind = SetKind::Add(Some(property));
                named(alloc, owner, name, follows, place, at, shown, kind)
            }
        }
    }
}

// What is set, with a name of its own.
fn named(
    alloc: Global,
    owner: Owner,
    name: &str,
    follows: bool,
    place: OwnerPlace,
    at: usize,
    shown: GivenSetting,
    kind: SetKind,
) -> Result<PropertySet, EditFault>
    ensures ok { IfOk result (λ c. c ≡ record { owner = owner; name = name.now; follows = follows; place = place; at = at; shown = shown; kind = kind }) }
    ensures err { IfErr result (λ fault. fault ≡ EditFault.NoMemory) }
{
    match String::from_str(alloc, name) {
        Ok(name) => Ok(PropertySet {
            owner,
            name: MapText::new(name),
            follows,
            place,
            at,
            shown,
            kind,
        }),
        Err(_) => Err(EditFault::NoMemory),
    }
}

// A new property in a link of its own.
fn loose_property(
    alloc: Global,
    name: &str,
    kind: &str,
    value: Scalar<'_>,
) -> Result<Loose<Property>, AllocError>
    ensures property { IfOk result (λ loose. loose ≡ Some (new_property name.now (setting_with kind.now (scalar_value value.entry)))) }
    ensures value { IfOk result (λ loose. (m : MapParts) (owner : OwnerPlace) → IsSetting m owner (setting_with kind.now (scalar_value value.entry))) }
{
    let name = MapText::new(String::from_str(alloc, name)?);
    let setting = Setting::new(alloc, kind, value)?;
    Loose::new(alloc, Property::new(alloc, name, setting)).map_err(|_| AllocError)
}

impl Exchange for PropertySet {
    ghost exchange_parts = { property_set_exchange };

    fn label(&self) -> Label {
        Label {
            text: "Set Property",
            action: "set property",
            id: SET_ID as i32,
        }
    }

    fn is_obsolete(&self) -> bool {
        match &self.kind {
            SetKind::Replace { is_same, .. } => *is_same,
            SetKind::Add(_) => false,
        }
    }

    fn exchange(&mut self, document: &mut Document) {
        match &mut self.kind {
            SetKind::Replace {
                setting,
                is_made,
                ..
            } => {
                document.swap_setting(self.place, self.at, setting);
                *is_made = !*is_made;
            }
            SetKind::Add(held) => exchange_property(document, self.place, self.at, held),
        }
    }
}

impl Command for PropertySet {
    ghost change = { property_set_change };

    ghost shown = { property_set_shown };

    fn text(&self) -> &str {
        self.label().text
    }

    fn action_text(&self) -> &str {
        self.label().action
    }

    fn id(&self) -> i32 {
        self.label().id
    }

    fn obsolete(&self) -> bool {
        self.is_obsolete()
    }

    fn is_free(&self) -> bool {
        false
    }

    fn redo(&mut self, document: &mut Document) {
        self.exchange(document)
    }

    fn undo(&mut self, document: &mut Document) {
        self.exchange(document)
    }

    fn offer(&self) -> Offer<'_> {
        if !self.follows {
            return Offer::Nothing;
        }
        Offer::Value {
            owner: self.owner,
            name: self.name.as_str(),
            before: self.kind.before(),
            kind: self.shown.kind(),
            value: self.shown.value(),
        }
    }

    fn merge(
        &mut self,
        alloc: Global,
        newer: &Offer<'_>,
        document: &Document,
    ) -> Result<bool, AllocError> {
        let _ = document;
        let Offer::Value {
            owner,
            name,
            kind,
            value,
            ..
        } = newer
        else {
            return Ok(false);
        };
        if !self.sets(*owner, name) {
            return Ok(false);
        }
        let shown = GivenSetting::new(alloc, kind, *value)?;
        self.show(shown);
        Ok(true)
    }
}

impl Command for SetProperty {
    ghost change = { set_property_change };

    ghost shown = { set_property_shown };

    fn text(&self) -> &str {
        self.set.text()
    }

    fn action_text(&self) -> &str {
        self.set.action_text()
    }

    fn id(&self) -> i32 {
        self.set.id()
    }

    fn obsolete(&self) -> bool {
        self.set.obsolete()
    }

    fn is_free(&self) -> bool {
        self.set.is_free()
    }

    fn redo(&mut self, document: &mut Document) {
        self.set.redo(document)
    }

    fn undo(&mut self, document: &mut Document) {
        self.set.undo(document)
    }

    fn offer(&self) -> Offer<'_> {
        self.set.offer()
    }

    fn merge(
        &mut self,
        alloc: Global,
        newer: &Offer<'_>,
        document: &Document,
    ) -> Result<bool, AllocError> {
        self.set.merge(alloc, newer, document)
    }
}

impl PropertySet {
    // Whether this sets the owner's property with a name.
    fn sets(&self, owner: Owner, name: &str) -> bool
        ensures { IsTrue result ↔ ((property_set_exchange self.now).names.tag ≡ Some (record { kind = SET_ID; subject = OfName owner name.now })) }
    {
        owner == self.owner && name == self.name.as_str()
    }

    // Shows another type and value than before: those that the property has got since.
    fn show(&mut self, shown: GivenSetting)
        ensures rest { self.new ≡ record self.old { shown = shown; kind = self.new.kind } }
        ensures kind { IsKindFor (given_setting shown) self.old.kind self.new.kind }
    {
        if let SetKind::Replace {
            setting,
            is_same,
            ..
        } = &mut self.kind
        {
            *is_same = setting.is_given(shown.kind(), shown.value());
        }
        self.shown = shown;
    }
}
