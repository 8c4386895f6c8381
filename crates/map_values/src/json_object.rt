// A JSON object while a map is read or written.
ghost use Rattle.std.specs.Prelude.{◌≡◌, option_map, OnOk, IfOk};
ghost use Rattle.fractions.specs.Lines.{members_said, put_words, remove_word};
ghost use Rattle.serde_json.specs.Data.{member, no_members, object, put as with_member};
ghost use Rattle.serde_json.specs.Find.{get_member, as_object};
ghost use Rattle.serde_json.specs.View.{view as data_of, members_view};
ghost use Rattle.json_members.specs.Members.{without, put_some};

use crate::trail::{Segment, Trail};
use fractions::{Fractions, Moved, Place};
use map_model::Kept;
use serde_json::{Map, Value};
use std::alloc::{AllocError, Global};
use std::marker::Model;

/// The members of a JSON object, which can be taken out and put in.
#[derive(Drop)]
pub struct JsonObject {
    members: Map<String, Value>,
}

impl Model for JsonObject {
    ghost use Rattle.serde_json.specs.Data.{Members};
    ghost use Rattle.serde_json.specs.View.{members_view};
    ghost use Rattle.map_model.specs.DataCode.{members_code};

    ghost Value = { Members };

    ghost coded = { members_code };

    ghost view = { λ a. members_view a.members.entries };
}

impl JsonObject {
    /// The members of a value, where it is an object.
    pub fn from_value(value: Value) -> Option<JsonObject>
        ensures { result ≡ as_object (data_of value) }
    {
        match value {
            Value::Object(members) => Some(JsonObject { members }),
            _ => None,
        }
    }

    /// A copy of kept members.
    pub fn from_kept(alloc: Global, kept: &Kept) -> Result<JsonObject, AllocError>
        ensures { IfOk result (λ members. members ≡ kept.now) }
    {
        Ok(JsonObject {
            members: copied(alloc, kept.members())?,
        })
    }

    /// The value of a member.
    pub fn get(&self, name: &str) -> Option<&Value>
        ensures { option_map (λ value. data_of value.now) result ≡ get_member name.now self.now }
    {
        json_members::found(&self.members, name)
    }

    /// Takes a member out.
    pub fn take(&mut self, name: &str) -> Option<Value>
        ensures found { option_map data_of result ≡ get_member name.now self.old }
        ensures left { self.new ≡ without name.now self.old }
    {
        json_members::take(&mut self.members, name)
    }

    /// Takes a member out, and goes to its place.
    pub fn enter<T: Trail>(&mut self, name: &str, trail: &mut T) -> Option<Value>
        ensures found { option_map data_of result ≡ get_member name.now self.old }
        ensures left { self.new ≡ without name.now self.old }
    {
        trail.enter(Segment::Member(name));
        self.take(name)
    }

    /// Takes a member out, and drops it.
    pub fn remove(&mut self, name: &str)
        ensures { self.new ≡ without name.now self.old }
    {
        drop(self.take(name));
    }

    /// Puts a member in.
    pub fn put(&mut self, alloc: Global, name: &str, value: Value) -> Result<(), AllocError>
        ensures { OnOk result (self.new ≡ with_member name.now (data_of value) self.old) }
    {
        serde_json::put(&mut self.members, alloc, name, value)
    }

    /// Puts a member in, where there is one.
    pub fn put_some(
        &mut self,
        alloc: Global,
        name: &str,
        value: Option<Value>,
    ) -> Result<(), AllocError>
        ensures { OnOk result
            (self.new ≡ put_some name.now (option_map data_of value) self.old) }
    {
        match value {
            Some(value) => self.put(alloc, name, value),
            None => Ok(()),
        }
    }

    /// Puts each of these members in, which a line says of an owner at a place. After an error the members are any.
    pub fn put_words(
        &mut self,
        alloc: Global,
        fractions: Fractions,
        place: Place,
        moved: Moved,
        words: JsonObject,
    ) -> Result<(), AllocError>
        ensures { OnOk result (self.new ≡ put_words fractions place moved words self.old) }
    {
        let JsonObject { members } = words;
        fractions::put_words(alloc, fractions, place, moved, &mut self.members, members)
    }

    /// Puts one member in, which a line says of an owner at a place. After an error the members are any.
    pub fn put_word(
        &mut self,
        alloc: Global,
        fractions: Fractions,
        place: Place,
        moved: Moved,
        name: &str,
        value: Value,
    ) -> Result<(), AllocError>
        ensures { OnOk result (self.new ≡ put_words fractions place moved (member name.now (data_of value) no_members) self.old) }
    {
        fractions::put_word(
            alloc,
            fractions,
            place,
            moved,
            &mut self.members,
            name,
            value,
        )
    }

    /// Takes a member out, as a line of an owner at a place does. After an error the members are any.
    pub fn remove_word(
        &mut self,
        alloc: Global,
        fractions: Fractions,
        place: Place,
        name: &str,
    ) -> Result<(), AllocError>
        ensures { OnOk result (self.new ≡ remove_word fractions place name.now self.old) }
    {
        fractions::remove_word(alloc, fractions, place, &mut self.members, name)
    }

    /// The members that a line says of an object at a place, as the map has them.
    pub fn said(
        self,
        alloc: Global,
        fractions: Fractions,
        place: Place,
        moved: Moved,
    ) -> Result<JsonObject, AllocError>
        ensures { IfOk result (λ said. said ≡ members_said fractions place moved self) }
    {
        let JsonObject { members } = self;
        Ok(JsonObject {
            members: fractions::members_said(alloc, fractions, place, moved, members)?,
        })
    }

    /// The members, in the order of their names.
    pub fn members(&self) -> &Map<String, Value>
        ensures { members_view result.now.entries ≡ self.now }
    {
        &self.members
    }

    /// The members, which nothing interprets.
    pub fn into_kept(self) -> Kept
        ensures { result ≡ self }
    {
        let JsonObject { members } = self;
        Kept::new(members)
    }

    /// The object as a value.
    pub fn into_value(self) -> Value
        ensures { data_of result ≡ object self }
    {
        let JsonObject { members } = self;
        Value::from(members)
    }
}

// A copy of members.
fn copied(alloc: Global, members: &Map<String, Value>) -> Result<Map<String, Value>, AllocError>
    ensures { IfOk result (λ copy. members_view copy.entries ≡ members_view members.now.entries) }
{
    let mut copies = Map::new(alloc);
    for (key, member) in members.iter() {
        let value = member.clone()?;
        serde_json::put(&mut copies, alloc, key.as_str(), value)?;
    }
    Ok(copies)
}
