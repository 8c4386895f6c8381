// Members that a line says, among an owner's.
ghost use Rattle.std.specs.Prelude.{◌≡◌, unwrap_or, IfOk, OnOk};
ghost use Rattle.serde_json.specs.Data.{member, no_members};
ghost use Rattle.serde_json.specs.Find.{as_object};
ghost use Rattle.serde_json.specs.View.{view as data_of, members_view};
ghost use Rattle.json_members.specs.Members.{put_all, without};
ghost use Rattle.json_trees.specs.declared.names.TheConstants.{RESERVED_NAME};
ghost use Rattle.fractions.specs.Aside.{members_aside};
ghost use Rattle.fractions.specs.Lines.{has_noted, is_noted, members_said, notes_at, put_words, remove_word, renoted, unnoted, without_named};

use crate::place::Place;
use crate::setting_aside::{aside, moved_notes, object_aside, put_notes};
use json_members::{remove, take};
use json_trees::RESERVED_NAME;
use serde_json::{Map, Value};
use std::alloc::{AllocError, Global};

/// What becomes of a number that is not whole in a JSON text of a line.
#[derive(Clone, Copy, PartialEq, Eq, Debug)]
pub enum Fractions {
    /// The line is refused.
    Refused,
    /// It is set aside, as one of a file.
    SetAside,
}

/// How many pixels further than it stands an object is saved, as in a map that was infinite.
#[derive(Clone, Copy, PartialEq, Eq, Debug)]
pub struct Moved {
    pub x: i64,
    pub y: i64,
}

/// An object that is saved where it stands.
pub const UNMOVED: Moved = Moved { x: 0, y: 0 };

/// The members of an object that a line says at a place, as the map has them.
pub fn members_said(
    alloc: Global,
    fractions: Fractions,
    place: Place,
    moved: Moved,
    members: Map<String, Value>,
) -> Result<Map<String, Value>, AllocError>
    ensures { IfOk result (λ said. members_view said.entries
        ≡ members_said fractions place moved (members_view members.entries)) }
{
    match fractions {
        Fractions::Refused => Ok(members),
        Fractions::SetAside => object_aside(alloc, moved, place, &members),
    }
}

fn is_noted(place: Place) -> bool
    ensures { result ≡ is_noted place }
{
    match place {
        Place::Coordinate => true,
        Place::Map | Place::Layer | Place::Object | Place::Version | Place::Elsewhere => false,
    }
}

// Whether an object at a place notes a fraction of one of these members.
fn has_noted(place: Place, members: &Map<String, Value>) -> bool
    ensures { result ≡ has_noted place (members_view members.now.entries) }
{
    for (name, _) in members.iter() {
        if is_noted(place.below(name.as_str())) {
            return true;
        }
    }
    false
}

// The members of a value, or none where it is no object.
fn members_of(alloc: Global, value: Value) -> Map<String, Value>
    ensures { members_view result.entries ≡ unwrap_or (as_object (data_of value)) no_members }
{
    match value {
        Value::Object(members) => members,
        _ => Map::new(alloc),
    }
}

// Takes the notes of an owner out, if it has any.
fn take_notes(alloc: Global, members: &mut Map<String, Value>) -> Map<String, Value>
    ensures notes { members_view result.entries ≡ notes_at (members_view members.old.entries) }
    ensures left { members_view members.new.entries
        ≡ without RESERVED_NAME.now (members_view members.old.entries) }
{
    match take(members, RESERVED_NAME) {
        Some(notes) => members_of(alloc, notes),
        None => Map::new(alloc),
    }
}

// Takes each member out that others name.
fn remove_named(members: &mut Map<String, Value>, words: &Map<String, Value>)
    ensures { members_view members.new.entries
        ≡ without_named (members_view words.now.entries) (members_view members.old.entries) }
{
    for (name, _) in words.iter() {
        remove(members, name.as_str());
    }
}

// Puts each of these members in.
fn put_all(
    alloc: Global,
    members: &mut Map<String, Value>,
    more: Map<String, Value>,
) -> Result<(), AllocError>
    ensures { OnOk result (members_view members.new.entries
        ≡ put_all (members_view more.entries) (members_view members.old.entries)) }
{
    for (name, value) in more {
        serde_json::put(members, alloc, name.as_str(), value)?;
    }
    Ok(())
}

// Puts each of these members in, with its fractions set aside.
fn put_aside(
    alloc: Global,
    place: Place,
    members: &mut Map<String, Value>,
    words: &Map<String, Value>,
) -> Result<(), AllocError>
    ensures { OnOk result (members_view members.new.entries
        ≡ put_all (members_aside place (members_view words.now.entries)) (members_view members.old.entries)) }
{
    for (name, value) in words.iter() {
        let said = aside(alloc, place.below(name.as_str()), value)?;
        serde_json::put(members, alloc, name.as_str(), said)?;
    }
    Ok(())
}

// Makes the notes of an owner those that it has with these words in it.
fn note(
    alloc: Global,
    place: Place,
    moved: Moved,
    members: &mut Map<String, Value>,
    words: &Map<String, Value>,
) -> Result<(), AllocError>
    ensures { OnOk result (members_view members.new.entries
        ≡ renoted place moved (members_view words.now.entries) (members_view members.old.entries)) }
{
    if !has_noted(place, words) {
        return Ok(());
    }
    let mut notes = take_notes(alloc, members);
    remove_named(&mut notes, words);
    put_all(alloc, &mut notes, moved_notes(alloc, moved, place, words)?)?;
    put_notes(alloc, members, notes)
}

/// Puts members that a line says among those of an owner at a place: their fractions are set aside, where that is done, and an
/// object's coordinates among them leave it with their own notes alone. After an error the members are any.
pub fn put_words(
    alloc: Global,
    fractions: Fractions,
    place: Place,
    moved: Moved,
    members: &mut Map<String, Value>,
    words: Map<String, Value>,
) -> Result<(), AllocError>
    ensures { OnOk result (members_view members.new.entries
        ≡ put_words fractions place moved (members_view words.entries) (members_view members.old.entries)) }
{
    match fractions {
        Fractions::Refused => put_all(alloc, members, words),
        Fractions::SetAside => {
            note(alloc, place, moved, members, &words)?;
            put_aside(alloc, place, members, &words)
        }
    }
}

/// Puts one member that a line says among those of an owner at a place, as `put_words` does.
pub fn put_word(
    alloc: Global,
    fractions: Fractions,
    place: Place,
    moved: Moved,
    members: &mut Map<String, Value>,
    name: &str,
    value: Value,
) -> Result<(), AllocError>
    ensures { OnOk result (members_view members.new.entries
        ≡ put_words fractions place moved (member name.now (data_of value) no_members) (members_view members.old.entries)) }
{
    match fractions {
        Fractions::Refused => serde_json::put(members, alloc, name, value),
        Fractions::SetAside => {
            let mut words = Map::new(alloc);
            serde_json::put(&mut words, alloc, name, value)?;
            put_words(alloc, fractions, place, moved, members, words)
        }
    }
}

// Takes the note of one of an owner's members out.
fn remove_note(
    alloc: Global,
    place: Place,
    members: &mut Map<String, Value>,
    name: &str,
) -> Result<(), AllocError>
    ensures { OnOk result (members_view members.new.entries
        ≡ unnoted place name.now (members_view members.old.entries)) }
{
    if !is_noted(place.below(name)) {
        return Ok(());
    }
    let mut notes = take_notes(alloc, members);
    remove(&mut notes, name);
    put_notes(alloc, members, notes)
}

/// Takes a member out of those of an owner at a place, and a note of it, where fractions are set aside. After an error the members
/// are any.
pub fn remove_word(
    alloc: Global,
    fractions: Fractions,
    place: Place,
    members: &mut Map<String, Value>,
    name: &str,
) -> Result<(), AllocError>
    ensures { OnOk result (members_view members.new.entries
        ≡ remove_word fractions place name.now (members_view members.old.entries)) }
{
    match fractions {
        Fractions::Refused => {}
        Fractions::SetAside => remove_note(alloc, place, members, name)?,
    }
    remove(members, name);
    Ok(())
}
