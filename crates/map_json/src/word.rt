// A JSON text in a line.
ghost use Rattle.std.specs.Prelude.{◌≡◌, ◌||◌, nat_le, not, IfOk, IsTrue};
ghost use Rattle.serde_json.specs.Data.{depth};
ghost use Rattle.serde_json.specs.View.{view as data_of};
ghost use Rattle.serde_json.specs.Written.{has_float};
ghost use Rattle.fractions.specs.declared.lines.Moved.{Moved};
ghost use Rattle.fractions.specs.Places.{below, is_inner};
ghost use Rattle.fractions.specs.Lines.{members_said as said_members, said};
ghost use Rattle.map_values.specs.Presence.{Gives, GivesBy};
ghost use Rattle.map_json.specs.Words.{members_at, word_at, are_set_aside, words_at, AreWords, IsWord};

use crate::floats::has_float;
use fractions::{Fractions, Moved, Place, aside};
use json_trees::{RESERVED_NAME, has_name, is_within};
use map_values::{JsonObject, MapFault, NoTrail};
use refusals::MapRefusal;
use serde_json::Value;
use std::alloc::{AllocError, Global};

/// How many arrays and objects may stand in one another in a JSON text of a line. So wherever the text goes, the map nests no
/// deeper than a file may.
pub const MAX_WORD_DEPTH: u8 = 88;

// Whether a line may say a value, for its numbers.
fn may_have_fractions(fractions: Fractions, value: &Value) -> bool
    ensures { result ≡ (are_set_aside fractions || not (has_float (data_of value.now))) }
{
    match fractions {
        Fractions::Refused => !has_float(value, &mut NoTrail),
        Fractions::SetAside => true,
    }
}

// Whether a value nests no deeper than it may, as the map has it at a place.
fn is_shallow(
    alloc: Global,
    fractions: Fractions,
    place: Place,
    value: &Value,
) -> Result<bool, AllocError>
    ensures { IfOk result (λ shallow. shallow
        ≡ nat_le (depth (said fractions place (data_of value.now))) MAX_WORD_DEPTH) }
{
    match fractions {
        Fractions::Refused => Ok(is_within(MAX_WORD_DEPTH, value)),
        Fractions::SetAside => Ok(is_within(MAX_WORD_DEPTH, &aside(alloc, place, value)?)),
    }
}

/// The value that a JSON text of a line says, which is to stand at a place inside of the map, or why it says none. Nothing is set
/// aside in it yet.
#[tactic(auto, unfolding(crate::specs::Words::word_at))]
pub fn json_word(
    alloc: Global,
    fractions: Fractions,
    place: Place,
    text: &str,
) -> Result<Value, MapFault>
    requires { IsTrue (is_inner place) }
    ensures value { GivesBy data_of result (word_at fractions place text.now) }
    ensures word { IfOk result (λ value. IsWord (said fractions place (data_of value))) }
{
    let value = match Value::from_str(alloc, text) {
        Ok(value) => value,
        Err(error) => {
            return if error.is_memory() {
                Err(MapFault::Memory)
            } else {
                Err(MapFault::Refused(MapRefusal::NotJson))
            };
        }
    };
    if !may_have_fractions(fractions, &value) {
        return Err(MapFault::Refused(MapRefusal::Fraction));
    }
    if !is_shallow(alloc, fractions, place, &value)? {
        return Err(MapFault::Refused(MapRefusal::NotJson));
    }
    if has_name(RESERVED_NAME, &value) {
        return Err(MapFault::Refused(MapRefusal::MemberOfAnotherKind));
    }
    Ok(value)
}

/// The value that a JSON text of a line says of a member with a name, which an object at a place inside of the map is to have, or why
/// it says none. Nothing is set aside in it yet.
#[tactic(auto, unfolding(crate::specs::Words::word_at))]
pub fn json_member(
    alloc: Global,
    fractions: Fractions,
    place: Place,
    name: &str,
    text: &str,
) -> Result<Value, MapFault>
    requires { IsTrue (is_inner place) }
    ensures value { GivesBy data_of result (word_at fractions (below place name.now) text.now) }
    ensures word { IfOk result (λ value. IsWord (said fractions (below place name.now) (data_of value))) }
{
    match fractions {
        Fractions::Refused => json_word(alloc, fractions, Place::Elsewhere, text),
        Fractions::SetAside => json_word(alloc, fractions, place.below(name), text),
    }
}

/// The members that a JSON text of a line says, which are to stand in an object at a place inside of the map, or why it says none.
/// Nothing is set aside in them yet.
#[tactic(auto, unfolding(crate::specs::Words::words_at))]
pub fn json_words(
    alloc: Global,
    fractions: Fractions,
    place: Place,
    text: &str,
) -> Result<JsonObject, MapFault>
    requires { IsTrue (is_inner place) }
    ensures members { Gives result (words_at fractions place text.now) }
    ensures words { (moved : Moved) → IfOk result (λ words. AreWords (said_members fractions place moved words)) }
{
    let value = json_word(alloc, fractions, place, text)?;
    match JsonObject::from_value(value) {
        Some(members) => Ok(members),
        None => Err(MapFault::Refused(MapRefusal::MemberOfAnotherKind)),
    }
}

/// The members that a JSON text of a line says, as the map has them in an object at a place inside of it, which is saved so much
/// further than it stands, or why it says none.
#[tactic(auto, unfolding(crate::specs::Words::members_at))]
pub fn members_said(
    alloc: Global,
    fractions: Fractions,
    place: Place,
    moved: Moved,
    text: &str,
) -> Result<JsonObject, MapFault>
    requires { IsTrue (is_inner place) }
    ensures members { Gives result (members_at fractions place moved text.now) }
    ensures words { IfOk result AreWords }
{
    let words = json_words(alloc, fractions, place, text)?;
    Ok(words.said(alloc, fractions, place, moved)?)
}
