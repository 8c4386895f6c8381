// Members that are a number, a text or a truth value. Each is taken out, and read at its place.
ghost use Rattle.std.specs.Prelude.{◌≡◌, ◌≤◌, IfOk};
ghost use Rattle.serde_json.specs.Find.{get_member};
ghost use Rattle.serde_json.specs.View.{view as data_of};
ghost use Rattle.map_model.specs.declared.names.TheConstants.{ID};
ghost use Rattle.json_members.specs.Members.{without};
ghost use Rattle.map_values.specs.Presence.{required, absent_means, optional, Gives};
ghost use Rattle.map_values.specs.Scalars.{whole_at, text_at, truth_at, id_at, pixels_at};

use crate::fault::MapFault;
use crate::json_object::JsonObject;
use crate::trail::Trail;
use map_model::limits::{MAX_NEXT_ID, MAX_PIXELS};
use map_model::{MapText, names};
use refusals::MapRefusal;
use serde_json::Value;
use std::alloc::Global;

// The whole number that a value is, from low to high.
#[tactic(auto, unfolding(crate::specs::Scalars::whole_at))]
fn whole(value: &Value, low: u32, high: u32) -> Result<u32, MapRefusal>
    ensures limit { IfOk result (λ n. n ≤ high) }
    ensures value { result ≡ whole_at low high (data_of value.now) }
{
    let number = value.as_number().ok_or(MapRefusal::MemberOfAnotherKind)?;
    let whole = number.as_u64().ok_or(MapRefusal::OverLimit)?;
    if u64::from(low) <= whole && whole <= u64::from(high) {
        Ok(whole as u32)
    } else {
        Err(MapRefusal::OverLimit)
    }
}

/// A whole number that must be there, from low to high.
pub fn required_whole<T: Trail>(
    members: &mut JsonObject,
    name: &str,
    low: u32,
    high: u32,
    trail: &mut T,
) -> Result<u32, MapRefusal>
    ensures limit { IfOk result (λ n. n ≤ high) }
    ensures value { result ≡ required (whole_at low high) (get_member name.now members.old) }
    ensures left { members.new ≡ without name.now members.old }
{
    let value = members.enter(name, trail).ok_or(MapRefusal::MemberMissing)?;
    let found = whole(&value, low, high)?;
    trail.leave();
    Ok(found)
}

/// An id that must be there.
pub fn required_id<T: Trail>(members: &mut JsonObject, trail: &mut T) -> Result<u32, MapRefusal>
    ensures value { result ≡ required id_at (get_member ID.now members.old) }
    ensures left { members.new ≡ without ID.now members.old }
{
    required_whole(members, names::ID, 1, MAX_NEXT_ID - 1, trail)
}

/// The id that comes next, which must be there.
pub fn required_next_id<T: Trail>(
    members: &mut JsonObject,
    name: &str,
    trail: &mut T,
) -> Result<u32, MapRefusal>
    ensures value { result ≡ required (whole_at 1 MAX_NEXT_ID) (get_member name.now members.old) }
    ensures left { members.new ≡ without name.now members.old }
{
    required_whole(members, name, 1, MAX_NEXT_ID, trail)
}

/// A whole number that may be absent, from low to high.
pub fn optional_whole<T: Trail>(
    members: &mut JsonObject,
    name: &str,
    low: u32,
    high: u32,
    trail: &mut T,
) -> Result<Option<u32>, MapRefusal>
    ensures value { result ≡ optional (whole_at low high) (get_member name.now members.old) }
    ensures left { members.new ≡ without name.now members.old }
{
    let found = match members.enter(name, trail) {
        Some(value) => Some(whole(&value, low, high)?),
        None => None,
    };
    trail.leave();
    Ok(found)
}

// The whole number of pixels that a value is.
#[tactic(auto, unfolding(crate::specs::Scalars::signed_at))]
fn pixels(value: &Value) -> Result<i32, MapRefusal>
    ensures { result ≡ pixels_at (data_of value.now) }
{
    let number = value.as_number().ok_or(MapRefusal::MemberOfAnotherKind)?;
    let whole = number.as_i64().ok_or(MapRefusal::OverLimit)?;
    if i64::from(-MAX_PIXELS) <= whole && whole <= i64::from(MAX_PIXELS) {
        Ok(whole as i32)
    } else {
        Err(MapRefusal::OverLimit)
    }
}

/// A number of pixels that may be absent.
pub fn optional_pixels<T: Trail>(
    members: &mut JsonObject,
    name: &str,
    trail: &mut T,
) -> Result<Option<i32>, MapRefusal>
    ensures value { result ≡ optional pixels_at (get_member name.now members.old) }
    ensures left { members.new ≡ without name.now members.old }
{
    let found = match members.enter(name, trail) {
        Some(value) => Some(pixels(&value)?),
        None => None,
    };
    trail.leave();
    Ok(found)
}

#[tactic(auto, unfolding(crate::specs::Scalars::truth_at))]
fn truth(value: &Value) -> Result<bool, MapRefusal>
    ensures { result ≡ truth_at (data_of value.now) }
{
    value.as_bool().ok_or(MapRefusal::MemberOfAnotherKind)
}

/// A truth value, or what its absence means.
pub fn truth_or<T: Trail>(
    members: &mut JsonObject,
    name: &str,
    absent: bool,
    trail: &mut T,
) -> Result<bool, MapRefusal>
    ensures value { result ≡ absent_means absent truth_at (get_member name.now members.old) }
    ensures left { members.new ≡ without name.now members.old }
{
    let found = match members.enter(name, trail) {
        Some(value) => truth(&value)?,
        None => absent,
    };
    trail.leave();
    Ok(found)
}

/// A truth value that may be absent.
pub fn optional_truth<T: Trail>(
    members: &mut JsonObject,
    name: &str,
    trail: &mut T,
) -> Result<Option<bool>, MapRefusal>
    ensures value { result ≡ optional truth_at (get_member name.now members.old) }
    ensures left { members.new ≡ without name.now members.old }
{
    let found = match members.enter(name, trail) {
        Some(value) => Some(truth(&value)?),
        None => None,
    };
    trail.leave();
    Ok(found)
}

// The text that a value is.
#[tactic(auto, unfolding(crate::specs::Scalars::text_at))]
fn text(value: Value) -> Result<MapText, MapRefusal>
    ensures { result ≡ text_at (data_of value) }
{
    match value {
        Value::String(text) => Ok(MapText::new(text)),
        _ => Err(MapRefusal::MemberOfAnotherKind),
    }
}

/// A text that must be there.
pub fn required_text<T: Trail>(
    members: &mut JsonObject,
    name: &str,
    trail: &mut T,
) -> Result<MapText, MapRefusal>
    ensures value { result ≡ required text_at (get_member name.now members.old) }
    ensures left { members.new ≡ without name.now members.old }
{
    let value = members.enter(name, trail).ok_or(MapRefusal::MemberMissing)?;
    let found = text(value)?;
    trail.leave();
    Ok(found)
}

/// A text that may be absent.
pub fn optional_text<T: Trail>(
    members: &mut JsonObject,
    name: &str,
    trail: &mut T,
) -> Result<Option<MapText>, MapRefusal>
    ensures value { result ≡ optional text_at (get_member name.now members.old) }
    ensures left { members.new ≡ without name.now members.old }
{
    let found = match members.enter(name, trail) {
        Some(value) => Some(text(value)?),
        None => None,
    };
    trail.leave();
    Ok(found)
}

/// A text, or what its absence means.
pub fn text_or<T: Trail>(
    alloc: Global,
    members: &mut JsonObject,
    name: &str,
    absent: &str,
    trail: &mut T,
) -> Result<MapText, MapFault>
    ensures value { Gives result (absent_means absent.now text_at (get_member name.now members.old)) }
    ensures left { members.new ≡ without name.now members.old }
{
    let found = match members.enter(name, trail) {
        Some(value) => text(value)?,
        None => MapText::new(String::from_str(alloc, absent)?),
    };
    trail.leave();
    Ok(found)
}
