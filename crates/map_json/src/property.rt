// Properties.
ghost use Rattle.std.specs.Prelude.{◌≡◌, ◌*◌, ◌≤◌};
ghost use Rattle.serde_json.specs.Find.{get_member};
ghost use Rattle.serde_json.specs.View.{view as data_of};
ghost use Rattle.map_model.specs.declared.names.TheConstants.{PROPERTIES, VALUE};
ghost use Rattle.map_model.specs.declared.limits.TheConstants.{MAX_CELLS};
ghost use Rattle.json_members.specs.Members.{without};
ghost use Rattle.map_values.specs.Presence.{Gives, required};
ghost use Rattle.map_json.specs.Reading.{value_of, value_at, property_at, properties_of};

use crate::elements::{Element, elements_or_none};
use crate::size::Size;
use link_chain::Chain;
use map_model::limits::MAX_PROPERTIES;
use map_model::{JsonValue, MapText, PropValue, Property, names};
use map_values::{JsonObject, MapFault, Trail, required_text, text_or};
use refusals::MapRefusal;
use serde_json::Value;
use std::alloc::Global;

fn property_value(value: Value) -> PropValue
    ensures { result ≡ value_of (data_of value) }
{
    match value {
        Value::Bool(truth) => PropValue::Truth(truth),
        Value::String(text) => PropValue::Text(MapText::new(text)),
        Value::Number(number) => match number.as_i64() {
            Some(whole) => PropValue::Whole(whole),
            None => PropValue::Other(JsonValue::new(Value::Number(number))),
        },
        other => PropValue::Other(JsonValue::new(other)),
    }
}

// The value of a property, which must be there.
fn required_value<T: Trail>(
    members: &mut JsonObject,
    trail: &mut T,
) -> Result<PropValue, MapRefusal>
    ensures value { result ≡ required value_at (get_member VALUE.now members.old) }
    ensures left { members.new ≡ without VALUE.now members.old }
{
    let value = members
        .enter(names::VALUE, trail)
        .ok_or(MapRefusal::MemberMissing)?;
    trail.leave();
    Ok(property_value(value))
}

impl Element for Property {
    ghost reads = { λ _. property_at };

    #[tactic(auto, using(crate::proofs::Lacking::takes), unfolding(crate::specs::Reading::property_at))]
    fn read<T: Trail>(
        alloc: Global,
        _size: Size,
        value: Value,
        trail: &mut T,
    ) -> Result<Property, MapFault> {
        let mut members = JsonObject::from_value(value).ok_or(MapRefusal::MemberOfAnotherKind)?;
        let name = required_text(&mut members, names::NAME, trail)?;
        let kind = text_or(alloc, &mut members, names::TYPE, "string", trail)?;
        let value = required_value(&mut members, trail)?;
        Ok(Property {
            name,
            kind,
            value,
            kept: members.into_kept(),
        })
    }
}

/// The properties of an owner, which are taken out; none where they are absent.
pub fn properties_or_none<T: Trail>(
    alloc: Global,
    size: Size,
    members: &mut JsonObject,
    trail: &mut T,
) -> Result<Chain<Property>, MapFault>
    requires { size.width * size.height ≤ MAX_CELLS }
    ensures value { Gives result (properties_of members.old) }
    ensures left { members.new ≡ without PROPERTIES.now members.old }
{
    elements_or_none(
        alloc,
        size,
        MAX_PROPERTIES,
        members,
        names::PROPERTIES,
        trail,
    )
}
