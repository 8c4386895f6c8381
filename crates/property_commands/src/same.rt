// Whether two properties are the same.
ghost use Rattle.std.specs.Prelude.{◌≡◌, ◌↔◌, IsTrue};

use json_trees::{is_same, members_are_same};
use map_model::{PropValue, Property};

fn is_same_value(one: &PropValue, other: &PropValue) -> bool
    ensures { IsTrue result ↔ one.now ≡ other.now }
{
    match (one, other) {
        (PropValue::Text(one), PropValue::Text(other)) => one.as_str() == other.as_str(),
        (PropValue::Whole(one), PropValue::Whole(other)) => *one == *other,
        (PropValue::Truth(one), PropValue::Truth(other)) => *one == *other,
        (PropValue::Other(one), PropValue::Other(other)) => is_same(one.value(), other.value()),
        _ => false,
    }
}

/// Whether two properties are the same, with the members that they keep.
pub fn is_same_property(one: &Property, other: &Property) -> bool
    ensures { IsTrue result ↔ one.now ≡ other.now }
{
    one.name.as_str() == other.name.as_str()
        && one.kind.as_str() == other.kind.as_str()
        && is_same_value(&one.value, &other.value)
        && members_are_same(one.kept.members(), other.kept.members())
}
