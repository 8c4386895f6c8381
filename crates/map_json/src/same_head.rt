// Whether an object has a head.
ghost use Rattle.std.specs.Prelude.{◌≡◌, ◌↔◌, IsTrue};
ghost use Rattle.map_model.specs.Heads.{object_head};

use json_trees::members_are_same;
use map_model::{MapText, Object, ObjectHead, Placing};
use tile_id::Gid;

fn is_number(number: Option<i32>, other: Option<i32>) -> bool
    ensures { IsTrue result ↔ number ≡ other }
{
    match (number, other) {
        (Some(number), Some(other)) => number == other,
        (None, None) => true,
        _ => false,
    }
}

fn is_truth(truth: Option<bool>, other: Option<bool>) -> bool
    ensures { IsTrue result ↔ truth ≡ other }
{
    match (truth, other) {
        (Some(truth), Some(other)) => truth == other,
        (None, None) => true,
        _ => false,
    }
}

fn is_gid(gid: Option<Gid>, other: Option<Gid>) -> bool
    ensures { IsTrue result ↔ gid ≡ other }
{
    match (gid, other) {
        (Some(gid), Some(other)) => gid.0 == other.0,
        (None, None) => true,
        _ => false,
    }
}

/// Whether a text is the other one.
pub fn is_text(text: &Option<MapText>, other: &Option<MapText>) -> bool
    ensures { IsTrue result ↔ text.now ≡ other.now }
{
    match (text, other) {
        (Some(text), Some(other)) => text.as_str() == other.as_str(),
        (None, None) => true,
        _ => false,
    }
}

fn is_placing(placing: Placing, other: Placing) -> bool
    ensures { IsTrue result ↔ placing ≡ other }
{
    is_number(placing.x, other.x)
        && is_number(placing.y, other.y)
        && is_number(placing.width, other.width)
        && is_number(placing.height, other.height)
}

/// Whether an object has this head.
pub fn is_object_head(object: &Object, head: &ObjectHead) -> bool
    ensures { IsTrue result ↔ object_head object.now ≡ head.now }
{
    is_placing(object.placing, head.placing)
        && is_text(&object.name, &head.name)
        && is_truth(object.visible, head.visible)
        && is_gid(object.gid, head.gid)
        && members_are_same(object.kept.members(), head.kept.members())
}
