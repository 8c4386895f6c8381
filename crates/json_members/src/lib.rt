//! Members of a JSON object, found by name and taken out.
#![tactic(auto)]

ghost use Rattle.std.specs.Prelude.{◌≡◌, option_map};
ghost use Rattle.serde_json.specs.Find.{get_member};
ghost use Rattle.serde_json.specs.View.{view as data_of, members_view};
ghost use Rattle.json_members.specs.Members.{without};

use serde_json::{Map, Value};

/// The value of a member.
pub fn found<'a>(members: &'a Map<String, Value>, name: &str) -> Option<&'a Value>
    ensures { option_map (λ value. data_of value.now) result
        ≡ get_member name.now (members_view members.now.entries) }
{
    members.get(name)
}

/// Takes a member out.
pub fn take(members: &mut Map<String, Value>, name: &str) -> Option<Value>
    ensures found { option_map data_of result
        ≡ get_member name.now (members_view members.old.entries) }
    ensures left { members_view members.new.entries
        ≡ without name.now (members_view members.old.entries) }
{
    members.remove(name)
}

/// Takes a member out, and drops it.
pub fn remove(members: &mut Map<String, Value>, name: &str)
    ensures { members_view members.new.entries
        ≡ without name.now (members_view members.old.entries) }
{
    drop(take(members, name));
}
