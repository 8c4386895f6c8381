// Members of an object, put in.
ghost use Rattle.std.specs.Prelude.{◌≡◌, OnOk};
ghost use Rattle.serde_json.specs.Find.{get};
ghost use Rattle.serde_json.specs.View.{view as data_of, members_view};
ghost use Rattle.json_members.specs.Members.{put_some};

use serde_json::{Map, Value};
use std::alloc::{AllocError, Global};

/// The name of the notes.
pub const MARK: &str = "roskevad";

/// Puts a copy of the member of an object in, where the object has it.
pub fn put_copy(
    alloc: Global,
    members: &mut Map<String, Value>,
    name: &str,
    object: &Value,
) -> Result<(), AllocError>
    ensures { OnOk result (members_view members.new.entries
        ≡ put_some name.now (get name.now (data_of object.now)) (members_view members.old.entries)) }
{
    match object.get(name) {
        Some(value) => serde_json::put(members, alloc, name, value.clone()?),
        None => Ok(()),
    }
}
