// Members of an object, looked through.
ghost use Rattle.std.specs.Prelude.{◌≡◌};
ghost use Rattle.serde_json.specs.View.{members_view};
ghost use Rattle.fractions.specs.Back.{is_alone};

use serde_json::{Map, Value};

/// Whether an object has just one member.
pub fn is_alone(members: &Map<String, Value>) -> bool
    ensures { result ≡ is_alone (members_view members.now.entries) }
{
    members.len() == 1
}
