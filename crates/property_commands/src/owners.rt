// The owners of properties.
ghost use Rattle.std.specs.Prelude.{◌≡◌, IfOk, IsSome};
ghost use Rattle.edits.specs.PropertyEdits.{owner_or_fault};
ghost use Rattle.map_model.specs.Properties.{properties_of};

use edits::EditFault;
use map_model::{Map, Owner, OwnerPlace};

/// Where an owner stands, or that the map has no such layer or object.
pub fn place_of(map: &Map, owner: Owner) -> Result<OwnerPlace, EditFault>
    ensures place { result ≡ owner_or_fault map.now owner }
    ensures there { IfOk result (λ place. IsSome (properties_of map.now place)) }
{
    let place = map.owner_place(owner);
    match owner {
        Owner::Map => Ok(OwnerPlace::Map),
        Owner::Layer(_) => place.ok_or(EditFault::NoSuchLayer),
        Owner::Object(_) => place.ok_or(EditFault::NoSuchObject),
    }
}
