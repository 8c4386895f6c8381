// What is held, or stands in its place.
ghost use Rattle.std.specs.Prelude.{◌≡◌, IsSomeAnd};
ghost use Rattle.map_model.specs.Lens.{put};
ghost use Rattle.map_model.specs.PropertyLenses.{property_slot};
ghost use Rattle.map_model.specs.Slot.{tileset_slot};
ghost use Rattle.command_api.specs.Exchange.{IsExchanged};
ghost use Rattle.command_api.specs.Names.{Names};
ghost use Rattle.command_api.specs.Link.{FitsLink, link, turned_link};
ghost use Rattle.command_api.specs.Swap.{FitsBack};
ghost use Rattle.property_commands.specs.PropertyChanges.{property_in};

use link_chain::Loose;
use map_model::{Document, OwnerPlace, Property, Tileset};

/// Puts the held property in at a place among its owner's, or, where none is held, takes the one there out.
pub fn exchange_property(
    document: &mut Document,
    owner: OwnerPlace,
    at: usize,
    held: &mut Option<Loose<Property>>,
)
    requires { FitsLink (property_slot owner at) held.old document.old }
    ensures exchanged { (names : Names) → IsExchanged (link names (property_slot owner at) held.old) (link names (property_slot owner at) held.new) document.old document.new }
    ensures held { held.new ≡ turned_link (property_slot owner at) held.old document.old }
{
    match held.take() {
        Some(property) => document.insert_property(owner, at, property),
        None => *held = Some(document.take_property(owner, at)),
    }
}

/// Puts a property in the place of the one at a place among its owner's, and hands that one back.
pub fn replace_property(
    document: &mut Document,
    owner: OwnerPlace,
    at: usize,
    property: Loose<Property>,
) -> Loose<Property>
    requires { IsSomeAnd property (λ p. FitsBack (property_in owner at) p document.old) }
    ensures own { (property_in owner at).get document.old ≡ result }
    ensures document { IsSomeAnd property (λ p. document.new ≡ put (property_in owner at) p document.old) }
{
    let own = document.take_property(owner, at);
    document.insert_property(owner, at, property);
    own
}

/// Puts the held tileset in at a place, or, where none is held, takes the one there out.
pub fn exchange_tileset(document: &mut Document, at: usize, held: &mut Option<Loose<Tileset>>)
    requires { FitsLink (tileset_slot at) held.old document.old }
    ensures { (names : Names) → IsExchanged (link names (tileset_slot at) held.old) (link names (tileset_slot at) held.new) document.old document.new }
{
    match held.take() {
        Some(tileset) => document.insert_tileset(at, tileset),
        None => *held = Some(document.take_tileset(at)),
    }
}
