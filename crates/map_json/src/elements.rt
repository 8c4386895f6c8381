// Arrays whose elements are read one after the other.
ghost use Rattle.std.specs.Prelude.{◌≡◌, ◌*◌, ◌≤◌, [], ◌∷◌, ◌++◌, option_map, length, Result, OnOk};
ghost use Rattle.serde_json.specs.Data.{Data};
ghost use Rattle.serde_json.specs.Find.{as_array, get_member};
ghost use Rattle.serde_json.specs.View.{view as data_of, items_view};
ghost use Rattle.map_model.specs.declared.limits.TheConstants.{MAX_CELLS, MAX_OBJECTS};
ghost use Rattle.json_members.specs.Members.{without};
ghost use Rattle.map_values.specs.Presence.{Gives, GivesBy, required, absent_means};
ghost use Rattle.map_json.specs.Elements.{each, elements_at};

use crate::size::Size;
use link_chain::Chain;
use link_tree::LinkTree;
use map_values::{JsonObject, MapFault, Segment, Trail};
use refusals::MapRefusal;
use serde_json::Value;
use std::alloc::{AllocError, Global};

/// What an array of a file has as its elements.
pub trait Element {
    ghost use Rattle.map_json.specs.declared.size.Size.{Size};
    ghost use Rattle.refusals.specs.declared.map_refusal.MapRefusal.{MapRefusal};

    ghost reads: { Size → Data → Result Self MapRefusal };

    fn read<T: Trail>(
        alloc: Global,
        size: Size,
        value: Value,
        trail: &mut T,
    ) -> Result<Self, MapFault>
        requires { size.width * size.height ≤ MAX_CELLS }
        ensures { Gives result (reads size (data_of value)) };
}

/// A list of links that the elements of an array are put into.
pub trait ElementList<E> {
    ghost use Rattle.std.specs.Prelude.{List};

    ghost listed: { Self → List E };

    fn none(alloc: Global) -> Self
        ensures { listed result ≡ [] };

    fn count(&self) -> usize
        ensures { result ≡ length (listed self.now) };

    /// Puts an element behind the others, in a link of its own.
    fn add(&mut self, alloc: Global, element: E) -> Result<(), AllocError>
        requires { length (listed self.old) ≤ MAX_OBJECTS }
        ensures { OnOk result (listed self.new ≡ listed self.old ++ element ∷ []) };
}

impl<E: Drop> ElementList<E> for Chain<E> {
    ghost listed = { λ elements. elements };

    fn none(alloc: Global) -> Chain<E> {
        Chain::new(alloc)
    }

    fn count(&self) -> usize {
        self.len()
    }

    fn add(&mut self, alloc: Global, element: E) -> Result<(), AllocError> {
        let link = link_chain::Loose::new(alloc, element).map_err(|_| AllocError)?;
        self.insert(self.len(), link);
        Ok(())
    }
}

impl<E: Drop> ElementList<E> for LinkTree<E> {
    ghost listed = { λ elements. elements };

    fn none(alloc: Global) -> LinkTree<E> {
        LinkTree::new(alloc)
    }

    fn count(&self) -> usize {
        self.len()
    }

    fn add(&mut self, alloc: Global, element: E) -> Result<(), AllocError> {
        let link = link_tree::Loose::new(alloc, element).map_err(|_| AllocError)?;
        self.insert(self.len(), link);
        Ok(())
    }
}

/// The elements of a value, where it is an array.
pub fn array_of(value: Value) -> Option<Vec<Value>>
    ensures { option_map (λ values. items_view values.items) result ≡ as_array (data_of value) }
{
    match value {
        Value::Array(values) => Some(values),
        _ => None,
    }
}

fn each<E: Element + Drop, L: ElementList<E> + Drop, T: Trail>(
    alloc: Global,
    size: Size,
    values: Vec<Value>,
    trail: &mut T,
) -> Result<L, MapFault>
    requires size { size.width * size.height ≤ MAX_CELLS }
    requires few { length values.items ≤ MAX_OBJECTS }
    ensures { GivesBy L.listed result (each (E.reads size) (items_view values.items)) }
{
    let mut found = L::none(alloc);
    for value in values {
        trail.enter(Segment::Element(found.count()));
        let element = E::read(alloc, size, value, trail)?;
        found.add(alloc, element)?;
        trail.leave();
    }
    Ok(found)
}

#[tactic(auto, using(crate::proofs::Loops::lengths))]
fn elements<E: Element + Drop, L: ElementList<E> + Drop, T: Trail>(
    alloc: Global,
    size: Size,
    most: usize,
    value: Value,
    trail: &mut T,
) -> Result<L, MapFault>
    requires size { size.width * size.height ≤ MAX_CELLS }
    requires few { most ≤ MAX_OBJECTS }
    ensures { GivesBy L.listed result (elements_at most (E.reads size) (data_of value)) }
{
    let values = array_of(value).ok_or(MapRefusal::MemberOfAnotherKind)?;
    if values.len() > most {
        return Err(MapFault::Refused(MapRefusal::OverLimit));
    }
    each(alloc, size, values, trail)
}

/// The elements of an array that must be there, at most so many. It is taken out, and read at its place.
pub fn required_elements<E: Element + Drop, L: ElementList<E> + Drop, T: Trail>(
    alloc: Global,
    size: Size,
    most: usize,
    members: &mut JsonObject,
    name: &str,
    trail: &mut T,
) -> Result<L, MapFault>
    requires size { size.width * size.height ≤ MAX_CELLS }
    requires few { most ≤ MAX_OBJECTS }
    ensures value { GivesBy L.listed result
        (required (elements_at most (E.reads size)) (get_member name.now members.old)) }
    ensures left { members.new ≡ without name.now members.old }
{
    let value = members.enter(name, trail).ok_or(MapRefusal::MemberMissing)?;
    let found = elements(alloc, size, most, value, trail)?;
    trail.leave();
    Ok(found)
}

/// The elements of an array, at most so many; none where it is absent. It is taken out, and read at its place.
pub fn elements_or_none<E: Element + Drop, T: Trail>(
    alloc: Global,
    size: Size,
    most: usize,
    members: &mut JsonObject,
    name: &str,
    trail: &mut T,
) -> Result<Chain<E>, MapFault>
    requires size { size.width * size.height ≤ MAX_CELLS }
    requires few { most ≤ MAX_OBJECTS }
    ensures value { Gives result
        (absent_means [] (elements_at most (E.reads size)) (get_member name.now members.old)) }
    ensures left { members.new ≡ without name.now members.old }
{
    let found = match members.enter(name, trail) {
        Some(value) => elements::<E, Chain<E>, T>(alloc, size, most, value, trail)?,
        None => Chain::new(alloc),
    };
    trail.leave();
    Ok(found)
}
