// The tree of a map as it is set aside, and as it is put back.
ghost use Rattle.std.specs.Prelude.{◌≡◌, IfOk, IfErr, not};
ghost use Rattle.serde_json.specs.View.{view as data_of};
ghost use Rattle.tiled_maps.specs.declared.fault.Fault.TheVariants.{Memory};
ghost use Rattle.fractions.specs.declared.place.Place.TheVariants as place;
ghost use Rattle.fractions.specs.Fractions.{has_fraction};
ghost use Rattle.tiled_maps.specs.Trees.{MakesWhole, MakesFinite, spread_of};

use crate::fault::Fault;
use crate::shape::is_within;
use fractions::{Place, aside, has_fraction};
use infinite_maps::{made_finite, made_infinite};
use serde_json::Value;
use std::alloc::Global;

/// How deep a JSON text may nest.
pub const MAX_DEPTH: u8 = 127;

// A map with its fractions set aside, if it does not nest too deep then.
fn whole_of(alloc: Global, value: &Value) -> Result<Value, Fault>
    ensures { MakesWhole (data_of value.now) result }
{
    let whole = aside(alloc, Place::Map, value)?;
    if is_within(MAX_DEPTH, &whole) {
        Ok(whole)
    } else {
        Err(Fault::TooDeep)
    }
}

/// A map with its fractions set aside, which is the map itself if it is whole.
pub fn whole(alloc: Global, is_whole: bool, value: Value) -> Result<Value, Fault>
    requires { is_whole ≡ not (has_fraction place.Map (data_of value)) }
    ensures { MakesWhole (data_of value) result }
{
    if is_whole {
        return Ok(value);
    }
    whole_of(alloc, &value)
}

/// The finite map of a map without fractions, if that is infinite.
pub fn finite(alloc: Global, whole: &Value) -> Result<Option<Value>, Fault>
    ensures { MakesFinite (data_of whole.now) result }
{
    match made_finite(alloc, whole)? {
        Some(finite) => if has_fraction(Place::Map, &finite) {
            Err(Fault::Unlike)
        } else if is_within(MAX_DEPTH, &finite) {
            Ok(Some(finite))
        } else {
            Err(Fault::TooDeep)
        },
        None => Ok(None),
    }
}

/// The infinite map that a map was, or the map itself. No fault comes but that of memory.
pub fn infinite(alloc: Global, value: Value) -> Result<Value, Fault>
    ensures map { IfOk result (λ map. data_of map ≡ spread_of (data_of value)) }
    ensures memory { IfErr result (λ fault. fault ≡ Memory) }
{
    match made_infinite(alloc, &value)? {
        Some(map) => Ok(map),
        None => Ok(value),
    }
}
