//! Why a map could not be read.

ghost use Rattle.std.specs.Prelude.{◌≡◌};
ghost use Rattle.map_values.specs.declared.fault.MapFault.TheVariants.{Memory, Refused};

use refusals::{MapRefusal, Refusal};
use std::alloc::{AllocError, AllocFailed};

/// Why a file gave no map: out of memory, or what is wrong with it.
#[derive(Clone, Copy, PartialEq, Eq, Debug)]
pub enum MapFault {
    Memory,
    Refused(MapRefusal),
}

impl From<AllocError> for MapFault {
    ghost from_gives = { λ _ e. e ≡ Memory };

    fn from(_error: AllocError) -> MapFault {
        MapFault::Memory
    }
}

impl<T: Drop> From<AllocFailed<T>> for MapFault {
    ghost from_gives = { λ _ e. e ≡ Memory };

    fn from(_error: AllocFailed<T>) -> MapFault {
        MapFault::Memory
    }
}

impl From<MapRefusal> for MapFault {
    ghost from_gives = { λ r e. e ≡ Refused r };

    fn from(refusal: MapRefusal) -> MapFault {
        MapFault::Refused(refusal)
    }
}

impl From<MapFault> for Refusal {
    ghost use Rattle.map_values.specs.Refusals.{refusal_of_map};

    ghost from_gives = { λ fault refusal. refusal ≡ refusal_of_map fault };

    fn from(fault: MapFault) -> Refusal {
        match fault {
            MapFault::Memory => Refusal::NoMemory,
            MapFault::Refused(refusal) => Refusal::Map(refusal),
        }
    }
}
