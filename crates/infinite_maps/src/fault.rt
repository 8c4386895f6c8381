//! Why a map could not be made finite or infinite.

ghost use Rattle.std.specs.Prelude.{◌≡◌};
ghost use Rattle.infinite_maps.specs.declared.fault.Fault.TheVariants.{Memory};

use std::alloc::{AllocError, AllocFailed};

/// Why a map could not be made finite or infinite.
#[derive(Clone, Copy, PartialEq, Eq, Debug)]
pub enum Fault {
    /// Out of memory.
    Memory,
    /// A chunk has no place or size, or lies past 2^31 cells, or, in a layer whose data are not compressed, has not a whole number
    /// for each of its cells; or the chunks of a layer are no list.
    BadChunk,
    /// Two chunks of a layer whose data are not compressed share a cell.
    Overlap,
    /// The finite map is within the limits, but its layers would have more than 16,777,216 cells in all.
    TooLarge,
    /// The finite map would not come back as the map that it was made from.
    Unlike,
}

impl From<AllocError> for Fault {
    ghost from_gives = { λ _ e. e ≡ Memory };

    fn from(_error: AllocError) -> Fault {
        Fault::Memory
    }
}

impl<T: Drop> From<AllocFailed<T>> for Fault {
    ghost from_gives = { λ _ e. e ≡ Memory };

    fn from(_error: AllocFailed<T>) -> Fault {
        Fault::Memory
    }
}
