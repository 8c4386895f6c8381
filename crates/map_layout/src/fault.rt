//! Why no text is laid out.

ghost use Rattle.std.specs.Prelude.{◌≡◌};
ghost use Rattle.map_layout.specs.declared.fault.LayoutFault.TheVariants.{Memory};

use std::alloc::{AllocError, AllocFailed};

/// Why no text is laid out.
#[derive(Clone, Copy, Debug, PartialEq, Eq)]
pub enum LayoutFault {
    /// Out of memory.
    Memory,
    /// The text is no JSON in UTF-8, or has a number too great for a 64-bit float.
    NotJson,
    /// Arrays and objects of the text nest deeper than 127.
    TooDeep,
}

impl From<AllocError> for LayoutFault {
    ghost from_gives = { λ _ e. e ≡ Memory };

    fn from(_error: AllocError) -> LayoutFault {
        LayoutFault::Memory
    }
}

impl<T: Drop> From<AllocFailed<T>> for LayoutFault {
    ghost from_gives = { λ _ e. e ≡ Memory };

    fn from(_error: AllocFailed<T>) -> LayoutFault {
        LayoutFault::Memory
    }
}
