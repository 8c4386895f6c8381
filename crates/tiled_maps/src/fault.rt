ghost use Rattle.std.specs.Prelude.{◌≡◌};
ghost use Rattle.tiled_maps.specs.declared.fault.Fault.TheVariants.{Memory};
ghost use Rattle.tiled_maps.specs.Trees.{fault_of};

use std::alloc::AllocError;

/// Why no text is given for the bytes of a map.
#[derive(Clone, Copy, Debug, PartialEq, Eq)]
pub enum Fault {
    /// Out of memory.
    Memory,
    /// The bytes are no JSON in UTF-8, nest deeper than 127, or have a number too great for a 64-bit float.
    NotJson,
    /// A member has the name `roskevad` or `roskevad_packed`.
    NameTaken,
    /// The map has more than 200,000 fractions.
    TooManyFractions,
    /// The text that would be given nests deeper than 127.
    TooDeep,
    /// A chunk of an infinite map has no place or size, lies past 2^31 cells, or has not a whole number for each cell.
    BadChunk,
    /// Two chunks of a layer overlap.
    Overlap,
    /// The packed layers, or those of the map made finite, have more than 16,777,216 cells in all.
    TooLarge,
    /// Made finite, the map would not come back as it was: a chunk has members of its own, or a layer has chunks and data.
    Unlike,
}

impl Fault {
    /// The reason in words.
    pub fn words(self) -> &'static str {
        match self {
            Fault::Memory => "out of memory",
            Fault::NotJson => "not JSON",
            Fault::NameTaken => "a member has a reserved name, \"roskevad\" or \"roskevad_packed\"",
            Fault::TooManyFractions => "it has more than 200,000 fractions",
            Fault::TooDeep => "set aside or put back, it would nest deeper than 127",
            Fault::BadChunk =>
                "a chunk has no place, no size, or not a cell for each of its places",
            Fault::Overlap => "two chunks of a layer overlap",
            Fault::TooLarge => "its layers have more than 16,777,216 cells",
            Fault::Unlike => "made finite, it would not come back as it was",
        }
    }
}

impl From<AllocError> for Fault {
    ghost from_gives = { λ _ e. e ≡ Memory };

    fn from(_error: AllocError) -> Fault {
        Fault::Memory
    }
}

impl From<infinite_maps::Fault> for Fault {
    ghost from_gives = { λ f e. e ≡ fault_of f };

    fn from(fault: infinite_maps::Fault) -> Fault {
        match fault {
            infinite_maps::Fault::Memory => Fault::Memory,
            infinite_maps::Fault::BadChunk => Fault::BadChunk,
            infinite_maps::Fault::Overlap => Fault::Overlap,
            infinite_maps::Fault::TooLarge => Fault::TooLarge,
            infinite_maps::Fault::Unlike => Fault::Unlike,
        }
    }
}
