ghost use Rattle.std.specs.Prelude.{◌≡◌, ◌≤◌, length};
ghost use Rattle.refusals.specs.Words.{edit_words};

use crate::refusal::NO_MEMORY;

/// Why an edit is refused, or a line that names a layer, a cell, a step or a size without being one. The document is then as it was.
#[derive(Clone, Copy, PartialEq, Eq, Debug)]
pub enum EditFault {
    /// The map has no layer with the id.
    NoSuchLayer,
    /// The layer is not of the kind that the edit needs.
    LayerOfAnotherKind,
    /// The cell lies outside the map.
    OutsideTheMap,
    /// A value other than 0 has no tileset.
    UnknownTile,
    /// The map has no object with the id.
    NoSuchObject,
    /// The owner has no property with the name.
    NoSuchProperty,
    /// The map has no tileset with the first id.
    NoSuchTileset,
    /// A cell or an object has the tileset.
    TilesetInUse,
    /// The first id of a new tileset is not above all others.
    FirstIdNotAbove,
    /// A place, a size, a coordinate, a first id, the number of a step or an undo limit is not within its limits.
    OutOfRange,
    /// There are as many as there may be, or there is no further id.
    TooMany,
    /// A growth was refused.
    NoMemory,
}

impl EditFault {
    /// Its number and its words.
    pub fn words(self) -> &'static str
        ensures value { result.now ≡ edit_words self }
        ensures short { length result.now ≤ 100 }
    {
        match self {
            EditFault::NoSuchLayer => "30 no such layer",
            EditFault::LayerOfAnotherKind => "31 layer of another kind",
            EditFault::OutsideTheMap => "32 outside the map",
            EditFault::UnknownTile => "33 unknown tile",
            EditFault::NoSuchObject => "34 no such object",
            EditFault::NoSuchProperty => "35 no such property",
            EditFault::NoSuchTileset => "36 no such tileset",
            EditFault::TilesetInUse => "37 tileset in use",
            EditFault::FirstIdNotAbove => "38 first id not above the others",
            EditFault::OutOfRange => "39 out of range",
            EditFault::TooMany => "40 too many",
            EditFault::NoMemory => NO_MEMORY,
        }
    }
}
