ghost use Rattle.std.specs.Prelude.{◌≡◌, ◌≤◌, length};
ghost use Rattle.refusals.specs.Words.{map_words};

/// What is wrong with a file: the first fault in the order in which a file is looked at.
#[derive(Clone, Copy, PartialEq, Eq, Debug)]
pub enum MapRefusal {
    /// The bytes are not UTF-8, or no JSON text, or it nests deeper than 127, or a number is too great for a float.
    NotJson,
    /// A number that is not whole, or is `-0`, or does not fit 64 bits, stands somewhere but as the version of the map.
    Fraction,
    /// A member that must be there is absent.
    MemberMissing,
    /// A member is of another kind than it must be.
    MemberOfAnotherKind,
    /// The map is infinite.
    Infinite,
    /// The data of a layer is compressed.
    Compressed,
    /// The data of a layer is not one value for each cell of the map.
    BadData,
    /// An id, a first id, or the name of a property of one owner, is used twice.
    IdUsedTwice,
    /// A number or a list is past its limit, or an id is not below the next one.
    OverLimit,
    /// The root is no object, or its type is not the text `map`.
    NotAMap,
}

impl MapRefusal {
    /// Its number and its words.
    pub fn words(self) -> &'static str
        ensures value { result.now ≡ map_words self }
        ensures short { length result.now ≤ 100 }
    {
        match self {
            MapRefusal::NotJson => "60 not JSON",
            MapRefusal::Fraction => "61 fraction",
            MapRefusal::MemberMissing => "62 member missing",
            MapRefusal::MemberOfAnotherKind => "63 member of another kind",
            MapRefusal::Infinite => "64 infinite",
            MapRefusal::Compressed => "65 compressed",
            MapRefusal::BadData => "66 bad data",
            MapRefusal::IdUsedTwice => "67 id used twice",
            MapRefusal::OverLimit => "68 over a limit",
            MapRefusal::NotAMap => "69 not a map",
        }
    }
}
