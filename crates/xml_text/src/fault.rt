// Why a text is refused.
ghost use Rattle.std.specs.Prelude.{◌≡◌};
ghost use Rattle.xml_text.specs.declared.fault.Fault.TheVariants.{Memory};

use std::alloc::{AllocError, AllocFailed};

/// What is wrong with a text.
#[derive(Clone, Copy, PartialEq, Eq, Debug)]
pub enum Flaw {
    /// The bytes are not UTF-8.
    NotUtf8,
    /// A character that no XML may hold: a control character, U+FFFE or U+FFFF.
    ControlCharacter,
    /// An XML declaration that is not of version 1.0, or is spelled wrong.
    BadDeclaration,
    /// A declaration that names another encoding than UTF-8.
    OtherEncoding,
    /// A DOCTYPE with a subset of its own, or spelled wrong.
    BadDoctype,
    /// A comment that holds `--`, or does not end.
    BadComment,
    /// A processing instruction whose name begins with `xml`, or that does not end.
    BadInstruction,
    /// No name where one must stand.
    NoName,
    /// A tag that does not end as one.
    BadTag,
    /// An attribute with no `=`, no quotes, or a `<` in its value.
    BadAttribute,
    /// An element has two attributes of one name.
    AttributeTwice,
    /// An element has more than 256 attributes.
    TooManyAttributes,
    /// A reference that is none of the five entities, nor one to a character.
    BadReference,
    /// A CDATA section that does not end.
    BadCdata,
    /// `]]>` in a text.
    CdataEnd,
    /// The end tag of another element.
    WrongEnd,
    /// An element that does not end.
    NoEnd,
    /// Elements that nest deeper than 64.
    TooDeep,
    /// Something before the root that may not stand there, or no root.
    NoRoot,
    /// Something behind the root.
    BehindRoot,
}

/// Why a text is not read.
#[derive(Clone, Copy, PartialEq, Eq, Debug)]
pub enum Fault {
    /// Out of memory.
    Memory,
    /// The text has a flaw, at this byte.
    Flawed(Flaw, usize),
}

impl From<AllocError> for Fault {
    ghost from_gives = { λ _ e. e ≡ Memory };

    fn from(_error: AllocError) -> Fault {
        Fault::Memory
    }
}

impl<T: Drop> From<AllocFailed<T>> for Fault {
    ghost from_gives = { λ _ e. e ≡ Memory };

    fn from(_error: AllocFailed<T>) -> Fault {
        Fault::Memory
    }
}
