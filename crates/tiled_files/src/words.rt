// What is wrong with XML, in words.
use tmx_maps::{Fault, Flaw, Refusal};

fn flaw_words(flaw: Flaw) -> &'static str {
    match flaw {
        Flaw::NotUtf8 => "no XML in UTF-8",
        Flaw::ControlCharacter => "a character that XML forbids",
        Flaw::BadDeclaration => "its XML declaration is not of version 1.0, or is spelled wrong",
        Flaw::OtherEncoding => "its encoding is not UTF-8",
        Flaw::BadDoctype =>
            "a DOCTYPE with a subset or a public name, or one that is spelled wrong",
        Flaw::BadComment => "a comment with \"--\" in it, or with no end",
        Flaw::BadInstruction => "a processing instruction named \"xml\", or with no end",
        Flaw::NoName => "a name is missing",
        Flaw::BadTag => "a tag is spelled wrong",
        Flaw::BadAttribute => "an attribute is spelled wrong",
        Flaw::AttributeTwice => "an element has an attribute twice",
        Flaw::TooManyAttributes => "an element has more than 256 attributes",
        Flaw::BadReference => "an entity that is none of the five, or no character",
        Flaw::BadCdata => "a CDATA section with no end",
        Flaw::CdataEnd => "\"]]>\" in a text",
        Flaw::WrongEnd => "the end tag of another element",
        Flaw::NoEnd => "an element with no end",
        Flaw::TooDeep => "elements nest deeper than 64",
        Flaw::NoRoot => "there is no element, or something stands before it",
        Flaw::BehindRoot => "something stands behind its root",
    }
}

fn refusal_words(refusal: Refusal) -> &'static str {
    match refusal {
        Refusal::NotAMap => "its root is no map",
        Refusal::NotATileset => "its root is no tileset",
        Refusal::Orientation => "its orientation is none that Tiled knows",
        Refusal::DrawOrder => "an object layer has a draw order that Tiled does not know",
        Refusal::NotFinite => "a number is infinite, or none",
        Refusal::Encoding => "the data of a layer are in a format that Tiled does not know",
        Refusal::Cells =>
            "the data of a layer are not a number for each cell, or are more than 16,777,216",
        Refusal::Chunks => "a layer has chunks, and the map is not infinite",
        Refusal::NoChunks => "a layer has cells in no chunk, and the map is infinite",
        Refusal::Corners => "the corners of an object are no pairs of numbers",
        Refusal::PropertyType => "a property has a type that Tiled does not know",
        Refusal::NoIdLeft => "no id is left for a layer or an object without one",
        Refusal::OldTileset =>
            "a tileset in the map has terrains or old wang sets, or no count of tiles",
        Refusal::WangId => "a tile of a wang set has not eight colors",
        Refusal::TooDeep => "groups or classes nest too deep",
    }
}

/// Why a map in XML is not read, or not written, in words.
pub fn xml_words(fault: Fault) -> &'static str {
    match fault {
        Fault::Memory => "out of memory",
        Fault::NotXml(flaw, _) => flaw_words(flaw),
        Fault::NotAMap(refusal) => refusal_words(refusal),
        Fault::NotJson => "not JSON",
        Fault::NoTmx => "it has what XML can't say: save it as JSON, or undo that",
    }
}
