ghost use Rattle.std.specs.Prelude.{◌≡◌};
ghost use Rattle.session.specs.Left.{next};

use crate::limits::{MAX_COORDINATE, MAX_KEY, MAX_TEXT};
use std::fmt;
use std::fmt::{Display, Formatter, Write};

/// What a word of a line is to be, where a form wants one. It is displayed as people are told of it: `a command`.
#[derive(Clone, Copy, Debug, PartialEq, Eq)]
pub enum Expected {
    /// The first word of a line, which says what is done.
    Command,
    /// The second word, behind `select`, `layer`, `object`, `prop`, `tileset` or `member`, which says what is done with it.
    Action,
    /// A number: `0`, or digits without a zero in front, below 2^32.
    Number,
    /// A number from 1 to so many.
    NumberWithin(u32),
    /// A number or `-` and a number other than 0, at most `MAX_COORDINATE` from 0.
    Coordinate,
    /// Numbers joined by commas, which fill the rows of a block of that width.
    Tiles(u32),
    /// A name of at most so many bytes.
    Name(usize),
    /// A document's name, or `-`.
    Choice,
    /// `tile` or `object`.
    Kind,
    /// `tile`, `object`, `group` or `image`.
    AnyKind,
    /// `yes` or `no`.
    YesNo,
    /// `map`, or `layer:` or `object:` and a number.
    Owner,
    /// `map`, or `layer:`, `object:` or `tileset:` and a number.
    MemberOwner,
    /// A property's name: from 1 to `MAX_KEY` bytes, none of them a space or a control.
    Key,
    /// The type of a property.
    Type,
    /// `true` or `false`.
    Truth,
    /// `#` and 6 or 8 digits of 0-9 and a-f.
    Color,
    /// From 1 to `MAX_TEXT` bytes, none of them a control: all that is left of the line, or what stands in front of its bars.
    Text,
    /// The bars between the text of a macro and that of its action.
    Bars,
    /// A JSON text of one byte or more: all that is left of the line.
    Json,
    /// No word: the line has ended.
    End,
}

impl Display for Expected {
    fn fmt<W: Write>(&self, f: &mut Formatter<W>) -> fmt::Result {
        match self {
            Expected::Command => f.pad("a command"),
            Expected::Action => f.pad("a word that a form has there"),
            Expected::Number => f.pad("a whole number from 0 to 4294967295, with no zero in front"),
            Expected::NumberWithin(most) => write!(f, "a whole number from 1 to {most}"),
            Expected::Coordinate => write!(
                f,
                "a whole number from -{MAX_COORDINATE} to {MAX_COORDINATE}"
            ),
            Expected::Tiles(width) => write!(
                f,
                "whole numbers joined by commas, which fill rows of {width}"
            ),
            Expected::Name(most) => write!(
                f,
                "a name of 1 to {most} of A-Z a-z 0-9 _ . - that begins with neither . nor -"
            ),
            Expected::Choice => f.pad("a document's name, or -"),
            Expected::Kind => f.pad("tile or object"),
            Expected::AnyKind => f.pad("tile, object, group or image"),
            Expected::YesNo => f.pad("yes or no"),
            Expected::Owner => f.pad("map, or layer: or object: and an id"),
            Expected::MemberOwner => f.pad("map, or layer: or object: or tileset: and an id"),
            Expected::Key => write!(
                f,
                "a name of 1 to {MAX_KEY} bytes, with no space and no control character"
            ),
            Expected::Type => f.pad("string, int, bool, color, file or object"),
            Expected::Truth => f.pad("true or false"),
            Expected::Color => f.pad("# and 6 or 8 of the digits 0-9 and a-f"),
            Expected::Text => write!(
                f,
                "a text of 1 to {MAX_TEXT} bytes, with no control character"
            ),
            Expected::Bars => f.pad("|| and another text"),
            Expected::Json => f.pad("a JSON text"),
            Expected::End => f.pad("the end of the line"),
        }
    }
}

/// What is noted of a line while its words are read, from the first on. A text counts as one word.
pub trait Trail {
    ghost use Rattle.std.specs.Prelude.{ℕ};

    /// Which word was wanted last, counted from 1, or 0 where none was wanted yet.
    ghost place: { Self → ℕ };

    /// The next word is wanted, and is to be this. Each word before it is what it was to be.
    fn wants(&mut self, expected: Expected)
        ensures { place self.new ≡ next (place self.old) };
}

/// A trail that notes nothing.
#[derive(Clone, Copy)]
pub struct NoTrail;

impl Trail for NoTrail {
    // Behind the last place there is none.
    ghost place = { λ _. 4294967295 };

    #[inline(always)]
    #[tactic(auto, unfolding(crate::specs::Left::next))]
    fn wants(&mut self, _expected: Expected) {}
}

/// A trail that notes which word was wanted last, and what it was to be.
#[derive(Clone, Copy, Debug)]
pub struct LastWanted {
    /// Which word of the line it is, counted from 1, or 0 where none was wanted yet.
    pub place: u32,
    pub expected: Expected,
}

impl LastWanted {
    /// Where no word was wanted yet.
    pub fn new() -> LastWanted
        ensures { result.place ≡ 0 }
    {
        LastWanted {
            place: 0,
            expected: Expected::Command,
        }
    }
}

impl Trail for LastWanted {
    ghost place = { λ t. t.place };

    #[tactic(auto, unfolding(crate::specs::Left::next))]
    fn wants(&mut self, expected: Expected) {
        // A line of 65,536 bytes has fewer words than that.
        self.place = self.place.saturating_add(1);
        self.expected = expected;
    }
}
