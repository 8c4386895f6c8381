ghost use Rattle.std.specs.Prelude.{◌≡◌};
ghost use Rattle.std.specs.IoError.{error_kind};

use arrayvec::ArrayString;
use std::fmt::{Display, Formatter, Write};
use std::io::ErrorKind;
use std::{fmt, io};

/// Room for the system's words and their number.
const ROOM: usize = 256;

/// Why the system refused, in its own words and without their number: `Permission denied`, and not
/// `Permission denied (os error 13)`. What is no file was refused before the system was asked.
#[derive(Debug, Drop)]
pub struct Reason {
    error: io::Error,
}

impl Reason {
    /// The reason of an error.
    pub fn of(error: io::Error) -> Reason {
        Reason { error }
    }

    /// The kind of the error.
    pub fn kind(&self) -> ErrorKind
        ensures { result ≡ error_kind self.now.error }
    {
        self.error.kind()
    }
}

impl Display for Reason {
    fn fmt<W: Write>(&self, f: &mut Formatter<W>) -> fmt::Result {
        let error = &self.error;
        let mut words = ArrayString::<ROOM>::new();
        write!(words, "{error}")?;
        match words.as_str().split_once(" (os error ") {
            Some((reason, _)) => f.pad(reason),
            None if error.kind() == ErrorKind::InvalidInput => f.pad("not a file"),
            None => f.pad(words.as_str()),
        }
    }
}
