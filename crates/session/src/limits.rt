// The limits of a line. Contracts name them too.

/// The most bytes of a line.
pub const MAX_LINE: usize = 65_535;

/// The most bytes of a document's name.
pub const MAX_DOCUMENT_NAME: usize = 64;

/// The most bytes of a file's name.
pub const MAX_FILE_NAME: usize = 100;

/// The most bytes of a text.
pub const MAX_TEXT: usize = 200;

/// The most bytes of a property's name.
pub const MAX_KEY: usize = 200;

/// The most that a coordinate is from 0.
pub const MAX_COORDINATE: u32 = 1_000_000_000;
