ghost use Rattle.std.specs.Prelude.{◌≡◌, ◌≤◌, ℕ, List, length, string_bytes};
ghost use Rattle.session.specs.declared.limits.TheConstants.{MAX_FILE_NAME};

use std::marker::Model;

/// A text of a line, borrowed from it.
#[derive(Drop)]
pub struct Text<'a> {
    text: &'a str,
}

impl<'a> Model for Text<'a> {
    ghost Value = { List ℕ };

    ghost view = { λ t. t.text.now };
}

impl<'a> Text<'a> {
    pub fn new(text: &'a str) -> Text<'a>
        ensures { result ≡ text.now }
    {
        Text { text }
    }

    pub fn as_str(&self) -> &'a str
        ensures { result.now ≡ self.now }
    {
        self.text
    }
}

/// The name of a file: at most `MAX_FILE_NAME` bytes.
#[derive(Drop)]
pub struct FileName {
    name: String,
}

impl Model for FileName {
    ghost Value = { List ℕ };

    ghost view = { λ f. string_bytes f.name };

    ghost invariant = { λ f. length (string_bytes f.name) ≤ MAX_FILE_NAME };
}

impl FileName {
    /// The name that a string is.
    pub fn new(name: String) -> FileName
        requires { length (string_bytes name) ≤ MAX_FILE_NAME }
        ensures { result ≡ string_bytes name }
    {
        FileName { name }
    }

    /// The name.
    pub fn as_str(&self) -> &str
        ensures name { result.now ≡ self.now }
        ensures short { length result.now ≤ MAX_FILE_NAME }
    {
        self.name.as_str()
    }
}

/// The text of a map, which is long and goes from one call to the next without a copy.
#[derive(Drop)]
pub struct MapBytes {
    bytes: Vec<u8>,
}

impl Model for MapBytes {
    ghost Value = { List ℕ };

    ghost view = { λ m. m.bytes.items };
}

impl MapBytes {
    pub fn new(bytes: Vec<u8>) -> MapBytes
        ensures { result ≡ bytes.items }
    {
        MapBytes { bytes }
    }

    pub fn as_slice(&self) -> &[u8]
        ensures { result.now ≡ self.now }
    {
        self.bytes.as_slice()
    }
}
