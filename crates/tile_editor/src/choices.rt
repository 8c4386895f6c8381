// A module of its own, since a type and a function whose names differ in case alone may not stand in one module.

/// What a command line asks for.
#[derive(Clone, Copy, Debug, PartialEq, Eq)]
pub struct Options<'a> {
    /// The folder of the files, as it was given; not empty.
    pub folder: &'a str,
    /// The undo limit of each document when it is made; 0 is no limit.
    pub limit: usize,
    /// Whether the first refused line ends the program, and unsaved changes are a failure.
    pub is_strict: bool,
    /// Whether packed maps, infinite ones and maps with fractions are opened, too.
    pub opens_all_maps: bool,
    /// Whether the lines for all edits are read, too.
    pub does_all_edits: bool,
}
