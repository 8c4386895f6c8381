use fractions::Fractions;

/// Which lines an editor reads.
#[derive(Clone, Copy, PartialEq, Eq, Debug)]
pub enum Dialect {
    /// Those that `parse_line` reads.
    Plain,
    /// Those for all edits too, which `parse_more_line` reads, with what becomes of a number in them that is not whole.
    AllEdits(Fractions),
}
