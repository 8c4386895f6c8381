// Which lines an editor reads, by C's numbers.
ghost use Rattle.std.specs.Prelude.{◌≡◌};
ghost use Rattle.roskevad_c.specs.Dialects.{dialect_at};

use document_lines::{Dialect, Fractions};

/// The dialect of a number. `include/roskevad.h` gives out the same ones, which are fixed for callers that are built already.
pub fn dialect_of(number: usize) -> Option<Dialect>
    ensures { result ≡ dialect_at number }
{
    match number {
        0 => Some(Dialect::Plain),
        1 => Some(Dialect::AllEdits(Fractions::Refused)),
        2 => Some(Dialect::AllEdits(Fractions::SetAside)),
        _ => None,
    }
}
