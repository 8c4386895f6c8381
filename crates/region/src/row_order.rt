ghost use Rattle.std.specs.Prelude.{◌≡◌};
ghost use Rattle.std.specs.Iterator.{YieldsFirst, item_count};

use crate::runs::Run;
use crate::stored::StoredRun;
use std::marker::Model;

/// The runs of a region that are left to visit, in row order.
#[derive(Drop)]
pub struct Rows<'a> {
    runs: &'a [StoredRun],
}

impl<'a> Model for Rows<'a> {
    ghost use Rattle.std.specs.Prelude.{List};
    ghost use Rattle.region.specs.declared.runs.Run.{Run as RunOf};

    ghost Value = { List RunOf };

    ghost view = { λ a. a.runs.now };
}

impl<'a> Rows<'a> {
    pub(crate) fn over(runs: &'a [StoredRun]) -> Rows<'a>
        ensures { result ≡ runs.entry.now }
    {
        Rows { runs }
    }
}

impl<'a> Iterator for Rows<'a> {
    type Item = Run;

    ghost next_gives = { YieldsFirst (λ s. s) };

    ghost remaining = { item_count (λ s. s) };

    fn next(&mut self) -> Option<Run> {
        let (first, others) = self.runs.split_first()?;
        self.runs = others;
        Some(first.run())
    }
}
