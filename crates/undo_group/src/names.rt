ghost use Rattle.std.specs.Prelude.{◌≡◌, length, map};
ghost use Rattle.std.specs.Iterator.{YieldsFirstRef, item_count};
ghost use Rattle.std.specs.String.{string_bytes};
ghost use Rattle.undo_group.specs.Order.{AreAmong, in_order};

use std::marker::Model;

/// The names that are left to visit, in order of opening.
#[derive(Drop)]
pub struct Names<'a> {
    // The numbers of their documents.
    left: &'a [usize],
    // The name of the document with each number.
    names: &'a [String],
}

impl<'a> Model for Names<'a> {
    ghost use Rattle.std.specs.Prelude.{ℕ, List, length, map};
    ghost use Rattle.std.specs.String.{string_bytes};
    ghost use Rattle.undo_group.specs.Order.{AreAmong, in_order};

    ghost Value = { List (List ℕ) };

    ghost view = { λ a. map string_bytes (in_order a.names.now a.left.now) };

    ghost invariant = { λ a. AreAmong a.left.now (length a.names.now) };
}

impl<'a> Names<'a> {
    pub(crate) fn over(left: &'a [usize], names: &'a [String]) -> Names<'a>
        requires { AreAmong left.now (length names.now) }
        ensures { result ≡ map string_bytes (in_order names.entry.now left.entry.now) }
    {
        Names { left, names }
    }
}

impl<'a> Iterator for Names<'a> {
    type Item = &'a str;

    ghost next_gives = { YieldsFirstRef (λ s. s) };

    ghost remaining = { item_count (λ s. s) };

    fn next(&mut self) -> Option<&'a str> {
        let (first, others) = self.left.split_first()?;
        self.left = others;
        Some(self.names[*first].as_str())
    }
}
