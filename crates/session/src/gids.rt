ghost use Rattle.std.specs.Prelude.{◌≡◌, ℕ, List, [], Some, unwrap_or, length};
ghost use Rattle.session.specs.Words.{numbers_of, all_numbers, pieces_left};
ghost use Rattle.std.specs.Iterator.{YieldsFirst, item_count};

use crate::words::number_before;
use std::marker::Model;
use tile_id::Gid;

/// Tile values joined by commas, borrowed from a line.
#[derive(Drop)]
pub struct Gids<'a> {
    word: &'a str,
    len: usize,
}

impl<'a> Model for Gids<'a> {
    ghost Value = { List ℕ };

    ghost view = { λ g. unwrap_or (numbers_of g.word.now) [] };

    ghost invariant = { λ g. (numbers_of g.word.now ≡ Some (unwrap_or (numbers_of g.word.now) []))
        × (g.len ≡ length (unwrap_or (numbers_of g.word.now) [])) };
}

impl<'a> Gids<'a> {
    /// The values that a word is.
    #[inline(always)]
    #[tactic(auto, unfolding(crate::specs::Words::numbers_of))]
    pub(crate) fn of_word(word: &'a str) -> Option<Gids<'a>>
        ensures { result ≡ numbers_of word.now }
    {
        let mut rest = Some(word);
        let mut len: usize = 0;
        while let Some(text) = rest {
            let (_, others) = number_before(text, b',')?;
            len += 1;
            rest = others;
        }
        Some(Gids { word, len })
    }

    /// How many there are.
    pub fn len(&self) -> usize
        ensures { result ≡ length self.now }
    {
        self.len
    }

    /// The values, in order. They are read from the line as they are asked for.
    #[tactic(auto, unfolding(crate::specs::Words::numbers_of))]
    pub fn values(&self) -> Values<'a>
        ensures { result ≡ self.now }
    {
        Values {
            rest: Some(self.word),
        }
    }
}

/// The values that are left.
#[derive(Drop)]
pub struct Values<'a> {
    rest: Option<&'a str>,
}

impl<'a> Model for Values<'a> {
    ghost Value = { List ℕ };

    ghost view = { λ v. unwrap_or (all_numbers (pieces_left 44 v.rest)) [] };

    ghost invariant = { λ v. all_numbers (pieces_left 44 v.rest)
        ≡ Some (unwrap_or (all_numbers (pieces_left 44 v.rest)) []) };
}

impl<'a> Iterator for Values<'a> {
    type Item = Gid;

    ghost next_gives = { YieldsFirst (λ v. v) };

    ghost remaining = { item_count (λ v. v) };

    fn next(&mut self) -> Option<Gid> {
        let rest = self.rest?;
        let (value, others) = number_before(rest, b',')?;
        self.rest = others;
        Some(Gid(value))
    }
}
