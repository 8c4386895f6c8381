ghost use Rattle.session.specs.declared.limits.TheConstants.{MAX_DOCUMENT_NAME, MAX_FILE_NAME};
ghost use Rattle.session.specs.Grammar.{Gives, word_at, passing, rows_at, block_at, word_is, last_json_at, last_text_at, last_texts_at, ends_at};
ghost use Rattle.refusals.specs.declared.line_fault.LineFault.TheVariants.{BadWord};
ghost use Rattle.std.specs.Prelude.{◌≡◌, ◌∷◌, [], IfOk, IfErr, if◌then◌else◌};
ghost use Rattle.session.specs.Words.{words_left, are_rows, choice_of, coordinate_of, is_name, is_text, number_of};
ghost use Rattle.session.specs.Grammar.{Block};
ghost use Rattle.session.specs.Left.{field_fault, is_side, next, texts_fault};

use crate::gids::Gids;
use crate::limits::{MAX_DOCUMENT_NAME, MAX_FILE_NAME};
use crate::text::Text;
use crate::trail::{Expected, Trail};
use crate::words::{
    are_texts_here, coordinate_before, cut, cut_at_bars, cut_long, is_name_word, is_text_here,
    number_before, short_coordinate_before,
};
use map_model::limits::MAX_SIDE;
use refusals::LineFault;
use std::marker::Model;

/// Whether so many values are the rows of a block of that width.
fn are_rows_of(width: u32, count: usize) -> bool
    ensures { result ≡ are_rows width count }
{
    if width == 0 || width > MAX_SIDE {
        return false;
    }
    count % width as usize == 0
}

// Where the text in front of the bars can be one, the one behind them is wanted.
fn wants_action<T: Trail>(trail: &mut T, text: &str)
    ensures { T.place trail.new ≡ (if is_text text.now then next (next (T.place trail.old)) else T.place trail.old) }
{
    if is_text_here(text.as_bytes()) {
        trail.wants(Expected::Bars);
        trail.wants(Expected::Text);
    }
}

/// The fields of a line that are still to be read, seen as its words and the place of the word that was wanted last.
#[derive(Drop)]
pub struct Fields<'a, T: Trail + Copy> {
    trail: T,
    // What is left of the line, behind a space.
    rest: Option<&'a str>,
}

impl<'a, T: Trail + Copy> Model for Fields<'a, T> {
    ghost use Rattle.std.specs.Prelude.{⊤};
    ghost use Rattle.session.specs.Left.{Left, left_code};
    ghost use Rattle.session.specs.Words.{words_left};

    ghost Value = { Left };

    ghost coded = { left_code };

    ghost view = { λ a. record { words = words_left a.rest; place = T.place a.trail } };

    ghost invariant = { λ a. ⊤ };
}

impl<'a, T: Trail + Copy> Fields<'a, T> {
    /// The fields of a line that is not begun yet.
    pub fn new(trail: T) -> Fields<'a, T>
        ensures { result.place ≡ T.place trail }
    {
        Fields { trail, rest: None }
    }

    /// Begins with what a line has behind its first word.
    #[inline(always)]
    pub fn begin(&mut self, rest: Option<&'a str>)
        ensures words { self.new.words ≡ words_left rest.entry }
        ensures place { self.new.place ≡ next self.old.place }
    {
        self.trail.wants(Expected::Command);
        self.rest = rest;
    }

    /// The trail as it stands.
    pub fn trail(&self) -> T
        ensures { T.place result ≡ self.now.place }
    {
        self.trail
    }

    /// A word, and what it is to be.
    #[inline(always)]
    pub fn word(&mut self, expected: Expected) -> Result<&'a str, LineFault>
        ensures ok { IfOk result (λ word. self.old.words ≡ word.now ∷ self.new.words) }
        ensures err { IfErr result (λ fault. (fault ≡ BadWord) × (self.old.words ≡ [])) }
        ensures place { self.new.place ≡ next self.old.place }
    {
        self.trail.wants(expected);
        self.next_word()
    }

    // A word, of which the trail is told already.
    fn next_word(&mut self) -> Result<&'a str, LineFault>
        ensures ok { IfOk result (λ word. self.old.words ≡ word.now ∷ self.new.words) }
        ensures err { IfErr result (λ fault. (fault ≡ BadWord) × (self.old.words ≡ [])) }
        ensures place { self.new.place ≡ self.old.place }
    {
        let Some(rest) = self.rest else {
            return Err(LineFault::BadWord);
        };
        let (word, rest) = cut(rest, b' ');
        self.rest = rest;
        Ok(word)
    }

    // The word of a block's values, which may be long, and of which the trail is told already.
    fn next_values(&mut self) -> Result<&'a str, LineFault>
        ensures ok { IfOk result (λ word. self.old.words ≡ word.now ∷ self.new.words) }
        ensures err { IfErr result (λ fault. (fault ≡ BadWord) × (self.old.words ≡ [])) }
        ensures place { self.new.place ≡ self.old.place }
    {
        let Some(rest) = self.rest else {
            return Err(LineFault::BadWord);
        };
        let (word, rest) = cut_long(rest, b' ');
        self.rest = rest;
        Ok(word)
    }

    // A number, and what else it is to be.
    #[inline(always)]
    #[tactic(auto, unfolding(crate::specs::Grammar::word_at))]
    fn number_as(&mut self, expected: Expected) -> Result<u32, LineFault>
        ensures value { Gives (λ x. (x, self.new.words)) result (word_at number_of self.old.words) }
        ensures place { self.new.place ≡ next self.old.place }
    {
        self.trail.wants(expected);
        let Some(rest) = self.rest else {
            return Err(LineFault::BadWord);
        };
        let Some((number, rest)) = number_before(rest, b' ') else {
            return Err(LineFault::BadWord);
        };
        self.rest = rest;
        Ok(number)
    }

    /// A number.
    #[inline(always)]
    pub fn number(&mut self) -> Result<u32, LineFault>
        ensures value { Gives (λ x. (x, self.new.words)) result (word_at number_of self.old.words) }
        ensures place { self.new.place ≡ next self.old.place }
    {
        self.number_as(Expected::Number)
    }

    // A coordinate, of which the trail is told already.
    #[inline(never)]
    #[tactic(auto, unfolding(crate::specs::Grammar::word_at))]
    fn any_coordinate(&mut self) -> Result<i32, LineFault>
        ensures value { Gives (λ x. (x, self.new.words)) result (word_at coordinate_of self.old.words) }
        ensures place { self.new.place ≡ self.old.place }
    {
        let Some(rest) = self.rest else {
            return Err(LineFault::BadWord);
        };
        let Some((coordinate, rest)) = coordinate_before(rest) else {
            return Err(LineFault::BadWord);
        };
        self.rest = rest;
        Ok(coordinate)
    }

    /// A coordinate.
    // (its code stands once, and not at each place of the loop that wants one)
    #[inline(never)]
    #[tactic(auto, unfolding(crate::specs::Grammar::word_at))]
    pub fn coordinate(&mut self) -> Result<i32, LineFault>
        ensures value { Gives (λ x. (x, self.new.words)) result (word_at coordinate_of self.old.words) }
        ensures place { self.new.place ≡ next self.old.place }
    {
        self.trail.wants(Expected::Coordinate);
        // Nearly all coordinates are short. The call of the other way stands last, so that this one needs no frame.
        if let Some(rest) = self.rest {
            if let Some((coordinate, rest)) = short_coordinate_before(rest) {
                self.rest = rest;
                return Ok(coordinate);
            }
        }
        self.any_coordinate()
    }

    // The values of a block of that width.
    #[tactic(auto, unfolding(crate::specs::Grammar::rows_at))]
    fn rows(&mut self, width: u32) -> Result<Gids<'a>, LineFault>
        ensures value { Gives (λ x. ((width, x), self.new.words)) result (rows_at width self.old.words) }
        ensures place { self.new.place ≡ (if is_side width then next self.old.place else self.old.place) }
    {
        // No values fit a width that is out of range: then the width stays the word that was wanted last.
        if width >= 1 && width <= MAX_SIDE {
            self.trail.wants(Expected::Tiles(width));
        }
        let word = self.next_values()?;
        let Some(values) = Gids::of_word(word) else {
            return Err(LineFault::BadWord);
        };
        if !are_rows_of(width, values.len()) {
            return Err(LineFault::BadWord);
        }
        Ok(values)
    }

    /// The width of a block, and its values.
    #[tactic(auto, unfolding(crate::specs::Grammar::block_at))]
    pub fn block(&mut self) -> Result<(u32, Gids<'a>), LineFault>
        ensures value { Gives (λ x. (x, self.new.words)) result (block_at self.old.words) }
        ensures place { IfOk result (λ _. self.new.place ≡ next (next self.old.place)) }
        ensures fault { IfErr result (λ _. self.new.place ≡ field_fault Block (next self.old.place) self.old.words) }
    {
        let width = self.number_as(Expected::NumberWithin(MAX_SIDE))?;
        let values = self.rows(width)?;
        Ok((width, values))
    }

    // A name of at most so many bytes.
    #[tactic(auto, unfolding(crate::specs::Grammar::word_at))]
    fn name(&mut self, limit: usize) -> Result<Text<'a>, LineFault>
        ensures value { Gives (λ x. (x, self.new.words)) result (word_at (passing (is_name limit)) self.old.words) }
        ensures place { self.new.place ≡ next self.old.place }
    {
        let word = self.word(Expected::Name(limit))?;
        if !is_name_word(limit, word.as_bytes()) {
            return Err(LineFault::BadWord);
        }
        Ok(Text::new(word))
    }

    /// A document's name.
    pub fn document_name(&mut self) -> Result<Text<'a>, LineFault>
        ensures value { Gives (λ x. (x, self.new.words)) result (word_at (passing (is_name MAX_DOCUMENT_NAME)) self.old.words) }
        ensures place { self.new.place ≡ next self.old.place }
    {
        self.name(MAX_DOCUMENT_NAME)
    }

    /// A file's name.
    pub fn file_name(&mut self) -> Result<Text<'a>, LineFault>
        ensures value { Gives (λ x. (x, self.new.words)) result (word_at (passing (is_name MAX_FILE_NAME)) self.old.words) }
        ensures place { self.new.place ≡ next self.old.place }
    {
        self.name(MAX_FILE_NAME)
    }

    /// A document's name, or `-` for none.
    #[inline(never)]
    #[tactic(auto, unfolding(crate::specs::Grammar::word_at))]
    pub fn choice(&mut self) -> Result<Option<Text<'a>>, LineFault>
        ensures value { Gives (λ x. (x, self.new.words)) result (word_at choice_of self.old.words) }
        ensures place { self.new.place ≡ next self.old.place }
    {
        let word = self.word(Expected::Choice)?;
        if word == "-" {
            return Ok(None);
        }
        if !is_name_word(MAX_DOCUMENT_NAME, word.as_bytes()) {
            return Err(LineFault::BadWord);
        }
        Ok(Some(Text::new(word)))
    }

    /// The JSON text that is left.
    pub fn json(&mut self) -> Result<Text<'a>, LineFault>
        ensures value { Gives (λ x. x) result (last_json_at self.old.words) }
        ensures place { self.new.place ≡ next self.old.place }
    {
        self.trail.wants(Expected::Json);
        let Some(text) = self.rest else {
            return Err(LineFault::BadWord);
        };
        if text.len() == 0 {
            return Err(LineFault::BadWord);
        }
        Ok(Text::new(text))
    }

    /// The text that is left.
    pub fn text(&mut self) -> Result<Text<'a>, LineFault>
        ensures value { Gives (λ x. x) result (last_text_at self.old.words) }
        ensures place { self.new.place ≡ next self.old.place }
    {
        self.trail.wants(Expected::Text);
        let Some(text) = self.rest else {
            return Err(LineFault::BadWord);
        };
        if !is_text_here(text.as_bytes()) {
            return Err(LineFault::BadWord);
        }
        Ok(Text::new(text))
    }

    /// The text that is left, or, where it has bars, the one in front of the first of them and the one behind.
    #[tactic(auto, unfolding(crate::specs::Grammar::last_texts_at))]
    pub fn texts(&mut self) -> Result<(Text<'a>, Option<Text<'a>>), LineFault>
        ensures value { Gives (λ x. x) result (last_texts_at self.old.words) }
        ensures place { IfErr result (λ _. self.new.place ≡ texts_fault (next self.old.place) self.old.words) }
    {
        self.trail.wants(Expected::Text);
        let Some(rest) = self.rest else {
            return Err(LineFault::BadWord);
        };
        let (text, action) = cut_at_bars(rest);
        if !are_texts_here(text, action) {
            wants_action(&mut self.trail, text);
            return Err(LineFault::BadWord);
        }
        match action {
            Some(action) => Ok((Text::new(text), Some(Text::new(action)))),
            None => Ok((Text::new(text), None)),
        }
    }

    /// Nothing is left.
    #[tactic(auto, unfolding(crate::specs::Grammar::ends_at))]
    pub fn end(&mut self) -> Result<(), LineFault>
        ensures value { Gives (λ x. x) result (ends_at self.old.words) }
        ensures place { self.new.place ≡ next self.old.place }
    {
        self.trail.wants(Expected::End);
        match self.rest {
            Some(_) => Err(LineFault::BadWord),
            None => Ok(()),
        }
    }
}

/// What a word of a line is, where it may stand there.
pub fn known<T>(found: Option<T>) -> Result<T, LineFault>
    ensures { Gives (λ x. x) result (word_is found) }
{
    found.ok_or(LineFault::BadWord)
}
