// What lines did.

use document_lines::{Cells, Differences, Subject};
use refusals::Refusal;

/// What became of an edit, of a macro that ended, or of steps that were turned.
#[derive(Clone, Copy, PartialEq, Eq, Debug)]
pub enum Became {
    /// The line is none of these, or it changes nothing. Steps above the index may be gone.
    Nothing,
    /// It is the step below the index, or the last entry of the innermost open macro.
    Added,
    /// It is the step below the index, and the first step is gone, since there were more than the limit.
    AddedAndDropped,
    /// The step below the index took it in, or the innermost open macro's last entry.
    Merged,
    /// As `Merged`, but nothing was left of that step, and it is gone.
    Gone,
    /// The steps between the index before and the index now were undone or redone.
    Turned,
}

/// What the last line did, or the lines of the last call. What is not told to differ is as it was.
///
/// `outline`, `selection` and `cells` are about the active document, and so are `before`, `index`, `count`, `depth` and
/// `is_clean`.
///
/// Of several lines it tells what differs between the documents before the first one and behind the last one, `became` is `Nothing`,
/// and `refusal` and `word` are those of the last one. An edit that they made and took back is not told. All of the active document
/// may differ where they opened, closed or chose one, where they dropped or forgot steps that they had made, and where they are more
/// than 64 steps.
#[derive(Clone, Copy, PartialEq, Eq, Debug)]
pub struct Told {
    /// Whether other documents are open, or another one is active.
    pub documents: bool,
    /// Whether the text of the map differs, but for its cells.
    pub outline: bool,
    pub selection: bool,
    /// Which cells differ. An area lies in the map.
    pub cells: Cells,
    pub became: Became,
    /// What the edits are about that were made or turned, where that is one thing. Of several lines these are the edits that stand
    /// behind the last one, and those that were taken back.
    pub subject: Subject,
    /// How many steps are gone from the beginning, since there were more than the limit. It is 0 where `documents` is true.
    pub dropped: usize,
    /// The index before the lines, and 0 where no document was active.
    pub before: usize,
    pub index: usize,
    pub count: usize,
    pub depth: usize,
    pub is_clean: bool,
    pub refusal: Option<Refusal>,
    /// Which word of the last line is bad, counted from 1, where the refusal is that one is. A text counts as one word.
    pub word: Option<u32>,
}

/// A step of the active document, as a list of steps shows it.
#[derive(Clone, Copy, PartialEq, Eq, Debug)]
pub struct Step<'a> {
    pub text: &'a str,
    pub is_macro: bool,
    /// What all its edits are about, where that is one thing.
    pub subject: Subject,
    /// What may differ between the documents before and after it. An area of cells lies in the map as it is now.
    pub differences: Differences,
}
