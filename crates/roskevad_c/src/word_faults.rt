// The word at which a line is refused, as C sees it.
ghost use Rattle.std.specs.Prelude.{◌≡◌};
ghost use Rattle.roskevad_c.specs.Dialects.{dialect_at};
ghost use Rattle.roskevad_c.specs.WordFaults.{GivesFault, TellsWord, TellsWordFor};

use crate::answers::{NONE, TOO_GREAT};
use crate::copies::copy_text;
use crate::dialects::dialect_of;
use arrayvec::ArrayString;
use document_lines::Dialect;
use session::{WordFault, any_word_fault, word_fault};
use std::fmt::Write;

// Room for the words of a fault.
const ROOM: usize = 256;

/// A word of a line: which it is, from 1, where it begins and how many bytes it has, and whether the line ends in front of it, 1 or 0.
#[repr(C)]
#[derive(Clone, Copy)]
pub struct FaultyWord {
    pub place: usize,
    pub at: usize,
    pub length: usize,
    pub is_missing: usize,
}

impl FaultyWord {
    fn of(fault: &WordFault) -> FaultyWord
        ensures { result.place ≡ fault.now.place }
    {
        FaultyWord {
            place: fault.place as usize,
            at: fault.at,
            length: fault.length,
            is_missing: if fault.is_missing { 1 } else { 0 },
        }
    }
}

// Gives out a word, and copies what is wrong with it. Answers the text's size, or `NONE` where there is no word.
fn give(fault: Option<WordFault>, word: &mut FaultyWord, text: &mut [u8]) -> usize
    ensures { GivesFault fault result word.old word.new text.old text.new }
{
    let Some(fault) = fault else {
        return NONE;
    };
    *word = FaultyWord::of(&fault);
    let mut words = ArrayString::<ROOM>::new();
    // It has room for the words of each fault.
    let _ = write!(words, "{fault}");
    copy_text(words.as_str().as_bytes(), text)
}

/// Gives out the word at which a line is refused, and copies what is wrong with it, as `word 1 is not a command`. Answers the text's size,
/// or `NONE` where the line is read, or refused as a whole: it is too long, or not UTF-8. No editor is asked, and no line is done.
#[unsafe(no_mangle)]
pub extern "C" fn roskevad_word_fault(line: &[u8], word: &mut FaultyWord, text: &mut [u8]) -> usize
    ensures { TellsWord line.now result word.old word.new text.old text.new }
{
    give(word_fault(line), word, text)
}

/// As `roskevad_word_fault`, where `edits` is 0. Where it is 1 or 2, the lines for all edits are read, too. For another number it
/// answers `TOO_GREAT`, and gives nothing out.
#[unsafe(no_mangle)]
pub extern "C" fn roskevad_word_fault_for(
    edits: usize,
    line: &[u8],
    word: &mut FaultyWord,
    text: &mut [u8],
) -> usize
    ensures { TellsWordFor (dialect_at edits) line.now result word.old word.new text.old text.new }
{
    match dialect_of(edits) {
        Some(Dialect::Plain) => give(word_fault(line), word, text),
        Some(Dialect::AllEdits(_)) => give(any_word_fault(line), word, text),
        None => TOO_GREAT,
    }
}
