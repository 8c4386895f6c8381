// Frequent lines of one word, which are told by a comparison.
ghost use Rattle.std.specs.Prelude.{◌≡◌, IfSome, Ok};
ghost use Rattle.session.specs.Grammar.{line_of};
ghost use Rattle.session_run.specs.FrequentLines.{line_named};

/// A frequent line of one word.
#[derive(Clone, Copy)]
pub enum FrequentLine {
    Undo,
    Redo,
    Status,
    UndoText,
    RedoText,
}

/// The bytes of the longest such line.
const LONGEST: usize = 8;

/// The frequent line that these bytes are, if they are one.
#[inline(always)]
pub fn frequent_line(line: &[u8]) -> Option<FrequentLine>
    ensures { IfSome result (λ frequent. line_of line.now ≡ Ok (line_named frequent)) }
{
    // Most other lines are told apart by their length.
    if line.len() > LONGEST {
        return None;
    }
    match line {
        b"undo" => Some(FrequentLine::Undo),
        b"redo" => Some(FrequentLine::Redo),
        b"status" => Some(FrequentLine::Status),
        b"undotext" => Some(FrequentLine::UndoText),
        b"redotext" => Some(FrequentLine::RedoText),
        _ => None,
    }
}
