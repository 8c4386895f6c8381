ghost use Rattle.session.specs.Spelling.{SpelledIsRead, ReadIsSpelled, QuietIsRead, LongIsNotRead};

// The functions here do nothing: each states a law of `line_of`, the reading that `parse_line` does.

/// A line that can be spelled is what its spelling is read as.
pub fn spelled_is_read()
    ensures { SpelledIsRead }
{}

/// Bytes that are read as a line are its spelling, and it can be spelled.
pub fn read_is_spelled()
    ensures { ReadIsSpelled }
{}

/// Each blank line and each comment is quiet.
pub fn quiet_is_read()
    ensures { QuietIsRead }
{}

/// A line of more than `MAX_LINE` bytes is too long, whatever it says.
pub fn long_is_not_read()
    ensures { LongIsNotRead }
{}
