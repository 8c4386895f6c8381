ghost use Rattle.session.specs.MoreSpelling.{MoreIsNotALine, MoreLongIsNotRead, MoreReadIsSpelled, MoreSpelledIsRead};

// The functions here do nothing: each states a law of `more_line_of`, the reading that `parse_more_line` does.

/// A line for all edits that can be spelled is what its spelling is read as.
pub fn more_spelled_is_read()
    ensures { MoreSpelledIsRead }
{}

/// Bytes that are read as a line for all edits are its spelling, and it can be spelled.
pub fn more_read_is_spelled()
    ensures { MoreReadIsSpelled }
{}

/// A line of more than `MAX_LINE` bytes is too long, whatever it says.
pub fn more_long_is_not_read()
    ensures { MoreLongIsNotRead }
{}

/// What is read as a line for all edits is none that `parse_line` reads.
pub fn more_is_not_a_line()
    ensures { MoreIsNotALine }
{}
