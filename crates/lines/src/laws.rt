ghost use Rattle.lines.specs.Lines.{LinesAreCut};

/// States what the lines of some bytes are, and does nothing.
pub fn lines_are_cut()
    ensures { LinesAreCut }
{}
