ghost use Rattle.edits.specs.Blocks.{IsSpan};

/// Columns of a map, or rows: from `first` to before `end`.
#[derive(Clone, Copy)]
pub struct Span {
    pub first: u32,
    pub end: u32,
}

impl Span {
    /// Where something that begins at `start` and is `size` long lies on a map that is `limit` long.
    pub fn new(start: i32, size: u32, limit: u32) -> Span
        ensures { IsSpan start size limit result }
    {
        let distance = start.unsigned_abs();
        if start >= 0 {
            Span {
                first: distance.min(limit),
                end: distance.saturating_add(size).min(limit),
            }
        } else {
            Span {
                first: 0,
                end: size.saturating_sub(distance).min(limit),
            }
        }
    }
}
