/// The place of a byte, from line 1 and column 1.
#[derive(Clone, Copy)]
pub struct LineColumn {
    pub line: usize,
    /// In bytes.
    pub column: usize,
}

impl LineColumn {
    /// The place of the byte at an offset, or of the last one at the end.
    pub fn of_byte(bytes: &[u8], at: usize) -> LineColumn {
        let last = bytes.len().saturating_sub(1);
        let mut place = LineColumn { line: 1, column: 1 };
        for byte in bytes.iter().take(at.min(last)) {
            place = match byte {
                b'\n' => LineColumn {
                    line: place.line.saturating_add(1),
                    column: 1,
                },
                _ => LineColumn {
                    line: place.line,
                    column: place.column.saturating_add(1),
                },
            };
        }
        place
    }
}
