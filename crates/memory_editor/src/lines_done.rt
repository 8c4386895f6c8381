ghost use Rattle.std.specs.Prelude.{◌≡◌, ◌+◌, ◌^◌, ◌<◌};
ghost use Rattle.std.specs.Option.{ForSome};
ghost use Rattle.memory_editor.specs.Counts.{no_lines_done, with_line};

/// What came of many lines.
#[derive(Clone, Copy, Debug, PartialEq, Eq)]
pub struct LinesDone {
    /// How many lines are done.
    pub lines: usize,
    /// How many bytes of the input they are, with their newlines.
    pub bytes: usize,
    /// How many bytes of replies stand in the buffer.
    pub replies: usize,
    /// Whether the last of the lines was refused.
    pub is_refused: bool,
    /// Whether the reply to the last of the lines stands in the buffer, or that line is quiet.
    pub has_room: bool,
}

impl LinesDone {
    /// No line.
    pub fn none() -> LinesDone
        ensures { result ≡ no_lines_done }
    {
        LinesDone {
            lines: 0,
            bytes: 0,
            replies: 0,
            is_refused: false,
            has_room: true,
        }
    }

    // One line more, of so many bytes. What was put into the buffer is the size of its reply, and none where that had no room.
    pub(crate) fn with_line(self, bytes: usize, is_refused: bool, put: Option<usize>) -> LinesDone
        requires lines { self.lines + 1 < 2 ^ 64 }
        requires bytes { self.bytes + bytes < 2 ^ 64 }
        requires replies { ForSome put (λ size. self.replies + size < 2 ^ 64) }
        ensures { result ≡ with_line bytes is_refused put self }
    {
        let lines = self.lines + 1;
        let bytes = self.bytes + bytes;
        match put {
            Some(size) => LinesDone {
                lines,
                bytes,
                replies: self.replies + size,
                is_refused,
                has_room: true,
            },
            None => LinesDone {
                lines,
                bytes,
                replies: self.replies,
                is_refused,
                has_room: false,
            },
        }
    }
}
