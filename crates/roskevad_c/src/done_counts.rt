ghost use Rattle.std.specs.Prelude.{◌≡◌};
ghost use Rattle.roskevad_c.specs.Counts.{counts_of};

use memory_editor::LinesDone;

/// What came of many lines: how many bytes of the input they are, how many bytes of replies stand in the buffer, whether the last
/// line was refused, 1 or 0, and whether its reply stands in the buffer or it is quiet, 1 or 0.
#[repr(C)]
#[derive(Clone, Copy)]
pub struct DoneCounts {
    pub bytes: usize,
    pub replies: usize,
    pub is_refused: usize,
    pub has_room: usize,
}

impl DoneCounts {
    /// Those of lines that were done.
    pub fn of(done: LinesDone) -> DoneCounts
        ensures { result ≡ counts_of done }
    {
        DoneCounts {
            bytes: done.bytes,
            replies: done.replies,
            is_refused: if done.is_refused { 1 } else { 0 },
            has_room: if done.has_room { 1 } else { 0 },
        }
    }
}
