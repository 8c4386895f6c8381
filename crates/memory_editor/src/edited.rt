// What is kept of an edit that may be merged. The step that takes it in changes more, and may be gone then.

use crate::seen::Seen;
use document_lines::{Cells, Differences, Subject};
use editor::Edit;

/// What is kept of an edit that may be merged.
#[derive(Clone, Copy)]
pub struct Edited {
    /// What it is about.
    subject: Subject,
    /// Whether it is a paint. Any other edit that may be merged changes the outline alone.
    is_paint: bool,
    /// Which cells a paint writes. Of another edit this says nothing.
    cells: Cells,
}

impl Edited {
    /// No edit.
    pub fn nothing() -> Edited {
        Edited {
            subject: Subject::Nothing,
            is_paint: false,
            cells: Cells::None,
        }
    }

    /// Whether an edit may be merged. A paint says whether it follows the step before it. The others are not asked: to keep what they
    /// are about costs less than their offer, which a compiler inlines where it is made at one place alone, by the stack.
    #[inline(always)]
    pub fn may_be_merged(edit: &Edit) -> bool {
        match edit {
            Edit::Paint(paint) => paint.follows(),
            _ => true,
        }
    }

    /// This edit is kept.
    // (inlined, and with few fields, since each edit is kept: so the edit need not be written to memory for it)
    #[inline(always)]
    pub fn keep(&mut self, edit: &Edit) {
        self.subject = edit.subject();
        if let Edit::Paint(_) = edit {
            self.is_paint = true;
            self.cells = edit.differs().cells;
        } else {
            self.is_paint = false;
        }
    }

    /// What it changes, and what it is about.
    pub fn seen(&self) -> Seen {
        let differences = if self.is_paint {
            Differences {
                cells: self.cells,
                ..Differences::nothing()
            }
        } else {
            Differences {
                outline: true,
                ..Differences::nothing()
            }
        };
        Seen::of(differences, self.subject)
    }
}
