// How the documents stand.

/// How the documents stand.
#[derive(Clone, Copy)]
pub struct Standing {
    /// How many are open.
    pub documents: usize,
    /// The place of the active one.
    pub active: Option<usize>,
    /// Its index, and 0 where there is none.
    pub index: usize,
    /// How many macros are open in it.
    pub depth: usize,
}

impl Standing {
    /// No document is open.
    pub fn empty() -> Standing {
        Standing {
            documents: 0,
            active: None,
            index: 0,
            depth: 0,
        }
    }

    /// Whether the same documents are open behind a line, and the same one is active.
    #[inline(always)]
    pub fn has_documents_of(self, now: Standing) -> bool {
        now.documents == self.documents && now.active == self.active
    }

    /// Whether another document is active behind a line, or none is, where its documents are others. A document that is opened is the
    /// active one, and where the active one is closed, none is.
    pub fn leaves(self, now: Standing) -> bool {
        let was_closed = now.documents < self.documents;
        !was_closed || self.active.is_some() && now.active.is_none()
    }

    /// Whether a line that ended a macro dropped the first step: the macro is a step more, unless one was dropped.
    pub fn drops_at_end(self, now: Standing) -> bool {
        now.depth == 0 && now.index == self.index
    }
}
