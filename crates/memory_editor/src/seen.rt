// What steps change, and what they are about: looked up in their edits, when it is asked for.
ghost use Rattle.std.specs.Prelude.{◌≡◌, ◌+◌, ◌≤◌};
ghost use Rattle.undo_stack.specs.Entries.{entry_change};
ghost use Rattle.undo_stack.specs.History.{current, document_at};
ghost use Rattle.undo_stack.specs.Sides.{before_last};
ghost use Rattle.undo_stack.specs.Stacks.{Holds, history};
ghost use Rattle.document_lines.specs.Differing.{DifferWithin, all_differs, no_differences};
ghost use Rattle.document_lines.specs.Planning.{edit_change};
ghost use Rattle.memory_editor.specs.OneMore.{TellsOneMore};
ghost use Rattle.memory_editor.specs.Unions.{HasInner, TellsOn, open_document};

use document_lines::{Cells, Differences, Subject};
use editor::Edit;
use undo_stack::{Entry, Stack};

/// So many entries are looked at, those of macros counted. If there are more, all is told.
const MOST_ENTRIES: u32 = 64;

/// What some entries of a stack change, by an undo as by a redo.
#[derive(Clone, Copy)]
pub struct Seen {
    pub differences: Differences,
    /// What all of their edits are about, and `Nothing` where they are about several things. `None` where there is no edit.
    pub subject: Option<Subject>,
    /// How many more entries may be looked at.
    left: u32,
}

/// All may differ.
pub fn all_differences() -> Differences
    ensures { result ≡ all_differs }
{
    Differences {
        outline: true,
        selection: true,
        cells: Cells::All,
    }
}

/// What two edits are about, or some edits and others.
pub fn common_subject(one: Option<Subject>, other: Option<Subject>) -> Option<Subject> {
    match (one, other) {
        (None, subject) => subject,
        (subject, None) => subject,
        (Some(subject), Some(other)) => {
            if subject == other {
                Some(subject)
            } else {
                Some(Subject::Nothing)
            }
        }
    }
}

impl Seen {
    /// No entry.
    pub fn nothing() -> Seen
        ensures { result.differences ≡ no_differences }
    {
        Seen {
            differences: Differences::nothing(),
            subject: None,
            left: MOST_ENTRIES,
        }
    }

    /// All, of more entries than are looked at, or of entries that are gone.
    pub fn all() -> Seen
        ensures { result.differences ≡ all_differs }
    {
        Seen {
            differences: all_differences(),
            subject: Some(Subject::Nothing),
            left: 0,
        }
    }

    /// One edit, which changes this.
    pub fn of(differences: Differences, subject: Subject) -> Seen {
        Seen {
            differences,
            subject: Some(subject),
            left: MOST_ENTRIES,
        }
    }

    /// What others change too. As many more entries may be looked at.
    pub fn joined(self, other: &Seen) -> Seen {
        Seen {
            differences: self.differences.joined(other.differences),
            subject: common_subject(self.subject, other.subject),
            left: self.left,
        }
    }

    // An edit more.
    fn with_edit(self, edit: &Edit) -> Seen
        ensures { TellsOneMore self.differences result.differences (edit_change edit.now) }
    {
        Seen {
            differences: self.differences.joined(edit.differs()),
            subject: common_subject(self.subject, Some(edit.subject())),
            left: self.left,
        }
    }

    /// An entry more.
    pub fn with_entry(self, entry: &Entry<Edit>) -> Seen
        ensures { TellsOneMore self.differences result.differences (entry_change edit_change entry.now) }
    {
        if self.left == 0 {
            return Seen::all();
        }
        let mut seen = Seen {
            left: self.left - 1,
            ..self
        };
        match entry {
            Entry::Command(edit) => seen.with_edit(edit),
            Entry::Macro(contents) => {
                for child in contents.children.iter() {
                    if seen.left == 0 {
                        return Seen::all();
                    }
                    seen = seen.with_entry(child);
                }
                seen
            }
        }
    }

    /// The entries of a macro from one number on, which are more.
    pub fn with_rest(self, ended: &Entry<Edit>, from: usize) -> Seen {
        let mut seen = self;
        if let Entry::Macro(contents) = ended {
            for at in from..contents.children.len() {
                if seen.left == 0 {
                    return Seen::all();
                }
                seen = seen.with_entry(&contents.children[at]);
            }
        }
        seen
    }
}

/// How many entries a macro has.
pub fn count_of(ended: &Entry<Edit>) -> usize {
    match ended {
        Entry::Command(_) => 0,
        Entry::Macro(contents) => contents.children.len(),
    }
}

/// What was done last.
pub fn last_seen(stack: &Stack<Edit>) -> Seen
    ensures { Holds edit_change stack.now → let h = history edit_change stack.now in DifferWithin result.differences (before_last h) (current h) }
{
    match stack.last() {
        Some(entry) => Seen::nothing().with_entry(entry),
        None => Seen::nothing(),
    }
}

// The step with this number, beside others.
fn step_seen(seen: Seen, stack: &Stack<Edit>, at: usize) -> Seen
    ensures { Holds edit_change stack.now → let h = history edit_change stack.now in
        TellsOn seen.differences result.differences (document_at h at) (document_at h (at + 1)) }
{
    match stack.entry(at) {
        Some(entry) => seen.with_entry(entry),
        None => seen,
    }
}

/// The steps from one number up to another, beside others.
pub fn steps_seen(mut seen: Seen, stack: &Stack<Edit>, from: usize, to: usize) -> Seen
    ensures { Holds edit_change stack.now → from ≤ to → let h = history edit_change stack.now in
        TellsOn seen.differences result.differences (document_at h from) (document_at h to) }
{
    for at in from..to {
        if seen.left == 0 {
            return Seen::all();
        }
        seen = step_seen(seen, stack, at);
    }
    seen
}

// The entry with this number of the open macro at a level, beside others.
fn entry_seen(seen: Seen, stack: &Stack<Edit>, level: usize, at: usize) -> Seen
    ensures { Holds edit_change stack.now → let h = history edit_change stack.now in
        TellsOn seen.differences result.differences (open_document h level at) (open_document h level (at + 1)) }
{
    match stack.open_entry(level, at) {
        Some(entry) => seen.with_entry(entry),
        None => seen,
    }
}

// The entries of the open macro at a level from one number on, beside others.
fn level_seen(mut seen: Seen, stack: &Stack<Edit>, level: usize, from: usize) -> Seen
    ensures { Holds edit_change stack.now → let h = history edit_change stack.now in HasInner h level from →
        TellsOn seen.differences result.differences (open_document h level from) (open_document h (level + 1) 0) }
{
    for at in from..stack.open_count(level).unwrap_or(0) {
        if seen.left == 0 {
            return Seen::all();
        }
        seen = entry_seen(seen, stack, level, at);
    }
    seen
}

/// The entries of the open macro at a level from one number on, and those of the macros in it, beside others.
pub fn open_seen(mut seen: Seen, stack: &Stack<Edit>, level: usize, from: usize) -> Seen
    ensures { Holds edit_change stack.now → let h = history edit_change stack.now in HasInner h level from →
        TellsOn seen.differences result.differences (open_document h level from) (current h) }
{
    let mut first = from;
    for inner in level..stack.depth() {
        seen = level_seen(seen, stack, inner, first);
        first = 0;
    }
    seen
}
