// The entries of the steps and of the open macros, to be looked at.
ghost use Rattle.std.specs.Prelude.{◌≡◌, ◌+◌, IfSome, IsSomeAnd, MatchOption, length, slice_get};
ghost use Rattle.std.specs.Option.{option_and_then, option_copied, option_map};
ghost use Rattle.undo_stack.specs.Entries.{entry_change};
ghost use Rattle.undo_stack.specs.History.{current, document_at};
ghost use Rattle.undo_stack.specs.Nestings.{nesting};
ghost use Rattle.undo_stack.specs.Sides.{StandsBetween, before_last, inner_document_at};
ghost use Rattle.undo_stack.specs.Stacks.{Holds, history, nestings};

use super::Stack;
use crate::entry::Entry;
use command_api::Command;

impl<C: Command> Stack<C> {
    /// The entry of the step with this number, where the first one has 0. `None` past the last one, and for an open macro, which
    /// stands last.
    pub fn entry(&self, at: usize) -> Option<&Entry<C>>
        ensures nests { option_map nesting (option_copied result) ≡ slice_get (nestings self.now).steps at }
        ensures between { Holds C.change self.now → IfSome result (λ entry. let h = history C.change self.now in
            StandsBetween (entry_change C.change entry.now) (document_at h at) (document_at h (at + 1))) }
    {
        self.sequences.steps.entries.get(at)
    }

    /// What was done last: the last entry of the innermost open macro, or the step below the index. `None` where there is none.
    pub fn last(&self) -> Option<&Entry<C>>
        ensures between { Holds C.change self.now → let h = history C.change self.now in
            MatchOption result (before_last h ≡ current h) (λ entry. StandsBetween (entry_change C.change entry.now) (before_last h) (current h)) }
    {
        match self.sequences.levels.last() {
            Some(level) => level.sequence.last(),
            None => self.sequences.steps.last(),
        }
    }

    /// How many entries the open macro at this level has so far, where 0 is the outermost. `None` past the innermost.
    pub fn open_count(&self, level: usize) -> Option<usize>
        ensures { result ≡ option_map length (slice_get (nestings self.now).levels level) }
    {
        match self.sequences.levels.get(level) {
            Some(level) => Some(level.sequence.entries.len()),
            None => None,
        }
    }

    /// The entry with this number of the open macro at this level, where 0 is the outermost, and the first entry has 0. `None`
    /// past the last one, and past the innermost.
    pub fn open_entry(&self, level: usize, at: usize) -> Option<&Entry<C>>
        ensures nests { option_map nesting (option_copied result)
            ≡ option_and_then (λ os. slice_get os at) (slice_get (nestings self.now).levels level) }
        ensures between { Holds C.change self.now → IfSome result (λ entry. IsSomeAnd (slice_get (history C.change self.now).levels level) (λ l.
            StandsBetween (entry_change C.change entry.now) (inner_document_at l at) (inner_document_at l (at + 1)))) }
    {
        match self.sequences.levels.get(level) {
            Some(level) => level.sequence.entries.get(at),
            None => None,
        }
    }
}
