// What has to be kept of lines, so that what they did can be told: how the documents stood, and what became of the last edit. The
// rest is read from the steps that stand there when it is asked for.
ghost use Rattle.std.specs.Prelude.{◌≡◌, IfSome, false};
ghost use Rattle.memory_editor.specs.Unions.{TellsTurn};

use crate::block::{Block, LineDone};
use crate::edited::Edited;
use crate::seen::{Seen, all_differences, last_seen, steps_seen};
use crate::standing::Standing;
use crate::told::Became;
use document_lines::{Differences, Subject};
use editor::{Edit, Tell};
use undo_stack::{Pushed, Stack};

/// What lines did.
#[derive(Clone, Copy)]
pub struct Done {
    pub documents: bool,
    pub differences: Differences,
    pub subject: Option<Subject>,
    pub became: Became,
    pub dropped: usize,
}

impl Done {
    /// Nothing.
    pub fn nothing() -> Done
        ensures { result.became ≡ Became.Nothing }
    {
        Done {
            documents: false,
            differences: Differences::nothing(),
            subject: None,
            became: Became::Nothing,
            dropped: 0,
        }
    }

    // Other documents are open. Where another one is active, or none is, all differs.
    fn of_documents(is_other: bool) -> Done
        ensures { result.became ≡ Became.Nothing }
    {
        let differences = if is_other {
            all_differences()
        } else {
            Differences::nothing()
        };
        Done {
            documents: true,
            differences,
            ..Done::nothing()
        }
    }

    // What these entries change, which became that.
    fn of_entries(seen: Seen, became: Became) -> Done
        ensures became { result.became ≡ became }
        ensures differs { result.differences ≡ seen.differences }
    {
        Done {
            differences: seen.differences,
            subject: seen.subject,
            became,
            ..Done::nothing()
        }
    }

    // As it is, and the first step was dropped.
    fn dropping(self) -> Done
        ensures { result.became ≡ Became.AddedAndDropped }
    {
        Done {
            became: Became::AddedAndDropped,
            dropped: 1,
            ..self
        }
    }

    // A macro ended. What it holds was done before.
    fn of_end(stack: &Stack<Edit>, is_dropped: bool) -> Done
        ensures { result.became ≡ Became.Turned → ⊥ }
    {
        let ended = Done {
            differences: Differences::nothing(),
            ..Done::of_entries(last_seen(stack), Became::Added)
        };
        if is_dropped { ended.dropping() } else { ended }
    }

    // What a line did that pushed nothing: it turned steps, ended a macro, or changed neither document nor steps.
    fn of_turn(stack: &Stack<Edit>, before: Standing, now: Standing) -> Done
        ensures { result.became ≡ Became.Turned → TellsTurn stack.now before.index now.index result.differences }
    {
        // Where there is no step, all were forgotten.
        if stack.count() == 0 {
            return Done::nothing();
        }
        if now.depth < before.depth {
            return Done::of_end(stack, before.drops_at_end(now));
        }
        if now.index == before.index {
            return Done::nothing();
        }
        let (low, high) = (now.index.min(before.index), now.index.max(before.index));
        let seen = steps_seen(Seen::nothing(), stack, low, high);
        Done::of_entries(seen, Became::Turned)
    }
}

/// What is kept of the last call.
#[derive(Drop)]
pub struct Listening {
    /// How the documents stood before the last line.
    last: Standing,
    /// What became of the last line's edit, where it was pushed.
    pushed: Option<Pushed>,
    /// The last line's edit, where it may be merged.
    edited: Edited,
    /// Whether the call has done several lines.
    is_many: bool,
    /// Then, what the lines before the last one did.
    block: Block,
    /// Whether the last line is an `undo` or a `redo` of such a call. It leaves all as it was but the index.
    is_turn: bool,
    /// Which word of the last line that has a bad word this is, from 1.
    word: Option<u32>,
}

impl Listening {
    /// No line yet.
    pub fn new() -> Listening {
        Listening {
            last: Standing::empty(),
            pushed: None,
            edited: Edited::nothing(),
            is_many: false,
            block: Block::new(),
            is_turn: false,
            word: None,
        }
    }

    /// The first line of a call is to be done. Where the one before it was one of a call of its own, and had an edit that became a step
    /// or a part of one, how the documents stand follows from that alone: says whether.
    #[inline(always)]
    pub fn begins_behind_edit(&mut self) -> bool {
        if self.is_many || self.last.depth != 0 {
            return false;
        }
        match self.pushed {
            Some(Pushed::Added) => self.last.index = self.last.index.saturating_add(1),
            Some(Pushed::AddedAndDropped | Pushed::Merged) => {}
            _ => return false,
        }
        self.pushed = None;
        true
    }

    /// The first line of a call is to be done. The documents stand so before it.
    #[inline(always)]
    pub fn begins(&mut self, before: Standing) {
        self.last = before;
        self.pushed = None;
        self.is_many = false;
        self.is_turn = false;
    }

    /// Whether no further line of the call changes what is told of its lines: they were about the documents.
    #[inline(always)]
    pub fn is_settled(&self) -> bool {
        self.is_many && self.block.has_other_documents()
    }

    /// Whether the call has done several lines.
    #[inline(always)]
    pub fn is_many(&self) -> bool {
        self.is_many
    }

    /// Whether the last line is an `undo` or a `redo`, and a further one of a call.
    #[inline(always)]
    pub fn is_turn(&self) -> bool {
        self.is_turn
    }

    /// A further line of a call is to be done. The one before it turned a step, and the active document stands at this index.
    #[inline(always)]
    pub fn turned_to(&mut self, index: usize) {
        self.last.index = index;
        self.block.turned_to(index);
    }

    /// A further line of a call is to be done, which is an `undo` or a `redo` or not. Says whether it may cut steps that were undone
    /// and are not looked at yet.
    #[inline(always)]
    pub fn expects(&mut self, is_turn: bool) -> bool {
        self.is_turn = is_turn;
        !is_turn && self.block.has_more_undone()
    }

    /// Looks at the steps that were undone. This is the stack of the active document.
    pub fn look_at_undone(&mut self, stack: Option<&Stack<Edit>>) {
        self.block.look_at_undone(stack);
    }

    /// A further line of a call is to be done, and the one before it changed nothing.
    #[inline(always)]
    pub fn passes(&mut self) {
        self.pushed = None;
    }

    /// A further line of a call is to be done. Where the one before it added a step, or merged into one of the lines of the call, of
    /// which all is known, that alone is noted: says whether. A merge leaves the documents and the index as they were.
    #[inline(always)]
    pub fn goes_on_behind_edit(&mut self) -> bool {
        if !self.is_many || self.last.depth != 0 {
            return false;
        }
        match self.pushed {
            Some(Pushed::Added) => self.last.index = self.last.index.saturating_add(1),
            Some(Pushed::AddedAndDropped) => self.block.drop_first(),
            Some(Pushed::Merged) if self.block.knows_last(&self.last) => {}
            _ => return false,
        }
        self.pushed = None;
        true
    }

    /// A further line of a call is to be done. The documents stand so before it, and this is the stack of the active one.
    #[inline(always)]
    pub fn goes_on(&mut self, now: Standing, stack: Option<&Stack<Edit>>) {
        let before = self.last;
        if self.is_many && self.block.takes(&before, &now, self.pushed) {
            // The rest stands as it stood.
            self.last.index = now.index;
        } else {
            self.look_back(now, stack);
            self.last = now;
        }
        self.pushed = None;
    }

    // Whether what was done last before this line is of the lines of the call.
    #[inline(always)]
    fn knows_last(&self) -> bool {
        self.is_many && self.block.knows_last(&self.last)
    }

    // What the line before did is added to what those before it did.
    fn look_back(&mut self, now: Standing, stack: Option<&Stack<Edit>>) {
        let line = LineDone {
            before: self.last,
            now,
            pushed: self.pushed,
            edited: &self.edited,
        };
        if !self.is_many {
            self.is_many = true;
            self.block = Block::before(&line, stack);
        }
        self.block.add(&line, stack);
    }

    /// The index before the lines of the call.
    pub fn first(&self) -> usize
        ensures { self.now.is_many ≡ false → result ≡ self.now.last.index }
    {
        if self.is_many {
            self.block.first()
        } else {
            self.last.index
        }
    }

    /// The line that was done last has a bad word: this one, counted from 1.
    pub fn has_bad_word(&mut self, word: Option<u32>) {
        self.word = word;
    }

    /// The number of the bad word, where the last line has one.
    pub fn bad_word(&self) -> Option<u32> {
        self.word
    }

    // What the line did to the document of a stack, which was the active one before.
    fn on_stack(&self, now: Standing, stack: &Stack<Edit>) -> Done
        ensures { result.became ≡ Became.Turned → TellsTurn stack.now self.now.last.index now.index result.differences }
    {
        match self.pushed {
            Some(Pushed::Added) => Done::of_entries(last_seen(stack), Became::Added),
            Some(Pushed::AddedAndDropped) => {
                Done::of_entries(last_seen(stack), Became::Added).dropping()
            }
            Some(Pushed::Merged) => Done::of_entries(self.edited.seen(), Became::Merged),
            Some(Pushed::Gone) => Done::of_entries(self.edited.seen(), Became::Gone),
            Some(Pushed::Nothing) => Done::nothing(),
            None => Done::of_turn(stack, self.last, now),
        }
    }

    // What the one line of a call did.
    fn line_done(&self, now: Standing, stack: Option<&Stack<Edit>>) -> Done
        ensures { result.became ≡ Became.Turned
            → IfSome stack.entry (λ s. TellsTurn s.now self.now.last.index now.index result.differences) }
    {
        if !self.last.has_documents_of(now) {
            return Done::of_documents(self.last.leaves(now));
        }
        match stack {
            Some(stack) => self.on_stack(now, stack),
            None => Done::nothing(),
        }
    }

    // What the lines of a call did, where they are several.
    fn block_done(&self, now: Standing, stack: Option<&Stack<Edit>>) -> Done
        ensures { result.became ≡ Became.Nothing }
    {
        let mut block = self.block;
        block.look_at_undone(stack);
        let line = LineDone {
            before: self.last,
            now,
            pushed: self.pushed,
            edited: &self.edited,
        };
        block.add(&line, stack);
        let seen = block.seen(now, stack);
        Done {
            documents: block.has_other_documents(),
            dropped: block.dropped(),
            ..Done::of_entries(seen, Became::Nothing)
        }
    }

    /// What the lines of the call did, where the documents stand so now, and this is the stack of the active one.
    pub fn done(&self, now: Standing, stack: Option<&Stack<Edit>>) -> Done
        ensures { result.became ≡ Became.Turned → (self.now.is_many ≡ false)
            × IfSome stack.entry (λ s. TellsTurn s.now self.now.last.index now.index result.differences) }
    {
        if self.is_many {
            self.block_done(now, stack)
        } else {
            self.line_done(now, stack)
        }
    }
}

impl Tell for Listening {
    #[inline(always)]
    fn edit(&mut self, edit: &Edit) {
        // What a step takes in that the lines made is read from that step.
        if Edited::may_be_merged(edit) && !self.knows_last() {
            self.edited.keep(edit);
        }
    }

    #[inline(always)]
    fn pushed(&mut self, pushed: Pushed) {
        self.pushed = Some(pushed);
        self.block.has_edit();
    }
}
