// What the lines of one call did, where they are several: what differs between the document before them and the one behind them.
//
// All that they did lies in the steps that stand above the lowest index that they reached, but for what is gone: steps that were
// undone may be cut by an edit, and what a step below that index took in can't be told from what it was. So the first are looked at
// before a line that may cut them, the second when it is merged, and the rest when it is asked for.

use crate::edited::Edited;
use crate::seen::{Seen, count_of, open_seen, steps_seen};
use crate::standing::Standing;
use editor::Edit;
use undo_stack::{Pushed, Stack};

/// A line, as it was done.
#[derive(Clone, Copy)]
pub struct LineDone<'a> {
    /// How the documents stood before it.
    pub before: Standing,
    /// How they stand behind it.
    pub now: Standing,
    /// What became of its edit, where it was pushed.
    pub pushed: Option<Pushed>,
    /// What its edit changes, where that was merged into a step that stood there before the lines.
    pub edited: &'a Edited,
}

/// The lines of one call that were done.
#[derive(Clone, Copy)]
pub struct Block {
    /// How the documents stood before the lines.
    first: Standing,
    /// The lowest index of the active document since then.
    low: usize,
    /// What differs between the document before the lines and the one at this index. The steps from the lowest index up to it stand
    /// there, and are not looked at yet.
    below: Seen,
    looked: usize,
    /// How many macros were open all the time, and how many entries of the innermost of these are not of the lines: those behind them,
    /// and those of the macros in it, are.
    depth: usize,
    entries: usize,
    /// Whether no edit became something, and no macro was begun or ended: steps were undone and redone, or forgotten.
    is_turn: bool,
    /// Whether other documents were open at some time, or another one was active.
    documents: bool,
    /// Whether all may differ: of other documents, or of steps that are forgotten, nothing is known.
    is_lost: bool,
    dropped: usize,
}

impl Block {
    /// No line.
    pub fn new() -> Block {
        Block {
            first: Standing::empty(),
            low: 0,
            below: Seen::nothing(),
            looked: 0,
            depth: 0,
            entries: 0,
            is_turn: true,
            documents: false,
            is_lost: false,
            dropped: 0,
        }
    }

    /// How it was before this line, which is the first one. The stack is the active one's behind the line.
    pub fn before(line: &LineDone<'_>, stack: Option<&Stack<Edit>>) -> Block {
        let entries = match stack {
            Some(stack) => entries_before(line, stack),
            None => 0,
        };
        Block {
            first: line.before,
            low: line.before.index,
            looked: line.before.index,
            depth: line.before.depth,
            entries,
            ..Block::new()
        }
    }

    /// The index before the lines.
    pub fn first(&self) -> usize {
        self.first.index
    }

    /// Whether other documents were open at some time, or another one was active. No line changes then what is told of them all.
    #[inline(always)]
    pub fn has_other_documents(&self) -> bool {
        self.documents
    }

    /// How many steps the lines dropped, where they were all about one document.
    pub fn dropped(&self) -> usize {
        if self.documents { 0 } else { self.dropped }
    }

    /// A line had an edit that became something.
    #[inline(always)]
    pub fn has_edit(&mut self) {
        self.is_turn = false;
    }

    /// Takes a line in, where all that it did lies in the steps above the lowest index, or it did nothing to them, or it dropped the
    /// first step. Says whether it is such a line: any other is to be added.
    #[inline(always)]
    pub fn takes(&mut self, before: &Standing, now: &Standing, pushed: Option<Pushed>) -> bool {
        if !before.has_documents_of(*now) || before.depth != 0 || now.depth != 0 {
            return false;
        }
        match pushed {
            None => now.index == before.index || now.index > self.low,
            Some(Pushed::Added) => true,
            Some(Pushed::Nothing) => true,
            Some(Pushed::AddedAndDropped) => {
                self.drop_first();
                true
            }
            Some(Pushed::Merged) => before.index > self.low,
            Some(Pushed::Gone) => now.index > self.low,
        }
    }

    /// Whether what was done last, where the documents stand so, is of the lines, so that all that it holds is read from it.
    #[inline(always)]
    pub fn knows_last(&self, now: &Standing) -> bool {
        self.is_lost || now.depth == 0 && now.index > self.low
    }

    /// The first step is gone.
    #[inline(always)]
    pub fn drop_first(&mut self) {
        self.dropped = self.dropped.saturating_add(1);
        if self.low == 0 {
            self.is_lost = true;
        }
        self.low = self.low.saturating_sub(1);
        self.looked = self.low;
    }

    /// The active document stands at this index behind an `undo` or a `redo`.
    #[inline(always)]
    pub fn turned_to(&mut self, index: usize) {
        if index < self.low {
            self.low = index;
        }
    }

    /// Whether steps that were undone are not looked at yet.
    #[inline(always)]
    pub fn has_more_undone(&self) -> bool {
        self.low < self.looked
    }

    /// Looks at the steps that were undone. The stack is the active one's.
    #[cold]
    pub fn look_at_undone(&mut self, stack: Option<&Stack<Edit>>) {
        if let Some(stack) = stack {
            self.below = steps_seen(self.below, stack, self.low, self.looked);
        }
        self.looked = self.low;
    }

    // A line pushed an edit.
    fn push(&mut self, line: &LineDone<'_>, pushed: Pushed) {
        self.has_edit();
        match pushed {
            Pushed::Added => {}
            Pushed::Nothing => {}
            Pushed::AddedAndDropped => self.drop_first(),
            Pushed::Merged | Pushed::Gone => {
                if !self.knows_last(&line.before) {
                    self.below = self.below.joined(&line.edited.seen());
                }
                self.low = self.low.min(line.now.index);
            }
        }
    }

    // A line left no step. Where there were some, they are forgotten, and the document is as it was.
    fn forget(&mut self, before: Standing) {
        if before.index > self.low || before.depth > 0 {
            self.is_lost = true;
        }
        self.low = 0;
    }

    // A line pushed no edit: it turned steps, began or ended a macro, forgot the steps, or did none of these.
    fn turn(&mut self, line: &LineDone<'_>, stack: &Stack<Edit>) {
        let (before, now) = (line.before, line.now);
        if stack.count() == 0 {
            self.forget(before);
            return;
        }
        if now.depth != before.depth {
            self.is_turn = false;
            if now.depth < before.depth && before.drops_at_end(now) {
                self.drop_first();
            }
        }
        if now.index < self.low {
            self.below = steps_seen(self.below, stack, now.index, self.low);
            self.low = now.index;
        }
    }

    // The innermost macro of those that were open all the time was ended: it is what was done last.
    fn end_macro(&mut self, now: Standing, stack: &Stack<Edit>) {
        self.depth = now.depth;
        let Some(ended) = stack.last() else {
            return;
        };
        if now.depth > 0 {
            // It is an entry of the next one, and of the lines if they did something in it.
            let others = open_count(stack, now.depth).saturating_sub(1);
            self.entries = others.saturating_add(usize::from(count_of(ended) <= self.entries));
        } else {
            // It is a step, which was begun before the lines.
            self.below = self.below.with_rest(ended, self.entries);
            self.low = now.index;
        }
    }

    // The macros that were open all the time are fewer, or the innermost of them has fewer entries than before.
    fn look_at_macros(&mut self, now: Standing, stack: &Stack<Edit>) {
        if now.depth < self.depth {
            self.end_macro(now, stack);
        } else {
            self.entries = self.entries.min(open_count(stack, self.depth));
        }
    }

    /// A line more, where what was undone before it is looked at. The stack is the active one's behind it.
    pub fn add(&mut self, line: &LineDone<'_>, stack: Option<&Stack<Edit>>) {
        if !line.before.has_documents_of(line.now) {
            self.documents = true;
            self.is_lost = true;
            return;
        }
        let Some(stack) = stack else {
            return;
        };
        match line.pushed {
            Some(pushed) => self.push(line, pushed),
            None => self.turn(line, stack),
        }
        if self.depth > 0 {
            self.look_at_macros(line.now, stack);
        }
        self.looked = self.low;
    }

    // What the lines did to the document of a stack, which stands so.
    fn seen_on(&self, now: Standing, stack: &Stack<Edit>) -> Seen {
        // Where there are fewer steps than before, they are forgotten.
        if self.is_turn && stack.count() >= self.first.index {
            let (low, high) = (
                now.index.min(self.first.index),
                now.index.max(self.first.index),
            );
            return steps_seen(Seen::nothing(), stack, low, high);
        }
        let seen = steps_seen(self.below, stack, self.low, now.index);
        open_seen(seen, stack, self.depth.saturating_sub(1), self.entries)
    }

    /// What the lines did, where the documents stand so behind them, and this is the stack of the active one.
    pub fn seen(&self, now: Standing, stack: Option<&Stack<Edit>>) -> Seen {
        if self.is_lost {
            return Seen::all();
        }
        match stack {
            Some(stack) => self.seen_on(now, stack),
            None => Seen::nothing(),
        }
    }
}

// How many entries the innermost of so many open macros has.
fn open_count(stack: &Stack<Edit>, depth: usize) -> usize {
    stack.open_count(depth.saturating_sub(1)).unwrap_or(0)
}

// How many entries the innermost open macro had before a line that is done.
fn entries_before(line: &LineDone<'_>, stack: &Stack<Edit>) -> usize {
    if line.before.depth == 0 {
        return 0;
    }
    if line.now.depth < line.before.depth {
        // It was ended, with all that it has.
        return usize::MAX;
    }
    let count = open_count(stack, line.before.depth);
    match line.pushed {
        Some(Pushed::Added) => count.saturating_sub(1),
        _ => count,
    }
}
