ghost use Rattle.std.specs.Prelude.{◌≡◌, ◌+◌, ◌-◌, ◌≤◌, ◌<◌, [], length, IfOk, IfErr, slice_get, option_copied};
ghost use Rattle.undo_stack.specs.History.{new_history, current, count, is_clean};
ghost use Rattle.undo_stack.specs.Pushing.{cut, next_of, step_of, IsPushed};
ghost use Rattle.undo_stack.specs.Moving.{MarksClean, UnmarksClean, SetsLimit, Clears};
ghost use Rattle.undo_stack.specs.Nestings.{no_nestings};
ghost use Rattle.undo_stack.specs.Turning.{Undoes, Redoes, SetsIndex};
ghost use Rattle.undo_stack.specs.Reading.{text_at, action_of, undo_text_of, redo_text_of};
ghost use Rattle.undo_stack.specs.Stacks.{history, macros, nestings, Holds, IsCalm, IsReported, IsTold, IsTurnReported};
ghost use Rattle.undo_stack.specs.Told.{says_gone, says_merged, TellsDrop};
ghost use Rattle.undo_stack.specs.declared.limits.TheConstants.{MAX_LIMIT};

mod actions;
mod entries;
mod macros;
mod sequences;

use crate::pushed::Pushed;
use crate::sequence::Sequence;
use command_api::Command;
use map_model::Document;
use refusals::StackFault;
use sequences::Sequences;
use std::alloc::{AllocError, Global};

/// A document and its history, over commands of one type, which may be `Box<dyn Command>`.
///
/// A caller sees the history that the stack holds. That the commands fit the document is a condition of its calls, which
/// each of them keeps. None leaves a command that is obsolete among the entries or those of an open macro.
#[derive(Drop)]
pub struct Stack<C> {
    // The document after the entries below the index, and those of the open macros.
    document: Document,
    // While a macro is open, no entry stands above the index, and there is free room for what each of them becomes: among
    // the entries, or in the macro around it.
    sequences: Sequences<C>,
    // The allocator by which a merge takes its memory, and a macro when it begins.
    alloc: Global,
}

impl<C: Command> Stack<C> {
    /// A stack with no steps, at index 0, which is clean.
    ///
    /// The limit is the most steps that the stack keeps, where 0 stands for any number.
    pub fn new(alloc: Global, document: Document, limit: usize) -> Stack<C>
        requires { limit ≤ MAX_LIMIT }
        ensures sound { Holds C.change result }
        ensures history { history C.change result ≡ new_history document limit }
        ensures nests { nestings result ≡ no_nestings }
    {
        Stack {
            document,
            sequences: Sequences {
                steps: Sequence::new(alloc, Some(0), limit, false),
                levels: Vec::new(alloc),
            },
            alloc,
        }
    }

    /// How many steps are done, from 0 to the count.
    pub fn index(&self) -> usize
        ensures { result ≡ (history C.change self.now).position }
    {
        self.sequences.steps.index
    }

    /// How many steps there are, those done and those undone. While a macro is open, one more.
    pub fn count(&self) -> usize
        ensures { result ≡ count (history C.change self.now) }
    {
        if self.sequences.is_open() {
            return self.sequences.steps.entries.len() + 1;
        }
        self.sequences.steps.entries.len()
    }

    /// How many macros are open, each but the first in another one.
    pub fn depth(&self) -> usize
        ensures { result ≡ length (history C.change self.now).levels }
    {
        self.sequences.levels.len()
    }

    /// Whether the document is the clean one, as when the stack was new. It is not while a macro is open.
    pub fn is_clean(&self) -> bool
        ensures { result ≡ is_clean (history C.change self.now) }
    {
        if self.sequences.is_open() {
            return false;
        }
        self.sequences.steps.clean == Some(self.sequences.steps.index)
    }

    /// The index at which the document counts as clean, and `None` where that was lost.
    pub fn clean_index(&self) -> Option<usize>
        ensures { result ≡ (history C.change self.now).clean }
    {
        self.sequences.steps.clean
    }

    /// The document at the index, and within an open macro the one after what was pushed last.
    pub fn document(&self) -> &Document
        requires { Holds C.change self.now }
        ensures { result.now ≡ current (history C.change self.now) }
    {
        &self.document
    }

    /// Goes to the layer with an id, so that the document finds it at once, and a turn that changes it walks nowhere. It is for
    /// speed alone: the history stays.
    pub fn seek_layer(&mut self, layer: u32)
        requires { Holds C.change self.old }
        ensures sound { Holds C.change self.new }
        ensures same { history C.change self.new ≡ history C.change self.old }
        ensures kept { nestings self.new ≡ nestings self.old }
    {
        self.document.seek_layer(layer);
    }

    /// Goes to the object with an id in the same way, where ids rise along its layer.
    pub fn seek_object(&mut self, object: u32)
        requires { Holds C.change self.old }
        ensures sound { Holds C.change self.new }
        ensures same { history C.change self.new ≡ history C.change self.old }
        ensures kept { nestings self.new ≡ nestings self.old }
    {
        self.document.seek_object(object);
    }

    /// The text for undo: the action text of the step below the index, and empty where there is none or a macro is open.
    pub fn undo_text(&self) -> &str
        ensures { result.now ≡ undo_text_of (history C.change self.now) }
    {
        if self.sequences.is_open() {
            return "";
        }
        if self.sequences.steps.index == 0 {
            return "";
        }
        self.action_text(self.sequences.steps.index - 1)
    }

    /// The text for redo: the action text of the step above the index, and empty where there is none or a macro is open.
    pub fn redo_text(&self) -> &str
        ensures { result.now ≡ redo_text_of (history C.change self.now) }
    {
        if self.sequences.is_open() {
            return "";
        }
        self.action_text(self.sequences.steps.index)
    }

    /// The text for lists of the step with this number, where the first one has 0, and `None` past the last one. An open
    /// macro stands last, with the text of the outermost one.
    pub fn text(&self, at: usize) -> Option<&str>
        ensures { option_copied result ≡ text_at (history C.change self.now) at }
    {
        match self.sequences.steps.entries.get(at) {
            Some(entry) => Some(entry.text()),
            None => self.open_text(at),
        }
    }

    // The text of the outermost open macro, at the number behind the entries.
    fn open_text(&self, at: usize) -> Option<&str>
        requires { length self.now.sequences.steps.entries.items ≤ at }
        ensures { option_copied result ≡ text_at (history C.change self.now) at }
    {
        if at != self.sequences.steps.entries.len() {
            return None;
        }
        match self.sequences.levels.first() {
            Some(level) => Some(level.text()),
            None => None,
        }
    }

    /// Whether the step with this number is a macro, where the first one has 0, and `None` past the last one. An open macro
    /// stands last.
    pub fn is_macro(&self, at: usize) -> Option<bool>
        ensures { result ≡ slice_get (macros self.now) at }
    {
        match self.sequences.steps.entries.get(at) {
            Some(entry) => Some(entry.is_macro()),
            None => self.is_open_macro(at),
        }
    }

    // Whether the step with this number, which stands behind the entries, is an open macro.
    fn is_open_macro(&self, at: usize) -> Option<bool>
        requires { length self.now.sequences.steps.entries.items ≤ at }
        ensures { result ≡ slice_get (macros self.now) at }
    {
        if self.sequences.is_open() && at == self.sequences.steps.entries.len() {
            return Some(true);
        }
        None
    }

    // The action text of the step with this number, and empty where there is none.
    fn action_text(&self, number: usize) -> &str
        ensures { result.now ≡ action_of (slice_get (history C.change self.now).steps number) }
    {
        match self.sequences.steps.entries.get(number) {
            Some(entry) => entry.action_text(),
            None => "",
        }
    }
}

impl<C: Command> Stack<C> {
    /// A law: a stack whose commands fit keeps no command that reports itself obsolete, but within ended macros.
    pub fn sound_is_calm(&self)
        requires { Holds C.change self.now }
        ensures { IsCalm C.change self.now }
    {}

    /// Makes the change of a command, and puts it into the history. The steps above the index go, and with them a clean index
    /// among them.
    ///
    /// A command that follows merges into the step below the index, where that is no macro, has the same tag, and does not
    /// end at the clean index. That step keeps its texts and leads to the new document. Where it is obsolete then, it goes,
    /// and the index is one lower.
    ///
    /// A command that merges into nothing becomes the step below the index, or no step where it is obsolete. With a limit other
    /// than 0, the first step goes where there are more than that then.
    ///
    /// While a macro is open, the command merges into the innermost one's last entry, clean or not, or becomes that.
    ///
    /// Where there is no memory for the merge or for the step, the command is dropped, and the stack is as it was, with the
    /// steps above the index.
    pub fn push(&mut self, command: C) -> Result<(), AllocError>
        requires sound { Holds C.change self.old }
        requires fits { (C.change command).fits_redo (current (history C.change self.old)) }
        ensures sound { Holds C.change self.new }
        ensures pushed { IfOk result (λ _. IsPushed
            (history C.change self.old)
            (step_of (C.change command) (current (history C.change self.old)))
            (history C.change self.new)) }
        ensures reported { IfOk result (λ _. IsReported C.change command self.old self.new) }
        ensures unchanged { IfErr result (λ _. history C.change self.new ≡ history C.change self.old) }
        ensures kept { IfErr result (λ _. nestings self.new ≡ nestings self.old) }
    {
        match self.push_told(command) {
            Ok(_) => Ok(()),
            Err(error) => Err(error),
        }
    }

    /// As `push`, and tells what the command became. With the history before it, the answer says what the history is now: the
    /// first step is dropped exactly where the answer is `AddedAndDropped`.
    ///
    /// While a macro is open, `Merged` and `Gone` are about the innermost one's last entry, and no answer is `AddedAndDropped`.
    #[inline(always)]
    pub fn push_told(&mut self, command: C) -> Result<Pushed, AllocError>
        requires sound { Holds C.change self.old }
        requires fits { (C.change command).fits_redo (current (history C.change self.old)) }
        ensures sound { Holds C.change self.new }
        ensures pushed { IfOk result (λ _. IsPushed
            (history C.change self.old)
            (step_of (C.change command) (current (history C.change self.old)))
            (history C.change self.new)) }
        ensures reported { IfOk result (λ _. IsReported C.change command self.old self.new) }
        ensures told { IfOk result (λ p. IsTold C.change command p self.old self.new) }
        ensures next { IfOk result (λ p. history C.change self.new ≡ next_of (says_merged p) (says_gone p)
            (step_of (C.change command) (current (history C.change self.old)))
            (cut (history C.change self.old))) }
        ensures dropped { IfOk result (λ p. let h = history C.change self.old in TellsDrop p h.levels h) }
        ensures unchanged { IfErr result (λ _. history C.change self.new ≡ history C.change self.old) }
        ensures kept { IfErr result (λ _. nestings self.new ≡ nestings self.old) }
    {
        self.sequences
            .innermost()
            .push(self.alloc, command, &mut self.document)
    }
}

impl<C: Command> Stack<C> {
    /// Turns the step below the index back, and lowers the index by one. Takes no memory. Where the step is that of a free
    /// command, which is obsolete then, it goes, and a clean index above it is lost.
    ///
    /// The answer is `MacroOpen` while a macro is open, and `NothingToUndo` where the index is 0. The stack is then as it
    /// was.
    pub fn undo(&mut self) -> Result<(), StackFault>
        requires { Holds C.change self.old }
        ensures sound { Holds C.change self.new }
        ensures reported { IfOk result (λ _. IsTurnReported C.change ((history C.change self.old).position - 1) self.old self.new) }
        ensures step { Undoes (history C.change self.old) result (history C.change self.new) }
        ensures kept { IfErr result (λ _. nestings self.new ≡ nestings self.old) }
    {
        if self.sequences.is_open() {
            return Err(StackFault::MacroOpen);
        }
        if self.sequences.steps.index == 0 {
            return Err(StackFault::NothingToUndo);
        }
        self.sequences.steps.step_back(&mut self.document);
        Ok(())
    }

    /// Makes the step above the index again, and raises the index by one. Takes no memory. Where the step is that of a free
    /// command, which is obsolete then, it goes, the index stays, and a clean index above it is lost.
    ///
    /// The answer is `MacroOpen` while a macro is open, and `NothingToRedo` where the index is the count. The stack is then
    /// as it was.
    pub fn redo(&mut self) -> Result<(), StackFault>
        requires { Holds C.change self.old }
        ensures sound { Holds C.change self.new }
        ensures reported { IfOk result (λ _. IsTurnReported C.change ((history C.change self.old).position + 1) self.old self.new) }
        ensures step { Redoes (history C.change self.old) result (history C.change self.new) }
        ensures kept { IfErr result (λ _. nestings self.new ≡ nestings self.old) }
    {
        if self.sequences.is_open() {
            return Err(StackFault::MacroOpen);
        }
        if self.sequences.steps.index == self.sequences.steps.entries.len() {
            return Err(StackFault::NothingToRedo);
        }
        self.sequences.steps.step_on(&mut self.document);
        Ok(())
    }

    /// Undoes or redoes until the index is this one, where a number past the count means the count. Takes no memory.
    /// Steps go as in an undo or a redo, and each that goes on the way up leaves the index one lower in the end.
    ///
    /// The answer is `MacroOpen` while a macro is open, and the stack is then as it was.
    pub fn set_index(&mut self, index: usize) -> Result<(), StackFault>
        requires { Holds C.change self.old }
        ensures sound { Holds C.change self.new }
        ensures reported { IfOk result (λ _. IsTurnReported C.change index self.old self.new) }
        ensures step { SetsIndex index (history C.change self.old) result (history C.change self.new) }
        ensures kept { IfErr result (λ _. nestings self.new ≡ nestings self.old) }
    {
        if self.sequences.is_open() {
            return Err(StackFault::MacroOpen);
        }
        if self.sequences.steps.has_free {
            self.sequences.steps.step_to(&mut self.document, index);
        } else {
            self.sequences.steps.turn_to(&mut self.document, index);
        }
        Ok(())
    }

    /// Makes the index the clean index.
    ///
    /// The answer is `MacroOpen` while a macro is open, and the stack is then as it was.
    pub fn set_clean(&mut self) -> Result<(), StackFault>
        requires { Holds C.change self.old }
        ensures sound { Holds C.change self.new }
        ensures step { MarksClean (history C.change self.old) result (history C.change self.new) }
        ensures kept { nestings self.new ≡ nestings self.old }
    {
        if self.sequences.is_open() {
            return Err(StackFault::MacroOpen);
        }
        self.sequences.steps.clean = Some(self.sequences.steps.index);
        Ok(())
    }

    /// Leaves no clean index.
    pub fn reset_clean(&mut self)
        requires { Holds C.change self.old }
        ensures sound { Holds C.change self.new }
        ensures step { UnmarksClean (history C.change self.old) (history C.change self.new) }
        ensures kept { nestings self.new ≡ nestings self.old }
    {
        self.sequences.steps.clean = None;
    }

    /// Sets the most steps that the stack keeps, where 0 stands for any number. Takes no memory.
    ///
    /// The answer is `NotEmpty` where there are steps, of which an open macro is one, and the stack is then as it was.
    pub fn set_undo_limit(&mut self, limit: usize) -> Result<(), StackFault>
        requires limit { limit ≤ MAX_LIMIT }
        requires sound { Holds C.change self.old }
        ensures sound { Holds C.change self.new }
        ensures step { SetsLimit limit (history C.change self.old) result (history C.change self.new) }
        ensures kept { nestings self.new ≡ nestings self.old }
    {
        if self.count() != 0 {
            return Err(StackFault::NotEmpty);
        }
        self.sequences.steps.limit = limit;
        Ok(())
    }

    /// Drops all steps and the open macros, and undoes none of them. The document and the limit stay, and the
    /// stack is clean at index 0.
    pub fn clear(&mut self)
        requires { Holds C.change self.old }
        ensures sound { Holds C.change self.new }
        ensures step { Clears (history C.change self.old) (history C.change self.new) }
        ensures nests { nestings self.new ≡ no_nestings }
    {
        // One document, the steps, the macros that are open and the allocator are all that a stack keeps.
        let Stack {
            document: _,
            sequences,
            alloc: _,
        } = self;
        let Sequences { steps, levels } = sequences;
        steps.clear();
        levels.clear();
    }
}
