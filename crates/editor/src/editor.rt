ghost use Rattle.std.specs.Prelude.{◌≡◌, ℕ, ◌≤◌, [], Some, length, false};
ghost use Rattle.command_api.specs.Names.{is_free};
ghost use Rattle.map_store.specs.Files.{StoreParts};
ghost use Rattle.session.specs.Spelling.{CanBeSpelled};
ghost use Rattle.session.specs.declared.line.Line.TheVariants.{Redo, Undo};
ghost use Rattle.undo_stack.specs.declared.limits.TheConstants.{MAX_LIMIT};
ghost use Rattle.undo_stack.specs.History.{History};
ghost use Rattle.undo_stack.specs.Moving.{Answer, GoesTo, StepsBack, StepsOn};
ghost use Rattle.undo_stack.specs.Turning.{IsSteady, Redoes, SetsIndex, Undoes};
ghost use Rattle.undo_group.specs.Stacks.{group_of, stacks_of, AreHeld};
ghost use Rattle.document_lines.specs.Machine.{active_of, started_machine, workspace};
ghost use Rattle.document_lines.specs.Planning.{KeepsReply};
ghost use Rattle.document_lines.specs.Rules.{Allows, MachineStep};
ghost use Rattle.document_lines.specs.Turns.{turning_rule_of};
ghost use Rattle.editor.specs.Asking.{PlanAsks};
ghost use Rattle.editor.specs.Editors.{machine_of, stacks_in, IsHeld, IsSound};
ghost use Rattle.editor.specs.Kinds.{CommitKinds, PlanKinds, StepKinds, kinds_in};
ghost use Rattle.editor.specs.MorePlanning.{PlansMoreIn};
ghost use Rattle.editor.specs.Planning.{Commits, FitsActive, FitsPlan, KeepsPlan, Plans};
ghost use Rattle.editor.specs.Turns.{PlansTurns, ReportsPush};

mod documents;
mod files;

use crate::tell::{NoTell, Tell};
use command_api::Command;
use document_lines::{Fractions, Planned, answered, on_document, on_more_line, refused, state_of};
use map_store::MapStore;
use refusals::Refusal;
use session::{Line, MoreLine, Reply};
use std::alloc::Global;
use undo_group::Group;

/// Where no step of a history is that of a free command, what the stack's calls do are the moves of the table of rules.
pub fn turns_are_moves()
    ensures undo { (h n : History) (answer : Answer) → IsSteady h → Undoes h answer n → StepsBack h answer n }
    ensures redo { (h n : History) (answer : Answer) → IsSteady h → Redoes h answer n → StepsOn h answer n }
    ensures goto { (i : ℕ) (h n : History) (answer : Answer) → IsSteady h → h.position ≤ length h.steps
        → SetsIndex i h answer n → GoesTo i h answer n }
{}

/// The open documents, with their undo stacks.
#[derive(Drop)]
pub struct Editor<C> {
    group: Group<C>,
    // The undo limit of a document when it is made.
    limit: usize,
}

impl<C: Command> Editor<C> {
    /// An editor with no document. The limit is the undo limit of each document when it is made, at most 1,000,000, where
    /// 0 stands for none.
    pub fn new(alloc: Global, limit: usize) -> Editor<C>
        requires { limit ≤ MAX_LIMIT }
        ensures sound { IsSound C.change result }
        ensures machine { machine_of C.change result ≡ started_machine limit }
        ensures kinds { kinds_in result ≡ [] }
    {
        Editor {
            group: Group::new(alloc),
            limit,
        }
    }

    /// The open documents.
    pub fn group(&self) -> &Group<C>
        requires { IsHeld C.change self.now }
        ensures group { group_of C.change result.now ≡ (machine_of C.change self.now).group }
        ensures stacks { stacks_of result.now ≡ stacks_in self.now }
        ensures held { AreHeld C.change result.now }
    {
        &self.group
    }

    /// Goes to the object with an id in the active document, so that a look-up finds it at once where ids rise along its layer. It is
    /// for speed alone: the documents and their steps stay as they are.
    pub fn seek_object(&mut self, object: u32)
        requires { IsHeld C.change self.old }
        ensures held { IsHeld C.change self.new }
        ensures sound { IsSound C.change self.old → IsSound C.change self.new }
        ensures machine { machine_of C.change self.new ≡ machine_of C.change self.old }
        ensures kinds { kinds_in self.new ≡ kinds_in self.old }
    {
        match self.group.active_mut() {
            Some(stack) => stack.seek_object(object),
            None => {}
        }
    }

    /// Does what a line asks for, but for an edit, which is left to be put into a box and committed.
    ///
    /// The editor is as it was after an edit that was planned and after every refusal. The store is called for the lines
    /// `open` and `save` alone, and at most once. A map is said to be saved only where the store keeps its text.
    pub fn plan<S: MapStore>(&mut self, alloc: Global, store: &mut S, line: &Line<'_>) -> Planned
        requires held { IsHeld C.change self.old }
        requires spelled { CanBeSpelled line.now }
        ensures held { IsHeld C.change self.new }
        ensures turns { PlansTurns line.now (workspace (machine_of C.change self.old) (S.stored store.old)) result (workspace (machine_of C.change self.new) (S.stored store.new)) }
        ensures unchanged { KeepsPlan result (machine_of C.change self.old) (machine_of C.change self.new) }
        ensures fits { FitsPlan (machine_of C.change self.new) result }
        ensures asks { PlanAsks line.now (machine_of C.change self.old) (S.keeps store.new) result (S.asked store.old) (S.asked store.new) }

        // Where no step is that of a free command, this is the machine's step.
        ensures sound { IsSound C.change self.old → IsSound C.change self.new }
        ensures plans { IsSound C.change self.old
            → Plans line.now (workspace (machine_of C.change self.old) (S.stored store.old)) result (workspace (machine_of C.change self.new) (S.stored store.new)) }

        // And of each step of each document it is known whether it is a macro.
        ensures kinds { IsSound C.change self.old
            → PlanKinds line.now (machine_of C.change self.old) result (machine_of C.change self.new) (kinds_in self.old) (kinds_in self.new) }
    {
        match line {
            Line::Quiet => Planned::Quiet,
            Line::New { .. }
            | Line::Open { .. }
            | Line::Save { .. }
            | Line::Close { .. }
            | Line::Discard { .. }
            | Line::Use { .. }
            | Line::Documents
            | Line::Status
            | Line::UndoText
            | Line::RedoText => Planned::Reply(self.on_documents(alloc, store, line)),
            _ => match self.group.active_mut() {
                Some(stack) => on_document(alloc, stack, line),
                None => refused(Refusal::NoActiveDocument),
            },
        }
    }

    /// Plans the edit that a line for all edits asks for, which is left to be put into a box and committed. The editor is as it was.
    pub fn plan_more(&mut self, alloc: Global, line: &MoreLine<'_>, fractions: Fractions) -> Planned
        requires { IsHeld C.change self.old }
        ensures held { IsHeld C.change self.new }
        ensures sound { IsSound C.change self.old → IsSound C.change self.new }
        ensures machine { machine_of C.change self.new ≡ machine_of C.change self.old }
        ensures kinds { kinds_in self.new ≡ kinds_in self.old }
        ensures fits { FitsPlan (machine_of C.change self.new) result }
        ensures plans { PlansMoreIn fractions line.now (active_of (machine_of C.change self.old)) result }
    {
        match self.group.active_mut() {
            Some(stack) => on_more_line(alloc, stack, line, fractions),
            None => refused(Refusal::NoActiveDocument),
        }
    }

    /// Does the line `undo`, as `plan` does, and gives its reply: a shorter way for a frequent line.
    // (inlined, like `redo` and `status`, so that the reply is not written to memory and read again)
    #[inline(always)]
    pub fn undo(&mut self) -> Reply
        requires { IsHeld C.change self.old }
        ensures held { IsHeld C.change self.new }
        ensures turns { (stored : StoreParts)
            → Allows (turning_rule_of Undo) (workspace (machine_of C.change self.old) stored) (Some result) (workspace (machine_of C.change self.new) stored) }
        ensures unchanged { KeepsReply result (machine_of C.change self.old) (machine_of C.change self.new) }

        // Where no step is that of a free command, this is the machine's step, whatever the store keeps.
        ensures sound { IsSound C.change self.old → IsSound C.change self.new }
        ensures step { IsSound C.change self.old → (stored : StoreParts)
            → MachineStep Undo (workspace (machine_of C.change self.old) stored) (Some result) (workspace (machine_of C.change self.new) stored) }
        ensures kinds { IsSound C.change self.old
            → StepKinds Undo (machine_of C.change self.old) (Some result) (machine_of C.change self.new) (kinds_in self.old) (kinds_in self.new) }
    {
        match self.group.active_mut() {
            Some(stack) => {
                let answer = stack.undo();
                answered(stack, answer)
            }
            None => Reply::Refused(Refusal::NoActiveDocument),
        }
    }

    /// Does the line `redo`, as `plan` does, and gives its reply.
    #[inline(always)]
    pub fn redo(&mut self) -> Reply
        requires { IsHeld C.change self.old }
        ensures held { IsHeld C.change self.new }
        ensures turns { (stored : StoreParts)
            → Allows (turning_rule_of Redo) (workspace (machine_of C.change self.old) stored) (Some result) (workspace (machine_of C.change self.new) stored) }
        ensures unchanged { KeepsReply result (machine_of C.change self.old) (machine_of C.change self.new) }

        // Where no step is that of a free command, this is the machine's step, whatever the store keeps.
        ensures sound { IsSound C.change self.old → IsSound C.change self.new }
        ensures step { IsSound C.change self.old → (stored : StoreParts)
            → MachineStep Redo (workspace (machine_of C.change self.old) stored) (Some result) (workspace (machine_of C.change self.new) stored) }
        ensures kinds { IsSound C.change self.old
            → StepKinds Redo (machine_of C.change self.old) (Some result) (machine_of C.change self.new) (kinds_in self.old) (kinds_in self.new) }
    {
        match self.group.active_mut() {
            Some(stack) => {
                let answer = stack.redo();
                answered(stack, answer)
            }
            None => Reply::Refused(Refusal::NoActiveDocument),
        }
    }

    /// Pushes a command onto the active document's stack, and says how that stands. Where there is no memory the editor is as
    /// it was.
    pub fn commit(&mut self, command: C) -> Reply
        requires held { IsHeld C.change self.old }
        requires fits { FitsActive (active_of (machine_of C.change self.old)) (C.change command) }
        ensures held { IsHeld C.change self.new }
        ensures commits { Commits (active_of (machine_of C.change self.old)) (C.change command) result (machine_of C.change self.old) (machine_of C.change self.new) }
        ensures reported { ReportsPush C.change command result self.old self.new }
        ensures kinds { CommitKinds (C.change command) (machine_of C.change self.old) result (machine_of C.change self.new) (kinds_in self.old) (kinds_in self.new) }
        ensures sound { IsSound C.change self.old → is_free (C.change command).names.vanishing ≡ false → IsSound C.change self.new }
    {
        self.commit_told(command, &mut NoTell)
    }

    /// As `commit`, and tells what the command became.
    pub fn commit_told<T: Tell>(&mut self, command: C, tell: &mut T) -> Reply
        requires held { IsHeld C.change self.old }
        requires fits { FitsActive (active_of (machine_of C.change self.old)) (C.change command) }
        ensures held { IsHeld C.change self.new }
        ensures commits { Commits (active_of (machine_of C.change self.old)) (C.change command) result (machine_of C.change self.old) (machine_of C.change self.new) }
        ensures reported { ReportsPush C.change command result self.old self.new }
        ensures kinds { CommitKinds (C.change command) (machine_of C.change self.old) result (machine_of C.change self.new) (kinds_in self.old) (kinds_in self.new) }
        ensures sound { IsSound C.change self.old → is_free (C.change command).names.vanishing ≡ false → IsSound C.change self.new }
    {
        match self.group.active_mut() {
            Some(stack) => match stack.push_told(command) {
                Ok(pushed) => {
                    tell.pushed(pushed);
                    state_of(stack)
                }
                Err(_) => Reply::Refused(Refusal::NoMemory),
            },
            None => unreachable!(),
        }
    }
}
