//! Strict runs: what ends them, and where they say so.
ghost use Rattle.std.specs.Prelude.{◌≡◌, ◌≤◌, ◌∷◌, [], List, Option, None, Some, IfErr, IfNone, IfOk, IfSome, IsErrOf, IsTrue, MatchBool, OnErr, OnOk, ◌⊎◌, option_to_list};
ghost use Rattle.std.specs.Option.{option_map};
ghost use Rattle.std.specs.Io.KnownBytes.{Keeps};
ghost use Rattle.undo_stack.specs.History.{is_clean};
ghost use Rattle.undo_stack.specs.Stacks.{history, Holds};
ghost use Rattle.undo_stack.specs.declared.limits.TheConstants.{MAX_LIMIT};
ghost use Rattle.undo_group.specs.Stacks.{group_of, AreHeld};
ghost use Rattle.document_lines.specs.Machine.{started_machine, workspace};
ghost use Rattle.document_lines.specs.MoreRules.{AnyStepIn};
ghost use Rattle.document_lines.specs.Rules.{MachineStepIn};
ghost use Rattle.session_run.specs.StrictRuns.{AreClean, RunsClean, RunsStrictlyToUnread, RunsStrictlyToWrite, RunsToRefused, Tells, TellsRefused, TellsUnsaved, Told, RefusedLine, UnsavedDocument, refused_text, unsaved_of, unsaved_told, utf8_text_of};
ghost use Rattle.session_run.specs.StrictEnds.{TellsFault};
ghost use Rattle.session_run.specs.WithinRuns.{EndsOver};

use crate::running::{RunFault, Summary, run_lines};
use crate::writing::WriteFault;
use command_api::Command;
use document_lines::{Dialect, Fractions};
use lines::LineReader;
use map_store::MapStore;
use refusals::{LineFault, Refusal};
use std::alloc::Global;
use std::io::{Read, Write};
use thiserror::Error;
use undo_group::Group;
use undo_stack::Stack;

/// Why a document is not clean at the end of the input.
#[derive(Clone, Copy, Debug, PartialEq, Eq)]
pub enum Unsaved {
    /// A macro is open.
    OpenMacro,
    /// Its index is not the clean one.
    Changes,
}

/// Why a strict run did not end well.
#[derive(Debug, Drop, Error)]
pub enum StrictFault {
    /// As each run may end.
    #[error(transparent)]
    Run(RunFault),
    /// A line was refused. That line and those before it are done, and no later one is. All replies were written.
    #[error("line refused")]
    Refused,
    /// The whole input was read, and not each document is clean. All replies were written.
    #[error("unsaved changes")]
    Unsaved,
}

/// What ended a run, where no fault did.
#[derive(Clone, Copy, Debug, PartialEq, Eq)]
pub enum End {
    Input,
    /// A line of a strict run was refused.
    Refused,
    /// A strict run has read its whole input, and not each document is clean.
    Unsaved,
}

/// Where a strict run says what ended it. What it was told, in order, is known of a report that keeps it.
pub trait Report {
    ghost told: { Self → Option (List Told) } = { λ _. None };

    /// A line was refused. Its number counts from 1. A line that is too long or not UTF-8 has no text.
    fn refused(&mut self, number: u64, text: Option<&str>, refusal: Refusal)
        ensures { Tells (told self.old) (told self.new) (RefusedLine number (option_map (λ t. t.now) text.entry) refusal ∷ []) };

    /// A document is not clean at the end of the input.
    fn unsaved(&mut self, document: &str, unsaved: Unsaved)
        ensures { Tells (told self.old) (told self.new) (UnsavedDocument document.now unsaved ∷ []) };
}

/// Where nobody is told: the report of a run that is not strict.
#[derive(Drop)]
pub struct Nobody;

impl Report for Nobody {
    fn refused(&mut self, _number: u64, _text: Option<&str>, _refusal: Refusal) {}

    fn unsaved(&mut self, _document: &str, _unsaved: Unsaved) {}
}

// The refusal that ends a run: that of a line, if it was refused and the run is strict.
#[inline(always)]
pub fn ending(is_strict: bool, refusal: Option<Refusal>) -> Option<Refusal>
    ensures some { IfSome result (λ own. refusal ≡ Some own) }
    ensures strict { IfSome result (λ _. IsTrue is_strict) }
    ensures none { IfNone result (IsTrue is_strict → refusal ≡ None) }
{
    if is_strict { refusal } else { None }
}

// The text of a line that is UTF-8.
fn utf8_text(line: &[u8]) -> Option<&str>
    ensures { option_map (λ t. t.now) result ≡ utf8_text_of line.now }
{
    match str::from_utf8(line) {
        Ok(text) => Some(text),
        Err(_) => None,
    }
}

// The text of a refused line, where it has one.
fn text_of(line: &[u8], refusal: Refusal) -> Option<&str>
    ensures { option_map (λ t. t.now) result ≡ refused_text line.now refusal }
{
    match refusal {
        Refusal::Line(fault) => match fault {
            LineFault::TooLong => None,
            _ => utf8_text(line),
        },
        _ => utf8_text(line),
    }
}

// Ends a strict run at a refused line, which is the last one that was read and whose reply was written: shows the reply, and
// says which line it was.
pub fn end_refused<W: Write>(
    writer: &mut W,
    report: &mut dyn Report,
    number: u64,
    lines: &LineReader,
    refusal: Refusal,
) -> Result<(), WriteFault>
    ensures bytes { Keeps (W.contents writer.old) (W.contents writer.new) }
    ensures told { OnOk result (Tells (told report.old) (told report.new) (RefusedLine number (refused_text lines.now.line refusal) refusal ∷ [])) }
    ensures untold { OnErr result (Tells (told report.old) (told report.new) []) }
{
    writer.flush().map_err(|_| WriteFault)?;
    report.refused(number, text_of(lines.line(), refusal), refusal);
    Ok(())
}

// Why a document is not clean, where it is not.
fn unsaved_in<C: Command>(stack: &Stack<C>) -> Option<Unsaved>
    requires { Holds C.change stack.now }
    ensures { result ≡ unsaved_of (history C.change stack.now) }
{
    if stack.is_clean() {
        return None;
    }
    if stack.depth() > 0 {
        Some(Unsaved::OpenMacro)
    } else {
        Some(Unsaved::Changes)
    }
}

// Names each document that is not clean, and says whether there was one.
fn report_unsaved<C: Command>(group: &Group<C>, report: &mut dyn Report) -> bool
    requires { AreHeld C.change group.now }
    ensures clean { MatchBool result (AreClean (group_of C.change group.now).documents → ⊥) (AreClean (group_of C.change group.now).documents) }
    ensures told { Tells (told report.old) (told report.new) (unsaved_told (group_of C.change group.now).documents) }
{
    let mut is_unsaved = false;
    for name in group.names() {
        if let Some(stack) = group.get(name) {
            if let Some(unsaved) = unsaved_in(stack) {
                report.unsaved(name, unsaved);
                is_unsaved = true;
            }
        }
    }
    is_unsaved
}

// Why a run ends that has handled all lines. In a strict run each document that is not clean is told.
pub fn end_over<C: Command>(is_strict: bool, group: &Group<C>, report: &mut dyn Report) -> End
    requires { AreHeld C.change group.now }
    ensures { EndsOver result is_strict (group_of C.change group.now).documents (told report.old) (told report.new) }
{
    if !is_strict {
        return End::Input;
    }
    if report_unsaved(group, report) {
        return End::Unsaved;
    }
    End::Input
}

/// Does a run that the first refused line ends, and that fails at the end of the input where a document has unsaved changes or an
/// open macro. The report says which line or documents. All else is as in `run`; the writer is flushed however it ends, but for a
/// write fault.
pub fn run_strict<R: Read, W: Write, S: MapStore>(
    alloc: Global,
    reader: &mut R,
    writer: &mut W,
    store: &mut S,
    limit: usize,
    report: &mut dyn Report,
) -> Result<Summary, StrictFault>
    requires { limit ≤ MAX_LIMIT }

    // All lines of the input were handled, none was refused, and each document is clean. Nothing is told.
    ensures ok { IfOk result (λ summary. IfSome (R.remaining reader.old) (λ input.
        RunsClean MachineStepIn (workspace (started_machine limit) (S.stored store.old)) input (W.contents writer.old) (W.contents writer.new) (S.stored store.new)
        summary.lines summary.replies)) }
    ensures quiet { OnOk result (Tells (told report.old) (told report.new) []) }

    // As `run`, and no line was refused before.
    ensures read { IsErrOf result (StrictFault.Run RunFault.Read) → IfSome (R.remaining reader.old) (λ input.
        RunsStrictlyToUnread MachineStepIn (workspace (started_machine limit) (S.stored store.old)) input (R.remaining reader.new) (W.contents writer.old) (W.contents writer.new) (S.stored store.new)) }

    // As `run`, and no line was refused before; or the flush failed behind the first line that was refused.
    ensures write { IsErrOf result (StrictFault.Run RunFault.Write) → IfSome (R.remaining reader.old) (λ input.
        RunsStrictlyToUnread MachineStepIn (workspace (started_machine limit) (S.stored store.old)) input (R.remaining reader.new) (W.contents writer.old) (W.contents writer.new) (S.stored store.new)
        ⊎ RunsToRefused MachineStepIn (workspace (started_machine limit) (S.stored store.old)) input (W.contents writer.old) (W.contents writer.new) (S.stored store.new)
        ⊎ RunsStrictlyToWrite MachineStepIn (workspace (started_machine limit) (S.stored store.old)) input (W.contents writer.old) (W.contents writer.new) (S.stored store.new)) }
    ensures memory { IsErrOf result (StrictFault.Run RunFault.Memory) → (writer.new ≡ writer.old) × (reader.new ≡ reader.old) × (store.new ≡ store.old) }

    // The lines up to and with the first that was refused are done, and that one is told, by its number, its text and the refusal.
    ensures refused { IsErrOf result StrictFault.Refused → IfSome (R.remaining reader.old) (λ input.
        TellsRefused MachineStepIn (workspace (started_machine limit) (S.stored store.old)) input (W.contents writer.old) (W.contents writer.new) (S.stored store.new) (told report.old) (told report.new)) }

    // All lines are done, and exactly the documents that are not clean are told, each with the reason.
    ensures unsaved { IsErrOf result StrictFault.Unsaved → IfSome (R.remaining reader.old) (λ input.
        TellsUnsaved MachineStepIn (workspace (started_machine limit) (S.stored store.old)) input (W.contents writer.old) (W.contents writer.new) (S.stored store.new) (told report.old) (told report.new)) }

    // Whether or not the reader tells its bytes: of a fault of `run` nothing is told, of a refused line one, and else documents.
    ensures told { IfErr result (λ fault. TellsFault fault (told report.old) (told report.new)) }
{
    match run_lines(
        alloc,
        reader,
        writer,
        store,
        limit,
        Dialect::Plain,
        true,
        report,
    ) {
        Ok(ended) => match ended.end {
            End::Input => Ok(ended.summary),
            End::Refused => Err(StrictFault::Refused),
            End::Unsaved => Err(StrictFault::Unsaved),
        },
        Err(fault) => Err(StrictFault::Run(fault)),
    }
}

/// As `run_strict`, and reads the lines for all edits too, as `run_all_edits` does.
pub fn run_strict_all_edits<R: Read, W: Write, S: MapStore>(
    alloc: Global,
    reader: &mut R,
    writer: &mut W,
    store: &mut S,
    limit: usize,
    fractions: Fractions,
    report: &mut dyn Report,
) -> Result<Summary, StrictFault>
    requires { limit ≤ MAX_LIMIT }

    // All lines of the input were handled, none was refused, and each document is clean. Nothing is told.
    ensures ok { IfOk result (λ summary. IfSome (R.remaining reader.old) (λ input.
        RunsClean (AnyStepIn fractions) (workspace (started_machine limit) (S.stored store.old)) input (W.contents writer.old) (W.contents writer.new) (S.stored store.new)
        summary.lines summary.replies)) }
    ensures quiet { OnOk result (Tells (told report.old) (told report.new) []) }

    // As `run`, and no line was refused before.
    ensures read { IsErrOf result (StrictFault.Run RunFault.Read) → IfSome (R.remaining reader.old) (λ input.
        RunsStrictlyToUnread (AnyStepIn fractions) (workspace (started_machine limit) (S.stored store.old)) input (R.remaining reader.new) (W.contents writer.old) (W.contents writer.new) (S.stored store.new)) }

    // As `run`, and no line was refused before; or the flush failed behind the first line that was refused.
    ensures write { IsErrOf result (StrictFault.Run RunFault.Write) → IfSome (R.remaining reader.old) (λ input.
        RunsStrictlyToUnread (AnyStepIn fractions) (workspace (started_machine limit) (S.stored store.old)) input (R.remaining reader.new) (W.contents writer.old) (W.contents writer.new) (S.stored store.new)
        ⊎ RunsToRefused (AnyStepIn fractions) (workspace (started_machine limit) (S.stored store.old)) input (W.contents writer.old) (W.contents writer.new) (S.stored store.new)
        ⊎ RunsStrictlyToWrite (AnyStepIn fractions) (workspace (started_machine limit) (S.stored store.old)) input (W.contents writer.old) (W.contents writer.new) (S.stored store.new)) }
    ensures memory { IsErrOf result (StrictFault.Run RunFault.Memory) → (writer.new ≡ writer.old) × (reader.new ≡ reader.old) × (store.new ≡ store.old) }

    // The lines up to and with the first that was refused are done, and that one is told, by its number, its text and the refusal.
    ensures refused { IsErrOf result StrictFault.Refused → IfSome (R.remaining reader.old) (λ input.
        TellsRefused (AnyStepIn fractions) (workspace (started_machine limit) (S.stored store.old)) input (W.contents writer.old) (W.contents writer.new) (S.stored store.new) (told report.old) (told report.new)) }

    // All lines are done, and exactly the documents that are not clean are told, each with the reason.
    ensures unsaved { IsErrOf result StrictFault.Unsaved → IfSome (R.remaining reader.old) (λ input.
        TellsUnsaved (AnyStepIn fractions) (workspace (started_machine limit) (S.stored store.old)) input (W.contents writer.old) (W.contents writer.new) (S.stored store.new) (told report.old) (told report.new)) }

    // Whether or not the reader tells its bytes: of a fault of `run` nothing is told, of a refused line one, and else documents.
    ensures told { IfErr result (λ fault. TellsFault fault (told report.old) (told report.new)) }
{
    match run_lines(
        alloc,
        reader,
        writer,
        store,
        limit,
        Dialect::AllEdits(fractions),
        true,
        report,
    ) {
        Ok(ended) => match ended.end {
            End::Input => Ok(ended.summary),
            End::Refused => Err(StrictFault::Refused),
            End::Unsaved => Err(StrictFault::Unsaved),
        },
        Err(fault) => Err(StrictFault::Run(fault)),
    }
}
