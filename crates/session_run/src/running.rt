ghost use Rattle.std.specs.Prelude.{◌≡◌, ◌≤◌, [], Err, Option, Some, IsErrOf, IsTrue, IfOk, IfSome, OnErr, OnOk, ◌⊎◌};
ghost use Rattle.undo_stack.specs.declared.limits.TheConstants.{MAX_LIMIT};
ghost use Rattle.document_lines.specs.declared.planned.Edit.{Edit};
ghost use Rattle.document_lines.specs.Machine.{started_machine, workspace};
ghost use Rattle.document_lines.specs.MoreRules.{AnyStepIn, MachineStepFor};
ghost use Rattle.document_lines.specs.Rules.{MachineStepIn};
ghost use Rattle.editor.specs.Editors.{IsSound, machine_of};
ghost use Rattle.editor.specs.Kinds.{kinds_in};
ghost use Rattle.editor.specs.MoreKinds.{StepKindsFor};
ghost use Rattle.editor.specs.Planning.{FitsPlan};
ghost use Rattle.map_store.specs.Files.{StoreParts};
ghost use Rattle.session.specs.Grammar.{line_of};
ghost use Rattle.session_run.specs.Asking.{AsksIn};
ghost use Rattle.session_run.specs.Planned.{PlansBytes, PlansKinds, plan_or_refusal};
ghost use Rattle.session_run.specs.Runs.{RunsAll, RunsToUnread, RunsToWrite};
ghost use Rattle.session_run.specs.StrictRuns.{Tells};
ghost use Rattle.session_run.specs.WithinRuns.{EndsAs, EndsInWrite, PutsSame, StepFound, fault_of_both, Stops, StopsInWrite, StopsUnread, TellsEnd};

use crate::frequent::{FrequentLine, frequent_line};
use crate::strict::{End, Nobody, Report, end_over, end_refused, ending};
use crate::writing::write_reply;
use arrayvec::ArrayString;
use command_api::Command;
use document_lines::{Dialect, Fractions};
use editor::{Edit, Editor, NoTell, Planned, Tell};
use lines::{Found, LineReader};
use map_store::MapStore;
use refusals::{LineFault, Refusal};
use session::{Reply, parse_line, parse_more_line};
use std::alloc::Global;
use std::io::{Read, Write};
use thiserror::Error;

/// How many lines a run handled, quiet ones too, and how many replies it wrote.
#[derive(Clone, Copy, Debug, PartialEq, Eq)]
pub struct Summary {
    pub lines: u64,
    pub replies: u64,
}

/// Why a run ended before the end of its input.
#[derive(Debug, Drop, Error)]
pub enum RunFault {
    /// A read failed, or there were 4,294,967,296 of them. All replies to the lines before were written.
    #[error("read failed")]
    Read,
    /// A write or a flush failed, or a write took no byte. The line that was to be replied to is done.
    #[error("write failed")]
    Write,
    /// There was no memory for the line buffer. Nothing was read or written.
    #[error("no memory")]
    Memory,
}

/// How the lines of a run ended, where no fault ended them.
#[derive(Drop)]
struct Stopped {
    summary: Summary,
    /// The refusal that ended a strict run.
    refusal: Option<Refusal>,
    /// It shows the last line.
    lines: LineReader,
}

/// How a run ended, where no fault ended it.
#[derive(Clone, Copy)]
pub struct Ended {
    pub summary: Summary,
    pub end: End,
}

// A command in a box, where there is memory.
fn boxed<K: Command>(alloc: Global, command: K) -> Option<Box<K>>
    ensures { IfSome result (λ b. b.value ≡ command) }
{
    Box::new(alloc, command).ok()
}

// The fault of a line that is neither a plain one nor one for all edits: the first, where the line begins with no word of the
// latter.
fn fault_of_both(first: LineFault, more: LineFault) -> LineFault
    ensures { result ≡ fault_of_both first more }
{
    match more {
        LineFault::UnknownCommand => first,
        _ => more,
    }
}

// Plans bytes that are none of the lines that `parse_line` reads: their edit, or why they are refused. It stands by itself, so that
// only such bytes ask which lines are read; and it answers no reply, which would then go through memory for all lines.
#[cold]
#[inline(never)]
fn plan_refused<C: Command>(
    alloc: Global,
    editor: &mut Editor<C>,
    dialect: Dialect,
    fault: LineFault,
    line: &[u8],
) -> Result<Edit, Refusal>
    requires sound { IsSound C.change editor.old }
    requires unread { line_of line.now ≡ Err fault }
    ensures sound { IsSound C.change editor.new }
    ensures fits { FitsPlan (machine_of C.change editor.new) (plan_or_refusal result) }
    ensures plans { (stored : StoreParts)
        → PlansBytes C.change dialect line.now (workspace (machine_of C.change editor.old) stored) (plan_or_refusal result) (workspace (machine_of C.change editor.new) stored) }
    ensures kinds { PlansKinds C.change dialect line.now (machine_of C.change editor.old) (plan_or_refusal result) (machine_of C.change editor.new) (kinds_in editor.old) (kinds_in editor.new) }
{
    match dialect {
        Dialect::Plain => Err(Refusal::Line(fault)),
        Dialect::AllEdits(fractions) => match &parse_more_line(line) {
            Ok(own) => match editor.plan_more(alloc, own, fractions) {
                Planned::Push(edit) => Ok(edit),
                Planned::Reply(Reply::Refused(refusal)) => Err(refusal),
                Planned::Reply(_) => unreachable!(),
                Planned::Quiet => unreachable!(),
            },
            Err(more) => Err(Refusal::Line(fault_of_both(fault, *more))),
        },
    }
}

// Does the step of bytes that may be any line. What they plan is put into a command and committed here alone, whichever lines are
// read, so that both stand in the loop over the lines.
#[inline(always)]
fn step_parsed<C: Command, S: MapStore, F: Fn(Edit) -> Option<C>, T: Tell>(
    alloc: Global,
    editor: &mut Editor<C>,
    store: &mut S,
    dialect: Dialect,
    line: &[u8],
    put: &F,
    tell: &mut T,
) -> Option<Reply>
    requires sound { IsSound C.change editor.old }
    requires callable { F.IsAlwaysCallable put.now }
    requires same { (edit : Edit) (command : Option C) → F.post put.now edit command → PutsSame C.change edit command }
    ensures sound { IsSound C.change editor.new }
    ensures step { MachineStepFor dialect line.now
        (workspace (machine_of C.change editor.old) (S.stored store.old)) result (workspace (machine_of C.change editor.new) (S.stored store.new)) }
    ensures kinds { StepKindsFor dialect line.now (machine_of C.change editor.old) result (machine_of C.change editor.new) (kinds_in editor.old) (kinds_in editor.new) }
    ensures asks { AsksIn line.now (machine_of C.change editor.old) (S.keeps store.new) result (S.asked store.old) (S.asked store.new) }
{
    let edit = match &parse_line(line) {
        Ok(read) => match editor.plan(alloc, store, read) {
            Planned::Quiet => return None,
            Planned::Reply(reply) => return Some(reply),
            Planned::Push(edit) => edit,
        },
        Err(fault) => match plan_refused(alloc, editor, dialect, *fault, line) {
            Ok(edit) => edit,
            Err(refusal) => return Some(Reply::Refused(refusal)),
        },
    };
    tell.edit(&edit);
    match put(edit) {
        Some(command) => Some(editor.commit_told(command, tell)),
        None => Some(Reply::Refused(Refusal::NoMemory)),
    }
}

/// Does what a line asks for, and gives the reply to it, and none to a quiet one. The line has no newline at its end. What it
/// plans is put into a command by `put`.
///
/// The store is called for the lines `open` and `save` alone, and at most once. A map is said to be saved only where the store
/// keeps its text.
#[inline(always)]
pub fn step<C: Command, S: MapStore, F: Fn(Edit) -> Option<C>>(
    alloc: Global,
    editor: &mut Editor<C>,
    store: &mut S,
    dialect: Dialect,
    line: &[u8],
    put: &F,
) -> Option<Reply>
    requires sound { IsSound C.change editor.old }
    requires callable { F.IsAlwaysCallable put.now }
    requires same { (edit : Edit) (command : Option C) → F.post put.now edit command → PutsSame C.change edit command }
    ensures sound { IsSound C.change editor.new }
    ensures step { MachineStepFor dialect line.now
        (workspace (machine_of C.change editor.old) (S.stored store.old)) result (workspace (machine_of C.change editor.new) (S.stored store.new)) }
    ensures kinds { StepKindsFor dialect line.now (machine_of C.change editor.old) result (machine_of C.change editor.new) (kinds_in editor.old) (kinds_in editor.new) }
    ensures asks { AsksIn line.now (machine_of C.change editor.old) (S.keeps store.new) result (S.asked store.old) (S.asked store.new) }
{
    step_told(alloc, editor, store, dialect, line, put, &mut NoTell)
}

/// As `step`, and tells of the line's edit, where it is one.
#[inline(always)]
pub fn step_told<C: Command, S: MapStore, F: Fn(Edit) -> Option<C>, T: Tell>(
    alloc: Global,
    editor: &mut Editor<C>,
    store: &mut S,
    dialect: Dialect,
    line: &[u8],
    put: &F,
    tell: &mut T,
) -> Option<Reply>
    requires sound { IsSound C.change editor.old }
    requires callable { F.IsAlwaysCallable put.now }
    requires same { (edit : Edit) (command : Option C) → F.post put.now edit command → PutsSame C.change edit command }
    ensures sound { IsSound C.change editor.new }
    ensures step { MachineStepFor dialect line.now
        (workspace (machine_of C.change editor.old) (S.stored store.old)) result (workspace (machine_of C.change editor.new) (S.stored store.new)) }
    ensures kinds { StepKindsFor dialect line.now (machine_of C.change editor.old) result (machine_of C.change editor.new) (kinds_in editor.old) (kinds_in editor.new) }
    ensures asks { AsksIn line.now (machine_of C.change editor.old) (S.keeps store.new) result (S.asked store.old) (S.asked store.new) }
{
    // A frequent line is done without a parsed line and a plan.
    match frequent_line(line) {
        Some(FrequentLine::Undo) => Some(editor.undo()),
        Some(FrequentLine::Redo) => Some(editor.redo()),
        Some(FrequentLine::Status) => Some(editor.status()),
        Some(FrequentLine::UndoText) => Some(editor.undo_text(alloc)),
        Some(FrequentLine::RedoText) => Some(editor.redo_text(alloc)),
        None => step_parsed(alloc, editor, store, dialect, line, put, tell),
    }
}

// Does the step of a line that was found.
#[inline(always)]
fn step_found<C: Command, S: MapStore, F: Fn(Edit) -> Option<C>>(
    alloc: Global,
    editor: &mut Editor<C>,
    store: &mut S,
    dialect: Dialect,
    found: Found,
    line: &[u8],
    put: &F,
) -> Option<Reply>
    requires sound { IsSound C.change editor.old }
    requires callable { F.IsAlwaysCallable put.now }
    requires same { (edit : Edit) (command : Option C) → F.post put.now edit command → PutsSame C.change edit command }
    ensures sound { IsSound C.change editor.new }
    ensures step { StepFound (MachineStepFor dialect) found line.now
        (workspace (machine_of C.change editor.old) (S.stored store.old)) result (workspace (machine_of C.change editor.new) (S.stored store.new)) }
{
    match found {
        Found::TooLong => Some(Reply::Refused(Refusal::Line(LineFault::TooLong))),
        Found::Line => step(alloc, editor, store, dialect, line, put),
    }
}

// Does the steps of all lines, or in a strict run of those up to the first that is refused, and writes the replies. What a line
// plans is put into a command by `put`.
#[inline(always)]
fn step_all<C: Command, R: Read, W: Write, S: MapStore, F: Fn(Edit) -> Option<C>>(
    alloc: Global,
    editor: &mut Editor<C>,
    reader: &mut R,
    writer: &mut W,
    store: &mut S,
    dialect: Dialect,
    put: &F,
    is_strict: bool,
) -> Result<Stopped, RunFault>
    requires sound { IsSound C.change editor.old }
    requires callable { F.IsAlwaysCallable put.now }
    requires same { (edit : Edit) (command : Option C) → F.post put.now edit command → PutsSame C.change edit command }
    ensures sound { OnOk result (IsSound C.change editor.new) }
    ensures ok { IfOk result (λ stopped. IfSome (R.remaining reader.old) (λ input.
        Stops (MachineStepFor dialect) is_strict (workspace (machine_of C.change editor.old) (S.stored store.old)) input stopped.refusal (workspace (machine_of C.change editor.new) (S.stored store.new)) stopped.lines.line
        (W.contents writer.old) (W.contents writer.new) stopped.summary.lines stopped.summary.replies)) }
    ensures strict { IfOk result (λ stopped. IfSome stopped.refusal (λ _. IsTrue is_strict)) }
    ensures read { IsErrOf result RunFault.Read → IfSome (R.remaining reader.old) (λ input.
        StopsUnread (MachineStepFor dialect) is_strict (workspace (machine_of C.change editor.old) (S.stored store.old)) input (R.remaining reader.new) (W.contents writer.old) (W.contents writer.new) (S.stored store.new)) }
    ensures write { IsErrOf result RunFault.Write → IfSome (R.remaining reader.old) (λ input.
        StopsInWrite (MachineStepFor dialect) is_strict (workspace (machine_of C.change editor.old) (S.stored store.old)) input (R.remaining reader.new) (W.contents writer.old) (W.contents writer.new) (S.stored store.new)) }
    ensures memory { IsErrOf result RunFault.Memory → (writer.new ≡ writer.old) × (reader.new ≡ reader.old) × (store.new ≡ store.old) }
{
    let Ok(mut lines) = LineReader::new(alloc) else {
        return Err(RunFault::Memory);
    };
    let mut head = ArrayString::<512>::new();
    let mut summary = Summary {
        lines: 0,
        replies: 0,
    };
    'session: loop {
        // What was written is shown before a read may wait.
        if lines.flush_before_read(writer).is_err() {
            return Err(RunFault::Write);
        }
        let found = match lines.next(reader) {
            Ok(Some(found)) => found,
            Ok(None) => {
                return Ok(Stopped {
                    summary,
                    refusal: None,
                    lines,
                });
            }
            Err(_) => return Err(RunFault::Read),
        };
        summary.lines += 1;
        let Some(reply) = step_found(alloc, editor, store, dialect, found, lines.line(), put) else {
            continue 'session;
        };
        let refusal = reply.refusal();
        if write_reply(writer, &mut head, reply).is_err() {
            return Err(RunFault::Write);
        }
        summary.replies += 1;
        if let Some(refusal) = ending(is_strict, refusal) {
            return Ok(Stopped {
                summary,
                refusal: Some(refusal),
                lines,
            });
        }
    }
}

// Does a run, strict or not, and tells the report what ended a strict one. `run` and `run_strict` both call it, so the loop over
// lines stands once in a program.
#[inline(never)]
pub fn run_lines<R: Read, W: Write, S: MapStore>(
    alloc: Global,
    reader: &mut R,
    writer: &mut W,
    store: &mut S,
    limit: usize,
    dialect: Dialect,
    is_strict: bool,
    report: &mut dyn Report,
) -> Result<Ended, RunFault>
    requires { limit ≤ MAX_LIMIT }
    ensures ok { IfOk result (λ ended. IfSome (R.remaining reader.old) (λ input.
        EndsAs (MachineStepFor dialect) ended.end is_strict (workspace (started_machine limit) (S.stored store.old)) input (W.contents writer.old) (W.contents writer.new) (S.stored store.new)
        ended.summary.lines ended.summary.replies (told report.old) (told report.new))) }
    ensures told { IfOk result (λ ended. TellsEnd ended.end (told report.old) (told report.new)) }
    ensures untold { OnErr result (Tells (told report.old) (told report.new) []) }
    ensures read { IsErrOf result RunFault.Read → IfSome (R.remaining reader.old) (λ input.
        StopsUnread (MachineStepFor dialect) is_strict (workspace (started_machine limit) (S.stored store.old)) input (R.remaining reader.new) (W.contents writer.old) (W.contents writer.new) (S.stored store.new)) }
    ensures write { IsErrOf result RunFault.Write → IfSome (R.remaining reader.old) (λ input.
        EndsInWrite (MachineStepFor dialect) is_strict (workspace (started_machine limit) (S.stored store.old)) input (R.remaining reader.new) (W.contents writer.old) (W.contents writer.new) (S.stored store.new)) }
    ensures memory { IsErrOf result RunFault.Memory → (writer.new ≡ writer.old) × (reader.new ≡ reader.old) × (store.new ≡ store.old) }
{
    let mut editor: Editor<Box<dyn Command>> = Editor::new(alloc, limit);
    // Each kind of command is boxed by its own type.
    let put = |edit: Edit| -> Option<Box<dyn Command>>
        ensures { PutsSame (λ command. change command) edit result }
    {
        match edit {
            Edit::Paint(command) => Some(boxed(alloc, command)?),
            Edit::AddLayer(command) => Some(boxed(alloc, command)?),
            Edit::RemoveLayer(command) => Some(boxed(alloc, command)?),
            Edit::RenameLayer(command) => Some(boxed(alloc, command)?),
            Edit::ShowLayer(command) => Some(boxed(alloc, command)?),
            Edit::MoveLayer(command) => Some(boxed(alloc, command)?),
            Edit::Select(command) => Some(boxed(alloc, command)?),
            Edit::ResizeMap(command) => Some(boxed(alloc, command)?),
            Edit::AddObject(command) => Some(boxed(alloc, command)?),
            Edit::RemoveObject(command) => Some(boxed(alloc, command)?),
            Edit::PlaceObject(command) => Some(boxed(alloc, command)?),
            Edit::SetProperty(command) => Some(command.into_box()),
            Edit::RemoveProperty(command) => Some(boxed(alloc, command)?),
            Edit::AddTileset(command) => Some(boxed(alloc, command)?),
            Edit::RemoveTileset(command) => Some(boxed(alloc, command)?),
            Edit::SetObjectHead(command) => Some(command),
            Edit::SetLayerHead(command) => Some(command),
            Edit::SetMapHead(command) => Some(command),
            Edit::ReparentObject(command) => Some(boxed(alloc, command)?),
            Edit::PutProperty(command) => Some(boxed(alloc, command)?),
            Edit::SetTilesetHead(command) => Some(command),
            Edit::NumberTileset(command) => Some(boxed(alloc, command)?),
            Edit::SetTilesetMember(command) => Some(command),
        }
    };
    let stopped = match step_all(
        alloc,
        &mut editor,
        reader,
        writer,
        store,
        dialect,
        &put,
        is_strict,
    ) {
        Ok(stopped) => stopped,
        Err(fault) => return Err(fault),
    };
    let summary = stopped.summary;
    let Some(refusal) = stopped.refusal else {
        let end = end_over(is_strict, editor.group(), report);
        return Ok(Ended { summary, end });
    };
    if end_refused(writer, report, summary.lines, &stopped.lines, refusal).is_err() {
        return Err(RunFault::Write);
    }
    let end = End::Refused;
    Ok(Ended { summary, end })
}

/// Reads session lines to the end of the input, and writes a reply to each but the quiet ones. The maps that lines open
/// and save are files of the store. The limit is the undo limit of each document when it is made, at most 1,000,000, where 0
/// stands for none.
///
/// The replies are those of the machine that keeps, for each open document, a history of whole documents, and so are the
/// files where the store is honest. Where it is not, it may find any bytes at an `open`, and nothing is said of its files.
/// The writer is flushed before each read that may wait, and before an `Ok`.
pub fn run<R: Read, W: Write, S: MapStore>(
    alloc: Global,
    reader: &mut R,
    writer: &mut W,
    store: &mut S,
    limit: usize,
) -> Result<Summary, RunFault>
    requires { limit ≤ MAX_LIMIT }

    // All lines of the input were handled, and the replies and the files are those of the machine.
    ensures ok { IfOk result (λ summary. IfSome (R.remaining reader.old) (λ input.
        RunsAll MachineStepIn (workspace (started_machine limit) (S.stored store.old)) input (W.contents writer.old) (W.contents writer.new) (S.stored store.new)
        summary.lines summary.replies)) }

    // All whole lines that were taken from the reader are done, files and all, and the replies to them were written whole. What
    // came of a line not whole and what the reader still has are the rest of the input.
    ensures read { IsErrOf result RunFault.Read → IfSome (R.remaining reader.old) (λ input.
        RunsToUnread MachineStepIn (workspace (started_machine limit) (S.stored store.old)) input (R.remaining reader.new) (W.contents writer.old) (W.contents writer.new) (S.stored store.new)) }

    // A flush failed before a read: all is as at a read fault. Or a write failed: all replies before the one that could not be
    // written were written whole, its line is done too, files and all, and of it the beginning was written, and not all.
    ensures write { IsErrOf result RunFault.Write → IfSome (R.remaining reader.old) (λ input.
        RunsToUnread MachineStepIn (workspace (started_machine limit) (S.stored store.old)) input (R.remaining reader.new) (W.contents writer.old) (W.contents writer.new) (S.stored store.new)
        ⊎ RunsToWrite MachineStepIn (workspace (started_machine limit) (S.stored store.old)) input (W.contents writer.old) (W.contents writer.new) (S.stored store.new)) }

    // For the line buffer alone, and before anything was read or written.
    ensures memory { IsErrOf result RunFault.Memory → (writer.new ≡ writer.old) × (reader.new ≡ reader.old) × (store.new ≡ store.old) }
{
    let mut nobody = Nobody;
    match run_lines(
        alloc,
        reader,
        writer,
        store,
        limit,
        Dialect::Plain,
        false,
        &mut nobody,
    ) {
        Ok(ended) => Ok(ended.summary),
        Err(fault) => Err(fault),
    }
}

/// As `run`, and reads the lines for all edits too. `fractions` says what becomes of a number in them that is not whole; it is to
/// be set aside only where the store puts back what is.
pub fn run_all_edits<R: Read, W: Write, S: MapStore>(
    alloc: Global,
    reader: &mut R,
    writer: &mut W,
    store: &mut S,
    limit: usize,
    fractions: Fractions,
) -> Result<Summary, RunFault>
    requires { limit ≤ MAX_LIMIT }

    // All lines of the input were handled, and the replies and the files are those of the machine.
    ensures ok { IfOk result (λ summary. IfSome (R.remaining reader.old) (λ input.
        RunsAll (AnyStepIn fractions) (workspace (started_machine limit) (S.stored store.old)) input (W.contents writer.old) (W.contents writer.new) (S.stored store.new)
        summary.lines summary.replies)) }

    // All whole lines that were taken from the reader are done, files and all, and the replies to them were written whole. What
    // came of a line not whole and what the reader still has are the rest of the input.
    ensures read { IsErrOf result RunFault.Read → IfSome (R.remaining reader.old) (λ input.
        RunsToUnread (AnyStepIn fractions) (workspace (started_machine limit) (S.stored store.old)) input (R.remaining reader.new) (W.contents writer.old) (W.contents writer.new) (S.stored store.new)) }

    // A flush failed before a read: all is as at a read fault. Or a write failed: all replies before the one that could not be
    // written were written whole, its line is done too, files and all, and of it the beginning was written, and not all.
    ensures write { IsErrOf result RunFault.Write → IfSome (R.remaining reader.old) (λ input.
        RunsToUnread (AnyStepIn fractions) (workspace (started_machine limit) (S.stored store.old)) input (R.remaining reader.new) (W.contents writer.old) (W.contents writer.new) (S.stored store.new)
        ⊎ RunsToWrite (AnyStepIn fractions) (workspace (started_machine limit) (S.stored store.old)) input (W.contents writer.old) (W.contents writer.new) (S.stored store.new)) }

    // For the line buffer alone, and before anything was read or written.
    ensures memory { IsErrOf result RunFault.Memory → (writer.new ≡ writer.old) × (reader.new ≡ reader.old) × (store.new ≡ store.old) }
{
    let mut nobody = Nobody;
    match run_lines(
        alloc,
        reader,
        writer,
        store,
        limit,
        Dialect::AllEdits(fractions),
        false,
        &mut nobody,
    ) {
        Ok(ended) => Ok(ended.summary),
        Err(fault) => Err(fault),
    }
}
