use crate::runs::{MAP, ONE, SEVERAL};
use arrayvec::ArrayString;
use memory_editor::MemoryEditor;
use region::Run;
use std::alloc::{AllocError, Global};
use std::test::Fail;

// No test owns an editor, and what owns one does nothing else: an assertion or an early end beside it makes a long proof.

/// Steps a line, and gives the text of its reply, and none where it is quiet.
fn told(alloc: Global, editor: &mut MemoryEditor, line: &str) -> Result<String, AllocError> {
    editor.step(line.as_bytes());
    let Some(reply) = editor.reply() else {
        return Ok(String::new(alloc));
    };
    let mut head = ArrayString::<512>::new();
    reply.write_into(&mut head);
    let head = head.as_str();
    let body = str::from_utf8(reply.body()).unwrap_or("not UTF-8");
    format!(in alloc; "{head}{body}")
}

/// The first pair `line => reply`, or line alone where it gets no reply, to which an editor answers otherwise.
fn first_fault<'a>(
    alloc: Global,
    editor: &mut MemoryEditor,
    pairs: &'a str,
) -> Result<Option<&'a str>, AllocError> {
    for pair in pairs.lines() {
        let (line, reply) = pair.split_once(" => ").unwrap_or((pair, ""));
        if told(alloc, editor, line)?.as_str() != reply {
            return Ok(Some(pair));
        }
    }
    Ok(None)
}

/// The same of a new editor.
fn first_fault_of_a_new<'a>(alloc: Global, pairs: &'a str) -> Result<Option<&'a str>, AllocError> {
    let mut editor = MemoryEditor::new(alloc, 0);
    first_fault(alloc, &mut editor, pairs)
}

#[test]
fn sessions_have_the_replies_of_runs(rt: HostRuntime) -> Result<(), Fail> {
    for pairs in [ONE, SEVERAL, "# quiet\n\nstatus => ok none clean"] {
        assert_eq!(rt; first_fault_of_a_new(rt.alloc(), pairs)?, None);
    }
    Ok(())
}

const SAVED: &str = "open m m.tmj => ok 0/0 clean 0\nsave n.tmj => saved n.tmj 384";

/// How many files there are, and how long the empty and the saved one are.
type Files = (usize, Option<usize>, Option<usize>);

fn files_of(editor: &MemoryEditor) -> Files {
    let empty = editor.file("empty").map(|bytes| bytes.len());
    let saved = editor.file("n.tmj").map(|bytes| bytes.len());
    (editor.file_count(), empty, saved)
}

/// Whether the first file is the empty one, the third the saved one, and there is no fourth.
fn are_named(editor: &MemoryEditor) -> [bool; 3] {
    [
        editor.file_name(0) == Some("empty"),
        editor.file_name(2) == Some("n.tmj"),
        editor.file_name(3).is_none(),
    ]
}

/// The first pair to which an editor that saves beside two files answers otherwise; its files and their names; whether the
/// saved one was taken out, and was once more; and its files behind that.
type TakenOut = (Option<&'static str>, Files, [bool; 3], [bool; 2], Files);

fn save_and_take_out(alloc: Global, editor: &mut MemoryEditor) -> Result<TakenOut, AllocError> {
    editor.put_file("m.tmj", MAP.as_bytes())?;
    editor.put_file("empty", b"")?;
    let fault = first_fault(alloc, editor, SAVED)?;
    let before = files_of(editor);
    let names = are_named(editor);
    let taken = [editor.remove_file("n.tmj"), editor.remove_file("n.tmj")];
    Ok((fault, before, names, taken, files_of(editor)))
}

fn saved_and_taken_out(alloc: Global) -> Result<TakenOut, AllocError> {
    let mut editor = MemoryEditor::new(alloc, 0);
    save_and_take_out(alloc, &mut editor)
}

#[test]
fn files_are_put_and_taken_out(rt: HostRuntime) -> Result<(), Fail> {
    let (fault, before, names, taken, behind) = saved_and_taken_out(rt.alloc())?;
    assert_eq!(rt; fault, None);
    assert_eq!(rt; before, (3, Some(0), Some(384)));
    assert_eq!(rt; names, [true; 3]);
    assert_eq!(rt; taken, [true, false]);
    assert_eq!(rt; behind, (2, Some(0), None));
    Ok(())
}

const MARKED: &str = "new town 4 3 16 16 town.tsj => ok 0/0 clean 0
begin Fence => ok 0/1 dirty 1
stamp 1 0 0 1 5 => ok 0/1 dirty 1
end => ok 1/1 dirty 0
stamp 1 1 0 1 5 => ok 2/2 dirty 0
clean => ok 2/2 clean 0
begin Gate => ok 2/3 dirty 1";

/// The clean index, and which of the first four steps are macros.
type Marks = (Option<usize>, [Option<bool>; 4]);

fn marks_of(editor: &MemoryEditor) -> Marks {
    let kinds = [
        editor.is_macro(0),
        editor.is_macro(1),
        editor.is_macro(2),
        editor.is_macro(3),
    ];
    (editor.clean_index(), kinds)
}

/// The first pair to which an editor answers otherwise, and its marks before and behind the pairs.
type Marked = (Option<&'static str>, Marks, Marks);

fn mark(alloc: Global, editor: &mut MemoryEditor) -> Result<Marked, AllocError> {
    let before = marks_of(editor);
    let fault = first_fault(alloc, editor, MARKED)?;
    Ok((fault, before, marks_of(editor)))
}

fn marked(alloc: Global) -> Result<Marked, AllocError> {
    let mut editor = MemoryEditor::new(alloc, 0);
    mark(alloc, &mut editor)
}

#[test]
fn macros_and_the_clean_index_are_told(rt: HostRuntime) -> Result<(), Fail> {
    let (fault, before, behind) = marked(rt.alloc())?;
    assert_eq!(rt; before, (None, [None; 4]));
    assert_eq!(rt; fault, None);
    let kinds = [Some(true), Some(false), Some(true), None];
    assert_eq!(rt; behind, (Some(2), kinds));
    Ok(())
}

const SELECTED: &str = "new town 4 3 16 16 town.tsj => ok 0/0 clean 0
select replace 1 0 2 2 => ok 1/1 dirty 0
select add 0 2 1 1 => ok 2/2 dirty 0";

/// How many runs the selection has, and the first four.
type Runs = (usize, [Option<Run>; 4]);

fn runs_of(editor: &MemoryEditor) -> Runs {
    let runs = [
        editor.selection_run(0),
        editor.selection_run(1),
        editor.selection_run(2),
        editor.selection_run(3),
    ];
    (editor.selection_count(), runs)
}

/// The first pair to which an editor answers otherwise, and the runs of its selection before and behind the pairs.
type Selected = (Option<&'static str>, Runs, Runs);

fn select(alloc: Global, editor: &mut MemoryEditor) -> Result<Selected, AllocError> {
    let before = runs_of(editor);
    let fault = first_fault(alloc, editor, SELECTED)?;
    Ok((fault, before, runs_of(editor)))
}

fn selected(alloc: Global) -> Result<Selected, AllocError> {
    let mut editor = MemoryEditor::new(alloc, 0);
    select(alloc, &mut editor)
}

fn run(y: u32, x: u32, len: u32) -> Option<Run> {
    Some(Run { y, x, len })
}

#[test]
fn runs_of_the_selection_are_in_row_order(rt: HostRuntime) -> Result<(), Fail> {
    let (fault, before, behind) = selected(rt.alloc())?;
    assert_eq!(rt; before, (0, [None; 4]));
    assert_eq!(rt; fault, None);
    let runs = [run(0, 1, 2), run(1, 1, 2), run(2, 0, 1), None];
    assert_eq!(rt; behind, (3, runs));
    Ok(())
}
