// What is told of single lines and steps.
use document_lines::{Cells, Subject};
use edits::Area;
use memory_editor::{Became, MemoryEditor, Told};
use std::alloc::{AllocError, Global};
use std::test::Fail;

/// What is looked at.
type Seen = (Cells, Became, Subject);

fn seen(told: &Told) -> Seen {
    (told.cells, told.became, told.subject)
}

fn within(layer: u32, x: i32, y: i32, width: u32, height: u32) -> Cells {
    let area = Area {
        x,
        y,
        width,
        height,
    };
    Cells::Within { layer, area }
}

// Does lines one by one, and gives what is told of the last one.
fn told_after(editor: &mut MemoryEditor, lines: &str) -> Told {
    for line in lines.lines() {
        editor.step(line.as_bytes());
    }
    editor.told()
}

// What is told of the last of some lines, in a new editor with a limit.
fn told_in_new(alloc: Global, limit: u16, lines: &str) -> Told {
    let mut editor = MemoryEditor::new(alloc, usize::from(limit));
    told_after(&mut editor, lines)
}

const MAP: &str = "new m 100 90 16 16 t.tsj";

const PAINTED: &str = "new m 100 90 16 16 t.tsj\nstamp 1 3 4 2 5,6\nstamp+ 1 7 9 1 7";

#[test]
fn a_merged_paint_tells_its_own_cells(rt: HostRuntime) -> Result<(), Fail> {
    let told = told_in_new(rt.alloc(), 0, PAINTED);
    let wanted = (within(1, 7, 9, 1, 1), Became::Merged, Subject::Layer(1));
    assert_eq!(rt; seen(&told), wanted);
    assert_eq!(rt; (told.before, told.index, told.count), (1, 1, 1));
    Ok(())
}

#[test]
fn an_undo_tells_the_whole_step(rt: HostRuntime) -> Result<(), Fail> {
    let lines = format!(in rt.alloc(); "{PAINTED}\nundo")?;
    let told = told_in_new(rt.alloc(), 0, lines.as_str());
    let wanted = (within(1, 3, 4, 5, 6), Became::Turned, Subject::Layer(1));
    assert_eq!(rt; seen(&told), wanted);
    assert_eq!(rt; (told.before, told.index, told.count), (1, 0, 1));
    Ok(())
}

// Of 4,900 cells all columns of their rows are told.
#[test]
fn a_paint_of_many_cells_tells_their_rows(rt: HostRuntime) -> Result<(), Fail> {
    let lines = format!(in rt.alloc(); "{MAP}\nselect replace 10 5 70 70\nfill 1 10 5 3")?;
    let told = told_in_new(rt.alloc(), 0, lines.as_str());
    let wanted = (within(1, 0, 5, 100, 70), Became::Added, Subject::Layer(1));
    assert_eq!(rt; seen(&told), wanted);
    Ok(())
}

// A macro of so many stamps, beside one another in columns of 90.
fn macro_of(alloc: Global, stamps: u32) -> Result<String, AllocError> {
    let mut lines = format!(in alloc; "{MAP}\nbegin many")?;
    for at in 0..stamps {
        lines.push_str("\nstamp 1 7 ")?;
        lines.push_str(format!(in alloc; "{at} 1 2")?.as_str())?;
    }
    lines.push_str("\nend\nundo")?;
    Ok(lines)
}

// A macro with 63 edits is 64 entries.
#[test]
fn of_more_than_64_entries_all_is_told(rt: HostRuntime) -> Result<(), Fail> {
    let alloc = rt.alloc();
    let told = told_in_new(alloc, 0, macro_of(alloc, 63)?.as_str());
    let wanted = (within(1, 7, 0, 1, 63), Became::Turned, Subject::Layer(1));
    assert_eq!(rt; seen(&told), wanted);
    assert_eq!(rt; (told.outline, told.selection), (false, false));
    let told = told_in_new(alloc, 0, macro_of(alloc, 64)?.as_str());
    assert_eq!(rt; seen(&told), (Cells::All, Became::Turned, Subject::Nothing));
    assert_eq!(rt; (told.outline, told.selection), (true, true));
    Ok(())
}

const MACROS: &str = "new m 9 9 16 16 t.tsj
stamp 1 0 0 1 5
begin outer
select add 4 4 4 4
begin inner
stamp 1 4 4 1 6
stamp+ 1 6 6 1 7";

// The last entry of the innermost macro is looked at, not the step below the index.
#[test]
fn in_macros_the_last_entry_is_looked_at(rt: HostRuntime) -> Result<(), Fail> {
    let told = told_in_new(rt.alloc(), 1, MACROS);
    let wanted = (within(1, 6, 6, 1, 1), Became::Merged, Subject::Layer(1));
    assert_eq!(rt; seen(&told), wanted);
    assert_eq!(rt; (told.index, told.count, told.depth), (1, 2, 2));
    let lines = format!(in rt.alloc(); "{MACROS}\nend")?;
    let told = told_in_new(rt.alloc(), 1, lines.as_str());
    assert_eq!(rt;
        seen(&told),
        (Cells::None, Became::Added, Subject::Layer(1))
    );
    let lines = format!(in rt.alloc(); "{MACROS}\nend\nend")?;
    let told = told_in_new(rt.alloc(), 1, lines.as_str());
    let wanted = (Cells::None, Became::AddedAndDropped, Subject::Nothing);
    assert_eq!(rt; seen(&told), wanted);
    assert_eq!(rt; (told.index, told.count, told.dropped), (1, 1, 1));
    Ok(())
}

// Does the lines of one call, behind lines of calls of their own, and gives what is told.
fn told_of_block(alloc: Global, limit: u16, before: &str, lines: &str) -> Result<Told, AllocError> {
    let mut editor = MemoryEditor::new(alloc, usize::from(limit));
    let _told = told_after(&mut editor, before);
    let mut replies = vec![in alloc; 0u8; 4_096]?;
    let _done = editor.run_lines(lines.as_bytes(), false, &mut replies);
    Ok(editor.told())
}

/// Of the lines of one call, what is told of the cells, the outline and the selection, and of what they are about.
type Block = (Cells, bool, bool, Subject);

fn of_block(alloc: Global, before: &str, lines: &str) -> Result<Block, AllocError> {
    let told = told_of_block(alloc, 0, before, lines)?;
    Ok((told.cells, told.outline, told.selection, told.subject))
}

const STEPS: &str = "new m 20 20 16 16 t.tsj
stamp 1 1 1 1 5
stamp 1 3 4 1 5";

fn cells_alone(cells: Cells) -> Block {
    (cells, false, false, Subject::Layer(1))
}

const NOTHING: Block = (Cells::None, false, false, Subject::Nothing);

// What differs between both ends is told, and no more.
#[test]
fn of_a_block_both_ends_are_compared(rt: HostRuntime) -> Result<(), Fail> {
    let alloc = rt.alloc();
    let blocks = [
        (
            "stamp 1 7 7 1 6\nstamp 1 9 8 1 6",
            cells_alone(within(1, 7, 7, 3, 2)),
        ),
        // What was undone is cut by the stamp.
        ("undo\nstamp 1 7 7 1 6", cells_alone(within(1, 3, 4, 5, 4))),
        // The step below takes a stamp in.
        (
            "stamp+ 1 7 7 1 6\nstamp+ 1 8 7 1 6",
            cells_alone(within(1, 7, 7, 2, 1)),
        ),
        ("stamp 1 7 7 1 6\nundo", NOTHING),
        ("undo\nundo\nredo\nredo", NOTHING),
        ("goto 0\nredo", cells_alone(within(1, 3, 4, 1, 1))),
        ("undo\nclear", cells_alone(within(1, 3, 4, 1, 1))),
        ("status\nstamp 9 1 1 1 5", NOTHING),
        (
            "select add 1 1 2 2\nlayer rename 1 Sea",
            (Cells::None, true, true, Subject::Nothing),
        ),
    ];
    for (lines, wanted) in blocks {
        assert_eq!(rt; of_block(alloc, STEPS, lines)?, wanted, "{lines}");
    }
    Ok(())
}

const OPEN: &str = "new m 20 20 16 16 t.tsj
stamp 1 1 1 1 5
begin outer
stamp 1 3 4 1 5";

// Of an open macro no more is told than what the lines did in it.
#[test]
fn of_a_block_in_a_macro_its_entries_are_told(rt: HostRuntime) -> Result<(), Fail> {
    let alloc = rt.alloc();
    let painted = cells_alone(within(1, 7, 7, 2, 1));
    let blocks = [
        ("stamp 1 7 7 1 6\nstamp+ 1 8 7 1 6", painted),
        ("stamp+ 1 7 7 1 6\nstamp 1 8 7 1 6\nend", painted),
        ("begin inner\nstamp 1 7 7 1 6\nstamp 1 8 7 1 6", painted),
        (
            "begin inner\nstamp 1 7 7 1 6\nend\nstamp 1 8 7 1 6\nend",
            painted,
        ),
        ("end\nstamp 1 7 7 1 6\nstamp 1 8 7 1 6", painted),
        (
            "stamp 1 7 7 1 6\nend\nundo",
            cells_alone(within(1, 3, 4, 5, 4)),
        ),
        // All that the macro has done stays, and nothing more is known of it.
        (
            "stamp 1 7 7 1 6\nclear",
            (Cells::All, true, true, Subject::Nothing),
        ),
    ];
    for (lines, wanted) in blocks {
        assert_eq!(rt; of_block(alloc, OPEN, lines)?, wanted, "{lines}");
    }
    Ok(())
}

// What was dropped is counted. If it was of the lines, all may differ.
#[test]
fn of_a_block_dropped_steps_are_counted(rt: HostRuntime) -> Result<(), Fail> {
    let alloc = rt.alloc();
    let told = told_of_block(alloc, 2, STEPS, "stamp 1 7 7 1 6\nstamp 1 9 8 1 6")?;
    let wanted = (within(1, 7, 7, 3, 2), Became::Nothing, Subject::Layer(1));
    assert_eq!(rt; seen(&told), wanted);
    assert_eq!(rt;
        (told.before, told.index, told.count, told.dropped),
        (2, 2, 2, 2)
    );
    let told = told_of_block(
        alloc,
        2,
        STEPS,
        "stamp 1 7 7 1 6\nstamp 1 9 8 1 6\nstamp 1 0 0 1 6",
    )?;
    assert_eq!(rt;
        seen(&told),
        (Cells::All, Became::Nothing, Subject::Nothing)
    );
    assert_eq!(rt; (told.documents, told.dropped), (false, 3));
    let told = told_of_block(alloc, 0, STEPS, "new n 5 5 1 1 t.tsj\nuse m")?;
    assert_eq!(rt; (told.documents, told.cells), (true, Cells::All));
    Ok(())
}

// The word at fault is told of a line that is refused for it, and of no other one.
#[test]
fn a_bad_word_is_told(rt: HostRuntime) -> Result<(), Fail> {
    let alloc = rt.alloc();
    let lines = [
        ("stamp 1 1 x 1 5", Some(4)),
        ("stamp 1 1", Some(4)),
        ("undo x", Some(2)),
        ("begin a || ", Some(4)),
        ("frob x", None),
        ("stamp 9 1 1 1 5", None),
        ("stamp 1 1 1 1 5", None),
    ];
    for (line, wanted) in lines {
        assert_eq!(rt;
            told_of_block(alloc, 0, STEPS, line)?.word,
            wanted,
            "{line}"
        );
        let many = format!(in alloc; "undo x y\nstamp 1 x\n{line}")?;
        assert_eq!(rt;
            told_of_block(alloc, 0, STEPS, many.as_str())?.word,
            wanted,
            "{line}"
        );
        let many = format!(in alloc; "{line}\nundo")?;
        assert_eq!(rt;
            told_of_block(alloc, 0, STEPS, many.as_str())?.word,
            None,
            "{line}"
        );
    }
    Ok(())
}

/// A step, as far as it is compared.
type Shown = Option<(bool, Subject, Cells)>;

fn shown(editor: &MemoryEditor, at: usize, text: &str) -> Shown {
    match editor.step_at(at) {
        Some(step) if step.text == text => {
            Some((step.is_macro, step.subject, step.differences.cells))
        }
        _ => None,
    }
}

fn steps(editor: &mut MemoryEditor) -> [Shown; 3] {
    let _told = told_after(editor, MACROS);
    [
        shown(editor, 0, "Stamp"),
        shown(editor, 1, "outer"),
        shown(editor, 2, ""),
    ]
}

fn steps_of_new(alloc: Global) -> [Shown; 3] {
    let mut editor = MemoryEditor::new(alloc, 0);
    steps(&mut editor)
}

#[test]
fn steps_are_shown(rt: HostRuntime) -> Result<(), Fail> {
    let stamp = Some((false, Subject::Layer(1), within(1, 0, 0, 1, 1)));
    let open = Some((true, Subject::Nothing, within(1, 4, 4, 3, 3)));
    assert_eq!(rt; steps_of_new(rt.alloc()), [stamp, open, None]);
    Ok(())
}
