// What lines did is told: it is compared with what really differs, over many random lines.
use document_lines::{Cells, Dialect, Fractions, Subject};
use memory_editor::{Became, MemoryEditor, Status, Told};
use std::alloc::{AllocError, Global};
use std::test::Fail;

mod blocks;
mod examples;
mod random_lines;
mod snapshot;

use random_lines::{Kind, Random, Spoken};
use snapshot::{Change, Snapshot};

/// How many answers there were.
#[derive(Clone, Copy, PartialEq, Eq, Debug)]
struct Tally {
    lines: u32,
    /// Those that tell of cells, and those of them that tell just where cells differ.
    cells: u32,
    exact: u32,
    /// Those that tell an outline or a selection that is as it was.
    loose: u32,
    /// How often an edit, a macro or steps became what can become of them.
    added: u32,
    dropped: u32,
    merged: u32,
    gone: u32,
    turned: u32,
}

/// Each count one higher, where it counts.
fn one_more(count: u32, counts: bool) -> u32 {
    if counts {
        count.saturating_add(1)
    } else {
        count
    }
}

impl Tally {
    fn new() -> Tally {
        Tally {
            lines: 0,
            cells: 0,
            exact: 0,
            loose: 0,
            added: 0,
            dropped: 0,
            merged: 0,
            gone: 0,
            turned: 0,
        }
    }

    fn count(&mut self, told: &Told, change: &Change) {
        let is_told = told.cells != Cells::None;
        let is_exact = change.is_exact(told.cells);
        let is_loose = told.outline && !change.outline || told.selection && !change.selection;
        self.lines = one_more(self.lines, true);
        self.cells = one_more(self.cells, is_told);
        self.exact = one_more(self.exact, is_told && is_exact);
        self.loose = one_more(self.loose, is_loose);
        self.added = one_more(self.added, told.became == Became::Added);
        self.dropped = one_more(self.dropped, told.became == Became::AddedAndDropped);
        self.merged = one_more(self.merged, told.became == Became::Merged);
        self.gone = one_more(self.gone, told.became == Became::Gone);
        self.turned = one_more(self.turned, told.became == Became::Turned);
    }
}

// Whether all that differs is told, and how the documents stand.
fn is_true(told: &Told, change: &Change) -> bool {
    let now = change.after;
    change.is_covered(told.cells)
        && (told.outline || !change.outline)
        && (told.selection || !change.selection)
        && (told.documents || !change.documents)
        && told.before == change.before.index
        && (told.index, told.count, told.depth) == (now.index, now.count, now.depth)
        && told.is_clean == now.is_clean
}

// Whether a line that is refused tells that nothing changed.
fn is_quiet_if_refused(told: &Told) -> bool {
    if told.refusal.is_none() {
        return true;
    }
    let changes = told.documents || told.outline || told.selection;
    !changes && told.cells == Cells::None && told.became == Became::Nothing && told.dropped == 0
}

// Whether the step or the macro became what the indices say, where no macro was open before. A step is dropped where the limit is
// the count, and the index stays.
fn is_step_true(told: &Told, limit: usize, old: Status) -> bool {
    let dropped = usize::from(told.became == Became::AddedAndDropped);
    if told.dropped != dropped {
        return false;
    }
    if old.depth > 0 || told.documents {
        return true;
    }
    match told.became {
        Became::Added => {
            told.index == old.index.saturating_add(1) && (limit == 0 || told.count <= limit)
        }
        Became::AddedAndDropped => {
            told.index == old.index && told.index == limit && told.count == limit
        }
        Became::Merged => told.index == old.index && told.index > 0,
        Became::Gone => told.index.saturating_add(1) == old.index,
        Became::Turned => told.index != old.index,
        Became::Nothing => told.index == old.index || told.count == 0,
    }
}

// Whether the edit became something.
fn is_edit(told: &Told) -> bool {
    match told.became {
        Became::Added => true,
        Became::AddedAndDropped => true,
        Became::Merged => true,
        Became::Gone => true,
        Became::Turned => false,
        Became::Nothing => false,
    }
}

// Whether no more is told of a line than differs: a paint and a select tell neither outline nor, each, what the other one writes.
// The documents are told where they differ.
fn is_tight(line: &Spoken, told: &Told, change: &Change) -> bool {
    if told.documents != change.documents {
        return false;
    }
    match line.kind {
        Kind::Paint => !told.outline && !told.selection && change.is_exact(told.cells),
        Kind::Select => !told.outline && told.cells == Cells::None,
        Kind::Other => true,
    }
}

// What is wrong with what is told of a line.
fn wrong(line: &Spoken, told: &Told, limit: usize, change: &Change) -> Option<&'static str> {
    if !is_true(told, change) {
        return Some("something differs that is not told");
    }
    if !is_quiet_if_refused(told) {
        return Some("a refused line tells a change");
    }
    if !is_step_true(told, limit, change.before) {
        return Some("it became something else");
    }
    if is_edit(told) && line.subject.unwrap_or(told.subject) != told.subject {
        return Some("it is about something else");
    }
    if !is_tight(line, told, change) {
        return Some("more is told than differs");
    }
    None
}

/// The lines with which a session begins.
const FIRST: [&str; 4] = [
    "new m 12 9 1 1 t.tsj",
    "layer add tile b",
    "layer add object o",
    "object add 3 1 1 2 2 x",
];

fn begin(editor: &mut MemoryEditor) {
    for line in FIRST {
        editor.step(line.as_bytes());
    }
}

/// The fault that was found, or none.
type Found = Result<Option<String>, AllocError>;

// Does random lines one by one, up to the first of which something wrong is told.
fn step_lines(
    alloc: Global,
    editor: &mut MemoryEditor,
    random: &mut Random,
    limit: usize,
    tally: &mut Tally,
) -> Found {
    begin(editor);
    let mut before = Snapshot::of(alloc, editor)?;
    for _ in 0..LINES {
        let line = random.line(alloc)?;
        editor.step(line.text.as_bytes());
        let told = editor.told();
        let after = Snapshot::of(alloc, editor)?;
        let change = before.change_to(&after);
        tally.count(&told, &change);
        if let Some(fault) = wrong(&line, &told, limit, &change) {
            let text = line.text.as_str();
            return Ok(Some(format!(in alloc; "{text}: {fault}: {told:?}")?));
        }
        before = after;
    }
    Ok(None)
}

/// Lines of a session.
const LINES: u32 = 400;

fn stepped(alloc: Global, seed: u64, limit: u16, tally: &mut Tally) -> Found {
    let limit = usize::from(limit);
    let mut editor = MemoryEditor::for_dialect(
        alloc,
        limit,
        Dialect::AllEdits(Fractions::SetAside),
    );
    let mut random = Random::new(seed);
    step_lines(alloc, &mut editor, &mut random, limit, tally)
}

/// Sessions, of 24,000 lines together.
const SESSIONS: u64 = 60;

fn sessions_stepped(alloc: Global, tally: &mut Tally) -> Found {
    for seed in 0..SESSIONS {
        let limit = if seed % 2 == 0 { 0 } else { 4 };
        let fault = stepped(alloc, seed, limit, tally)?;
        if fault.is_some() {
            return Ok(fault);
        }
    }
    Ok(None)
}

#[test]
fn what_a_line_did_is_told(rt: HostRuntime) -> Result<(), Fail> {
    let mut tally = Tally::new();
    let fault = sessions_stepped(rt.alloc(), &mut tally)?;
    assert_eq!(rt; fault.as_ref().map(|text| text.as_str()), None);
    assert_eq!(rt; tally.lines, 24_000);
    // Each of them came about, and most answers are tight.
    let counts = [
        tally.added,
        tally.dropped,
        tally.merged,
        tally.gone,
        tally.turned,
    ];
    assert!(rt; counts.iter().all(|count| *count > 20), "{tally:?}");
    assert!(rt; tally.cells > 3_000, "{tally:?}");
    assert!(rt;
        tally.exact.saturating_mul(100) > tally.cells.saturating_mul(90),
        "{tally:?}"
    );
    assert!(rt; tally.loose < 1_000, "{tally:?}");
    Ok(())
}
