// What is told of the lines of one call.
use super::random_lines::Random;
use super::snapshot::{Change, Snapshot};
use super::{Found, begin, is_quiet_if_refused, is_true, one_more};
use document_lines::{Cells, Dialect, Fractions};
use memory_editor::{Became, MemoryEditor, Told};
use std::alloc::{AllocError, Global};
use std::test::Fail;

/// Blocks of a session.
const BLOCKS: u32 = 120;

/// What is told of the lines of a block, each done for itself.
#[derive(Drop)]
struct Singles {
    text: String,
    count: u32,
    /// Whether one of them tells of documents.
    documents: bool,
    dropped: usize,
    /// What is told of the last one.
    last: Told,
}

/// How many answers there were.
#[derive(Clone, Copy, PartialEq, Eq, Debug)]
struct Tally {
    /// Blocks of several lines.
    blocks: u32,
    /// Those in which no line is about the documents, those of them that tell of cells, and of these those that tell just where cells
    /// differ, and those that tell all cells.
    plain: u32,
    cells: u32,
    exact: u32,
    all: u32,
    /// Those that tell an outline or a selection that is as it was.
    loose: u32,
    /// Those that dropped steps, and those that tell no difference.
    dropped: u32,
    nothing: u32,
}

// Whether nothing is told to differ.
fn is_nothing(told: &Told) -> bool {
    let differs = told.documents || told.outline || told.selection;
    !differs && told.cells == Cells::None
}

impl Tally {
    fn new() -> Tally {
        Tally {
            blocks: 0,
            plain: 0,
            cells: 0,
            exact: 0,
            all: 0,
            loose: 0,
            dropped: 0,
            nothing: 0,
        }
    }

    fn count(&mut self, told: &Told, change: &Change) {
        let is_plain = !told.documents;
        let is_told = is_plain && told.cells != Cells::None;
        let is_exact = change.is_exact(told.cells);
        let is_loose = told.outline && !change.outline || told.selection && !change.selection;
        self.blocks = one_more(self.blocks, true);
        self.plain = one_more(self.plain, is_plain);
        self.cells = one_more(self.cells, is_told);
        self.exact = one_more(self.exact, is_told && is_exact);
        self.all = one_more(self.all, is_told && told.cells == Cells::All);
        self.loose = one_more(self.loose, is_plain && is_loose);
        self.dropped = one_more(self.dropped, told.dropped > 0);
        self.nothing = one_more(self.nothing, is_nothing(told));
    }
}

// Up to so many random lines, which another editor does one by one.
fn block(
    alloc: Global,
    random: &mut Random,
    most: u32,
    twin: &mut MemoryEditor,
) -> Result<Singles, AllocError> {
    let mut block = Singles {
        text: String::new(alloc),
        count: 0,
        documents: false,
        dropped: 0,
        last: twin.told(),
    };
    for _ in 0..random.below(most).saturating_add(1) {
        let line = random.line(alloc)?;
        twin.step(line.text.as_bytes());
        block.text.push_str(line.text.as_str())?;
        block.text.push_str("\n")?;
        block.last = twin.told();
        block.count = block.count.saturating_add(1);
        block.documents = block.documents || block.last.documents;
        block.dropped = block.dropped.saturating_add(block.last.dropped);
    }
    Ok(block)
}

// Whether of several lines no more and no less is told than of each: but for what differs between their ends, which is looked at for
// itself.
fn is_right(told: &Told, singles: &Singles) -> bool {
    if singles.count == 1 {
        return *told == singles.last;
    }
    let dropped = if told.documents { 0 } else { singles.dropped };
    told.documents == singles.documents
        && told.dropped == dropped
        && told.became == Became::Nothing
        && (told.refusal, told.word) == (singles.last.refusal, singles.last.word)
}

// What is wrong with what is told of a block.
fn wrong(told: &Told, singles: &Singles, change: &Change) -> Option<&'static str> {
    if !is_right(told, singles) {
        return Some("it is not what its lines tell");
    }
    if !is_true(told, change) {
        return Some("something differs that is not told");
    }
    if singles.count == 1 && !is_quiet_if_refused(told) {
        return Some("a refused line tells a change");
    }
    None
}

// Does random blocks up to the first of which something wrong is told.
fn run_blocks(
    alloc: Global,
    random: &mut Random,
    most: u32,
    editor: &mut MemoryEditor,
    tally: &mut Tally,
) -> Found {
    let mut twin = MemoryEditor::for_dialect(
        alloc,
        usize::from(editor_limit(most)),
        Dialect::AllEdits(Fractions::SetAside),
    );
    begin(editor);
    begin(&mut twin);
    let mut replies = vec![in alloc; 0u8; 65_536]?;
    let mut before = Snapshot::of(alloc, editor)?;
    for _ in 0..BLOCKS {
        let singles = block(alloc, random, most, &mut twin)?;
        let _done = editor.run_lines(singles.text.as_bytes(), false, &mut replies);
        let told = editor.told();
        let after = Snapshot::of(alloc, editor)?;
        let change = before.change_to(&after);
        if let Some(fault) = wrong(&told, &singles, &change) {
            let text = singles.text.as_str();
            return Ok(Some(format!(in alloc; "{text}{fault}: {told:?}")?));
        }
        if singles.count > 1 {
            tally.count(&told, &change);
        }
        before = after;
    }
    Ok(None)
}

// The limit of a session whose blocks have up to so many lines.
fn editor_limit(most: u32) -> u16 {
    if most % 2 == 0 { 4 } else { 0 }
}

fn run_session(alloc: Global, seed: u64, most: u32, tally: &mut Tally) -> Found {
    let mut editor = MemoryEditor::for_dialect(
        alloc,
        usize::from(editor_limit(most)),
        Dialect::AllEdits(Fractions::SetAside),
    );
    let mut random = Random::new(seed);
    run_blocks(alloc, &mut random, most, &mut editor, tally)
}

/// Sessions of each length of blocks.
const SESSIONS: u64 = 5;

fn sessions_run(alloc: Global, tally: &mut Tally) -> Found {
    for most in 2..8u32 {
        for seed in 0..SESSIONS {
            let seed = u64::from(most).saturating_mul(1_000).saturating_add(seed);
            let fault = run_session(alloc, seed, most, tally)?;
            if fault.is_some() {
                return Ok(fault);
            }
        }
    }
    Ok(None)
}

#[test]
fn what_many_lines_did_is_told(rt: HostRuntime) -> Result<(), Fail> {
    let mut tally = Tally::new();
    let fault = sessions_run(rt.alloc(), &mut tally)?;
    assert_eq!(rt; fault.as_ref().map(|text| text.as_str()), None);
    println!(rt; "{tally:?}")?;
    // Each of them came about, and most answers are tight.
    let counts = [tally.all, tally.dropped, tally.nothing];
    assert!(rt; counts.iter().all(|count| *count > 50), "{tally:?}");
    assert!(rt;
        tally.blocks > 2_000 && tally.plain < tally.blocks,
        "{tally:?}"
    );
    assert!(rt; tally.cells > 500, "{tally:?}");
    assert!(rt;
        tally.exact.saturating_mul(100) > tally.cells.saturating_mul(90),
        "{tally:?}"
    );
    assert!(rt;
        tally.loose.saturating_mul(100) < tally.blocks.saturating_mul(10),
        "{tally:?}"
    );
    Ok(())
}
