// What lines did, and what steps are about, as C sees it.
ghost use Rattle.std.specs.Prelude.{◌≡◌, None, is_some, true};

use crate::answers::{CLOSED, DONE, NONE};
use crate::c_editor::CEditor;
use crate::copies::copy_text;
use document_lines::{Cells, Differences, Subject};
use edits::Area;
use memory_editor::{Became, MemoryEditor, Step, Told};
use session::Refusal;
use std::alloc::Global;

// What differs, as bits of one number.
const DOCUMENTS: u32 = 1;

const OUTLINE: u32 = 2;

const SELECTION: u32 = 4;

const CELLS: u32 = 8;

const ALL_CELLS: u32 = 16;

/// What lines did: the index before them; how the active document stands now; how many steps were dropped from the beginning; the
/// number of the refusal of the last line, or 0; what differs, as bits; what became of the last line's edit or step; what the edits
/// are about, and its id; where cells of one layer alone differ, that layer and the rectangle; whether the index is clean, 1 or 0; and
/// which word of the last line is bad, from 1, or 0.
#[repr(C)]
#[derive(Clone, Copy)]
pub struct CTold {
    pub before: usize,
    pub index: usize,
    pub count: usize,
    pub depth: usize,
    pub dropped: usize,
    pub is_clean: usize,
    pub refusal: u32,
    pub differs: u32,
    pub became: u32,
    pub subject: u32,
    pub id: u32,
    pub layer: u32,
    pub x: i32,
    pub y: i32,
    pub width: u32,
    pub height: u32,
    pub word: u32,
}

/// A step of the active document: whether it is a macro, 1 or 0, and the rest as in `CTold`.
#[repr(C)]
#[derive(Clone, Copy)]
pub struct CStep {
    pub is_macro: u32,
    pub differs: u32,
    pub subject: u32,
    pub id: u32,
    pub layer: u32,
    pub x: i32,
    pub y: i32,
    pub width: u32,
    pub height: u32,
}

// What an edit is about: 0 nothing of these, 1 the map, 2 a layer, 3 an object, 4 a tileset; and its id, or first id.
fn subject_of(subject: Subject) -> (u32, u32) {
    match subject {
        Subject::Nothing => (0, 0),
        Subject::Map => (1, 0),
        Subject::Layer(layer) => (2, layer),
        Subject::Object(object) => (3, object),
        Subject::Tileset(first_id) => (4, first_id),
    }
}

fn became_number(became: Became) -> u32 {
    match became {
        Became::Nothing => 0,
        Became::Added => 1,
        Became::AddedAndDropped => 2,
        Became::Merged => 3,
        Became::Gone => 4,
        Became::Turned => 5,
    }
}

// The number of a refusal, with which its words begin.
fn refusal_number(refusal: Option<Refusal>) -> u32 {
    match refusal {
        Some(refusal) => match refusal.words().split_once(' ') {
            Some((number, _)) => number.parse::<u32>().unwrap_or(0),
            None => 0,
        },
        None => 0,
    }
}

fn bit_if(differs: bool, bit: u32) -> u32 {
    if differs { bit } else { 0 }
}

// What differs, as bits, and where cells of one layer alone do, that layer and the area.
fn differences_of(documents: bool, differences: Differences) -> (u32, u32, Area) {
    let nowhere = Area {
        x: 0,
        y: 0,
        width: 0,
        height: 0,
    };
    let (cells, layer, area) = match differences.cells {
        Cells::None => (0, 0, nowhere),
        Cells::Within { layer, area } => (CELLS, layer, area),
        Cells::All => (ALL_CELLS, 0, nowhere),
    };
    let differs = bit_if(documents, DOCUMENTS)
        | bit_if(differences.outline, OUTLINE)
        | bit_if(differences.selection, SELECTION)
        | cells;
    (differs, layer, area)
}

impl CTold {
    fn of(told: Told) -> CTold {
        let (differs, layer, area) = differences_of(
            told.documents,
            Differences {
                outline: told.outline,
                selection: told.selection,
                cells: told.cells,
            },
        );
        let (subject, id) = subject_of(told.subject);
        CTold {
            before: told.before,
            index: told.index,
            count: told.count,
            depth: told.depth,
            dropped: told.dropped,
            is_clean: if told.is_clean { 1 } else { 0 },
            refusal: refusal_number(told.refusal),
            differs,
            became: became_number(told.became),
            subject,
            id,
            layer,
            x: area.x,
            y: area.y,
            width: area.width,
            height: area.height,
            word: told.word.unwrap_or(0),
        }
    }
}

impl CStep {
    fn of(step: &Step<'_>) -> CStep {
        let (differs, layer, area) = differences_of(false, step.differences);
        let (subject, id) = subject_of(step.subject);
        CStep {
            is_macro: bit_if(step.is_macro, 1),
            differs,
            subject,
            id,
            layer,
            x: area.x,
            y: area.y,
            width: area.width,
            height: area.height,
        }
    }
}

// Puts the steps from a number on into rows, as far as there are any, and gives how many were put.
fn put_steps(editor: &MemoryEditor, from: usize, rows: &mut [CStep]) -> usize {
    let count = rows.len();
    for at in 0..count {
        let Some(step) = editor.step_at(from.saturating_add(at)) else {
            return at;
        };
        if at < rows.len() {
            rows[at] = CStep::of(&step);
        }
    }
    count
}

/// Gives out what the last line did, or the lines of the last call of `roskevad_run_lines`. What is not told to differ is as it was.
/// Answers `DONE`, or `CLOSED`, where nothing is given out.
#[unsafe(no_mangle)]
pub extern "C" fn roskevad_tell(alloc: Global, editor: &mut CEditor, told: &mut CTold) -> usize
    ensures unchanged { editor.new.held.held_editor ≡ editor.old.held.held_editor }
    ensures closed { editor.old.held.held_editor ≡ None → (result ≡ CLOSED) × (told.new ≡ told.old) }
    ensures open { is_some editor.old.held.held_editor ≡ true → result ≡ DONE }
{
    let Some(boxed) = editor.take(alloc) else {
        return CLOSED;
    };
    *told = CTold::of(boxed.told());
    *editor = CEditor::of_box(boxed);
    DONE
}

/// Puts steps of the active document into rows, from the step with this number on, where the first has 0, as far as there are steps
/// and rows; an open macro stands last. Answers how many were put, or `CLOSED`.
#[unsafe(no_mangle)]
pub extern "C" fn roskevad_steps(
    alloc: Global,
    editor: &mut CEditor,
    from: usize,
    rows: &mut [CStep],
) -> usize
    ensures unchanged { editor.new.held.held_editor ≡ editor.old.held.held_editor }
    ensures closed { editor.old.held.held_editor ≡ None → (result ≡ CLOSED) × (rows.new ≡ rows.old) }
{
    let Some(boxed) = editor.take(alloc) else {
        return CLOSED;
    };
    let count = put_steps(&boxed, from, rows);
    *editor = CEditor::of_box(boxed);
    count
}

/// Copies the text of the step with this number of the active document, as lists of steps show it. Answers its size, `NONE` where
/// there is no such step, or `CLOSED`.
#[unsafe(no_mangle)]
pub extern "C" fn roskevad_step_text(
    alloc: Global,
    editor: &mut CEditor,
    at: usize,
    text: &mut [u8],
) -> usize
    ensures unchanged { editor.new.held.held_editor ≡ editor.old.held.held_editor }
    ensures closed { editor.old.held.held_editor ≡ None → (result ≡ CLOSED) × (text.new ≡ text.old) }
{
    let Some(boxed) = editor.take(alloc) else {
        return CLOSED;
    };
    let size = match boxed.step_at(at) {
        Some(step) => copy_text(step.text.as_bytes(), text),
        None => NONE,
    };
    *editor = CEditor::of_box(boxed);
    size
}
