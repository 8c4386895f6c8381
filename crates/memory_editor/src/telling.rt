// What lines did, as it is told when it is asked for, and the steps of the active document.
ghost use Rattle.std.specs.Prelude.{◌≡◌, ℕ, ◌<◌, IfSome, IsTrue, option_and_then};
ghost use Rattle.std.specs.Option.{option_map};
ghost use Rattle.map_model.specs.Document.{DocumentParts};
ghost use Rattle.edits.specs.Blocks.{in_area, is_below, offset};
ghost use Rattle.session.specs.Replies.{refusal_of};
ghost use Rattle.undo_stack.specs.History.{count, current, document_at};
ghost use Rattle.undo_stack.specs.Reading.{text_at};
ghost use Rattle.undo_stack.specs.Stacks.{history, Holds};
ghost use Rattle.document_lines.specs.Machine.{active_of};
ghost use Rattle.document_lines.specs.Differing.{DifferWithin};
ghost use Rattle.document_lines.specs.Planning.{edit_change};
ghost use Rattle.memory_editor.specs.Lookups.{standing_of};
ghost use Rattle.memory_editor.specs.Parts.{active_map, step_text_of};
ghost use Rattle.memory_editor.specs.Turned.{differences_of};
ghost use Rattle.memory_editor.specs.Unions.{DifferOn, TellsCellsOf, document_behind};

use crate::lookups::Status;
use crate::memory_editor::MemoryEditor;
use crate::seen::{Seen, open_seen};
use crate::standing::Standing;
use crate::told::{Became, Step, Told};
use document_lines::{Cells, Dialect, Differences, Subject};
use editor::Edit;
use edits::Area;
use map_model::Map;
use refusals::{LineFault, Refusal};
use session::{Reply, any_word_fault, word_fault};
use undo_stack::Stack;

// Columns, or rows, as far as they lie in a map that has so many: the first one, and how many.
fn columns_within(from: i32, count: u32, all: u32) -> (i32, u32)
    ensures { (at : ℕ) → at < all → IsTrue (is_below (offset from at) count) → IsTrue (is_below (offset result.0 at) result.1) }
{
    let first = from.max(0);
    let end = (i64::from(from) + i64::from(count)).min(i64::from(all));
    match u32::try_from(end - i64::from(first)) {
        Ok(within) => (first, within),
        Err(_) => (first, 0),
    }
}

// An area as far as it lies in a map.
fn area_within(map: &Map, area: Area) -> Area
    ensures { (x y : ℕ) → x < map.now.width → y < map.now.height → IsTrue (in_area area x y) → IsTrue (in_area result x y) }
{
    let parts = map.parts();
    let (x, width) = columns_within(area.x, area.width, parts.width);
    let (y, height) = columns_within(area.y, area.height, parts.height);
    Area {
        x,
        y,
        width,
        height,
    }
}

// Cells as far as they lie in a map.
fn cells_within(map: &Map, cells: Cells) -> Cells
    ensures { TellsCellsOf map.now cells result }
{
    match cells {
        Cells::Within { layer, area } => Cells::Within {
            layer,
            area: area_within(map, area),
        },
        Cells::None => Cells::None,
        Cells::All => Cells::All,
    }
}

// Whether a line turns one step.
#[inline(always)]
fn is_turn(line: &[u8]) -> bool {
    matches!(line, b"undo" | b"redo")
}

// Which word of a line is bad, counted from 1.
#[cold]
fn bad_word(dialect: Dialect, line: &[u8]) -> Option<u32> {
    let fault = match dialect {
        Dialect::Plain => word_fault(line),
        Dialect::AllEdits(_) => any_word_fault(line),
    };
    match fault {
        Some(fault) => Some(fault.place),
        None => None,
    }
}

// What a step, or an open macro, that holds these entries is about and changes, where the map is that now.
fn step_of<'a>(map: &Map, text: &'a str, is_macro: bool, seen: Seen) -> Step<'a>
    ensures text { result.text.now ≡ text.now }
    ensures differs { (d e : DocumentParts) → DifferWithin seen.differences d e → DifferOn map.now result.differences d e }
{
    let cells = cells_within(map, seen.differences.cells);
    Step {
        text,
        is_macro,
        subject: seen.subject.unwrap_or(Subject::Nothing),
        differences: Differences {
            cells,
            ..seen.differences
        },
    }
}

// Whether a step of a stack is a macro, and what it changes.
fn seen_at(stack: &Stack<Edit>, at: usize) -> (bool, Seen)
    requires held { Holds edit_change stack.now }
    requires there { at < count (history edit_change stack.now) }
    ensures { let h = history edit_change stack.now in DifferWithin result.1.differences (document_at h at) (document_behind h at) }
{
    match stack.entry(at) {
        Some(entry) => (entry.is_macro(), Seen::nothing().with_entry(entry)),
        None => (true, open_seen(Seen::nothing(), stack, 0, 0)),
    }
}

// The step of a stack with this number, and `None` past the last one.
fn step_in<'a>(stack: &'a Stack<Edit>, at: usize) -> Option<Step<'a>>
    requires { Holds edit_change stack.now }
    ensures text { option_map (λ step. step.text.now) result ≡ text_at (history edit_change stack.now) at }
    ensures differs { IfSome result (λ step. let h = history edit_change stack.now in
        DifferOn (current h).map step.differences (document_at h at) (document_behind h at)) }
{
    match stack.text(at) {
        Some(text) => {
            let (is_macro, seen) = seen_at(stack, at);
            Some(step_of(stack.document().map(), text, is_macro, seen))
        }
        None => None,
    }
}

impl MemoryEditor {
    // How the documents stand. It is read from the stack of the active one.
    fn standing(&self) -> Standing
        ensures { result.index ≡ (standing_of (active_of self.now.machine)).index }
    {
        let group = self.editor.group();
        let (index, depth) = match group.active() {
            Some(stack) => (stack.index(), stack.depth()),
            None => (0, 0),
        };
        Standing {
            documents: group.count(),
            active: group.active_place(),
            index,
            depth,
        }
    }

    // How the documents stand behind the last line, whose reply says how the active one does, or that none is.
    #[inline(always)]
    fn standing_behind(&self) -> Standing {
        let group = self.editor.group();
        match self.reply {
            Some(Reply::State { index, depth, .. }) => Standing {
                documents: group.count(),
                active: group.active_place(),
                index: index as usize,
                depth: depth as usize,
            },
            _ => self.standing(),
        }
    }

    // The first line of a call is to be done.
    #[inline(always)]
    pub(crate) fn listen_anew(&mut self)
        ensures { self.new ≡ self.old }
    {
        if !self.listening.begins_behind_edit() {
            let standing = self.standing_behind();
            self.listening.begins(standing);
        }
    }

    // A further line of a call, this one, is to be done.
    #[inline(always)]
    pub(crate) fn listen_on(&mut self, line: &[u8])
        ensures { self.new ≡ self.old }
    {
        if self.listening.is_turn() {
            self.look_back_at_turn();
        } else {
            self.look_back();
        }
        if self.listening.expects(is_turn(line)) {
            self.listening.look_at_undone(self.editor.group().active());
        }
    }

    // The line before, an `undo` or a `redo`, turned a step, unless it was refused.
    #[inline(always)]
    fn look_back_at_turn(&mut self)
        ensures { self.new ≡ self.old }
    {
        if let Some(Reply::State { index, .. }) = self.reply {
            self.listening.turned_to(index as usize);
        }
    }

    // What the line before did is noted.
    #[inline(always)]
    fn look_back(&mut self)
        ensures { self.new ≡ self.old }
    {
        if self.listening.goes_on_behind_edit() {
            return;
        }
        if self.may_have_changed() {
            let standing = self.standing_behind();
            self.listening
                .goes_on(standing, self.editor.group().active());
        } else {
            self.listening.passes();
        }
    }

    // Whether what is told of the lines of a call may be more with the last one: what asks, is refused or is quiet changes nothing.
    #[inline(always)]
    fn may_have_changed(&self) -> bool {
        match self.reply {
            Some(Reply::State { .. }) | Some(Reply::NoDocument) => !self.listening.is_settled(),
            _ => !self.listening.is_many(),
        }
    }

    // Which word is bad where the last line has one and it is known. That line is read once more for it.
    #[inline(always)]
    pub(crate) fn look_at_word(&mut self, line: &[u8])
        ensures { self.new ≡ self.old }
    {
        if let Some(Reply::Refused(Refusal::Line(LineFault::BadWord))) = self.reply() {
            let word = bad_word(self.dialect, line);
            self.listening.has_bad_word(word);
        }
    }

    // Which word is bad, where the refusal says that one is.
    fn bad_word(&self, refusal: Option<Refusal>) -> Option<u32> {
        match refusal {
            Some(Refusal::Line(LineFault::BadWord)) => self.listening.bad_word(),
            _ => None,
        }
    }

    // The refusal that is the reply to the last line.
    fn refusal(&self) -> Option<Refusal>
        ensures { result ≡ option_and_then refusal_of self.now.reply }
    {
        match self.reply() {
            Some(reply) => reply.refusal(),
            None => None,
        }
    }

    /// What the last line did, or the lines of the last call of `run_lines`. What they changed is looked up in the steps when this is
    /// called: it visits at most 64 entries of steps, and of a paint at most 4,096 cells.
    pub fn told(&self) -> Told
        ensures index { result.index ≡ (standing_of (active_of self.now.machine)).index }
        ensures count { result.count ≡ (standing_of (active_of self.now.machine)).count }
        ensures depth { result.depth ≡ (standing_of (active_of self.now.machine)).depth }
        ensures clean { result.is_clean ≡ (standing_of (active_of self.now.machine)).is_clean }
        ensures refusal { result.refusal ≡ option_and_then refusal_of self.now.reply }
        ensures turned { result.became ≡ Became.Turned → IfSome (active_of self.now.machine) (λ h.
            DifferOn (current h).map (differences_of result) (document_at h result.before) (document_at h result.index)) }
    {
        let done = self.listening.done(self.standing(), self.active());
        let cells = self.cells_in_map(done.differences.cells);
        let stands = self.active_status();
        let refusal = self.refusal();
        Told {
            documents: done.documents,
            outline: done.differences.outline,
            selection: done.differences.selection,
            cells,
            became: done.became,
            subject: done.subject.unwrap_or(Subject::Nothing),
            dropped: done.dropped,
            before: self.listening.first(),
            index: stands.index,
            count: stands.count,
            depth: stands.depth,
            is_clean: stands.is_clean,
            refusal,
            word: self.bad_word(refusal),
        }
    }

    // Cells as far as they lie in the map of the active document.
    fn cells_in_map(&self, cells: Cells) -> Cells
        ensures { IfSome (active_map self.now.machine) (λ m. TellsCellsOf m cells result) }
    {
        match self.active_map() {
            Some(map) => cells_within(map, cells),
            None => cells,
        }
    }

    // How the active document stands.
    fn active_status(&self) -> Status
        ensures { result ≡ standing_of (active_of self.now.machine) }
    {
        match self.active() {
            Some(stack) => Status {
                index: stack.index(),
                count: stack.count(),
                depth: stack.depth(),
                is_clean: stack.is_clean(),
                is_active: true,
            },
            None => Status {
                index: 0,
                count: 0,
                depth: 0,
                is_clean: true,
                is_active: false,
            },
        }
    }

    /// The step with this number of the active document, where the first one has 0, and `None` past the last one or where no
    /// document is active. An open macro stands last. It visits at most 64 of its entries.
    pub fn step_at(&self, at: usize) -> Option<Step<'_>>
        ensures text { option_map (λ step. step.text.now) result ≡ step_text_of (active_of self.now.machine) at }
        ensures differs { IfSome result (λ step. IfSome (active_of self.now.machine) (λ h.
            DifferOn (current h).map step.differences (document_at h at) (document_behind h at))) }
    {
        match self.active() {
            Some(stack) => step_in(stack, at),
            None => None,
        }
    }
}
