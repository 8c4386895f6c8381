use crate::listening::Listening;
use crate::rectangle::{Rectangle, copy_cells};
use arrayvec::ArrayString;
use document_lines::Dialect;
use editor::{Edit, Editor};
use map_json::write_outline;
use map_model::Map;
use map_store::{MapStore, MemoryStore};
use region::Run;
use session::Reply;
use session_run::step_told;
use std::alloc::{AllocError, Global};
use std::marker::Model;
use undo_stack::Stack;

/// An editor, and the files that its lines open and save, in memory.
///
/// A caller sees which lines the editor reads, the machine that it stands for, the files, and the reply to the last line.
#[derive(Drop)]
pub struct MemoryEditor {
    pub(crate) editor: Editor<Edit>,
    store: MemoryStore,
    // The reply to the last line, where it had one.
    pub(crate) reply: Option<Reply>,
    // Where a reply is written before it is copied, made once: to make it takes more than to write most replies.
    pub(crate) head: ArrayString<512>,
    // What is kept of the last line to tell what it did.
    pub(crate) listening: Listening,
    // Which lines it reads.
    pub(crate) dialect: Dialect,
    pub(crate) alloc: Global,
}

impl Model for MemoryEditor {
    ghost use Rattle.std.specs.Coded.{codes};
    ghost use Rattle.map_model.specs.Document.{document_code};
    ghost use Rattle.memory_editor.specs.Parts.{MemoryEditorParts, files_code};

    ghost Value = { MemoryEditorParts };

    ghost coded = { Prim.hlevel (codes, document_code, files_code) };

    ghost use Rattle.document_lines.specs.Planning.{edit_change};
    ghost use Rattle.editor.specs.Editors.{IsSound, machine_of};
    ghost use Rattle.editor.specs.Kinds.{kinds_in};
    ghost use Rattle.map_store.specs.Stored.{files_of};

    ghost view = { λ s. record { dialect = s.dialect; machine = machine_of edit_change s.editor; kinds = kinds_in s.editor; files = files_of s.store.files; reply = s.reply } };

    ghost invariant = { λ s. IsSound edit_change s.editor };
}

impl MemoryEditor {
    ghost use Rattle.std.specs.Prelude.{◌≡◌, ◌≤◌, IfOk, IfErr, slice_get};
    ghost use Rattle.std.specs.FinMap.{contains_key, get, insert, keys, len, remove};
    ghost use Rattle.std.specs.Option.{option_copied};
    ghost use Rattle.undo_stack.specs.declared.limits.TheConstants.{MAX_LIMIT};
    ghost use Rattle.document_lines.specs.declared.dialect.Dialect.TheVariants.{Plain};
    ghost use Rattle.memory_editor.specs.Parts.{started_editor, StepsTo};

    /// An editor with no documents and no files, which reads the plain lines. The limit is the undo limit of each document when it is
    /// made, at most 1,000,000, where 0 stands for none. Takes no memory.
    pub fn new(alloc: Global, limit: usize) -> MemoryEditor
        requires { limit ≤ MAX_LIMIT }
        ensures { result ≡ started_editor Plain limit }
    {
        MemoryEditor::for_dialect(alloc, limit, Dialect::Plain)
    }

    /// As `new`, and it reads the lines of a dialect.
    pub fn for_dialect(alloc: Global, limit: usize, dialect: Dialect) -> MemoryEditor
        requires { limit ≤ MAX_LIMIT }
        ensures { result ≡ started_editor dialect limit }
    {
        MemoryEditor {
            editor: Editor::new(alloc, limit),
            store: MemoryStore::new(alloc),
            reply: None,
            head: ArrayString::new(),
            listening: Listening::new(),
            dialect,
            alloc,
        }
    }

    /// Does what a line asks for, and keeps the reply to it until the next line. The line has no newline at its end.
    pub fn step(&mut self, line: &[u8])
        ensures { StepsTo line.now self.old self.new }
    {
        self.listen_anew();
        self.hear(line);
        self.look_at_word(line);
    }

    // Does a line.
    pub(crate) fn hear(&mut self, line: &[u8])
        ensures { StepsTo line.now self.old self.new }
    {
        let put = |edit: Edit| -> Option<Edit>
            ensures { result ≡ Some edit }
        { Some(edit) };
        let dialect = self.dialect;
        self.reply = step_told(
            self.alloc,
            &mut self.editor,
            &mut self.store,
            dialect,
            line,
            &put,
            &mut self.listening,
        );
    }

    /// The reply to the last line, and `None` where that line was quiet or there was none.
    pub fn reply(&self) -> Option<&Reply>
        ensures { option_copied result ≡ self.now.reply }
    {
        self.reply.as_ref()
    }

    /// Puts bytes under a name, in place of those that are there. Where there is no memory the editor is as it was.
    pub fn put_file(&mut self, name: &str, bytes: &[u8]) -> Result<(), AllocError>
        ensures put { IfOk result (λ _. self.new ≡ record self.old { files = insert self.old.files name.now bytes.now }) }
        ensures unchanged { IfErr result (λ _. self.new ≡ self.old) }
    {
        self.store
            .store(self.alloc, name, bytes)
            .map_err(|_| AllocError)
    }

    /// The bytes of a file, and `None` where there is none of that name.
    pub fn file(&self, name: &str) -> Option<&[u8]>
        ensures { option_copied result ≡ get self.now.files name.now }
    {
        self.store.file(name)
    }

    /// Takes a file out, and says whether there was one of that name.
    pub fn remove_file(&mut self, name: &str) -> bool
        ensures found { result ≡ contains_key self.old.files name.now }
        ensures removed { self.new ≡ record self.old { files = remove self.old.files name.now } }
    {
        self.store.remove(name)
    }

    /// How many files there are.
    pub fn file_count(&self) -> usize
        ensures { result ≡ len self.now.files }
    {
        self.store.count()
    }

    /// The name of the file with this number in the order of names, where the first has 0, and `None` past the last one.
    pub fn file_name(&self, at: usize) -> Option<&str>
        ensures { option_copied result ≡ slice_get (keys self.now.files) at }
    {
        self.store.name(at)
    }
}

// What no line tells of the active document.
impl MemoryEditor {
    ghost use Rattle.std.specs.Prelude.{◌≡◌, List, [], IfOk, IfSome, MatchOption, None, Ok, is_some, length, slice_get};
    ghost use Rattle.std.specs.Option.{option_copied, option_map};
    ghost use Rattle.map_json.specs.Outlines.{outline_text};
    ghost use Rattle.undo_stack.specs.Stacks.{history, macros, Holds};
    ghost use Rattle.document_lines.specs.Machine.{active_of};
    ghost use Rattle.document_lines.specs.Planning.{edit_change};
    ghost use Rattle.editor.specs.Kinds.{macros_at};
    ghost use Rattle.region.specs.declared.runs.Run.{Run as RunOf};
    ghost use Rattle.memory_editor.specs.Buffers.{filled};
    ghost use Rattle.memory_editor.specs.Parts.{action_text_of, active_map, clean_index_of, has_step, is_macro_at, AreRunsOf};
    ghost use Rattle.memory_editor.specs.Rectangles.{cells_of};

    // The stack of the active document.
    pub(crate) fn active(&self) -> Option<&Stack<Edit>>
        ensures active { option_map (λ stack. history edit_change stack.now) result ≡ active_of self.now.machine }
        ensures held { IfSome result (λ stack. Holds edit_change stack.now) }
        ensures kinds { MatchOption result (macros_at self.now.machine.group.active self.now.kinds ≡ [])
            (λ stack. macros stack.now ≡ macros_at self.now.machine.group.active self.now.kinds) }
    {
        self.editor.group().active()
    }

    // The map of the active document.
    pub(crate) fn active_map(&self) -> Option<&Map>
        ensures { option_copied result ≡ active_map self.now.machine }
    {
        match self.active() {
            Some(stack) => Some(stack.document().map()),
            None => None,
        }
    }

    /// The index at which the active document counts as clean, and `None` where that was lost or no document is active.
    pub fn clean_index(&self) -> Option<usize>
        ensures { result ≡ clean_index_of (active_of self.now.machine) }
    {
        match self.active() {
            Some(stack) => stack.clean_index(),
            None => None,
        }
    }

    /// Whether the step with this number of the active document is a macro, where the first one has 0, and `None` past the
    /// last one or where no document is active. An open macro stands last.
    pub fn is_macro(&self, at: usize) -> Option<bool>
        ensures there { is_some result ≡ has_step (active_of self.now.machine) at }
        ensures told { result ≡ is_macro_at at self.now }
    {
        match self.active() {
            Some(stack) => stack.is_macro(at),
            None => None,
        }
    }

    /// The action text of the step with this number of the active document, where the first one has 0, and `None` past the last
    /// one or where no document is active. An open macro stands last.
    pub fn action_text(&self, at: usize) -> Option<&str>
        ensures { option_copied result ≡ action_text_of (active_of self.now.machine) at }
    {
        match self.active() {
            Some(stack) => stack.action(at),
            None => None,
        }
    }

    /// The id that the next layer of the active document gets, and `None` where none is active.
    pub fn next_layer_id(&self) -> Option<u32>
        ensures { result ≡ option_map (λ m. m.next_layer_id) (active_map self.now.machine) }
    {
        match self.active_map() {
            Some(map) => Some(map.parts().next_layer_id),
            None => None,
        }
    }

    /// The id that the next object of the active document gets, and `None` where none is active.
    pub fn next_object_id(&self) -> Option<u32>
        ensures { result ≡ option_map (λ m. m.next_object_id) (active_map self.now.machine) }
    {
        match self.active_map() {
            Some(map) => Some(map.parts().next_object_id),
            None => None,
        }
    }

    /// Copies the cells of a rectangle of the tile layer with this id of the active document, in groups too, row by row, where
    /// the buffer has room for all of them, and gives how many they are. `None` where no document is active, where it has no
    /// tile layer with that id, and where the rectangle leaves the map.
    pub fn copy_cells(&self, layer: u32, rectangle: Rectangle, cells: &mut [u32]) -> Option<usize>
        ensures count { result ≡ option_map length (cells_of layer rectangle (active_map self.now.machine)) }
        ensures copied { cells.new ≡ filled (cells_of layer rectangle (active_map self.now.machine)) cells.old }
    {
        match self.active_map() {
            Some(map) => copy_cells(map, layer, rectangle, cells),
            None => None,
        }
    }

    /// The outline of the active document's map, and `None` where no document is active: the map's text without the member
    /// `data` of tile layers. No cell is looked at.
    pub fn outline(&self) -> Result<Option<Vec<u8>>, AllocError>
        ensures text { IfOk result (λ text. option_map (λ bytes. bytes.items) text ≡ option_map outline_text (active_map self.now.machine)) }
        ensures none { active_map self.now.machine ≡ None → result ≡ Ok None }
    {
        match self.active_map() {
            Some(map) => Ok(Some(write_outline(self.alloc, map)?)),
            None => Ok(None),
        }
    }

    /// How many runs the selection of the active document has, and 0 where no document is active.
    pub fn selection_count(&self) -> usize
        ensures { (runs : List RunOf) × AreRunsOf (active_of self.now.machine) runs × (result ≡ length runs) }
    {
        match self.active() {
            Some(stack) => stack.document().selection().rows().count(),
            None => 0,
        }
    }

    /// The run with this number of that selection, in row order, and `None` past the last one.
    pub fn selection_run(&self, at: usize) -> Option<Run>
        ensures { (runs : List RunOf) × AreRunsOf (active_of self.now.machine) runs × (result ≡ slice_get runs at) }
    {
        match self.active() {
            Some(stack) => stack.document().selection().rows().nth(at),
            None => None,
        }
    }
}
