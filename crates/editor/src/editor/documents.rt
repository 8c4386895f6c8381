// The lines about the open documents: a new one, one that goes or becomes the active one, and what stands open.
ghost use Rattle.std.specs.Prelude.{◌≡◌, ◌↔◌, ◌++◌, ◌∷◌, [], if◌then◌else◌, IsTrue, IfOk, OnOk, Some, string_bytes};
ghost use Rattle.std.specs.Option.{option_copied};
ghost use Rattle.map_model.specs.Document.{document_of};
ghost use Rattle.map_model.specs.NewMap.{new_map};
ghost use Rattle.map_model.specs.WellFormed.{IsSize, IsTileSize};
ghost use Rattle.undo_group.specs.Groups.{IsNew, removed};
ghost use Rattle.undo_group.specs.Stacks.{group_of, AreHeld};
ghost use Rattle.undo_stack.specs.History.{new_history};
ghost use Rattle.undo_stack.specs.Reading.{redo_text_of, undo_text_of};
ghost use Rattle.session.specs.Spelling.{CanBeSpelled};
ghost use Rattle.session.specs.declared.reply.Reply.TheVariants as replies;
ghost use Rattle.document_lines.specs.Acts.{Answers, Closes, Creates, NotTaken, GoesOn, Named, OrNoMemory, Opens, TellsText, Uses};
ghost use Rattle.document_lines.specs.Answers.{documents_text, is_active, starred, status_reply};
ghost use Rattle.document_lines.specs.Machine.{active_of, workspace};
ghost use Rattle.document_lines.specs.Planning.{KeepsReply};
ghost use Rattle.document_lines.specs.Rules.{MachineStep};
ghost use Rattle.editor.specs.Editors.{machine_of, IsHeld, IsSound};
ghost use Rattle.editor.specs.Asking.{Asks};
ghost use Rattle.editor.specs.Kinds.{AddsKinds, LosesKinds, UnlessRefused, StepKinds, kinds_in};
ghost use Rattle.editor.specs.Planning.{IsOfDocuments};

use crate::editor::Editor;
use command_api::Command;
use document_lines::{state_of, text_reply};
use map_model::{Document, Map, MapText, is_size, is_tile_size};
use map_store::MapStore;
use refusals::{EditFault, Refusal};
use session::{Line, Reply, Text};
use std::alloc::{AllocError, Global};
use undo_group::Group;
use undo_stack::Stack;

/// The sizes of a new map: its columns and rows, and the pixels of a tile.
#[derive(Clone, Copy)]
struct Sizes {
    width: u32,
    height: u32,
    tile_width: u32,
    tile_height: u32,
}

impl Sizes {
    // Whether a map may have these sizes.
    fn are_within_limits(self) -> bool
        ensures { IsTrue result ↔ (IsSize self.width self.height × IsTileSize self.tile_width self.tile_height) }
    {
        is_size(self.width, self.height) && is_tile_size(self.tile_width, self.tile_height)
    }
}

// The document of a new map.
fn new_document(alloc: Global, sizes: Sizes, source: &str) -> Result<Document, AllocError>
    requires size { IsSize sizes.width sizes.height }
    requires tile_size { IsTileSize sizes.tile_width sizes.tile_height }
    ensures { IfOk result (λ d. d ≡ document_of (new_map sizes.width sizes.height sizes.tile_width sizes.tile_height source.now)) }
{
    let source = MapText::new(String::from_str(alloc, source)?);
    let map = Map::create(
        alloc,
        sizes.width,
        sizes.height,
        sizes.tile_width,
        sizes.tile_height,
        source,
    )?;
    Ok(Document::new(alloc, map))
}

// Whether this is the name of the active document.
fn is_active(active: Option<&str>, name: &str) -> bool
    ensures { result ≡ is_active (option_copied active.entry) name.now }
{
    match active {
        Some(active) => active == name,
        None => false,
    }
}

// Puts a name behind others: with a space before it where it is not the first, and a `*` where it is the active one.
fn push_listed(
    text: &mut String,
    is_first: bool,
    is_active: bool,
    name: &str,
) -> Result<(), AllocError>
    ensures { OnOk result (string_bytes text.new ≡ string_bytes text.old ++ (if is_first then [] else 32 ∷ []) ++ starred is_active name.now) }
{
    if !is_first {
        text.push_str(" ")?;
    }
    if is_active {
        text.push_str("*")?;
    }
    text.push_str(name)
}

// The names of the open documents, in order of opening, with a `*` before the active one's.
fn documents_text<C: Command>(alloc: Global, group: &Group<C>) -> Result<String, AllocError>
    requires { AreHeld C.change group.now }
    ensures { IfOk result (λ text. string_bytes text ≡ documents_text (group_of C.change group.now)) }
{
    let active = group.active_name();
    let mut text = String::new(alloc);
    let mut is_first = true;
    for name in group.names() {
        push_listed(&mut text, is_first, is_active(active, name), name)?;
        is_first = false;
    }
    Ok(text)
}

impl<C: Command> Editor<C> {
    // Does what a line about the open documents and the files asks for.
    #[inline(always)]
    pub(crate) fn on_documents<S: MapStore>(
        &mut self,
        alloc: Global,
        store: &mut S,
        line: &Line<'_>,
    ) -> Reply
        requires held { IsHeld C.change self.old }
        requires spelled { CanBeSpelled line.now }
        requires about { IsOfDocuments line.now }
        ensures held { IsHeld C.change self.new }
        ensures sound { IsSound C.change self.old → IsSound C.change self.new }
        ensures step { MachineStep line.now (workspace (machine_of C.change self.old) (S.stored store.old)) (Some result) (workspace (machine_of C.change self.new) (S.stored store.new)) }
        ensures unchanged { KeepsReply result (machine_of C.change self.old) (machine_of C.change self.new) }
        ensures kinds { StepKinds line.now (machine_of C.change self.old) (Some result) (machine_of C.change self.new) (kinds_in self.old) (kinds_in self.new) }
        ensures asks { Asks line.now (machine_of C.change self.old) (S.keeps store.new) result (S.asked store.old) (S.asked store.new) }
    {
        match line {
            Line::New {
                name,
                width,
                height,
                tile_width,
                tile_height,
                source,
            } => {
                let sizes = Sizes {
                    width: *width,
                    height: *height,
                    tile_width: *tile_width,
                    tile_height: *tile_height,
                };
                self.open_new(alloc, name, sizes, source)
            }
            Line::Open { name, file } => self.open_file(alloc, store, name, file),
            Line::Save { file } => self.save(alloc, store, file),
            Line::Close { name } => self.close(name),
            Line::Discard { name } => self.discard(name),
            Line::Use { choice } => self.choose(choice),
            Line::Documents => self.list(alloc),
            Line::Status => self.status(),
            Line::UndoText => self.undo_text(alloc),
            Line::RedoText => self.redo_text(alloc),
            _ => unreachable!(),
        }
    }

    // Opens a new document.
    #[inline(never)]
    fn open_new(&mut self, alloc: Global, name: &Text<'_>, sizes: Sizes, source: &Text<'_>) -> Reply
        requires { IsHeld C.change self.old }
        ensures held { IsHeld C.change self.new }
        ensures sound { IsSound C.change self.old → IsSound C.change self.new }
        ensures step { NotTaken name.now (OrNoMemory (Creates name.now sizes.width sizes.height sizes.tile_width sizes.tile_height source.now))
            (machine_of C.change self.old) (Some result) (machine_of C.change self.new) }
        ensures unchanged { KeepsReply result (machine_of C.change self.old) (machine_of C.change self.new) }
        ensures kinds { UnlessRefused result (AddsKinds name.now) (kinds_in self.old) (kinds_in self.new) }
    {
        if self.group.get(name.as_str()).is_some() {
            return Reply::Refused(Refusal::NameTaken);
        }
        if !sizes.are_within_limits() {
            return Reply::Refused(Refusal::Edit(EditFault::OutOfRange));
        }
        match new_document(alloc, sizes, source.as_str()) {
            Ok(document) => self.add_document(alloc, name, document),
            Err(_) => Reply::Refused(Refusal::NoMemory),
        }
    }

    // Puts a document with a free name last, and makes it the active one.
    pub(crate) fn add_document(
        &mut self,
        alloc: Global,
        name: &Text<'_>,
        document: Document,
    ) -> Reply
        requires held { IsHeld C.change self.old }
        requires new { IsNew name.now (machine_of C.change self.old).group.documents }
        ensures held { IsHeld C.change self.new }
        ensures sound { IsSound C.change self.old → IsSound C.change self.new }
        ensures step { OrNoMemory (Opens name.now (new_history document (machine_of C.change self.old).limit))
            (machine_of C.change self.old) (Some result) (machine_of C.change self.new) }
        ensures unchanged { KeepsReply result (machine_of C.change self.old) (machine_of C.change self.new) }
        ensures kinds { UnlessRefused result (AddsKinds name.now) (kinds_in self.old) (kinds_in self.new) }
    {
        let stack = Stack::new(alloc, document, self.limit);
        let reply = state_of(&stack);
        match self.group.add_active(alloc, name.as_str(), stack) {
            Ok(()) => reply,
            Err(_) => Reply::Refused(Refusal::NoMemory),
        }
    }

    // Closes a document that is clean.
    fn close(&mut self, name: &Text<'_>) -> Reply
        requires { IsHeld C.change self.old }
        ensures held { IsHeld C.change self.new }
        ensures sound { IsSound C.change self.old → IsSound C.change self.new }
        ensures step { Named name.now (Closes name.now) (machine_of C.change self.old) (Some result) (machine_of C.change self.new) }
        ensures unchanged { KeepsReply result (machine_of C.change self.old) (machine_of C.change self.new) }
        ensures kinds { UnlessRefused result (LosesKinds name.now) (kinds_in self.old) (kinds_in self.new) }
    {
        if let Some(stack) = self.group.get(name.as_str()) {
            if !stack.is_clean() {
                return Reply::Refused(Refusal::UnsavedChanges);
            }
        }
        self.discard(name)
    }

    // Closes a document.
    fn discard(&mut self, name: &Text<'_>) -> Reply
        requires { IsHeld C.change self.old }
        ensures held { IsHeld C.change self.new }
        ensures sound { IsSound C.change self.old → IsSound C.change self.new }
        ensures step { Named name.now (λ h. GoesOn (removed name.now)) (machine_of C.change self.old) (Some result) (machine_of C.change self.new) }
        ensures unchanged { KeepsReply result (machine_of C.change self.old) (machine_of C.change self.new) }
        ensures kinds { UnlessRefused result (LosesKinds name.now) (kinds_in self.old) (kinds_in self.new) }
    {
        let Ok(_) = self.group.remove(name.as_str()) else {
            return Reply::Refused(Refusal::NoSuchDocument);
        };
        self.status()
    }

    // Makes a document the active one, or none.
    fn choose(&mut self, choice: &Option<Text<'_>>) -> Reply
        requires { IsHeld C.change self.old }
        ensures held { IsHeld C.change self.new }
        ensures sound { IsSound C.change self.old → IsSound C.change self.new }
        ensures step { Uses choice.now (machine_of C.change self.old) (Some result) (machine_of C.change self.new) }
        ensures unchanged { KeepsReply result (machine_of C.change self.old) (machine_of C.change self.new) }
        ensures kinds { kinds_in self.new ≡ kinds_in self.old }
    {
        let name = match choice {
            Some(name) => Some(name.as_str()),
            None => None,
        };
        match self.group.set_active(name) {
            Ok(()) => self.status(),
            Err(_) => Reply::Refused(Refusal::NoSuchDocument),
        }
    }

    // The names of the open documents, where there is memory for them.
    #[inline(never)]
    fn list(&self, alloc: Global) -> Reply
        requires { IsHeld C.change self.now }
        ensures { OrNoMemory (Answers λ m. replies.Documents (documents_text m.group)) (machine_of C.change self.now) (Some result) (machine_of C.change self.now) }
    {
        match documents_text(alloc, &self.group) {
            Ok(text) => Reply::Documents(MapText::new(text)),
            Err(_) => Reply::Refused(Refusal::NoMemory),
        }
    }

    /// How the active document stands: the reply to the line `status`.
    #[inline(always)]
    pub fn status(&self) -> Reply
        requires { IsHeld C.change self.now }
        ensures { result ≡ status_reply (active_of (machine_of C.change self.now)) }
    {
        match self.group.active() {
            Some(stack) => state_of(stack),
            None => Reply::NoDocument,
        }
    }

    /// The action text of what `undo` would do: the reply to the line `undotext`, or that memory is out.
    #[inline(always)]
    pub fn undo_text(&self, alloc: Global) -> Reply
        requires { IsHeld C.change self.now }
        ensures { TellsText undo_text_of (machine_of C.change self.now) (Some result) (machine_of C.change self.now) }
    {
        match self.group.active() {
            Some(stack) => text_reply(alloc, stack.undo_text()),
            None => Reply::Text(MapText::new(String::new(alloc))),
        }
    }

    /// The action text of what `redo` would do: the reply to the line `redotext`, or that memory is out.
    #[inline(always)]
    pub fn redo_text(&self, alloc: Global) -> Reply
        requires { IsHeld C.change self.now }
        ensures { TellsText redo_text_of (machine_of C.change self.now) (Some result) (machine_of C.change self.now) }
    {
        match self.group.active() {
            Some(stack) => text_reply(alloc, stack.redo_text()),
            None => Reply::Text(MapText::new(String::new(alloc))),
        }
    }
}
