// The lines about files.
ghost use Rattle.std.specs.Prelude.{◌≡◌, ◌≤◌, length, Some};
ghost use Rattle.session.specs.declared.limits.TheConstants.{MAX_FILE_NAME};
ghost use Rattle.editor.specs.Editors.{machine_of, IsHeld, IsSound};
ghost use Rattle.map_store.specs.Files.{SameOthers};
ghost use Rattle.document_lines.specs.Acts.{FilesStay, Loads, NewName, OfActive, OrNoMemoryForFile, OrStoreFails, OutsideMacros, Saves};
ghost use Rattle.undo_group.specs.Groups.{history_named};
ghost use Rattle.document_lines.specs.Machine.{active_of};
ghost use Rattle.document_lines.specs.Planning.{KeepsReply};
ghost use Rattle.editor.specs.Asking.{AsksToSave, asked_to_open};
ghost use Rattle.editor.specs.Kinds.{AddsKinds, UnlessRefused, kinds_in};

use crate::editor::Editor;
use crate::saving::save_document;
use command_api::Command;
use map_json::read_map;
use map_model::Document;
use map_store::MapStore;
use refusals::Refusal;
use session::{Reply, Text};
use std::alloc::Global;

impl<C: Command> Editor<C> {
    // Opens the map of a file as a new document.
    #[inline(never)]
    pub(crate) fn open_file<S: MapStore>(
        &mut self,
        alloc: Global,
        store: &mut S,
        name: &Text<'_>,
        file: &Text<'_>,
    ) -> Reply
        requires { IsHeld C.change self.old }
        ensures held { IsHeld C.change self.new }
        ensures sound { IsSound C.change self.old → IsSound C.change self.new }
        ensures step { NewName name.now (OrStoreFails FilesStay (OrNoMemoryForFile (Loads name.now file.now)))
            (S.stored store.old) (S.stored store.new) (machine_of C.change self.old) (Some result) (machine_of C.change self.new) }
        ensures unchanged { KeepsReply result (machine_of C.change self.old) (machine_of C.change self.new) }
        ensures kinds { UnlessRefused result (AddsKinds name.now) (kinds_in self.old) (kinds_in self.new) }
        ensures asks { S.asked store.new ≡ asked_to_open file.now (history_named name.now (machine_of C.change self.old).group.documents) (S.asked store.old) }
    {
        if self.group.get(name.as_str()).is_some() {
            return Reply::Refused(Refusal::NameTaken);
        }
        let bytes = match store.load(alloc, file.as_str()) {
            Ok(bytes) => bytes,
            Err(fault) => return Reply::Refused(Refusal::from(fault)),
        };
        match read_map(alloc, bytes.as_slice()) {
            Ok(map) => self.add_document(alloc, name, Document::new(alloc, map)),
            Err(fault) => Reply::Refused(Refusal::from(fault)),
        }
    }

    // Writes the active document's map into a file.
    #[inline(never)]
    pub(crate) fn save<S: MapStore>(
        &mut self,
        alloc: Global,
        store: &mut S,
        file: &Text<'_>,
    ) -> Reply
        requires held { IsHeld C.change self.old }
        requires short { length file.now ≤ MAX_FILE_NAME }
        ensures held { IsHeld C.change self.new }
        ensures sound { IsSound C.change self.old → IsSound C.change self.new }
        ensures step { OfActive (OutsideMacros (OrStoreFails (SameOthers file.now) (OrNoMemoryForFile (Saves file.now))))
            (S.stored store.old) (S.stored store.new) (machine_of C.change self.old) (Some result) (machine_of C.change self.new) }
        ensures unchanged { KeepsReply result (machine_of C.change self.old) (machine_of C.change self.new) }
        ensures kinds { kinds_in self.new ≡ kinds_in self.old }
        ensures asks { AsksToSave file.now (active_of (machine_of C.change self.old)) (S.keeps store.new) result (S.asked store.old) (S.asked store.new) }
    {
        match self.group.active_mut() {
            Some(stack) => save_document(alloc, store, stack, file),
            None => Reply::Refused(Refusal::NoActiveDocument),
        }
    }
}
