ghost use Rattle.std.specs.Prelude.{◌≡◌, ◌≤◌, length, Some};
ghost use Rattle.undo_stack.specs.Stacks.{history, nestings, Holds};
ghost use Rattle.session.specs.declared.limits.TheConstants.{MAX_FILE_NAME};
ghost use Rattle.map_store.specs.Files.{SameOthers};
ghost use Rattle.document_lines.specs.Acts.{OrNoMemoryForFile, OrStoreFails, OutsideMacros, Saves};
ghost use Rattle.undo_stack.specs.Moving.{clean_answer};
ghost use Rattle.document_lines.specs.Planning.{KeepsReply};
ghost use Rattle.editor.specs.Asking.{AsksOutside, KeepsSaved};

use command_api::Command;
use map_json::write_map;
use map_store::MapStore;
use refusals::{Refusal, StackFault};
use session::{FileName, Reply, Text};
use std::alloc::Global;
use undo_stack::Stack;

/// Writes a document's map into a file. Once the store has answered, the index is the clean one.
pub fn save_document<C: Command, S: MapStore>(
    alloc: Global,
    store: &mut S,
    stack: &mut Stack<C>,
    file: &Text<'_>,
) -> Reply
    requires sound { Holds C.change stack.old }
    requires short { length file.now ≤ MAX_FILE_NAME }
    ensures sound { Holds C.change stack.new }
    ensures saves { OutsideMacros (OrStoreFails (SameOthers file.now) (OrNoMemoryForFile (Saves file.now)))
        (S.stored store.old) (S.stored store.new) (history C.change stack.old) (Some result) (history C.change stack.new) }
    ensures unchanged { KeepsReply result (history C.change stack.old) (history C.change stack.new) }
    ensures kept { nestings stack.new ≡ nestings stack.old }
    ensures asks { AsksOutside file.now (clean_answer (history C.change stack.old)) result (S.asked store.old) (S.asked store.new) }
    ensures saved { KeepsSaved file.now (history C.change stack.old) (S.keeps store.new) result }
{
    if stack.depth() > 0 {
        return Reply::Refused(Refusal::Stack(StackFault::MacroOpen));
    }
    let Ok(bytes) = write_map(alloc, stack.document().map()) else {
        return Reply::Refused(Refusal::NoMemory);
    };
    let Ok(name) = String::from_str(alloc, file.as_str()) else {
        return Reply::Refused(Refusal::NoMemory);
    };
    if let Err(fault) = store.store(alloc, file.as_str(), bytes.as_slice()) {
        return Reply::Refused(Refusal::from(fault));
    }
    match stack.set_clean() {
        Ok(()) => Reply::Saved {
            file: FileName::new(name),
            size: bytes.len() as u64,
        },
        Err(_) => unreachable!(),
    }
}
