// What C keeps an editor in.
ghost use Rattle.std.specs.Prelude.{◌≡◌, None, Some, is_some};
ghost use Rattle.std.specs.Option.{option_map};

use crate::held::Held;
use memory_editor::MemoryEditor;
use std::alloc::Global;
use std::mem;

/// An editor, or none: then it is closed. All bytes 0 stand for a closed one.
#[repr(C)]
#[derive(Drop)]
pub struct CEditor {
    pub held: Held,
    pub is_open: bool,
    ghost tied: { is_some held.held_editor ≡ is_open },
}

impl CEditor {
    /// A closed one.
    pub fn closed(alloc: Global) -> CEditor
        ensures { result.held.held_editor ≡ None }
    {
        CEditor {
            held: Held::closed(alloc),
            is_open: false,
        }
    }

    /// An open one, with that editor.
    pub fn of_box(boxed: Box<MemoryEditor>) -> CEditor
        ensures { result.held.held_editor ≡ Some boxed.value }
    {
        CEditor {
            held: Held::of_box(boxed),
            is_open: true,
        }
    }

    /// Takes the editor out, where it is open.
    pub fn take(&mut self, alloc: Global) -> Option<Box<MemoryEditor>>
        ensures taken { option_map (λ boxed. boxed.value) result ≡ self.old.held.held_editor }
        ensures left { self.new.held.held_editor ≡ None }
    {
        let CEditor { held, is_open } = mem::replace(self, CEditor::closed(alloc));
        if is_open {
            return Some(held.into_box());
        }
        None
    }
}
