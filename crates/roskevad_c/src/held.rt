// A box of an editor or none, whose type names no other type, so that C can hold it.
ghost use Rattle.std.specs.Prelude.{◌≡◌, Option, None, Some, IsSome};
ghost use Rattle.memory_editor.specs.Parts.{MemoryEditorParts};
ghost use Rattle.roskevad_c.specs.Held.{held_coded, held_owns};

use crate::parts::Parts;
use memory_editor::MemoryEditor;
use std::alloc::Global;
use std::marker::Model;

/// A box of an editor, or none. Nothing but `into_box` drops the editor.
#[repr(C)]
#[derive(Drop)]
pub struct Held {
    at: *mut u8,
    alloc: Global,
    pub ghost held_editor: { Option MemoryEditorParts } by { held_coded },
}

impl Model for Held {
    ghost also_owns = { λ s. held_owns s.alloc s.at s.held_editor };
}

impl Held {
    /// No editor.
    pub fn closed(alloc: Global) -> Held
        ensures { result.held_editor ≡ None }
    {
        Held {
            at: std::ptr::null_mut(),
            alloc,
        }
    }

    /// That editor.
    pub fn of_box(boxed: Box<MemoryEditor>) -> Held
        ensures { result.held_editor ≡ Some boxed.value }
    {
        Held::of_parts(Parts::of(boxed))
    }

    /// The editor, where there is one.
    pub fn into_box(self) -> Box<MemoryEditor>
        requires { IsSome self.held_editor }
        ensures { self.held_editor ≡ Some result.value }
    {
        self.into_parts().into_box()
    }

    fn of_parts(parts: Parts<MemoryEditor, Global>) -> Held
        ensures { result.held_editor ≡ Some parts.value }
    {
        let Parts { ptr, alloc } = parts;
        Held {
            at: ptr as *mut u8,
            alloc,
        }
    }

    fn into_parts(self) -> Parts<MemoryEditor, Global>
        requires { IsSome self.held_editor }
        ensures { self.held_editor ≡ Some result.value }
    {
        let Held { at, alloc } = self;
        Parts {
            ptr: at as *mut MemoryEditor,
            alloc,
        }
    }
}
