ghost use Rattle.std.specs.Prelude.{◌≡◌, ◌≤◌, length};
ghost use Rattle.refusals.specs.Words.{refusal_text};

use crate::edit_fault::EditFault;
use crate::line_fault::LineFault;
use crate::map_refusal::MapRefusal;
use crate::more_fault::{MEMBER_OF_OTHER_LINES, MoreFault, NO_SUCH_MEMBER};
use crate::stack_fault::StackFault;
use crate::store_fault::StoreFault;

/// The number and the words of every refusal for want of memory.
pub const NO_MEMORY: &str = "90 no memory";

/// Why a line was refused. The line changed nothing; only a `save` that the store failed may have changed its file.
///
/// A fault of a layer below that is want of memory is `NoMemory`: `Refusal::from` makes it so.
#[derive(Clone, Copy, Debug, PartialEq, Eq)]
pub enum Refusal {
    /// The line says nothing.
    Line(LineFault),
    NoActiveDocument,
    NameTaken,
    NoSuchDocument,
    UnsavedChanges,
    /// A call of the active document's stack was refused, or would have been: a `save` while a macro is open, and a `limit` where
    /// there are steps, call no stack.
    Stack(StackFault),
    /// An edit was refused. A `tile`, a `text`, a `limit` and a `new` are no edits, and are refused by the same faults.
    Edit(EditFault),
    /// The store has no such file, or failed.
    Store(StoreFault),
    /// The file says no map, or a line says of an owner what no file may.
    Map(MapRefusal),
    /// Lines of their own change the member.
    MemberOfOtherLines,
    /// The owner has no such member.
    NoSuchMember,
    NoMemory,
}

impl Refusal {
    /// Its number and its words, as they stand in a reply: `30 no such layer`.
    pub fn words(self) -> &'static str
        ensures value { result.now ≡ refusal_text self }
        ensures short { length result.now ≤ 100 }
    {
        match self {
            Refusal::Line(fault) => fault.words(),
            Refusal::NoActiveDocument => "10 no active document",
            Refusal::NameTaken => "11 name taken",
            Refusal::NoSuchDocument => "12 no such document",
            Refusal::UnsavedChanges => "13 unsaved changes",
            Refusal::Stack(fault) => fault.words(),
            Refusal::Edit(fault) => fault.words(),
            Refusal::Store(fault) => fault.words(),
            Refusal::Map(refusal) => refusal.words(),
            Refusal::MemberOfOtherLines => MEMBER_OF_OTHER_LINES,
            Refusal::NoSuchMember => NO_SUCH_MEMBER,
            Refusal::NoMemory => NO_MEMORY,
        }
    }
}

impl From<StackFault> for Refusal {
    ghost use Rattle.refusals.specs.Layers.{refusal_of_stack};

    ghost from_gives = { λ fault refusal. refusal ≡ refusal_of_stack fault };

    fn from(fault: StackFault) -> Refusal {
        match fault {
            StackFault::NoMemory => Refusal::NoMemory,
            _ => Refusal::Stack(fault),
        }
    }
}

impl From<EditFault> for Refusal {
    ghost use Rattle.refusals.specs.Layers.{refusal_of_edit};

    ghost from_gives = { λ fault refusal. refusal ≡ refusal_of_edit fault };

    fn from(fault: EditFault) -> Refusal {
        match fault {
            EditFault::NoMemory => Refusal::NoMemory,
            _ => Refusal::Edit(fault),
        }
    }
}

impl From<MoreFault> for Refusal {
    ghost use Rattle.refusals.specs.Layers.{refusal_of_more};

    ghost from_gives = { λ fault refusal. refusal ≡ refusal_of_more fault };

    fn from(fault: MoreFault) -> Refusal {
        match fault {
            MoreFault::Edit(fault) => Refusal::from(fault),
            MoreFault::Map(refusal) => Refusal::Map(refusal),
            MoreFault::MemberOfOtherLines => Refusal::MemberOfOtherLines,
            MoreFault::NoSuchMember => Refusal::NoSuchMember,
        }
    }
}

impl From<StoreFault> for Refusal {
    ghost use Rattle.refusals.specs.Layers.{refusal_of_store};

    ghost from_gives = { λ fault refusal. refusal ≡ refusal_of_store fault };

    fn from(fault: StoreFault) -> Refusal {
        match fault {
            StoreFault::Memory => Refusal::NoMemory,
            _ => Refusal::Store(fault),
        }
    }
}
