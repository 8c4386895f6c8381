ghost use Rattle.std.specs.Prelude.{◌≡◌, ◌≤◌, length};
ghost use Rattle.refusals.specs.Words.{stack_words};

use crate::refusal::NO_MEMORY;

/// Why a call on a stack is refused. The stack is then as it was.
#[derive(Clone, Copy, PartialEq, Eq, Debug)]
pub enum StackFault {
    /// A macro is open.
    MacroOpen,
    /// The index is 0: no step is below it.
    NothingToUndo,
    /// The index is the count: no step is above it.
    NothingToRedo,
    /// No macro is open that could end.
    NoMacroOpen,
    /// As many macros are open as can be, and a further one was to begin. No memory was asked for.
    TooDeep,
    /// There are steps, or a macro is open: a limit can be set only where there is neither, as after `clear`.
    NotEmpty,
    /// There was no memory for a macro that was to begin. The steps above the index are kept too.
    NoMemory,
}

impl StackFault {
    /// Its number and its words.
    pub fn words(self) -> &'static str
        ensures value { result.now ≡ stack_words self }
        ensures short { length result.now ≤ 100 }
    {
        match self {
            StackFault::MacroOpen => "20 macro open",
            StackFault::NothingToUndo => "21 nothing to undo",
            StackFault::NothingToRedo => "22 nothing to redo",
            StackFault::NoMacroOpen => "23 no macro open",
            StackFault::TooDeep => "24 too deep",
            StackFault::NotEmpty => "25 stack not empty",
            StackFault::NoMemory => NO_MEMORY,
        }
    }
}
