ghost use Rattle.std.specs.Prelude.{◌≡◌};
ghost use Rattle.undo_stack.specs.Told.{added_as, merged_as};

/// What a push became, or the end of a macro. With the history before it, this says what the history is now.
#[derive(Clone, Copy, PartialEq, Eq, Debug)]
pub enum Pushed {
    /// A step below the index, or the last entry of the innermost open macro.
    Added,
    /// A step below the index, and the first step is dropped, since there were more than the limit. Never while a macro is open.
    AddedAndDropped,
    /// A part of the step below the index, or of the innermost open macro's last entry, which took the command in.
    Merged,
    /// As `Merged`, but that step was obsolete then, and is gone.
    Gone,
    /// No step: the command is obsolete. The steps above the index are gone all the same, where no macro is open.
    Nothing,
}

impl Pushed {
    // What a step that is added became.
    #[inline(always)]
    pub(crate) fn added(is_dropped: bool) -> Pushed
        ensures { result ≡ added_as is_dropped }
    {
        if is_dropped {
            Pushed::AddedAndDropped
        } else {
            Pushed::Added
        }
    }

    // What a command that is merged became.
    #[inline(always)]
    pub(crate) fn merged(is_gone: bool) -> Pushed
        ensures { result ≡ merged_as is_gone }
    {
        if is_gone {
            Pushed::Gone
        } else {
            Pushed::Merged
        }
    }
}
