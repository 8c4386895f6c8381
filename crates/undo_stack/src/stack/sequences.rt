ghost use Rattle.std.specs.Prelude.{◌≡◌, ◌<◌, [], MatchBool, length};
ghost use Rattle.std.specs.Borrow.{sem};
ghost use Rattle.undo_stack.specs.Lending.{LendsInnermost, innermost};

use crate::level::Level;
use crate::sequence::Sequence;
use command_api::Command;

/// The sequences of a stack: its own, and those of the open macros, outermost first.
#[derive(Drop)]
pub struct Sequences<C> {
    pub steps: Sequence<C>,
    pub levels: Vec<Level<C>>,
}

impl<C: Command> Sequences<C> {
    /// Whether a macro is open.
    #[inline(always)]
    pub fn is_open(&self) -> bool
        ensures { MatchBool result (0 < length self.now.levels.items) (self.now.levels.items ≡ []) }
    {
        !self.levels.is_empty()
    }

    /// The innermost one: that of the macro that began last, or the stack's own.
    #[inline(always)]
    pub fn innermost(&mut self) -> &mut Sequence<C>
        ensures* lends { sem 𝓛 (LendsInnermost C.row self.entry result) }
        ensures value { result.now ≡ innermost self.old }
    {
        if self.is_open() {
            let last = self.levels.len() - 1;
            let level = &mut self.levels[last];
            return &mut level.sequence;
        }
        &mut self.steps
    }
}
