// The beginning and the end of a macro.
ghost use Rattle.std.specs.Prelude.{◌≡◌, ◌<◌, length, IfOk, vec_len, vec_capacity};
ghost use Rattle.std.specs.VecDeque.{deque_capacity};
ghost use Rattle.undo_stack.specs.Macros.{Begins, Ends};
ghost use Rattle.undo_stack.specs.Pushing.{cut, without_last};
ghost use Rattle.undo_stack.specs.Lending.{innermost};
ghost use Rattle.undo_stack.specs.Nestings.{NestingsLead, nestings_begun, nestings_cut, nestings_ended};
ghost use Rattle.undo_stack.specs.Stacks.{history, nestings, Holds, IsReady};
ghost use Rattle.undo_stack.specs.Told.{answer_of, IsAdded, TellsDrop};

use super::Stack;
use crate::level::Level;
use crate::limits::MAX_DEPTH;
use crate::pushed::Pushed;
use command_api::Command;
use refusals::StackFault;
use std::alloc::AllocError;

impl<C: Command> Stack<C> {
    /// Begins a macro, which takes what is pushed until it ends as one step. The text stands for it in a list of steps, the
    /// other one names its action. The steps above the index go, and with them a clean index among them.
    ///
    /// The answer is `TooDeep` where as many macros are open as can be, before any memory is asked for, and `NoMemory` where
    /// there is none. The stack is then as it was, with the steps above the index.
    pub fn begin_macro(&mut self, text: &str, action: &str) -> Result<(), StackFault>
        requires { Holds C.change self.old }
        ensures sound { Holds C.change self.new }
        ensures step { Begins text.now action.now (history C.change self.old) result (history C.change self.new) }
        ensures nests { NestingsLead result (nestings self.old)
            (nestings_begun (history C.change self.old).position (nestings self.old)) (nestings self.new) }
    {
        if self.sequences.levels.len() >= MAX_DEPTH {
            return Err(StackFault::TooDeep);
        }
        // All that the macro needs, up to its end, is taken before the first change.
        let Ok(level) = Level::new(self.alloc, text, action) else {
            return Err(StackFault::NoMemory);
        };
        let Ok(()) = self.take_room() else {
            return Err(StackFault::NoMemory);
        };
        self.cut();
        self.sequences.levels.push_reserved(level);
        Ok(())
    }

    /// Ends the macro that began last, which becomes one step below the index, also where nothing was pushed in it. Where
    /// another one is open, it becomes that one's last entry. With a limit other than 0, the first step goes where there are
    /// more than that then. Takes no memory.
    ///
    /// The answer is `NoMacroOpen` where none is open, and the stack is then as it was.
    pub fn end_macro(&mut self) -> Result<(), StackFault>
        requires { Holds C.change self.old }
        ensures sound { Holds C.change self.new }
        ensures step { Ends (history C.change self.old) result (history C.change self.new) }
        ensures nests { NestingsLead result (nestings self.old)
            (nestings_ended (history C.change self.old).limit (nestings self.old)) (nestings self.new) }
    {
        match self.end_macro_told() {
            Ok(_) => Ok(()),
            Err(fault) => Err(fault),
        }
    }

    /// As `end_macro`, and tells what the macro became: `AddedAndDropped` where the first step is dropped, else `Added`, as always
    /// where another macro is open still.
    #[inline(always)]
    pub fn end_macro_told(&mut self) -> Result<Pushed, StackFault>
        requires { Holds C.change self.old }
        ensures sound { Holds C.change self.new }
        ensures step { Ends (history C.change self.old) (answer_of result) (history C.change self.new) }
        ensures nests { NestingsLead (answer_of result) (nestings self.old)
            (nestings_ended (history C.change self.old).limit (nestings self.old)) (nestings self.new) }
        ensures added { IfOk result (λ p. IsAdded p) }
        ensures dropped { IfOk result (λ p. let h = history C.change self.old in TellsDrop p (without_last h.levels) h) }
    {
        let Some(level) = self.sequences.levels.pop() else {
            return Err(StackFault::NoMacroOpen);
        };
        let entry = level.into_entry();
        let is_dropped = self.sequences.innermost().add(entry);
        Ok(Pushed::added(is_dropped))
    }

    // Sees to it that there is room for a further level, and for what it becomes.
    fn take_room(&mut self) -> Result<(), AllocError>
        requires { Holds C.change self.old }
        ensures sound { Holds C.change self.new }
        ensures same { history C.change self.new ≡ history C.change self.old }
        ensures kept { nestings self.new ≡ nestings self.old }
        ensures count { length self.new.sequences.levels.items ≡ length self.old.sequences.levels.items }
        ensures room { IfOk result (λ _. vec_len self.new.sequences.levels < vec_capacity self.new.sequences.levels) }
        ensures inner_room { IfOk result (λ _. let q = innermost self.new.sequences in q.index < deque_capacity q.entries) }
    {
        self.sequences.levels.reserve(1)?;
        self.sequences.innermost().take_room()
    }

    // With no level open the entries above the index go, and a clean index above it is lost.
    fn cut(&mut self)
        requires sound { Holds C.change self.old }
        requires room { let q = innermost self.old.sequences in q.index < deque_capacity q.entries }
        ensures sound { Holds C.change self.new }
        ensures cut { history C.change self.new ≡ cut (history C.change self.old) }
        ensures nests { nestings self.new ≡ nestings_cut (history C.change self.old).position (nestings self.old) }
        ensures ready { IsReady (innermost self.new.sequences) }
        ensures levels { self.new.sequences.levels ≡ self.old.sequences.levels }
        ensures document { self.new.document ≡ self.old.document }
    {
        if self.sequences.is_open() {
            return;
        }
        self.sequences.steps.cut();
    }
}
