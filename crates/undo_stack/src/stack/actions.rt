// The action texts of the steps, by their numbers.
ghost use Rattle.std.specs.Prelude.{◌≡◌, ◌≤◌, length};
ghost use Rattle.std.specs.Option.{option_copied};
ghost use Rattle.undo_stack.specs.Reading.{action_at};
ghost use Rattle.undo_stack.specs.Stacks.{history};

use super::Stack;
use command_api::Command;

impl<C: Command> Stack<C> {
    /// The action text of the step with this number, where the first one has 0, and `None` past the last one. An open macro
    /// stands last, with the action text of the outermost one.
    pub fn action(&self, at: usize) -> Option<&str>
        ensures { option_copied result ≡ action_at (history C.change self.now) at }
    {
        match self.sequences.steps.entries.get(at) {
            Some(entry) => Some(entry.action_text()),
            None => self.open_action(at),
        }
    }

    // The action text of the outermost open macro, at the number behind the entries.
    fn open_action(&self, at: usize) -> Option<&str>
        requires { length self.now.sequences.steps.entries.items ≤ at }
        ensures { option_copied result ≡ action_at (history C.change self.now) at }
    {
        if at != self.sequences.steps.entries.len() {
            return None;
        }
        match self.sequences.levels.first() {
            Some(level) => Some(level.action()),
            None => None,
        }
    }
}
