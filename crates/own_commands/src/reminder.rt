ghost use Rattle.std.specs.Prelude.{◌≡◌, ◌-◌};
ghost use Rattle.command_api.specs.Offers.{Nothing};
ghost use Rattle.own_commands.specs.Reminding.{reminder_change};

use command_api::{Command, Offer};
use map_model::Document;
use std::alloc::{AllocError, Global};

/// A note among the steps, which goes by itself. It changes nothing in the document, and says that it is obsolete once it
/// was turned so many times; the stack then drops it.
///
/// A reminder is a free command: it says itself when it is obsolete. All that its law asks of it then is that an obsolete one
/// turns nothing, and a reminder never does.
#[derive(Drop)]
pub struct Reminder {
    text: String,
    // How many turns are left until it is obsolete. The redo of the push that brings it onto a stack is a turn too.
    turns_left: u32,
}

impl Reminder {
    /// The reminder with a text that goes at the turn of this number.
    pub fn new(text: String, turns: u32) -> Reminder
        ensures { result ≡ record { text = text; turns_left = turns } }
    {
        Reminder {
            text,
            turns_left: turns,
        }
    }

    // Counts a turn.
    fn turn(&mut self)
        ensures { self.new ≡ record self.old { turns_left = self.old.turns_left - 1 } }
    {
        self.turns_left = self.turns_left.saturating_sub(1);
    }
}

impl Command for Reminder {
    ghost change = { reminder_change };

    ghost shown = { λ c. Nothing };

    fn text(&self) -> &str {
        self.text.as_str()
    }

    fn action_text(&self) -> &str {
        "reminder"
    }

    // A reminder has no tag: nothing merges with it.
    fn id(&self) -> i32 {
        -1
    }

    fn obsolete(&self) -> bool {
        self.turns_left == 0
    }

    fn is_free(&self) -> bool {
        true
    }

    fn redo(&mut self, document: &mut Document) {
        let _ = document;
        self.turn();
    }

    fn undo(&mut self, document: &mut Document) {
        let _ = document;
        self.turn();
    }

    fn offer(&self) -> Offer<'_> {
        Offer::Nothing
    }

    fn merge(
        &mut self,
        alloc: Global,
        newer: &Offer<'_>,
        document: &Document,
    ) -> Result<bool, AllocError> {
        let _ = alloc;
        let _ = newer;
        let _ = document;
        Ok(false)
    }
}
