ghost use Rattle.std.specs.Prelude.{◌≡◌, negsuc};

use crate::command::Command;
use crate::offer::Offer;
use map_model::Document;
use std::alloc::{AllocError, Global};

/// What a command is called: the text that stands for it in a list of steps, the text that names its action, and the id
/// of the kind of change, at least 0, or -1 where the command has no tag.
#[derive(Clone, Copy)]
pub struct Label {
    pub text: &'static str,
    pub action: &'static str,
    pub id: i32,
}

impl Label {
    /// The label of a command that has no tag.
    pub fn untagged(text: &'static str, action: &'static str) -> Label
        ensures text { result.text.now ≡ text.now }
        ensures action { result.action.now ≡ action.now }
        ensures id { result.id ≡ negsuc 0 }
    {
        Label {
            text,
            action,
            id: -1,
        }
    }
}

/// A command that is its own reverse: what it holds and a part of the document change places, when it is made and when it
/// is undone.
pub trait Exchange: Drop {
    ghost use Rattle.command_api.specs.Exchange.{Exchange as ExchangeParts, IsExchanged, IsLabelOf, FitsExchange};

    /// What the command is, and what it does to a document.
    ghost exchange_parts: { Self → ExchangeParts };

    /// What the command is called.
    fn label(&self) -> Label
        ensures { IsLabelOf (exchange_parts self.now).names result };

    /// Whether the command changes nothing and may be dropped.
    fn is_obsolete(&self) -> bool
        ensures { result ≡ (exchange_parts self.now).obsolete };

    /// Exchanges what the command holds and its part of the document.
    fn exchange(&mut self, document: &mut Document)
        requires { FitsExchange (exchange_parts self.old) document.old }
        ensures { IsExchanged (exchange_parts self.old) (exchange_parts self.new) document.old document.new };
}

/// An exchange that has no tag. It follows nothing, nothing merges with it, and it is not free.
pub trait Lone: Exchange {
    ghost use Rattle.command_api.specs.Offers.{IsAlone};

    ghost alone: { (x : Self) → IsAlone (Self.exchange_parts x).names };
}

impl<E: Lone> Command for E {
    ghost use Rattle.command_api.specs.Exchange.{change_of};
    ghost use Rattle.command_api.specs.Offers.{Nothing};

    ghost change = { λ c. change_of (E.exchange_parts c) };

    ghost shown = { λ c. Nothing };

    fn text(&self) -> &str {
        self.label().text
    }

    fn action_text(&self) -> &str {
        self.label().action
    }

    fn id(&self) -> i32 {
        self.label().id
    }

    fn obsolete(&self) -> bool {
        self.is_obsolete()
    }

    fn is_free(&self) -> bool {
        false
    }

    fn redo(&mut self, document: &mut Document) {
        self.exchange(document)
    }

    fn undo(&mut self, document: &mut Document) {
        self.exchange(document)
    }

    fn offer(&self) -> Offer<'_> {
        Offer::Nothing
    }

    fn merge(
        &mut self,
        alloc: Global,
        newer: &Offer<'_>,
        document: &Document,
    ) -> Result<bool, AllocError> {
        let _ = alloc;
        let _ = newer;
        let _ = document;
        Ok(false)
    }
}
