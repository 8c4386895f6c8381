ghost use Rattle.std.specs.Prelude.{◌≡◌, ◌↔◌, IfOk, IsTrue, Ok, true};
ghost use Rattle.command_api.specs.Law.{Change, IsLawful, IsRedone, IsSame, IsUndone};
ghost use Rattle.command_api.specs.Names.{is_free};
ghost use Rattle.command_api.specs.Offers.{AsksMerge, IsMerged, IsOfferOf, Shown, Takes, shown_of};
ghost use Rattle.command_api.specs.Tag.{id_of};

use crate::offer::Offer;
use map_model::Document;
use std::alloc::{AllocError, Global};

/// A change of a document, which is made by `redo` and undone by `undo`.
///
/// A new command has not been made yet. It holds from its construction on all that its turns need: no call but `merge` can
/// fail, and none but `merge` takes memory. The second is not checked.
pub trait Command: Drop {
    /// What the command is, and what its turns do to a document.
    ghost change: { Self → Change };

    /// What the command shows to the one before it, made or not: a plain value.
    ghost shown: { Self → Shown };

    /// The text that stands for the command in a list of steps. It stays the same for as long as the command lives.
    fn text(&self) -> &str
        ensures { result.now ≡ (change self.now).names.text };

    /// The text that names the action, for undo and redo. It stays the same for as long as the command lives.
    fn action_text(&self) -> &str
        ensures { result.now ≡ (change self.now).names.action };

    /// The id of the kind of change, at least 0, or -1 where the command has no tag.
    fn id(&self) -> i32
        ensures { result ≡ id_of (change self.now).names.tag };

    /// Whether the command changes nothing and may be dropped.
    fn obsolete(&self) -> bool
        ensures answer { result ≡ (change self.now).obsolete }
        ensures law { IsLawful (change self.now) };

    /// Whether a turn may leave the command obsolete, so that it turns nothing and its stack drops it. No command of the
    /// editor's own lines is of this kind. The answer stays the same for as long as the command lives.
    fn is_free(&self) -> bool
        ensures { result ≡ is_free (change self.now).names.vanishing };

    /// Makes the change. The document is one that the command fits for redo.
    fn redo(&mut self, document: &mut Document)
        requires { (change self.old).fits_redo document.old }
        ensures { IsRedone (change self.old) (change self.new) document.old document.new };

    /// Turns the change back. The document is one that the command fits for undo.
    fn undo(&mut self, document: &mut Document)
        requires { (change self.old).fits_undo document.old }
        ensures { IsUndone (change self.old) (change self.new) document.old document.new };

    /// What the command shows to the one before it: its change, where it follows, and else nothing.
    fn offer(&self) -> Offer<'_>
        ensures answer { shown_of result ≡ shown self.now }
        ensures law { IsOfferOf (change self.now) (shown self.now) };

    /// Takes a newer change in where it shows the command's own tag, and says whether it did. The document is the one after
    /// both changes, and this command stays the one that is made. Its texts, its tag and whether it follows stay.
    ///
    /// Where there is no memory the command is as it was.
    fn merge(
        &mut self,
        alloc: Global,
        newer: &Offer<'_>,
        document: &Document,
    ) -> Result<bool, AllocError>
        requires { AsksMerge (change self.old) (shown_of newer.now) document.now }
        ensures answer { IfOk result (λ b. IsTrue b ↔ Takes (change self.old).names.tag (shown_of newer.now)) }
        ensures merged { result ≡ Ok true → IsMerged (change self.old) (change self.new) (shown_of newer.now) document.now }
        ensures unchanged { (result ≡ Ok true → ⊥) → IsSame (change self.old) (change self.new) };
}

// A box is the command in it.
impl Command for Box<dyn Command> {
    ghost change = { λ b. (Command-box b).change b.value };

    ghost shown = { λ b. (Command-box b).shown b.value };

    fn text(&self) -> &str {
        (**self).text()
    }

    fn action_text(&self) -> &str {
        (**self).action_text()
    }

    fn id(&self) -> i32 {
        (**self).id()
    }

    fn obsolete(&self) -> bool {
        (**self).obsolete()
    }

    fn is_free(&self) -> bool {
        (**self).is_free()
    }

    fn redo(&mut self, document: &mut Document) {
        (**self).redo(document)
    }

    fn undo(&mut self, document: &mut Document) {
        (**self).undo(document)
    }

    fn offer(&self) -> Offer<'_> {
        (**self).offer()
    }

    fn merge(
        &mut self,
        alloc: Global,
        newer: &Offer<'_>,
        document: &Document,
    ) -> Result<bool, AllocError> {
        (**self).merge(alloc, newer, document)
    }
}
