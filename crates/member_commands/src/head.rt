// The heads of owners: what a command of own members needs of each kind.
use command_api::OwnerHead;
use fractions::{Fractions, Moved, Place};
use map_model::{Document, MemberOwner};
use map_values::{JsonObject, MapFault};
use refusals::EditFault;
use std::alloc::{AllocError, Global};

/// The head of one kind of owner: what an owner is beside its id and its lists.
pub trait Head: Drop {
    ghost use Rattle.std.specs.Prelude.{◌≡◌, ◌↔◌, Some, IfOk, IsTrue, IsSome, IsSomeAnd};
    ghost use Rattle.map_model.specs.Lens.{put};
    ghost use Rattle.map_values.specs.Presence.{Gives};
    ghost use Rattle.map_model.specs.WellFormed.{IsWellFormed};
    ghost use Rattle.command_api.specs.Heads.{shown_head};
    ghost use Rattle.command_api.specs.Swap.{FitsBack};
    ghost use Rattle.member_commands.specs.Heads.{HeadParts, AreHeadParts};

    /// Which part of a document a head is, and what its members say.
    ghost parts: { HeadParts Self };

    /// The owner with an id.
    fn owner(id: u32) -> MemberOwner
        ensures { result ≡ parts.owner id };

    /// Why an edit is refused where no owner has the id.
    fn absence() -> EditFault
        ensures { result ≡ parts.absence };

    /// Where such an owner stands in a map, as far as it matters to fractions.
    fn place() -> Place
        ensures { result ≡ parts.place };

    /// How many pixels further than it stands such an owner of a document is saved, where fractions are set aside.
    fn moved(fractions: Fractions, document: &Document) -> Moved
        ensures { result ≡ parts.moved fractions document.now };

    /// Whether a member of this name is the owner's own, and no lines of its own change it.
    fn is_own(name: &str) -> bool
        ensures { result ≡ parts.is_own name.now };

    /// Whether the document has the owner with an id.
    fn is_there(document: &Document, id: u32) -> bool
        ensures there { IsTrue result ↔ IsSome ((parts.lens id).get document.now) }
        ensures well_formed { IsWellFormed document.now.map };

    /// The members of the head of the owner with an id.
    fn members(alloc: Global, document: &Document, id: u32) -> Result<JsonObject, AllocError>
        requires { IsSome ((parts.lens id).get document.now) }
        ensures { IfOk result (λ members. IsSomeAnd ((parts.lens id).get document.now) (λ head. members ≡ parts.members head)) };

    /// The head that members say, or why a file may not say it of this document.
    fn read(alloc: Global, document: &Document, members: JsonObject) -> Result<Self, MapFault>
        ensures { Gives result (parts.read document.now members) };

    /// Whether the owner with an id has this head.
    fn is_of(&self, document: &Document, id: u32) -> bool
        ensures { IsTrue result ↔ ((parts.lens id).get document.now ≡ Some self.now) };

    /// The head, as the owner with an id had it, for an offer.
    fn lend(&self, id: u32) -> OwnerHead<'_>
        ensures { shown_head result ≡ parts.shown id self.now };

    /// Gives the owner with an id this head, and hands its own back.
    fn give(self, document: &mut Document, id: u32) -> Self
        requires { FitsBack (parts.lens id) self document.old }
        ensures own { (parts.lens id).get document.old ≡ Some result }
        ensures document { document.new ≡ put (parts.lens id) self document.old };

    ghost laws: { AreHeadParts parts };
}
