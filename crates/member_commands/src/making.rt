// The commands that edits of own members make.
ghost use Rattle.std.specs.Prelude.{◌≡◌, Ok, Err, IfOk, IfErr};
ghost use Rattle.command_api.specs.Making.{Makes};
ghost use Rattle.command_api.specs.Swap.{FitsBack};
ghost use Rattle.member_commands.specs.Changes.{member_names, set_head_change};
ghost use Rattle.member_commands.specs.Edits.{IsMoreRefusalOf, after_head, after_members, after_put_members, after_remove_member, after_set_member, is_early, is_early_named, more_fault};
ghost use Rattle.map_json.specs.Words.{all_named};
ghost use Rattle.member_commands.specs.Names.{put_members_names, remove_member_names, set_member_names};

use crate::head::Head;
use crate::set_head::{MemberEdit, SetHead};
use fractions::Fractions;
use map_json::{MapFault, json_member, json_words};
use map_model::{Document, MapText};
use map_values::JsonObject;
use refusals::{EditFault, MoreFault};
use std::alloc::Global;

/// Why a text of a line says nothing.
pub fn more_fault(fault: MapFault) -> MoreFault
    ensures { result ≡ more_fault fault }
{
    match fault {
        MapFault::Memory => MoreFault::Edit(EditFault::NoMemory),
        MapFault::Refused(refusal) => MoreFault::Map(refusal),
    }
}

// Whether each member is the owner's own.
fn are_own<H: Head>(words: &JsonObject) -> bool
    ensures { result ≡ all_named H.parts.is_own words.now }
{
    for (name, _) in words.members().iter() {
        if !H::is_own(name.as_str()) {
            return false;
        }
    }
    true
}

impl<H: Head> SetHead<H> {
    // The command that gives an owner another head, not made yet.
    fn holding(document: &Document, id: u32, edit: MemberEdit, follows: bool, head: H) -> SetHead<H>
        requires { FitsBack (H.parts.lens id) head document.now }
        ensures { Makes (member_names edit (H.parts.owner id) follows) document.now (after_head H.parts document.now id head) (set_head_change H.parts result) }
    {
        let is_same = head.is_of(document, id);
        SetHead {
            id,
            edit,
            follows,
            head: Some(head),
            is_made: false,
            is_same,
        }
    }

    // The command that gives an owner the head that members say, not made yet.
    fn saying(
        alloc: Global,
        document: &Document,
        id: u32,
        edit: MemberEdit,
        follows: bool,
        members: JsonObject,
    ) -> Result<SetHead<H>, MoreFault>
        requires { (head : H) → H.parts.read document.now members ≡ Ok head → FitsBack (H.parts.lens id) head document.now }
        ensures command { IfOk result (λ c. Makes (member_names edit (H.parts.owner id) follows) document.now (after_members H.parts document.now id members) (set_head_change H.parts c)) }
        ensures refusal { IfErr result (IsMoreRefusalOf is_early_named (after_members H.parts document.now id members)) }
    {
        match H::read(alloc, document, members) {
            Ok(head) => Ok(SetHead::holding(document, id, edit, follows, head)),
            Err(fault) => Err(more_fault(fault)),
        }
    }

    /// The command that gives the own member of the owner with an id that has this name the value that a JSON text says, not made
    /// yet. It holds all that its turns will need. The document stays as it is. Where fractions are set aside, an object's coordinate
    /// leaves the object with its own note alone.
    ///
    /// Refused where there is no such owner, then where the owner has no own member of this name, then for what the text says, and
    /// then for what a file with it would say.
    pub fn set(
        alloc: Global,
        document: &Document,
        id: u32,
        name: &str,
        json: &str,
        follows: bool,
        fractions: Fractions,
    ) -> Result<SetHead<H>, MoreFault>
        ensures command { IfOk result (λ c. Makes (set_member_names (H.parts.owner id) name.now follows) document.now (after_set_member H.parts fractions document.now id name.now json.now) (set_head_change H.parts c)) }
        ensures refusal { IfErr result (IsMoreRefusalOf is_early_named (after_set_member H.parts fractions document.now id name.now json.now)) }
    {
        if !H::is_there(document, id) {
            return Err(MoreFault::Edit(H::absence()));
        }
        if !H::is_own(name) {
            return Err(MoreFault::MemberOfOtherLines);
        }
        let value = match json_member(alloc, fractions, H::place(), name, json) {
            Ok(value) => value,
            Err(fault) => return Err(more_fault(fault)),
        };
        let Ok(mut members) = H::members(alloc, document, id) else {
            return Err(MoreFault::Edit(EditFault::NoMemory));
        };
        let moved = H::moved(fractions, document);
        if members
            .put_word(alloc, fractions, H::place(), moved, name, value)
            .is_err()
        {
            return Err(MoreFault::Edit(EditFault::NoMemory));
        }
        let Ok(name) = String::from_str(alloc, name) else {
            return Err(MoreFault::Edit(EditFault::NoMemory));
        };
        let edit = MemberEdit::Set(MapText::new(name));
        SetHead::saying(alloc, document, id, edit, follows, members)
    }

    /// The command that gives each own member of the owner with an id that a JSON text names the value that it says, all at once,
    /// not made yet. It holds all that its turns will need. The document stays as it is.
    ///
    /// Refused where there is no such owner, then for what the text says, which is to be an object, then where a name in it is no
    /// own member's, and then for what a file with them would say.
    pub fn put(
        alloc: Global,
        document: &Document,
        id: u32,
        json: &str,
        follows: bool,
        fractions: Fractions,
    ) -> Result<SetHead<H>, MoreFault>
        ensures command { IfOk result (λ c. Makes (put_members_names (H.parts.owner id) follows) document.now (after_put_members H.parts fractions document.now id json.now) (set_head_change H.parts c)) }
        ensures refusal { IfErr result (IsMoreRefusalOf is_early (after_put_members H.parts fractions document.now id json.now)) }
    {
        if !H::is_there(document, id) {
            return Err(MoreFault::Edit(H::absence()));
        }
        let words = match json_words(alloc, fractions, H::place(), json) {
            Ok(words) => words,
            Err(fault) => return Err(more_fault(fault)),
        };
        if !are_own::<H>(&words) {
            return Err(MoreFault::MemberOfOtherLines);
        }
        let Ok(mut members) = H::members(alloc, document, id) else {
            return Err(MoreFault::Edit(EditFault::NoMemory));
        };
        let moved = H::moved(fractions, document);
        if members
            .put_words(alloc, fractions, H::place(), moved, words)
            .is_err()
        {
            return Err(MoreFault::Edit(EditFault::NoMemory));
        }
        SetHead::saying(alloc, document, id, MemberEdit::Put, follows, members)
    }

    /// The command that takes the own member of the owner with an id that has this name out, not made yet. It holds all that its
    /// turns will need. The document stays as it is.
    ///
    /// Refused where there is no such owner, then where the owner has no own member of this name, then where the member is absent,
    /// and then for what a file without it would say.
    pub fn remove(
        alloc: Global,
        document: &Document,
        id: u32,
        name: &str,
        fractions: Fractions,
    ) -> Result<SetHead<H>, MoreFault>
        ensures command { IfOk result (λ c. Makes remove_member_names document.now (after_remove_member H.parts fractions document.now id name.now) (set_head_change H.parts c)) }
        ensures refusal { IfErr result (IsMoreRefusalOf is_early_named (after_remove_member H.parts fractions document.now id name.now)) }
    {
        if !H::is_there(document, id) {
            return Err(MoreFault::Edit(H::absence()));
        }
        if !H::is_own(name) {
            return Err(MoreFault::MemberOfOtherLines);
        }
        let Ok(mut members) = H::members(alloc, document, id) else {
            return Err(MoreFault::Edit(EditFault::NoMemory));
        };
        if members.get(name).is_none() {
            return Err(MoreFault::NoSuchMember);
        }
        if members
            .remove_word(alloc, fractions, H::place(), name)
            .is_err()
        {
            return Err(MoreFault::Edit(EditFault::NoMemory));
        }
        SetHead::saying(alloc, document, id, MemberEdit::Remove, false, members)
    }
}
