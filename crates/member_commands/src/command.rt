// What a command of own members does when it is called.
use crate::head::Head;
use crate::set_head::{MemberEdit, SetHead};
use command_api::ids::{MEMBER_ID, MEMBERS_ID};
use command_api::{Command, Exchange, Label, Offer, OwnerHead};
use map_model::{Document, MemberOwner};
use std::alloc::{AllocError, Global};

impl MemberEdit {
    ghost use Rattle.std.specs.Prelude.{◌↔◌, ◌≡◌, Bool, IsTrue, Some};
    ghost use Rattle.std.specs.Option.{option_copied};
    ghost use Rattle.map_model.specs.declared.owner.MemberOwner.{MemberOwner};
    ghost use Rattle.command_api.specs.Tag.{member_tag};
    ghost use Rattle.member_commands.specs.Changes.{member_names};

    // Whether this edit of an owner has the tag of an edit of the member of a name, or of several.
    fn is_tagged(&self, own: MemberOwner, owner: MemberOwner, name: Option<&str>) -> bool
        ensures { (follows : Bool) → IsTrue result ↔ ((member_names self.now own follows).tag ≡ Some (member_tag owner (option_copied name.entry))) }
    {
        match (self, name) {
            (MemberEdit::Set(own_name), Some(name)) => own == owner && own_name.as_str() == name,
            (MemberEdit::Put, None) => own == owner,
            _ => false,
        }
    }
}

impl<H: Head> SetHead<H> {
    ghost use Rattle.std.specs.Prelude.{◌≡◌};

    /// The owner of the members.
    pub fn owner(&self) -> MemberOwner
        ensures { result ≡ H.parts.owner self.now.id }
    {
        H::owner(self.id)
    }
}

impl<H: Head> Exchange for SetHead<H> {
    ghost use Rattle.member_commands.specs.Changes.{set_head_exchange};

    ghost exchange_parts = { set_head_exchange H.parts };

    fn label(&self) -> Label {
        match self.edit {
            MemberEdit::Set(_) => Label {
                text: "Set Member",
                action: "set member",
                id: MEMBER_ID as i32,
            },
            MemberEdit::Put => Label {
                text: "Set Members",
                action: "set members",
                id: MEMBERS_ID as i32,
            },
            MemberEdit::Remove => Label::untagged("Remove Member", "remove member"),
        }
    }

    fn is_obsolete(&self) -> bool {
        self.is_same
    }

    fn exchange(&mut self, document: &mut Document) {
        let Some(head) = self.head.take() else {
            unreachable!();
        };
        self.head = Some(head.give(document, self.id));
        self.is_made = !self.is_made;
    }
}

impl<H: Head> Command for SetHead<H> {
    ghost use Rattle.member_commands.specs.Changes.{set_head_change, set_head_shown};

    ghost change = { set_head_change H.parts };

    ghost shown = { set_head_shown H.parts };

    fn text(&self) -> &str {
        self.label().text
    }

    fn action_text(&self) -> &str {
        self.label().action
    }

    fn id(&self) -> i32 {
        self.label().id
    }

    fn obsolete(&self) -> bool {
        self.is_obsolete()
    }

    fn is_free(&self) -> bool {
        false
    }

    fn redo(&mut self, document: &mut Document) {
        self.exchange(document)
    }

    fn undo(&mut self, document: &mut Document) {
        self.exchange(document)
    }

    fn offer(&self) -> Offer<'_> {
        if !self.follows {
            return Offer::Nothing;
        }
        let Some(head) = &self.head else {
            unreachable!();
        };
        match &self.edit {
            MemberEdit::Set(name) => Offer::Member {
                name: Some(name.as_str()),
                before: head.lend(self.id),
            },
            MemberEdit::Put => Offer::Member {
                name: None,
                before: head.lend(self.id),
            },
            MemberEdit::Remove => Offer::Nothing,
        }
    }

    fn merge(
        &mut self,
        alloc: Global,
        newer: &Offer<'_>,
        document: &Document,
    ) -> Result<bool, AllocError> {
        let _ = alloc;
        let Offer::Member { name, before } = newer else {
            return Ok(false);
        };
        if !self.edit.is_tagged(self.owner(), before.owner(), *name) {
            return Ok(false);
        }
        let Some(head) = &self.head else {
            unreachable!();
        };
        self.is_same = head.is_of(document, self.id);
        Ok(true)
    }
}
