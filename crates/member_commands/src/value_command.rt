// What a command of a tileset's member does when it is called.
ghost use Rattle.std.specs.Prelude.{◌≡◌, ◌↔◌, IsTrue};
ghost use Rattle.map_model.specs.Heads.{tileset_value};

use crate::set_value::SetValue;
use command_api::ids::MEMBER_ID;
use command_api::{Command, Exchange, Label, Offer, OwnerHead};
use json_members::found;
use json_trees::is_same;
use map_model::{Document, MemberOwner};
use std::alloc::{AllocError, Global};

impl SetValue {
    ghost use Rattle.std.specs.Prelude.{Bool, Some};
    ghost use Rattle.std.specs.Option.{option_copied};
    ghost use Rattle.map_model.specs.declared.owner.MemberOwner.TheVariants.{Tileset};
    ghost use Rattle.command_api.specs.Tag.{member_tag};
    ghost use Rattle.member_commands.specs.Names.{set_member_names};

    /// The owner of the member.
    pub fn owner(&self) -> MemberOwner
        ensures { result ≡ Tileset self.now.first_id }
    {
        MemberOwner::Tileset(self.first_id)
    }

    // Whether it has the tag of an edit of the member of a name, or of several.
    fn is_tagged(&self, owner: MemberOwner, name: Option<&str>) -> bool
        ensures { (follows : Bool) → IsTrue result ↔ ((set_member_names (Tileset self.now.first_id) self.now.name follows).tag ≡ Some (member_tag owner (option_copied name.entry))) }
    {
        match name {
            Some(name) => {
                owner == MemberOwner::Tileset(self.first_id) && self.name.as_str() == name
            },
            None => false,
        }
    }

    // Whether the tileset's member has the value that is held.
    fn is_of(&self, document: &Document) -> bool
        ensures { IsTrue result ↔ ((tileset_value self.now.first_id self.now.name).get document.now ≡ self.now.value) }
    {
        let Some(value) = &self.value else {
            unreachable!();
        };
        let Some(tileset) = document.map().tileset(self.first_id) else {
            return false;
        };
        match found(tileset.kept.members(), self.name.as_str()) {
            Some(own) => is_same(own, value.value()),
            None => false,
        }
    }
}

impl Exchange for SetValue {
    ghost use Rattle.member_commands.specs.Changes.{set_value_exchange};

    ghost exchange_parts = { set_value_exchange };

    fn label(&self) -> Label {
        Label {
            text: "Set Member",
            action: "set member",
            id: MEMBER_ID as i32,
        }
    }

    fn is_obsolete(&self) -> bool {
        self.is_same
    }

    fn exchange(&mut self, document: &mut Document) {
        let Some(value) = self.value.take() else {
            unreachable!();
        };
        self.value = Some(document.set_tileset_value(self.first_id, self.name.as_str(), value));
        self.is_made = !self.is_made;
    }
}

impl Command for SetValue {
    ghost use Rattle.member_commands.specs.Changes.{set_value_change, set_value_shown};

    ghost change = { set_value_change };

    ghost shown = { set_value_shown };

    fn text(&self) -> &str {
        self.label().text
    }

    fn action_text(&self) -> &str {
        self.label().action
    }

    fn id(&self) -> i32 {
        self.label().id
    }

    fn obsolete(&self) -> bool {
        self.is_obsolete()
    }

    fn is_free(&self) -> bool {
        false
    }

    fn redo(&mut self, document: &mut Document) {
        self.exchange(document)
    }

    fn undo(&mut self, document: &mut Document) {
        self.exchange(document)
    }

    fn offer(&self) -> Offer<'_> {
        if !self.follows {
            return Offer::Nothing;
        }
        let Some(value) = &self.value else {
            unreachable!();
        };
        Offer::Member {
            name: Some(self.name.as_str()),
            before: OwnerHead::TilesetMember(self.first_id, value),
        }
    }

    fn merge(
        &mut self,
        alloc: Global,
        newer: &Offer<'_>,
        document: &Document,
    ) -> Result<bool, AllocError> {
        let _ = alloc;
        let Offer::Member { name, before } = newer else {
            return Ok(false);
        };
        if !self.is_tagged(before.owner(), *name) {
            return Ok(false);
        }
        // (a head would have to be held whole; no line shows one where its member is there)
        let OwnerHead::TilesetMember(_, _) = before else {
            return Err(AllocError);
        };
        self.is_same = self.is_of(document);
        Ok(true)
    }
}
