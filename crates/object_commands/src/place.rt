ghost use Rattle.std.specs.Prelude.{◌≡◌, ◌↔◌, Err, IfOk, IfErr, IsTrue, Some};
ghost use Rattle.map_model.specs.WellFormed.{IsPixels};
ghost use Rattle.command_api.specs.declared.ids.TheConstants.{MOVE_ID};
ghost use Rattle.command_api.specs.Making.{Makes};
ghost use Rattle.command_api.specs.Tag.{OfObject};
ghost use Rattle.edits.specs.ObjectEdits.{after_move_object, after_resize_object};
ghost use Rattle.object_commands.specs.Changes.{place_object_change, place_object_exchange, place_object_shown};
ghost use Rattle.object_commands.specs.Names.{move_object_names, resize_object_names};

use crate::held_placing::HeldPlacing;
use crate::size::sizes;
use command_api::ids::MOVE_ID;
use command_api::{Command, Exchange, Label, Offer};
use edits::EditFault;
use map_model::{Document, ObjectPlace, Placing};
use std::alloc::{AllocError, Global};

/// A way to place an object.
#[derive(Clone, Copy, PartialEq, Eq, Debug)]
enum PlacingKind {
    Move,
    Resize,
}

/// An object is moved or resized. The command holds the placing that the object does not have, and the one that it gives.
#[derive(Drop)]
pub struct PlaceObject {
    place: ObjectPlace,
    placing: HeldPlacing,
    after: HeldPlacing,
    object: u32,
    kind: PlacingKind,
    follows: bool,
    is_made: bool,
    // Whether the object's placing before the change and the one that the command gives are the same.
    is_same: bool,
}

impl PlaceObject {
    /// The command that moves the object with an id to a place in pixels, not made yet. The document stays as it is.
    ///
    /// Refused where there is no such object.
    pub fn moved(
        document: &Document,
        object: u32,
        x: i32,
        y: i32,
        follows: bool,
    ) -> Result<PlaceObject, EditFault>
        requires x { IsPixels x }
        requires y { IsPixels y }
        ensures command { IfOk result (λ c. Makes (move_object_names object follows) document.now (after_move_object document.now object x y) (place_object_change c)) }
        ensures refusal { IfErr result (λ fault. after_move_object document.now object x y ≡ Err fault) }
    {
        let Some((place, found)) = document.map().object(object) else {
            return Err(EditFault::NoSuchObject);
        };
        let placing = Placing {
            x: Some(x),
            y: Some(y),
            ..found.placing
        };
        Ok(PlaceObject {
            place,
            placing: HeldPlacing::new(placing),
            after: HeldPlacing::new(placing),
            object,
            kind: PlacingKind::Move,
            follows,
            is_made: false,
            is_same: found.placing == placing,
        })
    }

    /// The command that gives the object with an id a width and a height in pixels, not made yet. The document stays as
    /// it is.
    ///
    /// Refused where there is no such object, and then where the width or the height is above 1,000,000,000.
    pub fn resized(
        document: &Document,
        object: u32,
        width: u32,
        height: u32,
    ) -> Result<PlaceObject, EditFault>
        ensures command { IfOk result (λ c. Makes resize_object_names document.now (after_resize_object document.now object width height) (place_object_change c)) }
        ensures refusal { IfErr result (λ fault. after_resize_object document.now object width height ≡ Err fault) }
    {
        let Some((place, found)) = document.map().object(object) else {
            return Err(EditFault::NoSuchObject);
        };
        let Some((width, height)) = sizes(width, height) else {
            return Err(EditFault::OutOfRange);
        };
        let placing = Placing {
            width: Some(width),
            height: Some(height),
            ..found.placing
        };
        Ok(PlaceObject {
            place,
            placing: HeldPlacing::new(placing),
            after: HeldPlacing::new(placing),
            object,
            kind: PlacingKind::Resize,
            follows: false,
            is_made: false,
            is_same: found.placing == placing,
        })
    }
}

impl PlaceObject {
    /// The id of the object.
    pub fn object(&self) -> u32
        ensures { result ≡ self.now.object }
    {
        self.object
    }
}

impl Exchange for PlaceObject {
    ghost exchange_parts = { place_object_exchange };

    fn label(&self) -> Label {
        match self.kind {
            PlacingKind::Move => Label {
                text: "Move Object",
                action: "move object",
                id: MOVE_ID as i32,
            },
            PlacingKind::Resize => Label::untagged("Resize Object", "resize object"),
        }
    }

    fn is_obsolete(&self) -> bool {
        self.is_same
    }

    fn exchange(&mut self, document: &mut Document) {
        self.placing = HeldPlacing::new(document.set_placing(self.place, self.placing.get()));
        self.is_made = !self.is_made;
    }
}

impl PlaceObject {
    // Whether the command is a move of the object with an id.
    fn moves(&self, object: u32) -> bool
        ensures { IsTrue result ↔ ((place_object_exchange self.now).names.tag ≡ Some (record { kind = MOVE_ID; subject = OfObject object })) }
    {
        match self.kind {
            PlacingKind::Move => object == self.object,
            PlacingKind::Resize => false,
        }
    }
}

impl Command for PlaceObject {
    ghost change = { place_object_change };

    ghost shown = { place_object_shown };

    fn text(&self) -> &str {
        self.label().text
    }

    fn action_text(&self) -> &str {
        self.label().action
    }

    fn id(&self) -> i32 {
        self.label().id
    }

    fn obsolete(&self) -> bool {
        self.is_obsolete()
    }

    fn is_free(&self) -> bool {
        false
    }

    fn redo(&mut self, document: &mut Document) {
        self.exchange(document)
    }

    fn undo(&mut self, document: &mut Document) {
        self.exchange(document)
    }

    fn offer(&self) -> Offer<'_> {
        if !self.follows {
            return Offer::Nothing;
        }
        match self.kind {
            PlacingKind::Move => Offer::Place {
                object: self.object,
                before: self.placing.get(),
                after: self.after.get(),
            },
            PlacingKind::Resize => Offer::Nothing,
        }
    }

    fn merge(
        &mut self,
        alloc: Global,
        newer: &Offer<'_>,
        document: &Document,
    ) -> Result<bool, AllocError> {
        let _ = alloc;
        let _ = document;
        let Offer::Place { object, after, .. } = newer else {
            return Ok(false);
        };
        if !self.moves(*object) {
            return Ok(false);
        }
        self.after = HeldPlacing::new(*after);
        self.is_same = self.placing.get() == *after;
        Ok(true)
    }
}
