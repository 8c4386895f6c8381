// Changes of objects.
ghost use Rattle.std.specs.Prelude.{◌≡◌, Some, IsSome, IsSomeAnd};
ghost use Rattle.std.specs.Option.{option_map};
ghost use Rattle.map_model.specs.Document.{with_map, IsDocument};
ghost use Rattle.map_model.specs.Heads.{object_head, object_with_head};
ghost use Rattle.map_model.specs.Objects.{object_at, object_placing, object_with_placing, with_object, with_object_at, without_object_at, IsObjectPlaceIn};
ghost use Rattle.map_model.specs.WellFormed.{IsPlacing, IsWellFormed};

use crate::document::Document;
use crate::heads::ObjectHead;
use crate::limits::MAX_GROUPS;
use crate::objects::{head_object_in, insert_object_in, place_object_in, take_object_in};
use crate::parts::{Object, Placing};
use crate::place::ObjectPlace;
use crate::seek::{seek_here, seek_in_layers, seek_noted};
use link_tree::Loose;

impl Document {
    /// Puts an object in at a place; those from there on stand one place higher. The map is well formed with it.
    pub fn insert_object(&mut self, place: ObjectPlace, object: Loose<Object>)
        requires place { IsObjectPlaceIn self.old.map place }
        requires well_formed { IsSomeAnd object (λ o. IsWellFormed (with_object_at place o self.old.map)) }
        ensures document { IsSomeAnd object (λ o. self.new ≡ with_map (with_object_at place o) self.old) }
        ensures well_formed { IsDocument self.new }
    {
        insert_object_in(&mut self.map.parts.layers, place, object);
    }

    /// Takes the object at a place out; those behind it stand one place lower.
    pub fn take_object(&mut self, place: ObjectPlace) -> Loose<Object>
        requires { IsSome (object_at self.old.map place) }
        ensures object { result ≡ object_at self.old.map place }
        ensures document { self.new ≡ with_map (without_object_at place) self.old }
        ensures well_formed { IsDocument self.new }
    {
        take_object_in(&mut self.map.parts.layers, place)
    }

    /// Goes to the object with an id, so that it is then found and changed at once. The document stays as it is.
    pub fn seek_object(&mut self, id: u32)
        ensures document { self.new ≡ self.old }
        ensures well_formed { IsDocument self.new }
    {
        let layers = &mut self.map.parts.layers;
        if !seek_here(layers, id, MAX_GROUPS) && !seek_in_layers(layers, id, MAX_GROUPS) {
            seek_noted(layers, id, MAX_GROUPS);
        }
    }

    /// Gives the object at a place another placing, and hands the old one back.
    pub fn set_placing(&mut self, place: ObjectPlace, placing: Placing) -> Placing
        requires there { IsSome (object_at self.old.map place) }
        requires placing { IsPlacing placing }
        ensures given { option_map object_placing (object_at self.old.map place) ≡ Some result }
        ensures back { IsPlacing result }
        ensures document { self.new ≡ with_map (with_object place (object_with_placing placing)) self.old }
        ensures well_formed { IsDocument self.new }
    {
        place_object_in(&mut self.map.parts.layers, place, placing)
    }

    /// Gives the object at a place another head, and hands the old one back. The map is well formed with it.
    pub fn set_object_head(&mut self, place: ObjectPlace, head: ObjectHead) -> ObjectHead
        requires there { IsSome (object_at self.old.map place) }
        requires well_formed { IsWellFormed (with_object place (object_with_head head) self.old.map) }
        ensures given { option_map object_head (object_at self.old.map place) ≡ Some result }
        ensures document { self.new ≡ with_map (with_object place (object_with_head head)) self.old }
        ensures well_formed { IsDocument self.new }
    {
        head_object_in(&mut self.map.parts.layers, place, head)
    }
}
