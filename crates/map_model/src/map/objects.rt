// Look-ups of objects.
ghost use Rattle.std.specs.Prelude.{◌≡◌, Some, IfSome};
ghost use Rattle.std.specs.Option.{option_map};
ghost use Rattle.map_model.specs.Objects.{last_object_place, object_at, object_place};
ghost use Rattle.map_model.specs.WellFormed.{IsWellFormed};

use crate::here::innermost_here;
use crate::limits::MAX_GROUPS;
use crate::map::Map;
use crate::objects::find_in_layers;
use crate::parts::Object;
use crate::place::ObjectPlace;

impl Map {
    /// The object with an id, behind its place: at once where the objects were last changed there or gone to, or else by a walk.
    pub fn object(&self, id: u32) -> Option<(ObjectPlace, &Object)>
        ensures place { option_map (λ found. found.0) result ≡ object_place self.now id }
        ensures object { IfSome result (λ found. object_at self.now found.0 ≡ Some found.1.now) }
        ensures well_formed { IsWellFormed self.now }
    {
        match self.object_here(id) {
            Some(found) => Some(found),
            None => find_in_layers(&self.parts.layers, id, MAX_GROUPS),
        }
    }

    /// The place behind the last object of the object layer with an id; `None` where there is no such object layer.
    pub fn last_object_place(&self, layer: u32) -> Option<ObjectPlace>
        ensures { result ≡ last_object_place self.now layer }
    {
        let objects = self.layer(layer)?.body.objects()?;
        Some(ObjectPlace {
            layer,
            at: objects.len(),
        })
    }

    // The object that was last changed or gone to, where it has the id.
    fn object_here(&self, id: u32) -> Option<(ObjectPlace, &Object)>
        ensures place { IfSome result (λ found. object_place self.now id ≡ Some found.0) }
        ensures object { IfSome result (λ found. object_at self.now found.0 ≡ Some found.1.now) }
    {
        let layer = innermost_here(&self.parts.layers, MAX_GROUPS)?;
        let (at, object) = layer.body.objects()?.here()?;
        let place = ObjectPlace {
            layer: layer.id,
            at,
        };
        if object.id == id {
            Some((place, object))
        } else {
            None
        }
    }
}
