ghost use Rattle.std.specs.Prelude.{◌≡◌};
ghost use Rattle.map_model.specs.Layers.{sibling_place};
ghost use Rattle.map_model.specs.Objects.{sibling_object_place};

/// Where a layer stands: the id of its group, or none if it stands in no group; and how many layers stand before it there.
#[derive(Clone, Copy, PartialEq, Eq, Debug)]
pub struct LayerPlace {
    pub parent: Option<u32>,
    pub at: usize,
}

impl LayerPlace {
    /// The place in the same group that has `at` layers before it.
    pub fn sibling(self, at: usize) -> LayerPlace
        ensures { result ≡ sibling_place self at }
    {
        LayerPlace {
            parent: self.parent,
            at,
        }
    }
}

/// Where an object stands: the id of its layer, and how many objects of that layer stand before it.
#[derive(Clone, Copy, PartialEq, Eq, Debug)]
pub struct ObjectPlace {
    pub layer: u32,
    pub at: usize,
}

impl ObjectPlace {
    /// The place in the same layer that has `at` objects before it.
    pub fn sibling(self, at: usize) -> ObjectPlace
        ensures { result ≡ sibling_object_place self at }
    {
        ObjectPlace {
            layer: self.layer,
            at,
        }
    }
}

/// Where the owner of properties stands.
#[derive(Clone, Copy, PartialEq, Eq, Debug)]
pub enum OwnerPlace {
    Map,
    /// The layer with this id.
    Layer(u32),
    /// The object at this place.
    Object(ObjectPlace),
}
