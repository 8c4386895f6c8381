ghost use Rattle.std.specs.Prelude.{◌≡◌};
ghost use Rattle.fractions.specs.Places.{is_coordinate, below_layer, below, inside};

/// Where in a map's tree a value stands, as far as it matters to a fraction there.
#[derive(Clone, Copy)]
pub enum Place {
    /// The root.
    Map,
    /// A layer, or the array of layers.
    Layer,
    /// An object of an object layer, or the array of objects.
    Object,
    /// The `x`, `y`, `width` or `height` of an object.
    Coordinate,
    /// The `version` of the root.
    Version,
    /// Any other.
    Elsewhere,
}

fn is_coordinate(name: &str) -> bool
    ensures { result ≡ is_coordinate name.now }
{
    name == "x" || name == "y" || name == "width" || name == "height"
}

// The place of a layer's member. A map's is the same, but for the version.
fn below_layer(name: &str) -> Place
    ensures { result ≡ below_layer name.now }
{
    if name == "layers" {
        Place::Layer
    } else if name == "objects" {
        Place::Object
    } else {
        Place::Elsewhere
    }
}

impl Place {
    /// The place of a member of this name.
    pub fn below(self, name: &str) -> Place
        ensures { result ≡ below self name.now }
    {
        match self {
            Place::Map => if name == "version" {
                Place::Version
            } else {
                below_layer(name)
            },
            Place::Layer => below_layer(name),
            Place::Object => if is_coordinate(name) {
                Place::Coordinate
            } else {
                Place::Elsewhere
            },
            Place::Coordinate | Place::Version | Place::Elsewhere => Place::Elsewhere,
        }
    }

    /// The place of an array's elements.
    pub fn inside(self) -> Place
        ensures { result ≡ inside self }
    {
        match self {
            Place::Layer => Place::Layer,
            Place::Object => Place::Object,
            Place::Map | Place::Coordinate | Place::Version | Place::Elsewhere => Place::Elsewhere,
        }
    }
}
