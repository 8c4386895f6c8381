// What of a map's tree a value is.
ghost use Rattle.std.specs.Prelude.{◌≡◌};
ghost use Rattle.infinite_maps.specs.Infinite.{part_of_object, part_of_layer, below};
ghost use Rattle.infinite_maps.specs.Finite.{is_layers};

#[derive(Clone, Copy)]
pub enum Part {
    /// Layers, or one of them.
    Layers,
    /// Objects, or one of them.
    Objects,
    /// The place of an object from the left.
    Across,
    /// The place of an object from the top.
    Down,
    Rest,
}

fn part_of_object(name: &str) -> Part
    ensures { result ≡ part_of_object name.now }
{
    if name == "x" {
        Part::Across
    } else if name == "y" {
        Part::Down
    } else {
        Part::Rest
    }
}

fn part_of_layer(name: &str) -> Part
    ensures { result ≡ part_of_layer name.now }
{
    if name == "layers" {
        Part::Layers
    } else if name == "objects" {
        Part::Objects
    } else {
        Part::Rest
    }
}

impl Part {
    /// What a member of this name is.
    pub fn below(self, name: &str) -> Part
        ensures { result ≡ below self name.now }
    {
        match self {
            Part::Layers => part_of_layer(name),
            Part::Objects => part_of_object(name),
            Part::Across | Part::Down | Part::Rest => Part::Rest,
        }
    }

    pub fn is_layers(self) -> bool
        ensures { result ≡ is_layers self }
    {
        match self {
            Part::Layers => true,
            Part::Objects | Part::Across | Part::Down | Part::Rest => false,
        }
    }
}
