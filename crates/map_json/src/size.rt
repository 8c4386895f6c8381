ghost use Rattle.std.specs.Prelude.{◌≡◌};

use map_model::MapParts;

/// The size of a map, in cells.
#[derive(Clone, Copy)]
pub struct Size {
    pub width: u32,
    pub height: u32,
}

impl Size {
    /// The size of a map.
    pub fn of_map(map: &MapParts) -> Size
        ensures width { result.width ≡ map.now.width }
        ensures height { result.height ≡ map.now.height }
    {
        Size {
            width: map.width,
            height: map.height,
        }
    }
}
