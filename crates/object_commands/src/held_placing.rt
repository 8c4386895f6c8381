ghost use Rattle.std.specs.Prelude.{◌≡◌};

use map_model::Placing;
use std::marker::Model;

/// A placing as a command holds it, in less room than its four options take: each number, and whether it is there.
#[derive(Drop)]
pub struct HeldPlacing {
    x: i32,
    y: i32,
    width: i32,
    height: i32,
    has_x: bool,
    has_y: bool,
    has_width: bool,
    has_height: bool,
}

impl Model for HeldPlacing {
    ghost use Rattle.std.specs.Bool.{then_some};
    ghost use Rattle.map_model.specs.declared.parts.Placing.{Placing};

    ghost Value = { Placing };

    ghost view = { λ h. record { x = then_some h.has_x h.x; y = then_some h.has_y h.y; width = then_some h.has_width h.width; height = then_some h.has_height h.height } };
}

impl HeldPlacing {
    /// The placing, to be held.
    pub fn new(placing: Placing) -> HeldPlacing
        ensures { result ≡ placing }
    {
        HeldPlacing {
            x: placing.x.unwrap_or(0),
            y: placing.y.unwrap_or(0),
            width: placing.width.unwrap_or(0),
            height: placing.height.unwrap_or(0),
            has_x: placing.x.is_some(),
            has_y: placing.y.is_some(),
            has_width: placing.width.is_some(),
            has_height: placing.height.is_some(),
        }
    }

    /// The placing that is held.
    pub fn get(&self) -> Placing
        ensures { result ≡ self.now }
    {
        Placing {
            x: self.has_x.then_some(self.x),
            y: self.has_y.then_some(self.y),
            width: self.has_width.then_some(self.width),
            height: self.has_height.then_some(self.height),
        }
    }
}
