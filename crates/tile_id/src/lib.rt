//! Tile values: the number in a cell of a Tiled map, which names a tile and says how it is turned.
#![tactic(auto)]

ghost use Rattle.std.specs.Prelude.{◌≡◌, ◌<◌, ◌+◌, ◌*◌, ◌^◌, ◌↔◌, IsTrue};
ghost use Rattle.tile_id.specs.Gid.{base_of, flags_of};

use std::marker::Model;

/// The lowest flag bit, that of the 120 degree turn; the flags are this bit and those above it.
const FLAGS_FROM: u32 = 0x1000_0000;

/// A global tile id, as Tiled stores it: 28 bits that name a tile, and four flags above them.
///
/// The flags are, from the highest bit down: flipped horizontally, vertically, anti-diagonally, and turned by
/// 120 degrees on hexagonal maps. The value 0 is the empty cell.
#[derive(Clone, Copy, Default, PartialEq, Eq, Debug)]
pub struct Gid(pub u32);

impl Model for Gid {
    ghost use Rattle.std.specs.Prelude.{ℕ};

    ghost Value = { ℕ };

    ghost view = { λ g. g.0 };

    ghost inverse = { λ n. record { 0 = n } };
}

impl Gid {
    /// The tile that the value names, without its flags: below 2^28.
    pub fn base(self) -> u32
        ensures { result ≡ base_of self }
    {
        self.0 % FLAGS_FROM
    }

    /// The flags, from 0 to 15: 8 for the horizontal flip, 4 for the vertical, 2 for the anti-diagonal, 1 for
    /// the turn.
    pub fn flags(self) -> u32
        ensures value { result ≡ flags_of self }
        ensures range { result < 16 }
    {
        self.0 / FLAGS_FROM
    }

    /// The value that names the same tile with these flags, from 0 to 15.
    pub fn with_flags(self, flags: u32) -> Gid
        requires { flags < 16 }
        ensures base { base_of result ≡ base_of self }
        ensures flags { flags_of result ≡ flags }
    {
        Gid(flags * FLAGS_FROM + self.base())
    }

    /// Whether the value is 0, that of an empty cell.
    pub fn is_empty(self) -> bool
        ensures { IsTrue result ↔ (self ≡ 0) }
    {
        self.0 == 0
    }
}
