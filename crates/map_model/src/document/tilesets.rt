// Changes of a document's tilesets.
ghost use Rattle.std.specs.Prelude.{◌≡◌, ◌≤◌, length, IsSome, IsSomeAnd};
ghost use Rattle.map_model.specs.Document.{with_map, IsDocument};
ghost use Rattle.map_model.specs.Renumbering.{MayBeRenumbered, map_renumbered};
ghost use Rattle.map_model.specs.Tilesets.{tileset_at, with_tileset_at, without_tileset_at};
ghost use Rattle.map_model.specs.WellFormed.{IsWellFormed};

use crate::document::Document;
use crate::limits::MAX_GROUPS;
use crate::parts::Tileset;
use crate::renumbering::{Move, move_layers};
use crate::tilesets::{end_of_tileset, number_tileset_in};
use link_chain::Loose;

impl Document {
    /// Puts a tileset in at a place; those from there on stand one place higher. The map is well formed with it.
    pub fn insert_tileset(&mut self, at: usize, tileset: Loose<Tileset>)
        requires place { at ≤ length self.old.map.tilesets }
        requires well_formed { IsSomeAnd tileset (λ t. IsWellFormed (with_tileset_at at t self.old.map)) }
        ensures document { IsSomeAnd tileset (λ t. self.new ≡ with_map (with_tileset_at at t) self.old) }
        ensures well_formed { IsDocument self.new }
    {
        self.map.parts.tilesets.insert(at, tileset);
    }

    /// Takes the tileset at a place out; those behind it stand one place lower.
    pub fn take_tileset(&mut self, at: usize) -> Loose<Tileset>
        requires { IsSome (tileset_at self.old.map at) }
        ensures tileset { result ≡ tileset_at self.old.map at }
        ensures document { self.new ≡ with_map (without_tileset_at at) self.old }
        ensures well_formed { IsDocument self.new }
    {
        self.map.parts.tilesets.take(at)
    }

    /// Gives the tileset with a first id another one, in its place. Each value of it, of a cell or of an object, goes along: it
    /// stands for the same tile of it. It takes no memory.
    pub fn renumber_tileset(&mut self, first_id: u32, to: u32)
        requires { MayBeRenumbered first_id to self.old.map }
        ensures document { self.new ≡ with_map (map_renumbered first_id to) self.old }
        ensures well_formed { IsDocument self.new }
    {
        let parts = &mut self.map.parts;
        let end = end_of_tileset(&parts.tilesets, first_id);
        let range = Move {
            low: first_id,
            end,
            to,
        };
        move_layers(&mut parts.layers, range, MAX_GROUPS);
        number_tileset_in(&mut parts.tilesets, first_id, to);
    }
}
