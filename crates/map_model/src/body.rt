// The values of a layer's body.
ghost use Rattle.std.specs.Prelude.{◌≡◌, ◌<◌, ◌↔◌, IsTrue, is_some, IfSome, length};
ghost use Rattle.map_model.specs.Bodies.{IsTiles, body_with_tiles, tiles_of, tile_at};
ghost use Rattle.map_model.specs.Alike.{AreAlike};
ghost use Rattle.map_model.specs.CellEdits.{AreInRowOrder, HaveRange, IsBelow, put_values, with_value};
ghost use Rattle.map_model.specs.Lists.{Each};

use crate::edit::{CellEdit, Side};
use crate::parts::Body;
use tile_id::Gid;

impl Body {
    /// The values of a tile layer, or `None` for another kind of layer.
    pub fn tiles(&self) -> Option<&[Gid]>
        ensures tiles { IsTrue (is_some result) ↔ IsTiles self.now }
        ensures value { IfSome result (λ values. values.now ≡ tiles_of self.now) }
    {
        match self {
            Body::Tiles(_, cells) => Some(cells.as_slice()),
            Body::Objects(_) => None,
            Body::Other => None,
            Body::Group(_) => None,
        }
    }

    /// The value of a tile layer at an index.
    pub(crate) fn tile_at(&self, at: usize) -> Option<Gid>
        ensures { result ≡ tile_at self.now at }
    {
        match self {
            Body::Tiles(_, cells) => cells.as_slice().get(at).copied(),
            Body::Objects(_) => None,
            Body::Other => None,
            Body::Group(_) => None,
        }
    }

    /// Sets the value of a tile layer at an index.
    pub(crate) fn set_tile(&mut self, at: usize, value: Gid)
        requires tiles { IsTiles self.old }
        requires number { at < length (tiles_of self.old) }
        ensures { self.new ≡ body_with_tiles (with_value at value) self.old }
    {
        match self {
            Body::Tiles(_, cells) => cells.set(at, value),
            Body::Objects(_) => unreachable!(),
            Body::Other => unreachable!(),
            Body::Group(_) => unreachable!(),
        }
    }

    /// Sets the cells of a list, in a tile layer of this width, to their values on a side.
    pub(crate) fn put_tiles(&mut self, width: usize, edits: &[CellEdit], side: Side)
        requires tiles { IsTiles self.old }
        requires numbers { Each (IsBelow width (length (tiles_of self.old))) edits.now }
        ensures body { self.new ≡ body_with_tiles (put_values width side edits.now) self.old }
        ensures range { HaveRange side edits.now }
    {
        match self {
            Body::Tiles(_, cells) => cells.put(width, edits, side),
            Body::Objects(_) => unreachable!(),
            Body::Other => unreachable!(),
            Body::Group(_) => unreachable!(),
        }
    }

    /// Does what `put_tiles` does, with cells that all have one value before and one after.
    pub(crate) fn put_alike(&mut self, width: usize, edits: &[CellEdit], side: Side)
        requires tiles { IsTiles self.old }
        requires numbers { Each (IsBelow width (length (tiles_of self.old))) edits.now }
        requires ordered { AreInRowOrder edits.now }
        requires alike { AreAlike edits.now }
        ensures body { self.new ≡ body_with_tiles (put_values width side edits.now) self.old }
        ensures range { HaveRange side edits.now }
    {
        match self {
            Body::Tiles(_, cells) => cells.put_alike(width, edits, side),
            Body::Objects(_) => unreachable!(),
            Body::Other => unreachable!(),
            Body::Group(_) => unreachable!(),
        }
    }
}
