// What an edit puts over the cells of a map.
ghost use Rattle.std.specs.Prelude.{◌≡◌, ◌<◌};
ghost use Rattle.edits.specs.Blocks.{block_of, erase_over, offset, stamp_over, value_over};
ghost use Rattle.map_model.specs.declared.limits.TheConstants.{MAX_SIDE};

use crate::area::Area;
use crate::block::Block;
use tile_id::Gid;

/// Values over cells.
pub trait Cover {
    ghost use Rattle.std.specs.Prelude.{ℕ, Option};

    /// The value over a cell, by its column and row; none where the cell is to stay.
    ghost over: { Self → ℕ → ℕ → Option ℕ };

    /// The value over a cell of a map.
    fn value(&self, x: u32, y: u32) -> Option<Gid>
        requires column { x < MAX_SIDE }
        requires row { y < MAX_SIDE }
        ensures { result ≡ over self.now x y };
}

// How far a column or a row of a map lies behind a start.
pub(crate) fn offset(start: i32, at: u32) -> Option<u32>
    requires { at < MAX_SIDE }
    ensures { result ≡ offset start at }
{
    u32::try_from(i64::from(at) - i64::from(start)).ok()
}

impl Block<'_> {
    // The block's value over a cell, also where it is 0.
    fn value_over(&self, x: u32, y: u32) -> Option<Gid>
        requires column { x < MAX_SIDE }
        requires row { y < MAX_SIDE }
        ensures { result ≡ value_over (block_of self.now) x y }
    {
        let right = offset(self.x, x)?;
        let down = offset(self.y, y)?;
        if right >= self.width {
            return None;
        }
        let number = down as usize * self.width as usize + right as usize;
        self.values.get(number).copied()
    }
}

impl Cover for Block<'_> {
    ghost over = { λ b. stamp_over (block_of b) };

    fn value(&self, x: u32, y: u32) -> Option<Gid> {
        match self.value_over(x, y) {
            Some(value) if !value.is_empty() => Some(value),
            _ => None,
        }
    }
}

impl Cover for Area {
    ghost over = { erase_over };

    fn value(&self, x: u32, y: u32) -> Option<Gid> {
        if offset(self.x, x)? < self.width && offset(self.y, y)? < self.height {
            Some(Gid(0))
        } else {
            None
        }
    }
}
