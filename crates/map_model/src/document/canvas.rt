// Documents that change places with a canvas.
ghost use Rattle.std.specs.Prelude.{◌≡◌};
ghost use Rattle.map_model.specs.Canvas.{canvas_back, tile_layers, with_canvas, IsCanvasOf};
ghost use Rattle.map_model.specs.Document.{IsDocument};

use crate::canvas::{Canvas, exchange_layers};
use crate::document::Document;
use crate::limits::MAX_GROUPS;
use std::mem;

impl Document {
    /// Exchanges size, cells of tile layers and selection with a canvas, and moves all objects by its pixels, which are
    /// negated. It takes no memory.
    pub fn swap_canvas(&mut self, canvas: &mut Canvas)
        requires { IsCanvasOf self.old canvas.old }
        ensures given { canvas.new ≡ canvas_back canvas.old self.old }
        ensures back { IsCanvasOf self.new canvas.new }
        ensures turned { with_canvas canvas.new self.new ≡ self.old }
        ensures document { self.new ≡ with_canvas canvas.old self.old }
        ensures cells { tile_layers self.new.map ≡ canvas.old.layers }
        ensures well_formed { IsDocument self.new }
    {
        let parts = &mut self.map.parts;
        exchange_layers(&mut parts.layers, canvas, 0, MAX_GROUPS);
        mem::swap(&mut parts.width, &mut canvas.width);
        mem::swap(&mut parts.height, &mut canvas.height);
        mem::swap(&mut self.selection, &mut canvas.selection);
        canvas.right = -canvas.right;
        canvas.down = -canvas.down;
    }
}
