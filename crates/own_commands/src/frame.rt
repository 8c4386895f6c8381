ghost use Rattle.std.specs.Prelude.{◌≡◌, ◌≤◌, ◌<◌, ◌^◌, ◌*◌, ◌↔◌, IfOk, IfErr, IsTrue, Some, map, ◌⊎◌};
ghost use Rattle.std.specs.List.{range_with_len};
ghost use Rattle.map_model.specs.declared.limits.TheConstants.{MAX_SIDE};
ghost use Rattle.edits.specs.Stamping.{after_stamp};
ghost use Rattle.command_api.specs.Making.{IsRefusalOf, Makes};
ghost use Rattle.command_api.specs.Tag.{OfLayer};
ghost use Rattle.paint_commands.specs.Painting.{side_of};
ghost use Rattle.own_commands.specs.Framing.{frame_block, frame_change, frame_exchange, frame_names, frame_shown, frame_value, is_end};

use command_api::{Command, Exchange, Label, Offer};
use edits::{Area, Block, CellEdits, EditFault, joined_cells, stamp_change};
use map_model::{Document, Side};
use std::alloc::{AllocError, Global};
use tile_id::Gid;

/// The id of frames. The ids up to 4 are those of the editor's own kinds, and those above are free.
pub const FRAME_ID: u32 = 5;

/// The border of a rectangle of cells of a tile layer, painted with one tile.
///
/// A frame holds exactly the cells that differ between the documents on its two sides, each with its value before and after.
/// So it takes no memory when it is turned, and it is obsolete exactly where it holds no cell. It is its own reverse: redo
/// and undo are one call, `exchange`, which puts the values of the other side.
///
/// A frame that follows shows its cells to the step before it, with the id of frames and its layer. A frame with that tag
/// takes them in, and both are one step.
#[derive(Drop)]
pub struct Frame {
    layer: u32,
    follows: bool,
    is_made: bool,
    cells: CellEdits,
}

// Whether a number is the first or the last of so many.
fn is_end(at: u32, size: u32) -> bool
    ensures { result ≡ is_end at size }
{
    at == 0 || at == size.saturating_sub(1)
}

// The value of a cell of the block: the tile on the border, and 0 within.
fn frame_value(area: &Area, tile: Gid, at: u32) -> Gid
    requires { 1 ≤ area.now.width }
    ensures { result ≡ frame_value area.now tile at }
{
    if is_end(at % area.width, area.width) || is_end(at / area.width, area.height) {
        tile
    } else {
        Gid(0)
    }
}

// The values of the block, row by row.
fn frame_values(alloc: Global, area: &Area, tile: Gid) -> Result<Vec<Gid>, AllocError>
    requires wide { 1 ≤ area.now.width }
    requires few { area.now.width * area.now.height < 2 ^ 32 }
    ensures { IfOk result (λ v. v.items ≡ map (frame_value area.now tile) (range_with_len 0 (area.now.width * area.now.height))) }
{
    (0..area.width * area.height)
        .map(|at| frame_value(area, tile, at))
        .collect(alloc)
}

impl Frame {
    /// The command that frames an area of a tile layer, not made yet. The document stays as it is.
    ///
    /// What falls outside the map, or outside the selection where it is not empty, is left out. Refused, in this order: where
    /// there is no layer with the id; where it is not a tile layer; where the tile is not 0 and has no tileset. Where there is
    /// no memory it is refused for that, also before these.
    pub fn new(
        alloc: Global,
        document: &Document,
        layer: u32,
        area: &Area,
        tile: Gid,
        follows: bool,
    ) -> Result<Frame, EditFault>
        requires wide { 1 ≤ area.now.width }
        requires narrow { area.now.width ≤ MAX_SIDE }
        requires low { area.now.height ≤ MAX_SIDE }
        ensures command { IfOk result (λ f. Makes (frame_names layer follows) document.now (after_stamp document.now layer (frame_block area.now tile)) (frame_change f)) }
        ensures refusal { IfErr result (λ fault. (fault ≡ EditFault.NoMemory) ⊎ IsRefusalOf (after_stamp document.now layer (frame_block area.now tile)) fault) }
    {
        let values = match frame_values(alloc, area, tile) {
            Ok(values) => values,
            Err(_) => return Err(EditFault::NoMemory),
        };
        let block = Block {
            x: area.x,
            y: area.y,
            width: area.width,
            values: values.as_slice(),
        };
        let change = stamp_change(alloc, document, layer, &block)?;
        Ok(Frame {
            layer: change.layer,
            follows,
            is_made: false,
            cells: change.cells,
        })
    }

    // Whether the frame has the tag with this id and layer.
    fn has_tag(&self, id: u32, layer: u32) -> bool
        ensures { IsTrue result ↔ ((frame_exchange self.now).names.tag ≡ Some (record { kind = id; subject = OfLayer layer })) }
    {
        id == FRAME_ID && layer == self.layer
    }
}

// The side to which the cells are set next.
fn side_to_put(is_made: bool) -> Side
    ensures { result ≡ side_of is_made }
{
    if is_made { Side::Before } else { Side::After }
}

impl Exchange for Frame {
    ghost exchange_parts = { frame_exchange };

    fn label(&self) -> Label {
        Label {
            text: "Frame",
            action: "frame tiles",
            id: FRAME_ID as i32,
        }
    }

    fn is_obsolete(&self) -> bool {
        self.cells.as_slice().is_empty()
    }

    fn exchange(&mut self, document: &mut Document) {
        let side = side_to_put(self.is_made);
        document.put_edits(self.layer, self.cells.as_slice(), side);
        self.is_made = !self.is_made;
    }
}

impl Command for Frame {
    ghost change = { frame_change };

    ghost shown = { frame_shown };

    fn text(&self) -> &str {
        self.label().text
    }

    fn action_text(&self) -> &str {
        self.label().action
    }

    fn id(&self) -> i32 {
        self.label().id
    }

    fn obsolete(&self) -> bool {
        self.is_obsolete()
    }

    // The documents on its two sides say when a frame is obsolete, and not the frame itself.
    fn is_free(&self) -> bool {
        false
    }

    fn redo(&mut self, document: &mut Document) {
        self.exchange(document)
    }

    fn undo(&mut self, document: &mut Document) {
        self.exchange(document)
    }

    fn offer(&self) -> Offer<'_> {
        if !self.follows {
            return Offer::Nothing;
        }
        Offer::Cells {
            id: FRAME_ID,
            layer: self.layer,
            cells: self.cells.as_slice(),
        }
    }

    fn merge(
        &mut self,
        alloc: Global,
        newer: &Offer<'_>,
        document: &Document,
    ) -> Result<bool, AllocError> {
        let _ = document;
        let Offer::Cells { id, layer, cells } = newer else {
            return Ok(false);
        };
        if !self.has_tag(*id, *layer) {
            return Ok(false);
        }
        let joined = joined_cells(alloc, self.cells.as_slice(), cells)?;
        self.cells = CellEdits::new(joined);
        Ok(true)
    }
}
