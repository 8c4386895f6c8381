ghost use Rattle.std.specs.Prelude.{◌≡◌, ◌↔◌, IfOk, IfErr, IsTrue, Some};
ghost use Rattle.map_model.specs.CellEdits.{AreInRowOrder};
ghost use Rattle.map_model.specs.Document.{DocumentParts};
ghost use Rattle.edits.specs.Blocks.{block_of};
ghost use Rattle.map_model.specs.Difference.{difference_in};
ghost use Rattle.edits.specs.Filling.{after_fill};
ghost use Rattle.edits.specs.Stamping.{after_erase, after_stamp, IsBlock};
ghost use Rattle.command_api.specs.Tag.{OfLayer};
ghost use Rattle.command_api.specs.Making.{IsRefusalOf, Makes};
ghost use Rattle.paint_commands.specs.Painting.{new_paint, paint_change, paint_exchange, paint_shown, painted_layer, side_of};
ghost use Rattle.paint_commands.specs.Names.{erase_names, fill_names, stamp_names};

use command_api::ids::{ERASE_ID, STAMP_ID};
use command_api::{Command, Exchange, Label, Offer};
use edits::{
    Area, Block, CellChange, CellEdits, EditFault, erase_change, fill_change, stamp_change,
};
use map_model::{CellEdit, Document, Side};
use std::alloc::{AllocError, Global};
use tile_id::Gid;

/// A way to paint.
#[derive(Clone, Copy, PartialEq, Eq, Debug)]
enum PaintKind {
    Stamp,
    Erase,
    Fill,
}

/// A paint on a tile layer. It holds exactly the cells that differ between the documents on its two sides. Its fields lie in
/// this order, in 40 bytes.
#[derive(Drop)]
pub struct PaintCommand {
    kind: PaintKind,
    follows: bool,
    is_made: bool,
    layer: u32,
    cells: CellEdits,
}

impl PaintCommand {
    // The command of a change, not made yet.
    fn of_change(kind: PaintKind, follows: bool, change: CellChange) -> PaintCommand
        ensures { result ≡ new_paint kind follows change }
    {
        PaintCommand {
            kind,
            follows,
            is_made: false,
            layer: change.layer,
            cells: change.cells,
        }
    }

    /// The command that stamps a block on a tile layer, not made yet. The document stays as it is.
    ///
    /// Refused, in this order: where there is no layer with the id; where it is not a tile layer; where a value of
    /// the block other than 0 has no tileset, also one that falls outside the map; and then where there is no memory.
    pub fn stamp(
        alloc: Global,
        document: &Document,
        layer: u32,
        block: &Block<'_>,
        follows: bool,
    ) -> Result<PaintCommand, EditFault>
        requires { IsBlock (block_of block.now) }
        ensures command { IfOk result (λ c. Makes (stamp_names layer follows) document.now (after_stamp document.now layer (block_of block.now)) (paint_change c)) }
        ensures refusal { IfErr result (IsRefusalOf (after_stamp document.now layer (block_of block.now))) }
    {
        let change = stamp_change(alloc, document, layer, block)?;
        Ok(PaintCommand::of_change(PaintKind::Stamp, follows, change))
    }

    /// The command that erases the cells of an area on a tile layer, not made yet. The document stays as it is.
    ///
    /// Refused, in this order: where there is no layer with the id; where it is not a tile layer; and then where there
    /// is no memory.
    pub fn erase(
        alloc: Global,
        document: &Document,
        layer: u32,
        area: &Area,
        follows: bool,
    ) -> Result<PaintCommand, EditFault>
        ensures command { IfOk result (λ c. Makes (erase_names layer follows) document.now (after_erase document.now layer area.now) (paint_change c)) }
        ensures refusal { IfErr result (IsRefusalOf (after_erase document.now layer area.now)) }
    {
        let change = erase_change(alloc, document, layer, area)?;
        Ok(PaintCommand::of_change(PaintKind::Erase, follows, change))
    }

    /// The command that fills the cells joined to a start with a value, not made yet. The document stays as it is.
    ///
    /// Refused, in this order: where there is no layer with the id; where it is not a tile layer; where the start lies
    /// outside the map; where the value is not 0 and has no tileset; and then where there is no memory.
    pub fn fill(
        alloc: Global,
        document: &Document,
        layer: u32,
        x: i32,
        y: i32,
        value: Gid,
    ) -> Result<PaintCommand, EditFault>
        ensures command { IfOk result (λ c. Makes fill_names document.now (after_fill document.now layer x y value) (paint_change c)) }
        ensures refusal { IfErr result (IsRefusalOf (after_fill document.now layer x y value)) }
    {
        let change = fill_change(alloc, document, layer, x, y, value)?;
        Ok(PaintCommand::of_change(PaintKind::Fill, false, change))
    }

    /// The id of the layer that it paints on.
    pub fn layer(&self) -> u32
        ensures { result ≡ painted_layer self.now }
    {
        self.layer
    }

    /// Whether it follows the paint before it, into which it may merge.
    pub fn follows(&self) -> bool
        ensures { result ≡ self.now.follows }
    {
        self.follows
    }

    /// The cells that the paint changes, in row order, each once, with unequal values before and after: the
    /// difference of the documents on its two sides.
    pub fn change(&self) -> &[CellEdit]
        ensures redo { (d : DocumentParts) → (paint_change self.now).fits_redo d
            → result.now ≡ difference_in (painted_layer self.now) d.map ((paint_change self.now).redone d).map }
        ensures undo { (d : DocumentParts) → (paint_change self.now).fits_undo d
            → result.now ≡ difference_in (painted_layer self.now) ((paint_change self.now).undone d).map d.map }
        ensures ordered { AreInRowOrder result.now }
    {
        // The cells and what kind of paint they are is all that a paint keeps.
        let PaintCommand {
            kind: _,
            follows: _,
            is_made: _,
            layer: _,
            cells,
        } = self;
        cells.as_slice()
    }
}

// The side to which the cells are set next.
fn side_to_put(is_made: bool) -> Side
    ensures { result ≡ side_of is_made }
{
    if is_made { Side::Before } else { Side::After }
}

impl Exchange for PaintCommand {
    ghost exchange_parts = { paint_exchange };

    fn label(&self) -> Label {
        match self.kind {
            PaintKind::Stamp => Label {
                text: "Stamp",
                action: "stamp tiles",
                id: STAMP_ID as i32,
            },
            PaintKind::Erase => Label {
                text: "Erase",
                action: "erase tiles",
                id: ERASE_ID as i32,
            },
            PaintKind::Fill => Label::untagged("Fill", "fill area"),
        }
    }

    fn is_obsolete(&self) -> bool {
        self.cells.as_slice().is_empty()
    }

    // Each turn of a paint is this call. It ends in the put.
    #[inline(always)]
    fn exchange(&mut self, document: &mut Document) {
        let side = side_to_put(self.is_made);
        self.is_made = !self.is_made;
        self.cells.put(document, self.layer, side);
    }
}

impl PaintCommand {
    // Whether the paint has the tag with this id and layer.
    fn has_tag(&self, id: u32, layer: u32) -> bool
        ensures { IsTrue result ↔ ((paint_exchange self.now).names.tag ≡ Some (record { kind = id; subject = OfLayer layer })) }
    {
        match self.kind {
            PaintKind::Stamp => id == STAMP_ID && layer == self.layer,
            PaintKind::Erase => id == ERASE_ID && layer == self.layer,
            PaintKind::Fill => false,
        }
    }
}

impl Command for PaintCommand {
    ghost change = { paint_change };

    ghost shown = { paint_shown };

    fn text(&self) -> &str {
        self.label().text
    }

    fn action_text(&self) -> &str {
        self.label().action
    }

    fn id(&self) -> i32 {
        self.label().id
    }

    fn obsolete(&self) -> bool {
        self.is_obsolete()
    }

    fn is_free(&self) -> bool {
        false
    }

    fn redo(&mut self, document: &mut Document) {
        self.exchange(document)
    }

    fn undo(&mut self, document: &mut Document) {
        self.exchange(document)
    }

    fn offer(&self) -> Offer<'_> {
        if !self.follows {
            return Offer::Nothing;
        }
        match self.kind {
            PaintKind::Stamp => Offer::Cells {
                id: STAMP_ID,
                layer: self.layer,
                cells: self.cells.as_slice(),
            },
            PaintKind::Erase => Offer::Cells {
                id: ERASE_ID,
                layer: self.layer,
                cells: self.cells.as_slice(),
            },
            PaintKind::Fill => Offer::Nothing,
        }
    }

    fn merge(
        &mut self,
        alloc: Global,
        newer: &Offer<'_>,
        document: &Document,
    ) -> Result<bool, AllocError> {
        let _ = document;
        let Offer::Cells { id, layer, cells } = newer else {
            return Ok(false);
        };
        if !self.has_tag(*id, *layer) {
            return Ok(false);
        }
        self.cells.join(alloc, cells)?;
        Ok(true)
    }
}
