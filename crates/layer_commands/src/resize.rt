ghost use Rattle.std.specs.Prelude.{◌≡◌, ◌≤◌, false, IfOk, IfErr, refl};
ghost use Rattle.command_api.specs.Exchange.{FitsExchange, IsExchanged};
ghost use Rattle.command_api.specs.Making.{IsRefusalOf, Makes};
ghost use Rattle.edits.specs.Resizing.{after_resize, IsDistance};
ghost use Rattle.layer_commands.specs.Changes.{resize_change, resize_exchange, size_exchange};
ghost use Rattle.layer_commands.specs.Extending.{after_margin, margin_of};
ghost use Rattle.layer_commands.specs.Names.{resize_names};
ghost use Rattle.map_model.specs.declared.limits.TheConstants.{MAX_SIDE};
ghost use Rattle.map_model.specs.WellFormed.{IsTileSize};

use crate::notes::{Note, exchange_notes, notes_of};
use command_api::{Exchange, Label, Lone};
use edits::{EditFault, resized_cells};
use infinite_maps::Margin;
use map_model::{Canvas, Document, MapParts};
use std::alloc::Global;

// What the document changes places with: the canvas that it is not on, and the notes that it does not have. What was done last
// is undone first.
#[derive(Drop)]
struct OtherSize {
    canvas: Canvas,
    notes: Vec<Option<Note>>,
    // Whether the notes go before the canvas.
    notes_first: bool,
}

/// The map gets another size. The command owns what the document then is not, in a box of its own, since it is larger than what
/// other commands hold.
#[derive(Drop)]
pub struct ResizeMap {
    other: Box<OtherSize>,
}

// The columns and rows that a map gets at its left and top, with their pixels.
fn margin_of(parts: &MapParts, columns: u32, rows: u32) -> Margin
    requires columns { columns ≤ MAX_SIDE }
    requires rows { rows ≤ MAX_SIDE }
    requires tile { IsTileSize parts.now.tile_width parts.now.tile_height }
    ensures { result ≡ margin_of parts.now columns rows }
{
    Margin {
        columns,
        rows,
        right: columns * parts.tile_width,
        down: rows * parts.tile_height,
    }
}

impl ResizeMap {
    // The command that exchanges these, not made yet.
    fn holding(
        alloc: Global,
        canvas: Canvas,
        notes: Vec<Option<Note>>,
    ) -> Result<ResizeMap, EditFault>
        ensures canvas { IfOk result (λ c. c.other.value.canvas ≡ canvas) }
        ensures notes { IfOk result (λ c. c.other.value.notes.items ≡ notes.items) }
        ensures made { IfOk result (λ c. c.other.value.notes_first ≡ false) }
        ensures memory { IfErr result (λ fault. fault ≡ EditFault.NoMemory) }
    {
        let other = OtherSize {
            canvas,
            notes,
            notes_first: false,
        };
        match Box::new(alloc, other) {
            Ok(other) => Ok(ResizeMap { other }),
            Err(_) => Err(EditFault::NoMemory),
        }
    }

    /// The command that gives the map this width and height, not made yet: its cell (x, y) is then the old cell
    /// (x - dx, y - dy), or empty where that lies outside the old map. The document stays as it is.
    ///
    /// Refused where the new size is not within the limits or an object would not be, and then where there is no memory.
    pub fn new(
        alloc: Global,
        document: &Document,
        width: u32,
        height: u32,
        dx: i32,
        dy: i32,
    ) -> Result<ResizeMap, EditFault>
        requires right { IsDistance dx }
        requires down { IsDistance dy }
        ensures command { IfOk result (λ c. Makes resize_names document.now (after_resize document.now width height dx dy) (resize_change c)) }
        ensures refusal { IfErr result (IsRefusalOf (after_resize document.now width height dx dy)) }
    {
        let canvas = resized_cells(alloc, document, width, height, dx, dy)?;
        ResizeMap::holding(alloc, canvas, Vec::new(alloc))
    }

    /// The command that gives the map this width and height, not made yet, so that it gets so many columns and rows at its left
    /// and top. Where it was infinite, all of it stays where it was on the plane. The document stays as it is.
    ///
    /// Refused as `new` refuses.
    pub fn extend(
        alloc: Global,
        document: &Document,
        width: u32,
        height: u32,
        columns: u32,
        rows: u32,
    ) -> Result<ResizeMap, EditFault>
        requires columns { columns ≤ MAX_SIDE }
        requires rows { rows ≤ MAX_SIDE }
        ensures command { IfOk result (λ c. Makes resize_names document.now (after_margin document.now width height columns rows) (resize_change c)) }
        ensures refusal { IfErr result (IsRefusalOf (after_margin document.now width height columns rows)) }
    {
        let canvas = resized_cells(alloc, document, width, height, columns as i32, rows as i32)?;
        let parts = document.map().parts();
        let Ok(notes) = notes_of(alloc, parts, margin_of(parts, columns, rows)) else {
            return Err(EditFault::NoMemory);
        };
        ResizeMap::holding(alloc, canvas, notes)
    }
}

impl Exchange for ResizeMap {
    ghost exchange_parts = { resize_exchange };

    fn label(&self) -> Label {
        Label::untagged("Resize Map", "resize map")
    }

    fn is_obsolete(&self) -> bool {
        false
    }

    fn exchange(&mut self, document: &mut Document) {
        self.other.exchange(document)
    }
}

impl OtherSize {
    // Exchanges what is held and what the document has of it.
    fn exchange(&mut self, document: &mut Document)
        requires { FitsExchange (size_exchange self.old) document.old }
        ensures { IsExchanged (size_exchange self.old) (size_exchange self.new) document.old document.new }
    {
        if self.notes_first {
            exchange_notes(&mut self.notes, document);
            document.swap_canvas(&mut self.canvas);
            self.notes_first = false;
            return;
        }
        document.swap_canvas(&mut self.canvas);
        exchange_notes(&mut self.notes, document);
        self.notes_first = true;
    }
}

impl Lone for ResizeMap {
    ghost alone = { λ x. record { tag = refl; follows = refl; bound = refl } };
}
