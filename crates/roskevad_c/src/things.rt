// Sizes, layers and documents, as C sees them.
ghost use Rattle.std.specs.Prelude.{◌≡◌, if◌then◌else◌};
ghost use Rattle.roskevad_c.specs.Things.{kind_number, owner_of, row_of, sizes_of, status_of, subject_of};

use map_lists::{Kind, LayerRow, Sizes, Subject};
use map_model::Owner;
use memory_editor::Status;

// The numbers of what a caller asks about.
const MAP: u32 = 1;

const LAYER: u32 = 2;

const OBJECT: u32 = 3;

/// The sizes of a map: in cells and, of a tile, in pixels; the ids that its next layer and object get; and how many layers and
/// tilesets it has.
#[repr(C)]
#[derive(Clone, Copy)]
pub struct MapSizes {
    pub width: u32,
    pub height: u32,
    pub tile_width: u32,
    pub tile_height: u32,
    pub next_layer: u32,
    pub next_object: u32,
    pub layers: usize,
    pub tilesets: usize,
}

/// A layer: its id, that of its group or 0, the number of its kind, whether it is visible, 1 or 0, and how many objects it has, or
/// layers where it is a group.
#[repr(C)]
#[derive(Clone, Copy)]
pub struct CLayerRow {
    pub id: u32,
    pub parent: u32,
    pub kind: u32,
    pub is_visible: u32,
    pub count: usize,
}

/// How a document stands: its index, how many steps it has, how many macros are open, and whether it is clean, and active, 1 or 0.
#[repr(C)]
#[derive(Clone, Copy)]
pub struct DocumentStatus {
    pub index: usize,
    pub count: usize,
    pub depth: usize,
    pub is_clean: usize,
    pub is_active: usize,
}

fn kind_number(kind: Kind) -> u32
    ensures { result ≡ kind_number kind }
{
    match kind {
        Kind::Tiles => 1,
        Kind::Objects => 2,
        Kind::Group => 3,
        Kind::Image => 4,
    }
}

impl MapSizes {
    /// Those of a map.
    pub fn of(sizes: Sizes) -> MapSizes
        ensures { result ≡ sizes_of sizes }
    {
        MapSizes {
            width: sizes.width,
            height: sizes.height,
            tile_width: sizes.tile_width,
            tile_height: sizes.tile_height,
            next_layer: sizes.next_layer_id,
            next_object: sizes.next_object_id,
            layers: sizes.layers,
            tilesets: sizes.tilesets,
        }
    }
}

impl CLayerRow {
    /// That of a layer.
    pub fn of(row: LayerRow) -> CLayerRow
        ensures { result ≡ row_of row }
    {
        CLayerRow {
            id: row.id,
            parent: row.parent.unwrap_or(0),
            kind: kind_number(row.kind),
            is_visible: if row.is_visible { 1 } else { 0 },
            count: row.count,
        }
    }
}

impl DocumentStatus {
    /// That of a document.
    pub fn of(status: Status) -> DocumentStatus
        ensures { result ≡ status_of status }
    {
        DocumentStatus {
            index: status.index,
            count: status.count,
            depth: status.depth,
            is_clean: if status.is_clean { 1 } else { 0 },
            is_active: if status.is_active { 1 } else { 0 },
        }
    }
}

/// The owner of properties that a kind and an id stand for, and `None` for another kind. A map has no id.
pub fn owner_of(kind: u32, id: u32) -> Option<Owner>
    ensures { result ≡ owner_of kind id }
{
    if kind == MAP {
        return Some(Owner::Map);
    }
    if kind == LAYER {
        return Some(Owner::Layer(id));
    }
    if kind == OBJECT {
        return Some(Owner::Object(id));
    }
    None
}

/// What is looked for by its name, and `None` for another kind.
pub fn subject_of(kind: u32) -> Option<Subject>
    ensures { result ≡ subject_of kind }
{
    if kind == LAYER {
        return Some(Subject::Layer);
    }
    if kind == OBJECT {
        return Some(Subject::Object);
    }
    None
}
