use document_lines::Cells;
use memory_editor::{MemoryEditor, Rectangle, Status};
use region::Run;
use std::alloc::{AllocError, Global};

/// The cells of a tile layer, row by row.
#[derive(Drop)]
struct LayerCells {
    layer: u32,
    cells: Vec<u32>,
}

/// All that an editor tells of its documents and of the active one, but what lines did.
#[derive(Drop)]
pub struct Snapshot {
    width: usize,
    height: usize,
    layers: Vec<LayerCells>,
    outline: Vec<u8>,
    selection: Vec<Run>,
    /// The names of the documents, and the place of the active one.
    names: String,
    active: Option<usize>,
    // How the active one stands.
    status: Status,
}

/// What really differs from one snapshot to another.
#[derive(Clone, Copy)]
pub struct Change {
    /// How the active document stood, and how it stands.
    pub before: Status,
    pub after: Status,
    pub cells: Real,
    pub outline: bool,
    pub selection: bool,
    pub documents: bool,
    /// The size of the map behind it.
    width: i64,
    height: i64,
}

/// The smallest rectangle of some cells of a layer: its columns and rows, without the ends.
#[derive(Clone, Copy, PartialEq, Eq, Debug)]
pub struct Bounds {
    layer: u32,
    left: i64,
    above: i64,
    right: i64,
    below: i64,
}

/// Where cells differ.
#[derive(Clone, Copy, PartialEq, Eq, Debug)]
pub enum Real {
    Nowhere,
    Within(Bounds),
    /// In two layers, or the layers or the size differ.
    Anywhere,
}

// No document.
fn no_status() -> Status {
    Status {
        index: 0,
        count: 0,
        depth: 0,
        is_clean: true,
        is_active: false,
    }
}

fn names_of(alloc: Global, editor: &MemoryEditor) -> Result<String, AllocError> {
    let mut names = String::new(alloc);
    for place in 0..editor.document_count() {
        names.push_str(editor.document_name(place).unwrap_or(""))?;
        names.push_str(" ")?;
    }
    Ok(names)
}

fn selection_of(alloc: Global, editor: &MemoryEditor) -> Result<Vec<Run>, AllocError> {
    let mut runs = Vec::new(alloc);
    for at in 0..editor.selection_count() {
        if let Some(run) = editor.selection_run(at) {
            runs.push(run)?;
        }
    }
    Ok(runs)
}

// The cells of all tile layers of a map of that size, in drawing order.
fn layers_of(
    alloc: Global,
    editor: &MemoryEditor,
    width: usize,
    height: usize,
) -> Result<Vec<LayerCells>, AllocError> {
    let mut layers = Vec::new(alloc);
    let rectangle = Rectangle {
        x: 0,
        y: 0,
        width,
        height,
    };
    let rows = editor.layers()?.unwrap_or(Vec::new(alloc));
    for row in rows.iter() {
        let mut cells = vec![in alloc; 0u32; width.saturating_mul(height)]?;
        if editor.copy_cells(row.id, rectangle, &mut cells).is_some() {
            layers.push(LayerCells {
                layer: row.id,
                cells,
            })?;
        }
    }
    Ok(layers)
}

fn status_of(editor: &MemoryEditor) -> Status {
    let Some(place) = editor.active_place() else {
        return no_status();
    };
    editor.status_of(place).unwrap_or(no_status())
}

impl Snapshot {
    pub fn of(alloc: Global, editor: &MemoryEditor) -> Result<Snapshot, AllocError> {
        let (width, height) = match editor.sizes() {
            Some(sizes) => (sizes.width as usize, sizes.height as usize),
            None => (0, 0),
        };
        let names = names_of(alloc, editor)?;
        let selection = selection_of(alloc, editor)?;
        let layers = layers_of(alloc, editor, width, height)?;
        let outline = editor.outline()?.unwrap_or(Vec::new(alloc));
        Ok(Snapshot {
            width,
            height,
            layers,
            outline,
            selection,
            names,
            active: editor.active_place(),
            status: status_of(editor),
        })
    }

    /// What differs from this one to another.
    pub fn change_to(&self, after: &Snapshot) -> Change {
        let has_same_names = self.names.as_str() == after.names.as_str();
        Change {
            before: self.status,
            after: after.status,
            cells: self.differs_at(after),
            outline: self.outline.as_slice() != after.outline.as_slice(),
            selection: self.selection.as_slice() != after.selection.as_slice(),
            documents: !has_same_names || self.active != after.active,
            width: i64::try_from(after.width).unwrap_or(0),
            height: i64::try_from(after.height).unwrap_or(0),
        }
    }

    // Whether both have tile layers with the same ids, in the same order, and the same size.
    fn has_same_layers(&self, other: &Snapshot) -> bool {
        if self.width != other.width || self.height != other.height {
            return false;
        }
        if self.layers.len() != other.layers.len() {
            return false;
        }
        for (one, another) in self.layers.iter().zip(other.layers.iter()) {
            if one.layer != another.layer {
                return false;
            }
        }
        true
    }

    // Where cells differ.
    fn differs_at(&self, other: &Snapshot) -> Real {
        if !self.has_same_layers(other) {
            return Real::Anywhere;
        }
        let mut real = Real::Nowhere;
        for (one, another) in self.layers.iter().zip(other.layers.iter()) {
            let width = i64::try_from(self.width).unwrap_or(0);
            let found = bounds_of(
                one.layer,
                width,
                one.cells.as_slice(),
                another.cells.as_slice(),
            );
            real = match (real, found) {
                (real, None) => real,
                (Real::Nowhere, Some(bounds)) => Real::Within(bounds),
                _ => Real::Anywhere,
            };
        }
        real
    }
}

// The smallest rectangle of the cells of a layer that differ, where some do.
fn bounds_of(layer: u32, width: i64, one: &[u32], other: &[u32]) -> Option<Bounds> {
    let mut found = None;
    let (mut x, mut y) = (0i64, 0i64);
    for (one, other) in one.iter().zip(other.iter()) {
        if one != other {
            found = Some(with_cell(found, layer, x, y));
        }
        x = x.saturating_add(1);
        if x == width {
            x = 0;
            y = y.saturating_add(1);
        }
    }
    found
}

// The smallest rectangle of a cell, and others that are there.
fn with_cell(found: Option<Bounds>, layer: u32, x: i64, y: i64) -> Bounds {
    let cell = Bounds {
        layer,
        left: x,
        above: y,
        right: x.saturating_add(1),
        below: y.saturating_add(1),
    };
    match found {
        None => cell,
        Some(bounds) => Bounds {
            layer,
            left: bounds.left.min(cell.left),
            above: bounds.above.min(cell.above),
            right: bounds.right.max(cell.right),
            below: bounds.below.max(cell.below),
        },
    }
}

// The rectangle that is told.
fn told_bounds(cells: Cells) -> Option<Bounds> {
    match cells {
        Cells::Within { layer, area } => Some(Bounds {
            layer,
            left: i64::from(area.x),
            above: i64::from(area.y),
            right: i64::from(area.x) + i64::from(area.width),
            below: i64::from(area.y) + i64::from(area.height),
        }),
        Cells::None => None,
        Cells::All => None,
    }
}

fn holds(told: Bounds, real: Bounds) -> bool {
    told.layer == real.layer
        && told.left <= real.left
        && told.above <= real.above
        && told.right >= real.right
        && told.below >= real.below
}

impl Change {
    /// Whether cells that are told cover those that differ, and lie in the map.
    pub fn is_covered(&self, cells: Cells) -> bool {
        let Some(told) = told_bounds(cells) else {
            return cells == Cells::All || self.cells == Real::Nowhere;
        };
        let is_held = match self.cells {
            Real::Nowhere => true,
            Real::Within(real) => holds(told, real),
            Real::Anywhere => false,
        };
        let lies_behind_start = told.left >= 0 && told.above >= 0;
        is_held && lies_behind_start && told.right <= self.width && told.below <= self.height
    }

    /// Whether cells that are told are just those that differ.
    pub fn is_exact(&self, cells: Cells) -> bool {
        match (told_bounds(cells), self.cells) {
            (None, Real::Nowhere) => cells == Cells::None,
            (None, Real::Anywhere) => cells == Cells::All,
            (Some(told), Real::Within(real)) => told == real,
            _ => false,
        }
    }
}
