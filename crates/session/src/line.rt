use crate::gids::Gids;
use crate::text::Text;
use crate::typed_value::TypedValue;
use map_model::{LayerKind, Owner, SelectionMode};
use tile_id::Gid;

/// What a line asks for. Its texts and values are borrowed from the line.
#[derive(Drop)]
pub enum Line<'a> {
    /// Nothing: a blank line or a comment.
    Quiet,
    /// A new document, with its size in cells, the size of a tile in pixels, and its tileset's source.
    New {
        name: Text<'a>,
        width: u32,
        height: u32,
        tile_width: u32,
        tile_height: u32,
        source: Text<'a>,
    },
    /// The map of a file, as a new document of that name.
    Open {
        name: Text<'a>,
        file: Text<'a>,
    },
    /// The active document's map goes into that file.
    Save {
        file: Text<'a>,
    },
    /// The document of that name is closed, where it is clean.
    Close {
        name: Text<'a>,
    },
    /// The document of that name is closed.
    Discard {
        name: Text<'a>,
    },
    /// The document of that name is the active one, or none is.
    Use {
        choice: Option<Text<'a>>,
    },
    /// The names of the open documents.
    Documents,
    /// A block of values, row by row, with its upper left at (`x`, `y`). Where it follows, it merges with the step before
    /// it, if that is a stamp of the same layer.
    Stamp {
        layer: u32,
        x: i32,
        y: i32,
        width: u32,
        values: Gids<'a>,
        follows: bool,
    },
    /// The cells of a rectangle with its upper left at (`x`, `y`) are emptied. Where it follows, it merges with the step
    /// before it, if that is an erase of the same layer.
    Erase {
        layer: u32,
        x: i32,
        y: i32,
        width: u32,
        height: u32,
        follows: bool,
    },
    /// The cell (`x`, `y`) gets this value, and so does each cell that is joined to it over cells of its own value.
    Fill {
        layer: u32,
        x: i32,
        y: i32,
        value: Gid,
    },
    /// A rectangle of cells with its upper left at (`x`, `y`) is selected in that way.
    Select {
        mode: SelectionMode,
        x: i32,
        y: i32,
        width: u32,
        height: u32,
    },
    /// No cell is selected.
    SelectNone,
    /// The value of a cell.
    Tile {
        layer: u32,
        x: i32,
        y: i32,
    },
    /// A new layer of that kind and with that name.
    AddLayer {
        kind: LayerKind,
        name: Text<'a>,
    },
    /// The layer is taken out of the map.
    RemoveLayer {
        layer: u32,
    },
    /// The layer gets that name.
    RenameLayer {
        layer: u32,
        name: Text<'a>,
    },
    /// The layer is shown, or it is hidden.
    ShowLayer {
        layer: u32,
        visible: bool,
    },
    /// The layer goes to that place in its group, where the first layer is at 0.
    MoveLayer {
        layer: u32,
        place: u32,
    },
    /// The map gets that size in cells, and what it holds goes so many cells to the right and down.
    Resize {
        width: u32,
        height: u32,
        dx: i32,
        dy: i32,
    },
    /// A new object of the layer, with its position and size in pixels and its name.
    AddObject {
        layer: u32,
        x: i32,
        y: i32,
        width: u32,
        height: u32,
        name: Text<'a>,
    },
    /// The object goes to that position, in pixels. Where it follows, it merges with the step before it, if that moves the
    /// same object.
    MoveObject {
        object: u32,
        x: i32,
        y: i32,
        follows: bool,
    },
    /// The object gets that size, in pixels.
    ResizeObject {
        object: u32,
        width: u32,
        height: u32,
    },
    /// The object is taken out of the map.
    RemoveObject {
        object: u32,
    },
    /// The property of that name gets a type and a value, or is put in with them. Where it follows, it merges with the
    /// step before it, if that sets the same property.
    SetProperty {
        owner: Owner,
        name: Text<'a>,
        value: TypedValue<'a>,
        follows: bool,
    },
    /// The property of that name is taken out.
    RemoveProperty {
        owner: Owner,
        name: Text<'a>,
    },
    /// A new external tileset, from that first id on, with its source.
    AddTileset {
        first_id: u32,
        source: Text<'a>,
    },
    /// The tileset with that first id is taken out.
    RemoveTileset {
        first_id: u32,
    },
    Undo,
    Redo,
    /// The state at that index of the undo stack.
    Goto {
        index: u32,
    },
    /// The index is the clean one.
    Clean,
    /// No index is the clean one.
    Dirty,
    /// The undo stack drops its steps and open macros, and is clean at index 0.
    Clear,
    /// A macro begins, with its text, and with the text of its action, where one was given.
    Begin {
        text: Text<'a>,
        action: Option<Text<'a>>,
    },
    /// The innermost macro ends.
    End,
    /// The active document's undo stack keeps at most so many steps; 0 is no limit.
    Limit {
        limit: u32,
    },
    /// The text of the active document's map.
    Show,
    /// How the active document stands.
    Status,
    /// The action text of the step that `undo` would undo, or an empty one.
    UndoText,
    /// The action text of the step that `redo` would redo, or an empty one.
    RedoText,
    /// The text of the step with that number, where the first one has 0.
    StepText {
        number: u32,
    },
}
