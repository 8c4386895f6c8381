// A map is resized.
ghost use Rattle.std.specs.Prelude.{◌≡◌, ◌+ℤ◌, ◌*◌, ◌≤◌, ◌++◌, true, Ok, IfOk, IfErr, OnOk, map};
ghost use Rattle.std.specs.List.{flat_map, list_all};
ghost use Rattle.std.specs.Option.{option_map};
ghost use Rattle.command_api.specs.Making.{IsRefusalOf};
ghost use Rattle.map_model.specs.declared.limits.TheConstants.{MAX_SIDE};
ghost use Rattle.map_model.specs.Bodies.{objects_in};
ghost use Rattle.map_model.specs.Canvas.{lists_in, lists_of, lists_under, tile_layers, with_canvas, AreCells, IsCanvasOf, IsShift};
ghost use Rattle.map_model.specs.Groups.{drawn, tree};
ghost use Rattle.map_model.specs.Keeping.{layer_tier};
ghost use Rattle.map_model.specs.Lists.{Each};
ghost use Rattle.map_model.specs.WellFormed.{IsSize, IsTileSize};
ghost use Rattle.edits.specs.Resizing.{after_resize, all_stay, are_pixels, drawn_stays, objects_stay, pixels_down, pixels_right, resized, resized_values, stays, IsDistance};

use crate::block::Block;
use crate::laying::laid_cells;
use command_api::EditFault;
use link_chain::Chain;
use link_tree::LinkTree;
use map_model::limits::{MAX_GROUPS, MAX_PIXELS};
use map_model::{Body, Canvas, Cells, Document, Layer, LayerCells, MapParts, Object, is_size};
use std::alloc::{AllocError, Global};

// The size of a new map, and where the old one begins on it.
#[derive(Clone, Copy)]
struct Resizing {
    width: u32,
    height: u32,
    dx: i32,
    dy: i32,
}

// By how many pixels objects are moved to the right and down.
#[derive(Clone, Copy)]
struct Shift {
    right: i64,
    down: i64,
}

// Whether a number of pixels, where there is one, is within the limits when it is moved by others.
fn are_pixels(pixels: Option<i32>, by: i64) -> bool
    requires { IsShift by }
    ensures { result ≡ are_pixels (option_map (λ z. z +ℤ by) pixels) }
{
    let Some(pixels) = pixels else {
        return true;
    };
    let moved = i64::from(pixels) + by;
    i64::from(-MAX_PIXELS) <= moved && moved <= i64::from(MAX_PIXELS)
}

// Whether a shift leaves the place of an object within its limits.
fn stays(object: &Object, shift: &Shift) -> bool
    requires right { IsShift shift.now.right }
    requires down { IsShift shift.now.down }
    ensures { result ≡ stays shift.now.right shift.now.down object.now }
{
    are_pixels(object.placing.x, shift.right) && are_pixels(object.placing.y, shift.down)
}

// Whether a shift leaves each object of a list within its limits.
fn each_stays(objects: &LinkTree<Object>, shift: &Shift) -> bool
    requires right { IsShift shift.now.right }
    requires down { IsShift shift.now.down }
    ensures { result ≡ list_all (stays shift.now.right shift.now.down) objects.now }
{
    objects.iter().all(|object| stays(object, shift))
}

// Whether a shift leaves each object of a layer within its limits.
fn all_stay(body: &Body, shift: &Shift) -> bool
    requires right { IsShift shift.now.right }
    requires down { IsShift shift.now.down }
    ensures { result ≡ all_stay shift.now.right shift.now.down (objects_in body.now) }
{
    match body {
        Body::Objects(objects) => each_stays(objects, shift),
        Body::Tiles(_, _) => true,
        Body::Other => true,
        Body::Group(_) => true,
    }
}

// Whether a shift leaves within its limits each object of some layers, and of those that stand in them in as many groups as
// there is room for.
#[cycle(stay)]
fn layers_stay(layers: &Chain<Layer>, shift: &Shift, groups: usize) -> bool
    requires right { IsShift shift.now.right }
    requires down { IsShift shift.now.down }
    ensures { result ≡ list_all (drawn_stays shift.now.right shift.now.down) (drawn groups layer_tier layers.now) }
{
    for layer in layers.iter() {
        if !layer_stays(layer, shift, groups) {
            return false;
        }
    }
    true
}

// Whether a shift leaves within its limits each object of one layer, and of those that stand in it.
#[cycle(stay)]
fn layer_stays(layer: &Layer, shift: &Shift, groups: usize) -> bool
    requires right { IsShift shift.now.right }
    requires down { IsShift shift.now.down }
    ensures { result ≡ list_all (drawn_stays shift.now.right shift.now.down) (tree groups layer_tier layer.now) }
{
    if !all_stay(&layer.body, shift) {
        return false;
    }
    if groups == 0 {
        return true;
    }
    match layer.body.layers() {
        Some(inside) => layers_stay(inside, shift, groups - 1),
        None => true,
    }
}

// Whether a shift leaves each object of a map within its limits.
fn objects_stay(parts: &MapParts, shift: &Shift) -> bool
    requires right { IsShift shift.now.right }
    requires down { IsShift shift.now.down }
    ensures { result ≡ objects_stay shift.now.right shift.now.down parts.now }
{
    layers_stay(&parts.layers, shift, MAX_GROUPS)
}

// The pixels by which objects are moved where the old map begins so many columns and rows further on.
fn shift_of(parts: &MapParts, dx: i32, dy: i32) -> Shift
    requires distance { IsDistance dx × IsDistance dy }
    requires tile { IsTileSize parts.now.tile_width parts.now.tile_height }
    ensures right { result.right ≡ pixels_right parts.now dx }
    ensures down { result.down ≡ pixels_down parts.now dy }
    ensures fits { IsShift result.right × IsShift result.down }
{
    Shift {
        right: i64::from(dx) * i64::from(parts.tile_width),
        down: i64::from(dy) * i64::from(parts.tile_height),
    }
}

// Adds the cells of a body in a map of the new size, where it is a tile layer's.
fn push_cells(
    alloc: Global,
    lists: &mut Vec<Cells>,
    body: &Body,
    parts: &MapParts,
    to: Resizing,
) -> Result<(), AllocError>
    requires cells { Each (AreCells (parts.now.width * parts.now.height)) (lists_in body.now) }
    requires width { to.width ≤ MAX_SIDE }
    requires height { to.height ≤ MAX_SIDE }
    ensures { OnOk result (lists.new.items ≡ lists.old.items ++ map (resized_values parts.now to.width to.height to.dx to.dy) (lists_in body.now)) }
{
    let Some(values) = body.tiles() else {
        return Ok(());
    };
    let block = Block {
        x: to.dx,
        y: to.dy,
        width: parts.width,
        values,
    };
    let cells = laid_cells(alloc, &block, parts.height, to.width, to.height)?;
    lists.push(cells)?;
    Ok(())
}

// Adds the cells of some layers, and of those that stand in them in as many groups as there is room for, in a map of the new
// size.
#[cycle(push)]
fn push_layers(
    alloc: Global,
    lists: &mut Vec<Cells>,
    layers: &Chain<Layer>,
    parts: &MapParts,
    to: Resizing,
    groups: usize,
) -> Result<(), AllocError>
    requires cells { Each (AreCells (parts.now.width * parts.now.height)) (flat_map lists_of (drawn groups layer_tier layers.now)) }
    requires width { to.width ≤ MAX_SIDE }
    requires height { to.height ≤ MAX_SIDE }
    ensures { OnOk result (lists.new.items ≡ lists.old.items ++ map (resized_values parts.now to.width to.height to.dx to.dy) (flat_map lists_of (drawn groups layer_tier layers.now))) }
{
    for layer in layers.iter() {
        push_layer(alloc, lists, layer, parts, to, groups)?;
    }
    Ok(())
}

// Adds the cells of one layer, and of those that stand in it, in a map of the new size.
#[cycle(push)]
fn push_layer(
    alloc: Global,
    lists: &mut Vec<Cells>,
    layer: &Layer,
    parts: &MapParts,
    to: Resizing,
    groups: usize,
) -> Result<(), AllocError>
    requires cells { Each (AreCells (parts.now.width * parts.now.height)) (lists_under groups layer.now) }
    requires width { to.width ≤ MAX_SIDE }
    requires height { to.height ≤ MAX_SIDE }
    ensures { OnOk result (lists.new.items ≡ lists.old.items ++ map (resized_values parts.now to.width to.height to.dx to.dy) (lists_under groups layer.now)) }
{
    push_cells(alloc, lists, &layer.body, parts, to)?;
    if groups == 0 {
        return Ok(());
    }
    match layer.body.layers() {
        Some(inside) => push_layers(alloc, lists, inside, parts, to, groups - 1),
        None => Ok(()),
    }
}

// The cells of each tile layer of a map in one of the new size.
fn resized_layers(alloc: Global, parts: &MapParts, to: Resizing) -> Result<LayerCells, AllocError>
    requires cells { Each (AreCells (parts.now.width * parts.now.height)) (tile_layers parts.now) }
    requires width { to.width ≤ MAX_SIDE }
    requires height { to.height ≤ MAX_SIDE }
    ensures { IfOk result (λ lists. lists ≡ map (resized_values parts.now to.width to.height to.dx to.dy) (tile_layers parts.now)) }
{
    let mut lists = Vec::with_capacity(alloc, parts.layers.len())?;
    push_layers(alloc, &mut lists, &parts.layers, parts, to, MAX_GROUPS)?;
    Ok(LayerCells::new(lists))
}

// The canvas of the new size, to which the map may be resized.
fn new_canvas(
    alloc: Global,
    document: &Document,
    to: Resizing,
    shift: Shift,
) -> Result<Canvas, AllocError>
    requires right { shift.right ≡ pixels_right document.now.map to.dx }
    requires down { shift.down ≡ pixels_down document.now.map to.dy }
    requires fits { IsShift shift.right × IsShift shift.down }
    requires size { IsSize to.width to.height }
    requires objects { objects_stay shift.right shift.down document.now.map ≡ true }
    ensures document { IfOk result (λ c. with_canvas c document.now ≡ resized document.now to.width to.height to.dx to.dy) }
    ensures fits { IfOk result (IsCanvasOf document.now) }
{
    let parts = document.map().parts();
    let layers = resized_layers(alloc, parts, to)?;
    let selection = document.selection();
    let selection = selection.moved_cut(alloc, to.dx, to.dy, to.width, to.height)?;
    Ok(Canvas {
        width: to.width,
        height: to.height,
        layers,
        selection,
        right: shift.right,
        down: shift.down,
    })
}

/// The canvas on which a document is the resized one: its cell (x, y) is the old cell (x - dx, y - dy), or 0 where that is
/// outside the old map, in each tile layer; objects are moved by as many tiles, and the selection is moved and cut. The
/// document stays as it is.
///
/// Refused where the new size is not within the limits or an object would not be, and then where there is no memory.
pub fn resized_cells(
    alloc: Global,
    document: &Document,
    width: u32,
    height: u32,
    dx: i32,
    dy: i32,
) -> Result<Canvas, EditFault>
    requires right { IsDistance dx }
    requires down { IsDistance dy }
    ensures canvas { IfOk result (λ c. after_resize document.now width height dx dy ≡ Ok (with_canvas c document.now)) }
    ensures fits { IfOk result (IsCanvasOf document.now) }
    ensures refusal { IfErr result (IsRefusalOf (after_resize document.now width height dx dy)) }
{
    let parts = document.map().parts();
    let shift = shift_of(parts, dx, dy);
    if !is_size(width, height) || !objects_stay(parts, &shift) {
        return Err(EditFault::OutOfRange);
    }
    let to = Resizing {
        width,
        height,
        dx,
        dy,
    };
    match new_canvas(alloc, document, to, shift) {
        Ok(canvas) => Ok(canvas),
        Err(_) => Err(EditFault::NoMemory),
    }
}
