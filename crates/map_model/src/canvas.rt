// What a map is drawn on, and how its layers change places with it.
ghost use Rattle.std.specs.Prelude.{◌≡◌, ◌+◌, ◌+ℤ◌, ◌^◌, ◌<◌, ◌≤◌, Some, IfSome, length, map, slice_get, slice_set};
ghost use Rattle.std.specs.List.{flat_map};
ghost use Rattle.std.specs.Option.{option_map};
ghost use Rattle.map_model.specs.Canvas.{body_on, layers_on, lists_after, lists_in, lists_left, lists_of, lists_under, one_on, with_lists, BodyMayBeMoved, MayBeDrawn, MayBeMoved};
ghost use Rattle.map_model.specs.Objects.{object_moved, placing_moved};
ghost use Rattle.map_model.specs.Groups.{body_with_layers, drawn, group_in, tree};
ghost use Rattle.map_model.specs.Keeping.{layer_tier};
ghost use Rattle.map_model.specs.Lists.{Each, or_empty};
ghost use Rattle.map_model.specs.WellFormed.{IsPixels, IsPlacing};

use crate::contents::Cells;
use crate::parts::{Body, Layer, Object, Placing};
use link_chain::Chain;
use link_tree::LinkTree;
use region::Region;
use std::marker::Model;
use std::mem;

/// The cells of the tile layers of a map, in drawing order, seen as a list of lists.
#[derive(Drop)]
pub struct LayerCells {
    lists: Vec<Cells>,
}

impl Model for LayerCells {
    ghost use Rattle.std.specs.Prelude.{List, ℕ};

    ghost Value = { List (List ℕ) };

    ghost view = { λ a. a.lists.items };
}

impl LayerCells {
    /// The cells of a vector, one item for each tile layer.
    pub fn new(lists: Vec<Cells>) -> LayerCells
        ensures { result ≡ lists.items }
    {
        LayerCells { lists }
    }

    /// The cells, one item for each tile layer.
    pub fn as_slice(&self) -> &[Cells]
        ensures { result.now ≡ self.now }
    {
        self.lists.as_slice()
    }

    // Exchanges the cells with a number and others.
    fn swap(&mut self, number: usize, cells: &mut Cells)
        requires { number < length self.old }
        ensures given { slice_get self.old number ≡ Some cells.new }
        ensures held { self.new ≡ slice_set self.old number cells.old }
        ensures fits { length self.old < 2 ^ 64 }
    {
        mem::swap(&mut self.lists[number], cells);
    }
}

/// What a map is drawn on: its size in cells, the cells of its tile layers and its selection, and by how many pixels
/// its objects are moved to the right and down when it is put on this canvas.
#[derive(Drop)]
pub struct Canvas {
    pub width: u32,
    pub height: u32,
    pub layers: LayerCells,
    pub selection: Region,
    pub right: i64,
    pub down: i64,
}

// Adds pixels to a number of them, where there is one.
fn move_pixels(pixels: &mut Option<i32>, by: i64)
    requires { IfSome (option_map (λ z. z +ℤ by) pixels.old) IsPixels }
    ensures { pixels.new ≡ option_map (λ z. z +ℤ by) pixels.old }
{
    if let Some(pixels) = pixels {
        *pixels = (i64::from(*pixels) + by) as i32;
    }
}

impl Placing {
    // Moves an object that has these numbers.
    fn move_by(&mut self, right: i64, down: i64)
        requires { IsPlacing (placing_moved right down self.old) }
        ensures { self.new ≡ placing_moved right down self.old }
    {
        move_pixels(&mut self.x, right);
        move_pixels(&mut self.y, down);
    }
}

// Moves objects by so many pixels.
fn move_objects(objects: &mut LinkTree<Object>, right: i64, down: i64)
    requires { Each (MayBeMoved right down) objects.old }
    ensures { objects.new ≡ map (object_moved right down) objects.old }
{
    objects.change_each(
        |object: &mut Object|
            requires { IsPlacing (placing_moved right down object.old.placing) }
        { object.placing.move_by(right, down) },
    );
}

impl Body {
    // Puts a body on a canvas, which gets its cells. So many tile layers stand before it; the answer is how many stand before
    // the next body.
    fn exchange(&mut self, canvas: &mut Canvas, number: usize) -> usize
        requires groups { number + length (lists_in self.old) ≤ length canvas.old.layers }
        requires objects { BodyMayBeMoved canvas.old.right canvas.old.down self.old }
        ensures body { self.new ≡ body_on canvas.old number self.old }
        ensures canvas { canvas.new ≡ with_lists (lists_after number self.old canvas.old.layers) canvas.old }
        ensures next { result ≡ number + length (lists_in self.old) }
    {
        match self {
            Body::Tiles(_, cells) => {
                canvas.layers.swap(number, cells);
                number + 1
            }
            Body::Objects(objects) => {
                move_objects(objects, canvas.right, canvas.down);
                number
            }
            Body::Other => number,
            Body::Group(_) => number,
        }
    }
}

/// Puts layers on a canvas, which gets their cells, and so those that stand in them, in so many groups in one another.
/// So many tile layers stand before them; the answer is how many stand before the next layer.
#[cycle(exchange)]
pub fn exchange_layers(
    layers: &mut Chain<Layer>,
    canvas: &mut Canvas,
    number: usize,
    groups: usize,
) -> usize
    requires count { number + length (flat_map lists_of (drawn groups layer_tier layers.old)) ≤ length canvas.old.layers }
    requires objects { Each (MayBeDrawn canvas.old.right canvas.old.down) (drawn groups layer_tier layers.old) }
    ensures layers { layers.new ≡ layers_on groups canvas.old number layers.old }
    ensures canvas { canvas.new ≡ with_lists (lists_left number (flat_map lists_of (drawn groups layer_tier layers.old)) canvas.old.layers) canvas.old }
    ensures next { result ≡ number + length (flat_map lists_of (drawn groups layer_tier layers.old)) }
{
    let mut number = number;
    for at in 0..layers.len() {
        number = exchange_layer(layers.get_mut(at), canvas, number, groups);
    }
    number
}

// Exchanges the cells and moves the objects of one layer, and of those that stand in it.
#[cycle(exchange)]
fn exchange_layer(layer: &mut Layer, canvas: &mut Canvas, number: usize, groups: usize) -> usize
    requires count { number + length (lists_under groups layer.old) ≤ length canvas.old.layers }
    requires objects { Each (MayBeDrawn canvas.old.right canvas.old.down) (tree groups layer_tier layer.old) }
    ensures layer { layer.new ≡ one_on groups canvas.old number layer.old }
    ensures canvas { canvas.new ≡ with_lists (lists_left number (lists_under groups layer.old) canvas.old.layers) canvas.old }
    ensures next { result ≡ number + length (lists_under groups layer.old) }
{
    let number = layer.body.exchange(canvas, number);
    if groups == 0 {
        return number;
    }
    exchange_inside(&mut layer.body, canvas, number, groups - 1)
}

// Exchanges the cells and moves the objects of the layers that stand in a layer.
#[cycle(exchange)]
fn exchange_inside(body: &mut Body, canvas: &mut Canvas, number: usize, groups: usize) -> usize
    requires count { number + length (flat_map lists_of (drawn groups layer_tier (or_empty (group_in body.old)))) ≤ length canvas.old.layers }
    requires objects { Each (MayBeDrawn canvas.old.right canvas.old.down) (drawn groups layer_tier (or_empty (group_in body.old))) }
    ensures body { body.new ≡ body_with_layers (layers_on groups canvas.old number) body.old }
    ensures canvas { canvas.new ≡ with_lists (lists_left number (flat_map lists_of (drawn groups layer_tier (or_empty (group_in body.old)))) canvas.old.layers) canvas.old }
    ensures next { result ≡ number + length (flat_map lists_of (drawn groups layer_tier (or_empty (group_in body.old)))) }
{
    match body {
        Body::Group(layers) => exchange_layers(layers, canvas, number, groups),
        Body::Tiles(_, _) => number,
        Body::Objects(_) => number,
        Body::Other => number,
    }
}
