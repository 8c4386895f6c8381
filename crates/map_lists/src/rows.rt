// All layers of a map, as rows in drawing order.
ghost use Rattle.std.specs.Prelude.{◌≡◌, ◌++◌, IfOk, OnOk};
ghost use Rattle.map_lists.specs.Rows.{count_of, kind_of, layer_rows, row_of, rows_among, rows_under};

use link_chain::Chain;
use map_model::limits::MAX_GROUPS;
use map_model::{Body, Layer, Map};
use std::alloc::{AllocError, Global};

/// What a layer holds.
#[derive(Clone, Copy, Debug, PartialEq, Eq)]
pub enum Kind {
    Tiles,
    Objects,
    Group,
    Image,
}

/// A layer in a list of all layers of a map.
#[derive(Clone, Copy, Debug, PartialEq, Eq)]
pub struct LayerRow {
    pub id: u32,
    /// The id of the group that it stands in, and `None` where it stands in none.
    pub parent: Option<u32>,
    pub kind: Kind,
    pub is_visible: bool,
    /// How many objects it has, or how many layers a group has, without those in groups in it; 0 for other layers.
    pub count: usize,
}

fn kind_of(body: &Body) -> Kind
    ensures { result ≡ kind_of body.now }
{
    match body {
        Body::Tiles(_, _) => Kind::Tiles,
        Body::Objects(_) => Kind::Objects,
        Body::Other => Kind::Image,
        Body::Group(_) => Kind::Group,
    }
}

fn count_of(body: &Body) -> usize
    ensures { result ≡ count_of body.now }
{
    match body {
        Body::Objects(objects) => objects.len(),
        Body::Group(layers) => layers.len(),
        Body::Tiles(_, _) => 0,
        Body::Other => 0,
    }
}

impl LayerRow {
    fn of(parent: Option<u32>, layer: &Layer) -> LayerRow
        ensures { result ≡ row_of parent layer.now }
    {
        LayerRow {
            id: layer.id,
            parent,
            kind: kind_of(&layer.body),
            is_visible: layer.visible,
            count: count_of(&layer.body),
        }
    }
}

// Puts the rows of layers that have this parent, and of those that stand in them, behind others.
#[cycle(rows)]
fn push_rows(
    rows: &mut Vec<LayerRow>,
    parent: Option<u32>,
    groups: usize,
    layers: &Chain<Layer>,
) -> Result<(), AllocError>
    ensures { OnOk result (rows.new.items ≡ rows.old.items ++ rows_among groups parent layers.now) }
{
    for layer in layers.iter() {
        push_under(rows, parent, groups, layer)?;
    }
    Ok(())
}

// Puts the rows of a layer, and of those that stand in it, behind others.
#[cycle(rows)]
fn push_under(
    rows: &mut Vec<LayerRow>,
    parent: Option<u32>,
    groups: usize,
    layer: &Layer,
) -> Result<(), AllocError>
    ensures { OnOk result (rows.new.items ≡ rows.old.items ++ rows_under groups parent layer.now) }
{
    rows.push(LayerRow::of(parent, layer))?;
    if groups == 0 {
        return Ok(());
    }
    match layer.body.layers() {
        Some(inside) => push_rows(rows, Some(layer.id), groups - 1, inside),
        None => Ok(()),
    }
}

/// All layers of a map in drawing order, a group before those that stand in it. It fails only out of memory.
pub fn rows_of_layers(alloc: Global, map: &Map) -> Result<Vec<LayerRow>, AllocError>
    ensures { IfOk result (λ rows. rows.items ≡ layer_rows map.now) }
{
    let mut rows = Vec::new(alloc);
    push_rows(&mut rows, None, MAX_GROUPS, &map.parts().layers)?;
    Ok(rows)
}
