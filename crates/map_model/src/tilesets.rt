// Tilesets: where they stand, and whether they are in use.
ghost use Rattle.std.specs.Prelude.{◌≡◌, ◌<◌, Some, IsSome, find, option_and_then, position};
ghost use Rattle.std.specs.List.{list_any};
ghost use Rattle.std.specs.Option.{option_copied, option_map};
ghost use Rattle.serde_json.specs.Find.{get_member};
ghost use Rattle.map_model.specs.Groups.{drawn, tree};
ghost use Rattle.map_model.specs.Heads.{tileset_head, tileset_with_head, with_member};
ghost use Rattle.map_model.specs.Keeping.{layer_tier};
ghost use Rattle.map_model.specs.Lists.{change_first};
ghost use Rattle.map_model.specs.Renumbering.{end_in, has_losses, tileset_with_first_id};
ghost use Rattle.map_model.specs.NewMap.{external_tileset};
ghost use Rattle.map_model.specs.Tilesets.{has_first_id, in_use, tileset_place, tileset_with, values_in, values_of, gids_of};
ghost use Rattle.map_model.specs.Uses.{base_limit, end_of, is_between, nearer};
ghost use Rattle.map_model.specs.WellFormed.{IsWellFormed};

use crate::contents::{JsonValue, Kept, MapText};
use crate::heads::TilesetHead;
use crate::limits::MAX_GROUPS;
use crate::map::Map;
use crate::parts::{Body, Layer, Object, Tileset};
use crate::renumbering::{Move, losses};
use link_chain::Chain;
use link_tree::LinkTree;
use std::alloc::Global;
use tile_id::Gid;

/// No base of a value is as great.
const BASE_LIMIT: u32 = 0x1000_0000;

// Of how many cells it is asked at once whether one has a value.
const BLOCK: usize = 256;

impl Tileset {
    /// A tileset whose tiles stand in a file of their own, the source. It takes no memory.
    pub fn external(alloc: Global, first_id: u32, source: MapText) -> Tileset
        ensures { result ≡ external_tileset first_id source }
    {
        Tileset {
            first_id,
            source: Some(source),
            kept: Kept::new(serde_json::Map::new(alloc)),
        }
    }
}

impl Map {
    /// The place of the tileset with a first id.
    pub fn tileset_place(&self, first_id: u32) -> Option<usize>
        ensures place { result ≡ tileset_place self.now first_id }
        ensures well_formed { IsWellFormed self.now }
    {
        place_in(&self.parts.tilesets, first_id)
    }

    /// The tileset with a first id.
    pub fn tileset(&self, first_id: u32) -> Option<&Tileset>
        ensures tileset { option_copied result ≡ tileset_with self.now first_id }
        ensures well_formed { IsWellFormed self.now }
    {
        self.parts
            .tilesets
            .iter()
            .find(|tileset| tileset.first_id == first_id)
    }

    /// Whether a cell or an object has a value of the tileset with a first id; `None` where there is no such tileset.
    pub fn in_use(&self, first_id: u32) -> Option<bool>
        ensures { result ≡ in_use self.now first_id }
    {
        self.tileset_place(first_id)?;
        let end = end_of_tileset(&self.parts.tilesets, first_id);
        Some(is_in_layers(&self.parts.layers, first_id, end, MAX_GROUPS))
    }

    /// Whether a value of a cell or of an object would be of another tileset, of none, or of another tile, where the tileset with a
    /// first id got another one: no other tileset has that one or lies between the two.
    pub fn has_losses(&self, first_id: u32, to: u32) -> bool
        requires from { first_id < end_in self.now first_id }
        requires to { to < end_in self.now first_id }
        ensures { result ≡ has_losses self.now first_id to }
    {
        let end = end_of_tileset(&self.parts.tilesets, first_id);
        let range = Move {
            low: first_id,
            end,
            to,
        };
        let (low, end) = losses(range);
        is_in_layers(&self.parts.layers, low, end, MAX_GROUPS)
    }
}

// The place of the tileset with a first id.
fn place_in(tilesets: &Chain<Tileset>, first_id: u32) -> Option<usize>
    ensures { result ≡ position (has_first_id first_id) tilesets.now }
{
    tilesets
        .iter()
        .position(|tileset| tileset.first_id == first_id)
}

/// Gives the tileset with a first id another head, and hands the old one back.
pub fn head_tileset_in(
    tilesets: &mut Chain<Tileset>,
    first_id: u32,
    head: TilesetHead,
) -> TilesetHead
    requires { IsSome (find (has_first_id first_id) tilesets.old) }
    ensures given { option_map tileset_head (find (has_first_id first_id) tilesets.old) ≡ Some result }
    ensures tilesets { tilesets.new ≡ change_first (has_first_id first_id) (tileset_with_head head) tilesets.old }
{
    let Some(at) = place_in(tilesets, first_id) else {
        unreachable!();
    };
    tilesets.get_mut(at).replace_head(head)
}

/// Gives the kept member of a name, which the tileset with a first id has, another value, and hands the old one back.
pub fn value_tileset_in(
    tilesets: &mut Chain<Tileset>,
    first_id: u32,
    name: &str,
    value: JsonValue,
) -> JsonValue
    requires { IsSome (option_and_then (λ t. get_member name.now t.kept) (find (has_first_id first_id) tilesets.old)) }
    ensures given { option_and_then (λ t. get_member name.now t.kept) (find (has_first_id first_id) tilesets.old) ≡ Some result }
    ensures tilesets { tilesets.new ≡ change_first (has_first_id first_id) (λ t. record t { kept = with_member name.now (λ own. value) t.kept }) tilesets.old }
{
    let Some(at) = place_in(tilesets, first_id) else {
        unreachable!();
    };
    tilesets.get_mut(at).kept.replace_value(name, value)
}

/// Gives the tileset with a first id another one.
pub fn number_tileset_in(tilesets: &mut Chain<Tileset>, first_id: u32, to: u32)
    requires { IsSome (find (has_first_id first_id) tilesets.old) }
    ensures { tilesets.new ≡ change_first (has_first_id first_id) (tileset_with_first_id to) tilesets.old }
{
    let Some(at) = place_in(tilesets, first_id) else {
        unreachable!();
    };
    tilesets.get_mut(at).first_id = to;
}

// The end so far, or the first id of a tileset if that is nearer: lower, but above this one.
fn nearer_end(first_id: u32, end: u32, tileset: &Tileset) -> u32
    ensures { result ≡ nearer first_id end tileset.now }
{
    if first_id < tileset.first_id && tileset.first_id < end {
        tileset.first_id
    } else {
        end
    }
}

/// The lowest first id above this one, or 2^28, where there is none.
pub fn end_of_tileset(tilesets: &Chain<Tileset>, first_id: u32) -> u32
    ensures { result ≡ end_of first_id base_limit tilesets.now }
{
    let mut end = BASE_LIMIT;
    for tileset in tilesets.iter() {
        end = nearer_end(first_id, end, tileset);
    }
    end
}

/// Whether the base of a value is not below one number, and below another.
pub fn is_base_between(value: Gid, low: u32, end: u32) -> bool
    ensures { result ≡ is_between low end value }
{
    low <= value.base() && value.base() < end
}

// The same of some cell of a block. It looks at each of them, so that the compiler takes several in one step.
fn is_in_block(block: &[Gid], low: u32, end: u32) -> bool
    ensures { result ≡ list_any (is_between low end) block.now }
{
    let mut found = false;
    for value in block.iter() {
        found = found | is_base_between(*value, low, end);
    }
    found
}

fn is_in_cells(cells: &[Gid], low: u32, end: u32) -> bool
    ensures { result ≡ list_any (is_between low end) cells.now }
{
    let mut rest = cells;
    while let Some((block, behind)) = rest.split_at_checked(BLOCK) {
        if is_in_block(block, low, end) {
            return true;
        }
        rest = behind;
    }
    is_in_block(rest, low, end)
}

fn is_of_object(object: &Object, low: u32, end: u32) -> bool
    ensures { result ≡ list_any (is_between low end) (gids_of object.now) }
{
    match object.gid {
        Some(value) => is_base_between(value, low, end),
        None => false,
    }
}

fn is_in_objects(objects: &LinkTree<Object>, low: u32, end: u32) -> bool
    ensures { result ≡ list_any (λ o. list_any (is_between low end) (gids_of o)) objects.now }
{
    objects.any(move |object| is_of_object(object, low, end))
}

fn is_in_body(body: &Body, low: u32, end: u32) -> bool
    ensures { result ≡ list_any (is_between low end) (values_in body.now) }
{
    match body {
        Body::Tiles(_, cells) => is_in_cells(cells.as_slice(), low, end),
        Body::Objects(objects) => is_in_objects(objects, low, end),
        Body::Other => false,
        Body::Group(_) => false,
    }
}

#[cycle(uses)]
fn is_in_layers(layers: &Chain<Layer>, low: u32, end: u32, groups: usize) -> bool
    ensures { result ≡ list_any (λ d. list_any (is_between low end) (values_of d)) (drawn groups layer_tier layers.now) }
{
    for layer in layers.iter() {
        if is_in_layer(layer, low, end, groups) {
            return true;
        }
    }
    false
}

// Whether the base of a value in a layer, or in one that stands in it, is not below `low`, and below `end`.
#[cycle(uses)]
fn is_in_layer(layer: &Layer, low: u32, end: u32, groups: usize) -> bool
    ensures { result ≡ list_any (λ d. list_any (is_between low end) (values_of d)) (tree groups layer_tier layer.now) }
{
    if is_in_body(&layer.body, low, end) {
        return true;
    }
    if groups == 0 {
        return false;
    }
    match layer.body.layers() {
        Some(inside) => is_in_layers(inside, low, end, groups - 1),
        None => false,
    }
}
