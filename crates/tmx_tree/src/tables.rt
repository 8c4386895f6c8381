// The tables of attributes that are members.
ghost use Rattle.std.specs.Prelude.{◌≡◌, map};
ghost use Rattle.serde_json.specs.View.{members_view};
ghost use Rattle.xml_text.specs.Xml.{attribute_view};
ghost use Rattle.tmx_tree.specs.Answers.{Leaves};
ghost use Rattle.tmx_tree.specs.Rows.{with_rows};
ghost use Rattle.tmx_tree.specs.Tables.{map_rows, map_size_rows, with_map_rows, hexagonal_rows, layer_rows, look_rows, with_layer_rows, size_rows, place_rows};
ghost use Rattle.tmx_tree.specs.Tables.{image_layer_rows};
ghost use Rattle.tmx_tree.specs.Tables.{object_layer_rows, object_rows, own_object_rows, instance_rows, text_rows};
ghost use Rattle.tmx_tree.specs.Tables.{tileset_rows, tileset_size_rows, with_tileset_rows, embedded_rows, file_rows, turning_rows};
ghost use Rattle.tmx_tree.specs.Tables.{tile_rows, part_rows, with_tile_rows, frame_rows};
ghost use Rattle.tmx_tree.specs.Tables.{wang_set_rows, wang_color_rows, wang_tile_rows};

use crate::fault::Fault;
use crate::row::{Kind, Row, Shown, put_rows};
use serde_json::{Map, Value};
use std::alloc::Global;
use xml_text::Attribute;

const fn row(name: &'static str, kind: Kind, shown: Shown) -> Row
    ensures name { result.name.now ≡ name.now }
    ensures kind { result.kind ≡ kind }
    ensures shown { result.shown ≡ shown }
{
    Row { name, kind, shown }
}

#[tactic(auto, unfolding(crate::specs::Tables::map_rows))]
fn put_own_map_rows(
    alloc: Global,
    attributes: &Vec<Attribute>,
    members: &mut Map<String, Value>,
) -> Result<(), Fault>
    ensures { Leaves result (members_view members.new.entries)
        (with_rows map_rows (map attribute_view attributes.now.items) (members_view members.old.entries)) }
{
    put_rows(
        alloc,
        &[
            row("version", Kind::Text, Shown::Given),
            row("tiledversion", Kind::Text, Shown::Given),
            row("class", Kind::Text, Shown::Unusual),
            row("compressionlevel", Kind::Whole(-1), Shown::Always),
            row("backgroundcolor", Kind::Text, Shown::Unusual),
        ],
        attributes,
        members,
    )
}

#[tactic(auto, unfolding(crate::specs::Tables::map_size_rows))]
fn put_map_size_rows(
    alloc: Global,
    attributes: &Vec<Attribute>,
    members: &mut Map<String, Value>,
) -> Result<(), Fault>
    ensures { Leaves result (members_view members.new.entries)
        (with_rows map_size_rows (map attribute_view attributes.now.items) (members_view members.old.entries)) }
{
    put_rows(
        alloc,
        &[
            row("width", Kind::Whole(0), Shown::Always),
            row("height", Kind::Whole(0), Shown::Always),
            row("tilewidth", Kind::Whole(0), Shown::Always),
            row("tileheight", Kind::Whole(0), Shown::Always),
            row("infinite", Kind::Flag(false), Shown::Always),
        ],
        attributes,
        members,
    )
}

/// Puts those of a map.
#[tactic(auto, unfolding(crate::specs::Tables::with_map_rows))]
pub fn put_map_rows(
    alloc: Global,
    attributes: &Vec<Attribute>,
    members: &mut Map<String, Value>,
) -> Result<(), Fault>
    ensures { Leaves result (members_view members.new.entries)
        (with_map_rows (map attribute_view attributes.now.items) (members_view members.old.entries)) }
{
    put_own_map_rows(alloc, attributes, members)?;
    put_map_size_rows(alloc, attributes, members)
}

/// Puts those of a hexagonal map.
#[tactic(auto, unfolding(crate::specs::Tables::hexagonal_rows))]
pub fn put_hexagonal_rows(
    alloc: Global,
    attributes: &Vec<Attribute>,
    members: &mut Map<String, Value>,
) -> Result<(), Fault>
    ensures { Leaves result (members_view members.new.entries)
        (with_rows hexagonal_rows (map attribute_view attributes.now.items) (members_view members.old.entries)) }
{
    put_rows(
        alloc,
        &[row("hexsidelength", Kind::Whole(0), Shown::Always)],
        attributes,
        members,
    )
}

#[tactic(auto, unfolding(crate::specs::Tables::layer_rows))]
fn put_own_layer_rows(
    alloc: Global,
    attributes: &Vec<Attribute>,
    members: &mut Map<String, Value>,
) -> Result<(), Fault>
    ensures { Leaves result (members_view members.new.entries)
        (with_rows layer_rows (map attribute_view attributes.now.items) (members_view members.old.entries)) }
{
    put_rows(
        alloc,
        &[
            row("name", Kind::Text, Shown::Always),
            row("class", Kind::Text, Shown::Unusual),
            row("x", Kind::Whole(0), Shown::Always),
            row("y", Kind::Whole(0), Shown::Always),
            row("visible", Kind::Flag(true), Shown::Always),
            row("locked", Kind::Flag(false), Shown::Unusual),
        ],
        attributes,
        members,
    )
}

#[tactic(auto, unfolding(crate::specs::Tables::look_rows))]
fn put_look_rows(
    alloc: Global,
    attributes: &Vec<Attribute>,
    members: &mut Map<String, Value>,
) -> Result<(), Fault>
    ensures { Leaves result (members_view members.new.entries)
        (with_rows look_rows (map attribute_view attributes.now.items) (members_view members.old.entries)) }
{
    put_rows(
        alloc,
        &[
            row("opacity", Kind::Real(1), Shown::Always),
            row("tintcolor", Kind::Text, Shown::Unusual),
            row("parallaxx", Kind::Real(1), Shown::Unusual),
            row("parallaxy", Kind::Real(1), Shown::Unusual),
            row("mode", Kind::Text, Shown::Unusual),
        ],
        attributes,
        members,
    )
}

/// Puts those of a layer of any kind.
#[tactic(auto, unfolding(crate::specs::Tables::with_layer_rows))]
pub fn put_layer_rows(
    alloc: Global,
    attributes: &Vec<Attribute>,
    members: &mut Map<String, Value>,
) -> Result<(), Fault>
    ensures { Leaves result (members_view members.new.entries)
        (with_layer_rows (map attribute_view attributes.now.items) (members_view members.old.entries)) }
{
    put_own_layer_rows(alloc, attributes, members)?;
    put_look_rows(alloc, attributes, members)
}

/// Puts those of a thing with a size.
#[tactic(auto, unfolding(crate::specs::Tables::size_rows))]
pub fn put_size_rows(
    alloc: Global,
    attributes: &Vec<Attribute>,
    members: &mut Map<String, Value>,
) -> Result<(), Fault>
    ensures { Leaves result (members_view members.new.entries)
        (with_rows size_rows (map attribute_view attributes.now.items) (members_view members.old.entries)) }
{
    put_rows(
        alloc,
        &[
            row("width", Kind::Whole(0), Shown::Always),
            row("height", Kind::Whole(0), Shown::Always),
        ],
        attributes,
        members,
    )
}

/// Puts those of a thing with a place.
#[tactic(auto, unfolding(crate::specs::Tables::place_rows))]
pub fn put_place_rows(
    alloc: Global,
    attributes: &Vec<Attribute>,
    members: &mut Map<String, Value>,
) -> Result<(), Fault>
    ensures { Leaves result (members_view members.new.entries)
        (with_rows place_rows (map attribute_view attributes.now.items) (members_view members.old.entries)) }
{
    put_rows(
        alloc,
        &[
            row("x", Kind::Whole(0), Shown::Always),
            row("y", Kind::Whole(0), Shown::Always),
        ],
        attributes,
        members,
    )
}

/// Puts those of an image layer.
#[tactic(auto, unfolding(crate::specs::Tables::image_layer_rows))]
pub fn put_image_layer_rows(
    alloc: Global,
    attributes: &Vec<Attribute>,
    members: &mut Map<String, Value>,
) -> Result<(), Fault>
    ensures { Leaves result (members_view members.new.entries)
        (with_rows image_layer_rows (map attribute_view attributes.now.items) (members_view members.old.entries)) }
{
    put_rows(
        alloc,
        &[
            row("repeatx", Kind::Flag(false), Shown::Unusual),
            row("repeaty", Kind::Flag(false), Shown::Unusual),
        ],
        attributes,
        members,
    )
}

/// Puts those of an object layer.
#[tactic(auto, unfolding(crate::specs::Tables::object_layer_rows))]
pub fn put_object_layer_rows(
    alloc: Global,
    attributes: &Vec<Attribute>,
    members: &mut Map<String, Value>,
) -> Result<(), Fault>
    ensures { Leaves result (members_view members.new.entries)
        (with_rows object_layer_rows (map attribute_view attributes.now.items) (members_view members.old.entries)) }
{
    put_rows(
        alloc,
        &[row("color", Kind::Text, Shown::Unusual)],
        attributes,
        members,
    )
}

/// Puts those of an object, be it of a template or not.
#[tactic(auto, unfolding(crate::specs::Tables::object_rows))]
pub fn put_object_rows(
    alloc: Global,
    attributes: &Vec<Attribute>,
    members: &mut Map<String, Value>,
) -> Result<(), Fault>
    ensures { Leaves result (members_view members.new.entries)
        (with_rows object_rows (map attribute_view attributes.now.items) (members_view members.old.entries)) }
{
    put_rows(
        alloc,
        &[
            row("class", Kind::Text, Shown::Unusual),
            row("gid", Kind::Unsigned, Shown::Unusual),
            row("x", Kind::Real(0), Shown::Always),
            row("y", Kind::Real(0), Shown::Always),
            row("opacity", Kind::Real(1), Shown::Unusual),
        ],
        attributes,
        members,
    )
}

/// Puts those of an object of no template.
#[tactic(auto, unfolding(crate::specs::Tables::own_object_rows))]
pub fn put_own_object_rows(
    alloc: Global,
    attributes: &Vec<Attribute>,
    members: &mut Map<String, Value>,
) -> Result<(), Fault>
    ensures { Leaves result (members_view members.new.entries)
        (with_rows own_object_rows (map attribute_view attributes.now.items) (members_view members.old.entries)) }
{
    put_rows(
        alloc,
        &[
            row("name", Kind::Text, Shown::Always),
            row("type", Kind::Text, Shown::Always),
            row("width", Kind::Real(0), Shown::Always),
            row("height", Kind::Real(0), Shown::Always),
            row("rotation", Kind::Real(0), Shown::Always),
            row("visible", Kind::Flag(true), Shown::Always),
        ],
        attributes,
        members,
    )
}

/// Puts those of an object of a template.
#[tactic(auto, unfolding(crate::specs::Tables::instance_rows))]
pub fn put_instance_rows(
    alloc: Global,
    attributes: &Vec<Attribute>,
    members: &mut Map<String, Value>,
) -> Result<(), Fault>
    ensures { Leaves result (members_view members.new.entries)
        (with_rows instance_rows (map attribute_view attributes.now.items) (members_view members.old.entries)) }
{
    put_rows(
        alloc,
        &[
            row("template", Kind::Text, Shown::Always),
            row("name", Kind::Text, Shown::Unusual),
            row("type", Kind::Text, Shown::Unusual),
            row("rotation", Kind::Real(0), Shown::Read),
            row("visible", Kind::Flag(true), Shown::Read),
        ],
        attributes,
        members,
    )
}

/// Puts those of the text of an object.
#[tactic(auto, unfolding(crate::specs::Tables::text_rows))]
pub fn put_text_rows(
    alloc: Global,
    attributes: &Vec<Attribute>,
    members: &mut Map<String, Value>,
) -> Result<(), Fault>
    ensures { Leaves result (members_view members.new.entries)
        (with_rows text_rows (map attribute_view attributes.now.items) (members_view members.old.entries)) }
{
    put_rows(
        alloc,
        &[
            row("wrap", Kind::Flag(false), Shown::Unusual),
            row("bold", Kind::Flag(false), Shown::Unusual),
            row("italic", Kind::Flag(false), Shown::Unusual),
            row("underline", Kind::Flag(false), Shown::Unusual),
            row("strikeout", Kind::Flag(false), Shown::Unusual),
            row("kerning", Kind::Flag(true), Shown::Unusual),
            row("pixelsize", Kind::Whole(16), Shown::Unusual),
        ],
        attributes,
        members,
    )
}

#[tactic(auto, unfolding(crate::specs::Tables::tileset_rows))]
fn put_own_tileset_rows(
    alloc: Global,
    attributes: &Vec<Attribute>,
    members: &mut Map<String, Value>,
) -> Result<(), Fault>
    ensures { Leaves result (members_view members.new.entries)
        (with_rows tileset_rows (map attribute_view attributes.now.items) (members_view members.old.entries)) }
{
    put_rows(
        alloc,
        &[
            row("name", Kind::Text, Shown::Always),
            row("class", Kind::Text, Shown::Unusual),
            row("tilecount", Kind::Whole(0), Shown::Given),
            row("columns", Kind::Whole(0), Shown::Given),
            row("backgroundcolor", Kind::Text, Shown::Unusual),
        ],
        attributes,
        members,
    )
}

#[tactic(auto, unfolding(crate::specs::Tables::tileset_size_rows))]
fn put_tileset_size_rows(
    alloc: Global,
    attributes: &Vec<Attribute>,
    members: &mut Map<String, Value>,
) -> Result<(), Fault>
    ensures { Leaves result (members_view members.new.entries)
        (with_rows tileset_size_rows (map attribute_view attributes.now.items) (members_view members.old.entries)) }
{
    put_rows(
        alloc,
        &[
            row("tilewidth", Kind::Whole(0), Shown::Always),
            row("tileheight", Kind::Whole(0), Shown::Always),
            row("spacing", Kind::Whole(0), Shown::Always),
            row("margin", Kind::Whole(0), Shown::Always),
            row("tilerendersize", Kind::Text, Shown::Unusual),
            row("fillmode", Kind::Text, Shown::Unusual),
        ],
        attributes,
        members,
    )
}

/// Puts those of a tileset.
#[tactic(auto, unfolding(crate::specs::Tables::with_tileset_rows))]
pub fn put_tileset_rows(
    alloc: Global,
    attributes: &Vec<Attribute>,
    members: &mut Map<String, Value>,
) -> Result<(), Fault>
    ensures { Leaves result (members_view members.new.entries)
        (with_tileset_rows (map attribute_view attributes.now.items) (members_view members.old.entries)) }
{
    put_own_tileset_rows(alloc, attributes, members)?;
    put_tileset_size_rows(alloc, attributes, members)
}

/// Puts those of a tileset that stands in the map itself.
#[tactic(auto, unfolding(crate::specs::Tables::embedded_rows))]
pub fn put_embedded_rows(
    alloc: Global,
    attributes: &Vec<Attribute>,
    members: &mut Map<String, Value>,
) -> Result<(), Fault>
    ensures { Leaves result (members_view members.new.entries)
        (with_rows embedded_rows (map attribute_view attributes.now.items) (members_view members.old.entries)) }
{
    put_rows(
        alloc,
        &[row("firstgid", Kind::Unsigned, Shown::Always)],
        attributes,
        members,
    )
}

/// Puts those of a tileset that is a file of its own.
#[tactic(auto, unfolding(crate::specs::Tables::file_rows))]
pub fn put_file_rows(
    alloc: Global,
    attributes: &Vec<Attribute>,
    members: &mut Map<String, Value>,
) -> Result<(), Fault>
    ensures { Leaves result (members_view members.new.entries)
        (with_rows file_rows (map attribute_view attributes.now.items) (members_view members.old.entries)) }
{
    put_rows(
        alloc,
        &[
            row("version", Kind::Text, Shown::Given),
            row("tiledversion", Kind::Text, Shown::Given),
        ],
        attributes,
        members,
    )
}

/// Puts those of how tiles may be turned.
#[tactic(auto, unfolding(crate::specs::Tables::turning_rows))]
pub fn put_turning_rows(
    alloc: Global,
    attributes: &Vec<Attribute>,
    members: &mut Map<String, Value>,
) -> Result<(), Fault>
    ensures { Leaves result (members_view members.new.entries)
        (with_rows turning_rows (map attribute_view attributes.now.items) (members_view members.old.entries)) }
{
    put_rows(
        alloc,
        &[
            row("hflip", Kind::Flag(false), Shown::Always),
            row("vflip", Kind::Flag(false), Shown::Always),
            row("rotate", Kind::Flag(false), Shown::Always),
            row("preferuntransformed", Kind::Flag(false), Shown::Always),
        ],
        attributes,
        members,
    )
}

#[tactic(auto, unfolding(crate::specs::Tables::tile_rows))]
fn put_own_tile_rows(
    alloc: Global,
    attributes: &Vec<Attribute>,
    members: &mut Map<String, Value>,
) -> Result<(), Fault>
    ensures { Leaves result (members_view members.new.entries)
        (with_rows tile_rows (map attribute_view attributes.now.items) (members_view members.old.entries)) }
{
    put_rows(
        alloc,
        &[
            row("id", Kind::Whole(0), Shown::Always),
            row("type", Kind::Text, Shown::Unusual),
            row("class", Kind::Text, Shown::Unusual),
            row("probability", Kind::Real(1), Shown::Unusual),
        ],
        attributes,
        members,
    )
}

#[tactic(auto, unfolding(crate::specs::Tables::part_rows))]
fn put_part_rows(
    alloc: Global,
    attributes: &Vec<Attribute>,
    members: &mut Map<String, Value>,
) -> Result<(), Fault>
    ensures { Leaves result (members_view members.new.entries)
        (with_rows part_rows (map attribute_view attributes.now.items) (members_view members.old.entries)) }
{
    put_rows(
        alloc,
        &[
            row("x", Kind::Whole(0), Shown::Given),
            row("y", Kind::Whole(0), Shown::Given),
            row("width", Kind::Whole(0), Shown::Given),
            row("height", Kind::Whole(0), Shown::Given),
        ],
        attributes,
        members,
    )
}

/// Puts those of a tile.
#[tactic(auto, unfolding(crate::specs::Tables::with_tile_rows))]
pub fn put_tile_rows(
    alloc: Global,
    attributes: &Vec<Attribute>,
    members: &mut Map<String, Value>,
) -> Result<(), Fault>
    ensures { Leaves result (members_view members.new.entries)
        (with_tile_rows (map attribute_view attributes.now.items) (members_view members.old.entries)) }
{
    put_own_tile_rows(alloc, attributes, members)?;
    put_part_rows(alloc, attributes, members)
}

/// Puts those of a frame of an animation.
#[tactic(auto, unfolding(crate::specs::Tables::frame_rows))]
pub fn put_frame_rows(
    alloc: Global,
    attributes: &Vec<Attribute>,
    members: &mut Map<String, Value>,
) -> Result<(), Fault>
    ensures { Leaves result (members_view members.new.entries)
        (with_rows frame_rows (map attribute_view attributes.now.items) (members_view members.old.entries)) }
{
    put_rows(
        alloc,
        &[
            row("tileid", Kind::Whole(0), Shown::Always),
            row("duration", Kind::Whole(0), Shown::Always),
        ],
        attributes,
        members,
    )
}

/// Puts those of a wang set.
#[tactic(auto, unfolding(crate::specs::Tables::wang_set_rows))]
pub fn put_wang_set_rows(
    alloc: Global,
    attributes: &Vec<Attribute>,
    members: &mut Map<String, Value>,
) -> Result<(), Fault>
    ensures { Leaves result (members_view members.new.entries)
        (with_rows wang_set_rows (map attribute_view attributes.now.items) (members_view members.old.entries)) }
{
    put_rows(
        alloc,
        &[
            row("name", Kind::Text, Shown::Always),
            row("class", Kind::Text, Shown::Unusual),
            row("tile", Kind::Whole(0), Shown::Always),
        ],
        attributes,
        members,
    )
}

/// Puts those of a color of a wang set.
#[tactic(auto, unfolding(crate::specs::Tables::wang_color_rows))]
pub fn put_wang_color_rows(
    alloc: Global,
    attributes: &Vec<Attribute>,
    members: &mut Map<String, Value>,
) -> Result<(), Fault>
    ensures { Leaves result (members_view members.new.entries)
        (with_rows wang_color_rows (map attribute_view attributes.now.items) (members_view members.old.entries)) }
{
    put_rows(
        alloc,
        &[
            row("name", Kind::Text, Shown::Always),
            row("class", Kind::Text, Shown::Unusual),
            row("color", Kind::Text, Shown::Always),
            row("tile", Kind::Whole(0), Shown::Always),
            row("probability", Kind::Real(0), Shown::Always),
        ],
        attributes,
        members,
    )
}

/// Puts those of a tile of a wang set.
#[tactic(auto, unfolding(crate::specs::Tables::wang_tile_rows))]
pub fn put_wang_tile_rows(
    alloc: Global,
    attributes: &Vec<Attribute>,
    members: &mut Map<String, Value>,
) -> Result<(), Fault>
    ensures { Leaves result (members_view members.new.entries)
        (with_rows wang_tile_rows (map attribute_view attributes.now.items) (members_view members.old.entries)) }
{
    put_rows(
        alloc,
        &[row("tileid", Kind::Whole(0), Shown::Always)],
        attributes,
        members,
    )
}
