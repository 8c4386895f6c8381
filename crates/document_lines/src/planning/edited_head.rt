// The kinds of heads whose commands are edits.
ghost use Rattle.command_api.specs.Law.{IsSame};
ghost use Rattle.document_lines.specs.Planning.{edit_change};
ghost use Rattle.member_commands.specs.Changes.{set_head_change};
ghost use Rattle.member_commands.specs.Layers.{layer_heads};
ghost use Rattle.member_commands.specs.Maps.{map_heads};
ghost use Rattle.member_commands.specs.Objects.{object_heads};
ghost use Rattle.member_commands.specs.Tilesets.{tileset_heads};

use crate::planned::Edit;
use map_model::{LayerHead, MapHead, ObjectHead, TilesetHead};
use member_commands::{Head, SetHead};

/// The head of an owner whose own members lines edit.
pub trait EditedHead: Head {
    /// The edit that a command is. It stands in a box, since it is larger than those of other edits.
    fn into_edit(command: Box<SetHead<Self>>) -> Edit
        ensures { IsSame (set_head_change Self.parts command.value) (edit_change result) };
}

impl EditedHead for ObjectHead {
    fn into_edit(command: Box<SetHead<ObjectHead>>) -> Edit
        ensures { IsSame (set_head_change object_heads command.value) (edit_change result) }
    {
        Edit::SetObjectHead(command)
    }
}

impl EditedHead for LayerHead {
    fn into_edit(command: Box<SetHead<LayerHead>>) -> Edit
        ensures { IsSame (set_head_change layer_heads command.value) (edit_change result) }
    {
        Edit::SetLayerHead(command)
    }
}

impl EditedHead for MapHead {
    fn into_edit(command: Box<SetHead<MapHead>>) -> Edit
        ensures { IsSame (set_head_change map_heads command.value) (edit_change result) }
    {
        Edit::SetMapHead(command)
    }
}

impl EditedHead for TilesetHead {
    fn into_edit(command: Box<SetHead<TilesetHead>>) -> Edit
        ensures { IsSame (set_head_change tileset_heads command.value) (edit_change result) }
    {
        Edit::SetTilesetHead(command)
    }
}
