use layer_commands::{AddLayer, MoveLayer, RemoveLayer, RenameLayer, ResizeMap, ShowLayer};
use map_model::{LayerHead, MapHead, ObjectHead, TilesetHead};
use member_commands::{SetHead, SetValue};
use object_commands::{AddObject, PlaceObject, RemoveObject, ReparentObject};
use paint_commands::{PaintCommand, SelectCommand};
use property_commands::{
    AddTileset, NumberTileset, PutProperty, RemoveProperty, RemoveTileset, SetProperty,
};
use session::Reply;

/// An edit that is to be committed, as a command that fits the open document.
#[derive(Drop)]
pub enum Edit {
    Paint(PaintCommand),
    AddLayer(AddLayer),
    RemoveLayer(RemoveLayer),
    RenameLayer(RenameLayer),
    ShowLayer(ShowLayer),
    MoveLayer(MoveLayer),
    Select(SelectCommand),
    ResizeMap(ResizeMap),
    AddObject(AddObject),
    RemoveObject(RemoveObject),
    PlaceObject(PlaceObject),
    SetProperty(SetProperty),
    RemoveProperty(RemoveProperty),
    AddTileset(AddTileset),
    RemoveTileset(RemoveTileset),
    SetObjectHead(Box<SetHead<ObjectHead>>),
    SetLayerHead(Box<SetHead<LayerHead>>),
    SetMapHead(Box<SetHead<MapHead>>),
    ReparentObject(ReparentObject),
    PutProperty(PutProperty),
    SetTilesetHead(Box<SetHead<TilesetHead>>),
    NumberTileset(NumberTileset),
    SetTilesetMember(Box<SetValue>),
}

/// What is to be done for a line.
#[derive(Drop)]
pub enum Planned {
    /// Nothing, and no reply: a blank line or a comment.
    Quiet,
    /// The line is done or refused, and this is the reply.
    Reply(Reply),
    /// The edit is still to be put into a box and committed.
    Push(Edit),
}
