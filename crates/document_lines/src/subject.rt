// What an edit is about.

use crate::planned::Edit;
use map_model::{MemberOwner, Owner};

/// What an edit is about: what a list of steps names beside the step's text.
#[derive(Clone, Copy, PartialEq, Eq, Debug)]
pub enum Subject {
    /// None of these: cells that are selected.
    Nothing,
    Map,
    /// The layer with this id.
    Layer(u32),
    /// The object with this id.
    Object(u32),
    /// The tileset with this first id.
    Tileset(u32),
}

impl Subject {
    // What owns properties.
    fn of_owner(owner: Owner) -> Subject {
        match owner {
            Owner::Map => Subject::Map,
            Owner::Layer(layer) => Subject::Layer(layer),
            Owner::Object(object) => Subject::Object(object),
        }
    }

    // What own members belong to.
    fn of_members(owner: MemberOwner) -> Subject {
        match owner {
            MemberOwner::Map => Subject::Map,
            MemberOwner::Layer(layer) => Subject::Layer(layer),
            MemberOwner::Object(object) => Subject::Object(object),
            MemberOwner::Tileset(first_id) => Subject::Tileset(first_id),
        }
    }
}

impl Edit {
    /// What the edit is about. A property's and an own member's is its owner. What it names need not be in the map now.
    pub fn subject(&self) -> Subject {
        match self {
            Edit::Paint(command) => Subject::Layer(command.layer()),
            Edit::AddLayer(command) => Subject::Layer(command.layer()),
            Edit::RemoveLayer(command) => Subject::Layer(command.layer()),
            Edit::RenameLayer(command) => Subject::Layer(command.layer()),
            Edit::ShowLayer(command) => Subject::Layer(command.layer()),
            Edit::MoveLayer(command) => Subject::Layer(command.layer()),
            Edit::Select(_) => Subject::Nothing,
            Edit::ResizeMap(_) => Subject::Map,
            Edit::AddObject(command) => Subject::Object(command.object()),
            Edit::RemoveObject(command) => Subject::Object(command.object()),
            Edit::PlaceObject(command) => Subject::Object(command.object()),
            Edit::SetProperty(command) => Subject::of_owner(command.owner()),
            Edit::RemoveProperty(command) => Subject::of_owner(command.owner()),
            Edit::AddTileset(command) => Subject::Tileset(command.first_id()),
            Edit::RemoveTileset(command) => Subject::Tileset(command.first_id()),
            Edit::SetObjectHead(command) => Subject::of_members(command.owner()),
            Edit::SetLayerHead(command) => Subject::of_members(command.owner()),
            Edit::SetMapHead(command) => Subject::of_members(command.owner()),
            Edit::ReparentObject(command) => Subject::Object(command.object()),
            Edit::PutProperty(command) => Subject::of_owner(command.owner()),
            Edit::SetTilesetHead(command) => Subject::of_members(command.owner()),
            Edit::NumberTileset(command) => Subject::Tileset(command.first_id()),
            Edit::SetTilesetMember(command) => Subject::of_members(command.owner()),
        }
    }
}
