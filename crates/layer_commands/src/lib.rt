//! The commands of layers: one is added, removed, moved, renamed, shown or hidden, or the map gets another size.
#![tactic(auto)]

mod add;
mod move_layer;
mod notes;
mod parent;
mod remove;
mod rename;
mod resize;
mod show;

pub use add::AddLayer;
pub use move_layer::MoveLayer;
pub use parent::siblings;
pub use remove::RemoveLayer;
pub use rename::RenameLayer;
pub use resize::ResizeMap;
pub use show::ShowLayer;
