//! Files by name, each read and written whole.
#![tactic(auto)]

mod folder_store;
mod fuse_store;
mod map_store;
mod memory_store;
mod reason;
mod store_log;

pub use folder_store::{FolderStore, new_files_are_apart};
pub use fuse_store::FuseStore;
pub use map_store::MapStore;
pub use memory_store::MemoryStore;
pub use reason::Reason;
pub use refusals::StoreFault;
pub use store_log::{StoreCall, StoreLog};
