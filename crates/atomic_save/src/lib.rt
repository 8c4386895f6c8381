//! Files of a folder that are replaced so that no stop of the machine loses one.
#![tactic(auto)]

mod asked;
mod call_log;
mod left_overs;
mod lock_file;
mod memory_folder;
mod numbers;
mod request;
mod same_bytes;
mod save_folder;
mod saves;
mod system_folder;
mod two_runs;

pub use lock_file::LockFile;
pub use memory_folder::MemoryFolder;
pub use save_folder::SaveFolder;
pub use saves::{SaveError, save};
pub use system_folder::SystemFolder;
pub use two_runs::{a_save_stands, the_last_stays, two_runs_lose_nothing};
