//! A store over another one, for maps as Tiled saves them.
#![tactic(auto)]

mod fault_report;
mod tiled_store;

pub use fault_report::FaultReport;
pub use tiled_store::TiledStore;
