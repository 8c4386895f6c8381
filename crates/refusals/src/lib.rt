//! Why a line is refused: the number and the words of each refusal.
#![tactic(auto)]

mod edit_fault;
mod line_fault;
mod map_refusal;
mod more_fault;
mod refusal;
mod stack_fault;
mod store_fault;

pub use edit_fault::EditFault;
pub use line_fault::LineFault;
pub use map_refusal::MapRefusal;
pub use more_fault::MoreFault;
pub use refusal::Refusal;
pub use stack_fault::StackFault;
pub use store_fault::StoreFault;
