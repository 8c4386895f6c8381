//! The loop over the lines of a session: they are read to the end of the input, and each but the quiet ones gets its reply.
#![tactic(auto)]

mod frequent;
mod laws;
mod running;
mod strict;
mod writing;

pub use document_lines::{Dialect, Fractions};
pub use laws::{journals_lead_to_the_same_documents, runs_are_one, runs_have_journals};
pub use running::{RunFault, Summary, run, run_all_edits, step, step_told};
pub use strict::{Report, StrictFault, Unsaved, run_strict, run_strict_all_edits};
