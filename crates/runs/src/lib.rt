// Runs of calls: commands and merges carried out one after another on an empty planner.
#![tactic(auto)]

mod calls;
mod running;

pub use calls::{Call, Note};
pub use running::{Ran, run};
