// Two books into one planner: the office's, then the tablet's.
#![tactic(auto)]

mod merging;
mod refusals;
mod reports;

pub use merging::merge;
pub use refusals::MergeRefusal;
pub use reports::{Book, Refused, Report};
