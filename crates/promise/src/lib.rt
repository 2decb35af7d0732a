// The whole promise at one call: a run of calls on an empty planner, the wait charts of two rule sources and their
// comparison, and a plan.
#![tactic(auto)]

mod charts;
mod plans;
mod promise;

pub use plans::Plan;
pub use promise::{Kept, keep};
