// The plan: a start hour for each step by a chooser's rule, and a vessel for each. Its parts are the windows of steps
// while starts are placed, the step that is placed next, and the crowd that a chooser is shown.
#![tactic(auto)]

mod choosing;
mod crowd;
mod fill;
mod narrowing;
mod next;
mod opening;
mod planning;
mod window;
mod writing;

pub use planning::{PlanRefusal, plan};
