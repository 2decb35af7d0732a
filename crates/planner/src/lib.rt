// The planner: a sheet that always has a lawful timetable, changed by commands, and what it tells.
#![tactic(auto)]

mod planner;
mod refusals;

pub use planner::Planner;
pub use refusals::Refusal;
