// Vessels: which vessel each step of a timetable gets.
#![tactic(auto)]

mod giving;
mod placed;
mod refusals;
mod sharing;

pub use giving::give_out;
pub use placed::{ABSENT, Placed};
pub use refusals::Refusal;
pub use sharing::hours_until;
