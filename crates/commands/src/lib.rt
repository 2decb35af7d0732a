// One command on a sheet: its first fault there, or the sheet that it asks for.
#![tactic(auto)]

mod changing;
mod judging;

pub use changing::change;
pub use judging::judge;
