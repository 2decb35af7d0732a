// The cellar's sheet, and rule sources: whatever can tell a sheet's period, span, steps and rules.
#![tactic(auto)]

mod forms;
mod left_out;
mod other_period;
mod source;
mod tables;
mod weights;

pub use forms::{Link, Rule, Sheet, Step};
pub use left_out::LeftOut;
pub use other_period::OtherPeriod;
pub use source::Source;
