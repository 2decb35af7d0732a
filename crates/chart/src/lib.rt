// The working chart: entries between the places of a sheet, closed place by place, for every kind of entry.
#![tactic(auto)]

mod cells;
mod entry;
mod fill;
mod places;
mod work;

pub use entry::Entry;
pub use places::{Places, Stop};
pub use work::{Chart, work_out};
