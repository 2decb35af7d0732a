// The kinds of entry that a working chart is used with.
#![tactic(auto)]

mod alone;
mod together;

pub use alone::Hours;
pub use together::Counted;
