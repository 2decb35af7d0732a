// Cards: a sheet as bytes that is itself a rule source.
#![tactic(auto)]

mod card;
mod checking;
mod faults;
mod limits;
mod lookups;
mod order;

pub use card::Card;
pub use card::methods::step_name;
pub use checking::check;
pub use faults::{CardCause, CardFault};
