// What each command asks of a sheet, and what can be wrong with it there.
#![tactic(auto)]

mod faults;
mod limits;

ghost use Rattle.changes.specs.Faults.{ChecksRise};

pub use faults::CommandFault;
pub use limits::{is_from, name_fits};

// A theorem, named by a contract: the checks of every command run in the order of the numbers.
pub fn checks_rise()
    ensures { ChecksRise }
{}
