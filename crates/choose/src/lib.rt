// Choosers: rules that pick a start hour for a step from what is shown of it.
#![tactic(auto)]

mod chooser;
mod crowd;
mod earliest;
mod latest;
mod least_crowded;
mod shown;

pub use chooser::Chooser;
pub use earliest::Earliest;
pub use latest::Latest;
pub use least_crowded::LeastCrowded;
pub use shown::Shown;
