// The printed sheet: from two books to the whole text.
#![tactic(auto)]

mod printing;

pub use printing::page;
