// Books in plain words: a line for each command with its offset, and one for the fault that ends a book badly.
#![tactic(auto)]

mod pages;
mod sentences;

pub use pages::listing;
