// A full sheet written as a card.
#![tactic(auto)]

mod cards;
mod commands;
mod placing;

pub use cards::{CARD_ROOM, write_card};
