// Books of commands: what a command says, how it is spelled in bytes, and how a book is walked.
#![tactic(auto)]

mod commands;
mod decoding;
mod faults;
mod reading;
mod writing;

pub use commands::Command;
pub use decoding::decode;
pub use faults::{Cause, Fault};
pub use reading::{BOOK_LIMIT, Entry, Reader};
pub use writing::{Unwritten, encode};
