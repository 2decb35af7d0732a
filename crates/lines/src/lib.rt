// The lines of the printed sheet, each written into a caller's buffer.
#![tactic(auto)]

mod line;
mod placing;

pub use line::{Line, LineRefusal};
