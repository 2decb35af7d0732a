// Full sheets that keep every limit, as rule sources.
#![tactic(auto)]

mod checked;
mod limits;

pub use checked::CheckedSheet;
pub use limits::{counts_fit, is_sound};
