//! Copies a report as it comes, and tells how far it has come.
#![tactic(auto)]

mod copying;
mod line;
mod progress;
mod shares;

pub use copying::{CopyError, follow};
pub use progress::Lines;
