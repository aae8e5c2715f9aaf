//! The program `plift_view`: reads a report, and shows it as a picture or as a table, or copies it and
//! tells how far it has come.
#![tactic(auto)]

mod choice;
mod edge;
mod notes;
mod program;
mod refusal;
mod shown;

pub use edge::launch;
pub use program::run;
