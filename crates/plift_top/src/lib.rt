//! The program: what its words ask for is done, and its status and its notes tell how it went.
#![tactic(auto)]

mod asking;
mod bounded;
mod checking;
mod cost;
mod costed;
mod edge;
mod heads;
mod laws;
mod limited;
mod lumped;
mod migrate;
mod notes;
mod program;
mod property;
mod refine;
mod refusal;
mod report;
mod selftest;
mod verify;

pub use check_notes::{Status, exit_code};
pub use edge::launch;
pub use laws::{lumped_reports_are_sound, refined_reports_are_sound, right_reports_are_sound};
pub use program::run;
pub use report::write_report;
