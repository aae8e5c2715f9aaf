//! Checks a report by itself: whether its rows are admitted over its region (well defined on it), and its certificates
//! hold. A certificate checker in the field's sense: nothing is believed of who wrote the report.
#![tactic(auto)]

mod checking;
mod error;
mod file;
mod laws;
mod leaf;
mod nodes;
mod summary;
mod text;
mod walk;

pub use checking::{check, check_within};
pub use error::CheckError;
pub use laws::{
    answers_are_one, prefixes_are_refused, sound_files_migrate, sound_files_pass,
    sound_reports_hold, sound_trees_are_reports,
};
pub use summary::Summary;
pub use text::{SoundText, check_parts, check_text};
