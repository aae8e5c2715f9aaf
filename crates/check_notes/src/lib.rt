//! How a program ends that reads reports: its status, and the notes of a report that isn't sound and of
//! a row that isn't admitted. The writers take no memory.
#![tactic(auto)]

mod rows;
mod status;
mod unsound;

pub use rows::write_row_words;
pub use status::{Status, exit_code};
pub use unsound::write_unsound_note;
