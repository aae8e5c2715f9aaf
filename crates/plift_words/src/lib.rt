//! The words of the command line: which lines are plain, the values of their options, and the job, with its query, that
//! they ask for.
#![tactic(auto)]

mod command;
mod error;
mod job;
mod laws;
mod line;
mod parser;
mod query;
mod values;

pub use command::job_of;
pub use error::WordsError;
pub use job::{Field, Job, RefineJob, VerifyJob};
pub use laws::plain_lines_ask;
pub use query::{CostLimits, Query};
