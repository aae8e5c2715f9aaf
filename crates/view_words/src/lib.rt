//! The words of the command line of `plift_view`: what they ask for, and values of parameters.
#![tactic(auto)]

mod command;
mod error;
mod job;
mod parser;
mod value;

pub use command::job_of;
pub use error::WordsError;
pub use job::{Cause, Job, Usage, View, Wish};
pub use value::{is_inside, value_of};
