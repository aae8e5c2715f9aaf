//! Which models are admitted over a rectangle of values for their parameters (well-definedness on a region): those in
//! which each row is a distribution at every valuation inside, and no number of the engine leaves 128 bits.
#![tactic(auto)]

mod admission;
mod candidate;
mod error;
mod laws;
mod sums;
mod weights;
mod width;

pub use admission::{admit, admit_linked};
pub use error::RowError;
pub use laws::{cases_have_distributions, first_fault_is_one, unadmitted_has_a_first_fault};
