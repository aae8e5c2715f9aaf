//! Least vectors (the least inductive upper bounds, also of expected rewards) over a table of corner weights, by value
//! iteration from below that rounds up.
#![tactic(auto)]

mod below;
mod find;
mod guess;
mod held;
mod least;
mod moved;
mod priced;
mod reward;
mod solve;
mod steering;
mod table;
mod worklist;

pub use least::{
    least_bound, least_bound_by_guess, least_upper, least_upper_from, least_upper_within,
    least_value,
};
pub use priced::{least_priced, least_priced_within};
