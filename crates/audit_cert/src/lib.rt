//! The tests of certificates that don't stand in reports, each with the first miss: inductive bounds for the scheduler
//! that reaches the least, from either side; bounds by steps, one step at a time; and bounds of expected rewards. One
//! test serves all of them, as they differ in few things.
#![tactic(auto)]

mod claim;
mod claims;
mod corner;
mod kinds;
mod laws;
mod limit;
mod quick;
mod quick_kinds;
mod state;
mod whole;

pub use claim::Ranking;
pub use kinds::{meets_cost, meets_lower_all, meets_lower_step, meets_upper_one, meets_upper_step};
pub use laws::first_miss_is_one;
pub use quick_kinds::{is_cost, is_lower_all, is_lower_step, is_upper_one, is_upper_step};
