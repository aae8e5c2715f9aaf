//! Greatest lower vectors of rectangles (the greatest inductive lower bounds, by value iteration from above): the laws
//! of finding one.
#![tactic(auto)]

mod begin;
mod descent;
mod exit;
mod greatest;
mod held;
mod laws;
mod lower;
mod part;
mod raise;
mod steering;
mod sweep;

pub use greatest::{
    Rate, greatest_reject, greatest_reject_above, greatest_reject_from, lower_unranked,
};
pub use laws::{ranks_fit, vectors_are_lowered};
