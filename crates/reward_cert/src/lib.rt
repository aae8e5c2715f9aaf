//! Certificates of expected rewards (what a scheduler pays before it reaches the goal), from above and from below, over
//! every scheduler and over one, in two readings: what is collected, and the cost to reach the goal.
#![tactic(auto)]

mod laws;

pub use laws::{
    collected_lower_bounds, collected_upper_bounds, collected_uppers_meet, costs_of_choices,
    lower_is_below_upper, reaching_lower_bounds, reaching_lowers_join, reaching_upper_bounds,
};
