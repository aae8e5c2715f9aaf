//! Certificates for the scheduler that reaches the least (minimal reachability probabilities): from below over every
//! choice, and from above over one choice of each state (a memoryless strategy); and what they say of until.
#![tactic(auto)]

mod all;
mod chain;
mod laws;
mod one;
mod ranks;
mod rates;

pub use all::{greatest_all, greatest_all_above, least_avoiding_within};
pub use chain::choose_first;
pub use laws::{
    all_and_one, bounds_are_vectors, certificates_join, chains_have_one_scheduler,
    plans_are_supported, ranks_of_all_fit, rest_is_greatest, sides_are_apart, stages_of_all,
    until_is_bounded,
};
pub use one::{least_one, least_one_within};
