//! Markov models (parametric Markov chains and decision processes): what they are, and what their schedulers
//! (strategies, policies) reach.
#![tactic(auto)]

mod before;
mod blocks;
mod entry;
mod kind;
mod laws;
mod layout;
mod links;
mod lists;
mod model;
mod only_row;
mod order;
mod row;
mod shared;

pub use blocks::FirstRow;
pub use entry::Entry;
pub use kind::Kind;
pub use laws::{
    fair_plans_reach_one_half, plans_over_one_choice, same_choices_are_memoryless,
    tosses_are_bounded, weighted_sums_follow,
};
pub use layout::RowPlace;
pub use links::Links;
pub use model::Model;
pub use only_row::{OnlyRow, PairRow};
pub use row::Row;
pub use shared::{SharedPoly, is_same};
