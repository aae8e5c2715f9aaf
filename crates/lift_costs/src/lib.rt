//! What a visit of each state of a model costs (state rewards).
#![tactic(auto)]

mod cost;
mod costs;

pub use costs::Costs;
