//! Expected costs before the goal (expected reachability rewards): what cost certificates (inductive upper bounds of
//! them) show of every scheduler, the least priced vector, and the right tree of a case for a budget, written while it
//! is walked over or built.
#![tactic(auto)]

mod building;
mod cost;
mod decider;
mod decision;
mod laws;
mod question;
mod room;
mod tree;

pub use building::{CostBranch, CostTree, build};
pub use cost::least_cost;
pub use laws::{
    cost_certificates_decide, cost_trees_are_one, cost_trees_exist, least_costs_are_one,
    least_costs_exist,
};
pub use question::{Budget, CostQuestion};
pub use room::CostRoom;
pub use tree::write_tree;
