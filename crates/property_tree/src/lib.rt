//! The tree of a region for a property that compares a probability with a bound (region verification of until): what is
//! reached at least, for every scheduler, or at most.
#![tactic(auto)]

mod building;
mod decider;
mod decision;
mod laws;
mod question;
mod sides;
mod tree;
mod vectors;
mod writers;

pub use building::{DualBranch, DualTree, build};
pub use laws::{leaves_are_one, property_trees_are_one, range_leaves_are_one, range_trees_are_one};
pub use question::Question;
pub use tree::write_tree;
