//! Bounded steps (step-bounded reachability, by backward induction): certificates of what is reached within a number of
//! steps, the right tree for such a bound, and its text.
#![tactic(auto)]

mod decider;
mod decision;
mod laws;
mod room;
mod steps;
mod tree;
mod vectors;
mod writers;

pub use laws::{
    bounded_trees_are_one, bounded_trees_exist, certificates_by_steps_are_one,
    certificates_by_steps_decide, certificates_by_steps_exist, steps_make_certificates,
};
pub use room::BoundedRoom;
pub use tree::write_tree;
