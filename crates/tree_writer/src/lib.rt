//! The tree of a case (region refinement), whoever decides its rectangles: its nodes are written (in preorder), or the
//! tree is built.
#![tactic(auto)]

mod building;
mod decider;
mod grower;
mod writing;

pub use building::build_tree;
pub use decider::Decider;
pub use grower::Grower;
pub use writing::write_tree;
