//! Trees that go on where another one ends (region refinement, taken up again): what holds of the right trees of a case
//! over a finer grid that may be halved more often.
#![tactic(auto)]

mod laws;

pub use laws::{
    bases_are_gone_on_from, rectangles_stay, refined_trees_are_right, right_trees_stay,
};
