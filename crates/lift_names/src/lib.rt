//! Lists of distinct names.
#![tactic(auto)]

mod names;

pub use names::Names;
